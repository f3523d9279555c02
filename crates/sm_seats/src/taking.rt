//! The seats that an assignment takes.

ghost use Rattle.std.specs.Prelude.{◌≡◌, ℕ, ◌+◌, ◌<◌, ◌≤◌, false, length, replicate, None, IfOk};
ghost use Rattle.sm_agents.specs.Written.{Written, lists_of};
ghost use Rattle.sm_agents.specs.Sound.{IsInstance};
ghost use Rattle.sm_instance.specs.Matching.{is_at as is_written_at, IsAssignment, IsMatching};
ghost use Rattle.sm_market.specs.Limits.{IsWithinLimits};
ghost use Rattle.sm_seats.specs.SeatMarket.{seats_before, seat_count, seats_of, seat_market};
ghost use Rattle.sm_seats.specs.Taken.{places_taken};
ghost use Rattle.sm_seats.specs.Taking.{AreSeatedAt};

use crate::written_lists::WrittenLists;
use sm_instance::{Assignment, held_place};
use sm_market::Market;
use std::alloc::{AllocError, Global};

/// The place that each proposer takes on its list of seats, where each reviewer's proposers sit in its order of preference,
/// from its first seat on. Takes time in proportion to the entries of the market.
///
/// # Errors
///
/// `AllocError` where memory ran out, and only then.
pub(crate) fn taken_places(
    alloc: Global,
    lists: &WrittenLists,
    market: &Market,
    seats: &[(u32, u32)],
    a: &Assignment,
) -> Result<Vec<Option<u32>>, AllocError>
    ghost written: { Written }
    requires instance { IsInstance written }
    requires lists { lists.now ≡ lists_of written.proposers }
    requires market { market.now ≡ seat_market written }
    requires seats { seats.now ≡ seats_of written }
    requires matching { IsMatching written a.now.places.items }
    ensures { IfOk result (λ places. places.items ≡ places_taken written a.now.places.items) }
{
    let mut places = vec![in alloc; None; market.proposers() as usize]?;
    seat_all(lists, market, seats, a, &mut places);
    Ok(places)
}

/// Seats the proposers at each reviewer, one reviewer after another.
fn seat_all(
    lists: &WrittenLists,
    market: &Market,
    seats: &[(u32, u32)],
    a: &Assignment,
    places: &mut [Option<u32>],
)
    ghost written: { Written }
    requires instance { IsInstance written }
    requires lists { lists.now ≡ lists_of written.proposers }
    requires market { market.now ≡ seat_market written }
    requires seats { seats.now ≡ seats_of written }
    requires matching { IsMatching written a.now.places.items }
    requires limits { IsWithinLimits market.now }
    requires none { places.old ≡ replicate (length market.now.proposers) None }
    ensures { places.new ≡ places_taken written a.now.places.items }
{
    for seat in 0..market.reviewers() {
        let (r, number) = seats[seat as usize];
        if number == 1 {
            seat_in_order(lists, market, seats, (seat, r), a, places);
        }
    }
}

/// Seats those at a reviewer in its order, from its first seat on, until all its seats are taken. The first seat is given with its
/// reviewer.
fn seat_in_order(
    lists: &WrittenLists,
    market: &Market,
    seats: &[(u32, u32)],
    first: (u32, u32),
    a: &Assignment,
    places: &mut [Option<u32>],
)
    ghost written: { Written }
    requires instance { IsInstance written }
    requires lists { lists.now ≡ lists_of written.proposers }
    requires market { market.now ≡ seat_market written }
    requires seats { seats.now ≡ seats_of written }
    requires limits { IsWithinLimits market.now }
    requires first { first.0 ≡ seats_before written first.1 }
    requires has_seat { 0 < seat_count written first.1 }
    requires matching { IsMatching written a.now.places.items }
    requires one_each { length places.old ≡ length written.proposers }
    ensures { AreSeatedAt written a.now.places.items first.1 places.old places.new }
{
    let (seat, r) = first;
    let mut before = 0;
    for place in 0..market.reviewer_len(seat) {
        let q = market.proposer_at(seat, place);
        if is_at(lists, a, q, r) {
            places[q as usize] = Some(market.reviewer_cross(seat, place) + before);
            before += 1;
            if !is_seat_of(seats, seat + before, r) {
                return;
            }
        }
    }
}

/// Is this a seat of a reviewer?
fn is_seat_of(seats: &[(u32, u32)], seat: u32, r: u32) -> bool
    ghost written: { Written }
    requires { seats.now ≡ seats_of written }
    ensures { result ≡ false → (k : ℕ) → seat ≡ seats_before written r + k → seat_count written r ≤ k }
{
    (seat as usize) < seats.len() && seats[seat as usize].0 == r
}

/// Is a proposer at a reviewer?
fn is_at(lists: &WrittenLists, a: &Assignment, q: u32, r: u32) -> bool
    ghost written: { Written }
    requires lists { lists.now ≡ lists_of written.proposers }
    requires assigned { IsAssignment written a.now.places.items }
    requires in_range { q < length written.proposers }
    ensures { result ≡ is_written_at written a.now.places.items q r }
{
    match held_place(a, q) {
        Some(place) => lists.entry_at(q, place) == r,
        None => false,
    }
}

//! The numbers of seats in the market of them.

ghost use Rattle.std.specs.Prelude.{◌≡◌, ◌<◌, length, true, IfOk};
ghost use Rattle.std.specs.List.{All, list_all};
ghost use Rattle.sm_seats.specs.SeatMarket.{seat_market};
ghost use Rattle.sm_seats.specs.Counted.{first_seats_of};
ghost use Rattle.sm_check_forms.specs.Seats.{is_seat, pair_has_seat, seat_number, seat_numbers, all_numbered};

use sm_instance::Instance;
use sm_report::Seat;
use sm_theory::Rotation;
use std::alloc::{AllocError, Global};

/// The number of a seat in the market, where `firsts` has the number of the first seat of each reviewer. Seats of a reviewer are
/// counted from 1, and those of the market from 0. Takes constant time.
pub fn seat_number(instance: &Instance, firsts: &[u32], seat: Seat) -> u32
    requires firsts { firsts.now ≡ first_seats_of instance.now }
    requires there { seat.reviewer < length instance.now.reviewers }
    requires seat { is_seat instance.now seat ≡ true }
    ensures number { result ≡ seat_number instance.now seat }
    ensures in_range { result < length (seat_market instance.now).reviewers }
{
    let _reviewers = instance.reviewer_count();
    firsts[seat.reviewer as usize] + (seat.number - 1)
}

/// A rotation by the numbers of its seats in the market, where `firsts` has the number of the first seat of each reviewer.
/// Proposers, reviewers and the seats of the market are counted from 0, and the seats of a reviewer from 1. Takes time and memory
/// in proportion to its pairs.
///
/// # Errors
///
/// `AllocError` where memory ran out, and only then.
pub fn rotation_of(
    alloc: Global,
    instance: &Instance,
    firsts: &[u32],
    pairs: &[(u32, Seat)],
) -> Result<Rotation, AllocError>
    requires firsts { firsts.now ≡ first_seats_of instance.now }
    requires there { All (λ pair. pair.1.reviewer < length instance.now.reviewers) pairs.now }
    requires seats { list_all (pair_has_seat instance.now) pairs.now ≡ true }
    ensures { IfOk result (λ rotation. rotation.pairs.items ≡ all_numbered instance.now pairs.now) }
{
    let mut numbered = Vec::with_capacity(alloc, pairs.len())?;
    for k in 0..pairs.len() {
        let (p, seat) = pairs[k];
        numbered.push((p, seat_number(instance, firsts, seat)))?;
    }
    Ok(Rotation { pairs: numbered })
}

/// The numbers of seats in the market, one after another, where `firsts` has the number of the first seat of each reviewer. Seats
/// of a reviewer are counted from 1, and those of the market from 0. Takes time and memory in proportion to them.
///
/// # Errors
///
/// `AllocError` where memory ran out, and only then.
pub fn seat_numbers(
    alloc: Global,
    instance: &Instance,
    firsts: &[u32],
    seats: &[Seat],
) -> Result<Vec<u32>, AllocError>
    requires firsts { firsts.now ≡ first_seats_of instance.now }
    requires there { All (λ seat. seat.reviewer < length instance.now.reviewers) seats.now }
    requires seats { list_all (is_seat instance.now) seats.now ≡ true }
    ensures { IfOk result (λ numbers. numbers.items ≡ seat_numbers instance.now seats.now) }
{
    let mut numbers = Vec::with_capacity(alloc, seats.len())?;
    for k in 0..seats.len() {
        numbers.push(seat_number(instance, firsts, seats[k]))?;
    }
    Ok(numbers)
}

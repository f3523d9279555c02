//! Seats of hospitals, and a matching that goes to them and back.

ghost use Rattle.std.specs.Prelude.{◌≡◌, ◌<◌, length};
ghost use Rattle.sm_agents.specs.Sound.{IsInstance};
ghost use Rattle.sm_instance.specs.Matching.{IsMatching};
ghost use Rattle.sm_seats.specs.Seating.{seating_of};

use crate::made::{MEMORY, copy, small_hospitals};
use sm_instance::{Assignment, Instance};
use sm_market::{Market, Pairing};
use sm_seats::Seats;
use std::process::Abort;

/// A resident has this list of seats.
fn lists_seats(rt: &impl Abort, market: &Market, p: u32, wanted: &[u32])
    requires { p < length market.now.proposers }
{
    assert!(rt; market.proposer_list(p) == wanted);
}

/// A seat has this list of residents.
fn lists_residents(rt: &impl Abort, market: &Market, seat: u32, wanted: &[u32])
    requires { seat < length market.now.reviewers }
{
    assert!(rt; market.reviewer_list(seat) == wanted);
}

/// Who has which lists.
fn have_lists(rt: &impl Abort, market: &Market)
    requires proposers { length market.now.proposers ≡ 3 }
    requires reviewers { length market.now.reviewers ≡ 3 }
{
    lists_seats(rt, market, 0, &[2, 0, 1]);
    lists_seats(rt, market, 1, &[0, 1]);
    lists_seats(rt, market, 2, &[0, 1]);
    lists_residents(rt, market, 1, &[2, 0, 1]);
    lists_residents(rt, market, 2, &[0]);
}

/// Hospital h has the seats 0 and 1, k has seat 2, and z, which has no place, has none.
fn have_seats(rt: &impl Abort, seats: &Seats)
    requires { length seats.now.seats ≡ 3 }
{
    assert!(rt; seats.seat(0) == (0, 1));
    assert!(rt; seats.seat(1) == (0, 2));
    assert!(rt; seats.seat(2) == (1, 1));
}

/// Who has which levels.
fn are_levels(rt: &impl Abort, levels: &[Vec<u32>]) {
    assert!(rt; levels.len() == 3);
    assert!(rt; levels[0].as_slice() == [1, 2, 2, 3].as_slice());
    assert!(rt; levels[1].as_slice() == [2, 2, 3].as_slice());
    assert!(rt; levels[2].as_slice() == [1, 1, 3].as_slice());
}

/// The level of a seat, and all levels.
fn have_levels(rt: &(impl Abort + AllocGlobal), seats: &Seats)
    requires { length seats.now.market.proposers ≡ 3 }
{
    assert!(rt; seats.market().proposer_len(0) == 3);
    assert!(rt; seats.level(0, 2) == 2);
    let levels = seats.levels(rt.alloc()).expect(rt, MEMORY);
    are_levels(rt, &levels);
}

/// Who has which lists, seats and levels.
fn have_lists_seats_and_levels(rt: &(impl Abort + AllocGlobal), seats: &Seats)
    requires { length seats.now.market.reviewers ≡ length seats.now.seats }
{
    let market = seats.market();
    assert!(rt; market.proposers() == 3);
    assert!(rt; market.reviewers() == 3);
    have_lists(rt, market);
    have_seats(rt, seats);
    have_levels(rt, seats);
}

/// A pairing has these places.
fn has_places(rt: &impl Abort, pairing: &Pairing, places: [Option<u32>; 3])
    requires { length pairing.now.places.proposers ≡ 3 }
{
    assert!(rt; pairing.place(0) == places[0]);
    assert!(rt; pairing.place(1) == places[1]);
    assert!(rt; pairing.place(2) == places[2]);
}

/// A matching of an instance takes these places on the lists of its seats, and is found again.
fn takes_seats(
    rt: &(impl Abort + AllocGlobal),
    instance: &Instance,
    seats: &Seats,
    a: &Assignment,
    places: [Option<u32>; 3],
)
    requires seats { seats.now ≡ seating_of instance.now }
    requires matching { IsMatching instance.now a.now.places.items }
{
    assert!(rt; instance.proposer_count() == 3);
    let pairing = seats.to_seats(rt.alloc(), a).expect(rt, MEMORY);
    assert!(rt; seats.market().proposers() == 3);
    has_places(rt, &pairing, places);
    let back = seats.to_hospitals(rt.alloc(), &pairing).expect(rt, MEMORY);
    assert!(rt; back.places.as_slice() == a.places.as_slice());
}

#[test]
fn small_hospitals_have_seats(rt: HostRuntime) {
    let instance = small_hospitals(&rt);
    let seats = Seats::of(rt.alloc(), &instance).expect(&rt, "seats");
    have_lists_seats_and_levels(&rt, &seats);
}

/// A matching of the small hospitals goes to their seats and back.
fn goes_to_seats(rt: &(impl Abort + AllocGlobal), instance: &Instance, seats: &Seats)
    requires instance { IsInstance instance.now }
    requires seats { seats.now ≡ seating_of instance.now }
{
    let a = Assignment {
        places: copy(rt, &[Some(0), Some(1), Some(0)]),
    };
    assert!(rt; instance.is_assignment(&a));
    match instance.breach(&a) {
        None => takes_seats(rt, instance, seats, &a, [Some(0), Some(1), Some(0)]),
        Some(_) => assert!(rt; false),
    }
}

#[test]
fn a_matching_takes_seats(rt: HostRuntime) {
    let instance = small_hospitals(&rt);
    let seats = Seats::of(rt.alloc(), &instance).expect(&rt, "seats");
    goes_to_seats(&rt, &instance, &seats);
}

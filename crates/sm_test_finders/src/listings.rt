//! Searches, listers and listings of three proposers who go round in a cycle: all have their first choices, or their second
//! ones, or their last ones.

ghost use Rattle.std.specs.Prelude.{◌≡◌, [], length, MatchOption};
ghost use Rattle.sm_theory.specs.Vectors.{AreLevels};
ghost use Rattle.sm_seats.specs.Seating.{levels_of};

use crate::made::{MEMORY, agent, copy, marriage, three};
use sm_answer_list::start_list;
use sm_answer_rotations::find_poset;
use sm_instance::{Agent, Instance};
use sm_lattice::stable_levels;
use sm_least::Least;
use sm_lister::{Lister, Listing};
use sm_poset::Conditions;
use sm_seats::Seats;
use std::alloc::AllocError;
use std::process::Abort;

/// The proposers of the cycle.
fn proposers(rt: &(impl Abort + AllocGlobal)) -> Vec<Agent> {
    three(
        rt,
        agent(rt, b'a', 1, &[0, 1, 2]),
        agent(rt, b'b', 1, &[1, 2, 0]),
        agent(rt, b'c', 1, &[2, 0, 1]),
    )
}

/// The reviewers of the cycle.
fn reviewers(rt: &(impl Abort + AllocGlobal)) -> Vec<Agent> {
    three(
        rt,
        agent(rt, b'x', 1, &[1, 2, 0]),
        agent(rt, b'y', 1, &[2, 0, 1]),
        agent(rt, b'z', 1, &[0, 1, 2]),
    )
}

/// Each proposer's first choice likes it least.
fn three_cycle(rt: &(impl Abort + AllocGlobal)) -> Instance {
    marriage(rt, proposers(rt), reviewers(rt))
}

/// The seats of the cycle.
fn seats_of_cycle(rt: &(impl Abort + AllocGlobal)) -> Seats
    ensures { AreLevels result.market (levels_of result) }
{
    let instance = three_cycle(rt);
    Seats::of(rt.alloc(), &instance).expect(rt, "seats")
}

/// A lister of the cycle.
fn lister(rt: &(impl Abort + AllocGlobal), after: &Option<Vec<u32>>) -> Lister
    requires { MatchOption after.now (Unit {0}) (λ v. length v.items ≡ 3) }
{
    let instance = three_cycle(rt);
    assert!(rt; instance.proposer_count() == 3);
    let seats = Seats::of(rt.alloc(), &instance).expect(rt, "seats");
    start_list(rt.alloc(), &instance, &seats, after).expect(rt, MEMORY)
}

/// Makes sure of the next vector, and of the rotations that lead to it.
fn comes_to(rt: &impl Abort, lister: &mut Lister, vector: &[u32], members: &[bool]) {
    let found = lister.advance();
    assert!(rt; found);
    assert!(rt; lister.current() == vector);
    assert!(rt; lister.set().members.as_slice() == members);
}

/// Makes sure of the cursor.
fn stands_at(rt: &(impl Abort + AllocGlobal), lister: &Lister, vector: Option<&[u32]>) {
    let cursor = lister.cursor(rt.alloc()).expect(rt, MEMORY);
    assert!(rt; cursor.as_deref() == vector);
}

/// Makes sure of the second choices, from the first ones.
fn comes_to_second_choices(rt: &(impl Abort + AllocGlobal), lister: &mut Lister) {
    comes_to(rt, lister, &[2, 2, 2], &[true, false]);
    stands_at(rt, lister, Some(&[2, 2, 2]));
}

#[test]
fn a_lister_and_its_cursor(rt: HostRuntime) {
    let mut lister = lister(&rt, &None);
    stands_at(&rt, &lister, None);
    comes_to(&rt, &mut lister, &[1, 1, 1], &[false, false]);
    comes_to_second_choices(&rt, &mut lister);
}

/// A lister behind the second choices.
fn lister_behind(rt: &(impl Abort + AllocGlobal)) -> Lister {
    let lister = lister(rt, &Some(copy(rt, &[2, 2, 2])));
    stands_at(rt, &lister, Some(&[2, 2, 2]));
    lister
}

/// Makes sure that nothing comes behind the last choices, and that the cursor stays at them.
fn stays_at_last_choices(rt: &(impl Abort + AllocGlobal), lister: &mut Lister) {
    assert!(rt; !lister.advance());
    assert!(rt; !lister.advance());
    stands_at(rt, lister, Some(&[3, 3, 3]));
}

#[test]
fn a_lister_behind_a_vector(rt: HostRuntime) {
    let mut lister = lister_behind(&rt);
    comes_to(&rt, &mut lister, &[3, 3, 3], &[true, true]);
    stays_at_last_choices(&rt, &mut lister);
}

/// Whether an item is this vector.
fn is_vector(item: &Option<Result<Vec<u32>, AllocError>>, vector: &[u32]) -> bool {
    match item {
        Some(Ok(found)) => found.as_slice() == vector,
        Some(Err(_)) | None => false,
    }
}

/// Makes sure of the next item.
fn gives(rt: &impl Abort, listing: &mut Listing, vector: &[u32]) {
    assert!(rt; is_vector(&listing.next(), vector));
}

/// Makes sure that no item is left.
fn gives_none(rt: &impl Abort, listing: &mut Listing) {
    assert!(rt; listing.next().is_none());
}

#[test]
fn a_listing_up_to_its_limit(rt: HostRuntime) {
    let mut listing = Listing::new(lister(&rt, &None), 2);
    gives(&rt, &mut listing, &[1, 1, 1]);
    gives(&rt, &mut listing, &[2, 2, 2]);
    gives_none(&rt, &mut listing);
    gives_none(&rt, &mut listing);
}

/// Conditions without any pair.
fn no_conditions(rt: &(impl Abort + AllocGlobal)) -> Conditions
    ensures forced { result.forced.items ≡ [] }
    ensures forbidden { result.forbidden.items ≡ [] }
{
    Conditions {
        forced: copy(rt, &[]),
        forbidden: copy(rt, &[]),
    }
}

/// Makes sure of the levels of what is held.
fn holds(rt: &impl Abort, least: &Least, vector: [u32; 3])
    requires { length least.now.poset.lists.proposers ≡ 3 }
{
    let mut levels = [0; 3];
    least.levels_of(least.held(), &mut levels);
    assert!(rt; levels == vector);
}

/// Makes sure of the best vector within bounds, if there is one.
fn finds(
    rt: &(impl Abort + AllocGlobal),
    least: &mut Least,
    low: &[u32; 3],
    high: &[u32; 3],
    wanted: Option<[u32; 3]>,
)
    requires { length least.old.poset.lists.proposers ≡ 3 }
    ensures { length least.new.poset.lists.proposers ≡ 3 }
{
    let conditions = no_conditions(rt);
    let found = least.least(low, high, &conditions);
    assert!(rt; found == wanted.is_some());
    if let Some(vector) = wanted {
        holds(rt, least, vector);
    }
}

/// A search over the cycle.
fn search(rt: &(impl Abort + AllocGlobal), seats: &Seats) -> Least
    requires { AreLevels seats.now.market (levels_of seats.now) }
    ensures { length result.poset.lists.proposers ≡ 3 }
{
    let poset = find_poset(rt.alloc(), seats).expect(rt, MEMORY);
    let levels = seats.levels(rt.alloc()).expect(rt, MEMORY);
    assert!(rt; poset.market().proposers() == 3);
    Least::start(rt.alloc(), &poset, levels).expect(rt, MEMORY)
}

#[test]
fn a_search_within_bounds(rt: HostRuntime) {
    let mut least = search(&rt, &seats_of_cycle(&rt));
    assert!(rt; least.levels().len() == 3);
    finds(&rt, &mut least, &[1, 1, 1], &[3, 3, 3], Some([1, 1, 1]));
    finds(&rt, &mut least, &[1, 2, 1], &[3, 3, 3], Some([2, 2, 2]));
    finds(&rt, &mut least, &[1, 2, 1], &[1, 3, 3], None);
}

/// The levels at which the proposers of the cycle are in stable pairings.
fn levels_of_cycle(rt: &(impl Abort + AllocGlobal), seats: &Seats) -> Vec<Vec<u32>>
    requires { AreLevels seats.now.market (levels_of seats.now) }
{
    let poset = find_poset(rt.alloc(), seats).expect(rt, MEMORY);
    let levels = seats.levels(rt.alloc()).expect(rt, MEMORY);
    assert!(rt; poset.market().proposers() == 3);
    stable_levels(rt.alloc(), &poset, &levels).expect(rt, MEMORY)
}

#[test]
fn levels_in_stable_pairings(rt: HostRuntime) {
    let stable = levels_of_cycle(&rt, &seats_of_cycle(&rt));
    for row in &stable {
        assert!(rt; row.as_slice() == [1, 2, 3].as_slice());
    }
}

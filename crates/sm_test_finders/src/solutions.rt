//! The best stable matchings of both sides.

use crate::made::{MEMORY, agent, marriage, small_hospitals, two};
use sm_answer_solve::find_solution;
use sm_instance::{Instance, Side};
use sm_seats::seat_counts;
use std::process::Abort;

/// Each proposer likes best the reviewer that likes it least.
fn opposed(rt: &(impl Abort + AllocGlobal)) -> Instance {
    marriage(
        rt,
        two(rt, agent(rt, b'a', 1, &[0, 1]), agent(rt, b'b', 1, &[1, 0])),
        two(rt, agent(rt, b'c', 1, &[1, 0]), agent(rt, b'd', 1, &[0, 1])),
    )
}

/// The best stable matching of a side has these places.
fn has_best(
    rt: &(impl Abort + AllocGlobal),
    instance: &Instance,
    side: Option<Side>,
    places: &[Option<u32>],
) {
    let counts = seat_counts(rt.alloc(), instance).expect(rt, "seats");
    let solution = find_solution(rt.alloc(), instance, &counts, side).expect(rt, MEMORY);
    assert!(rt; solution.side == side.unwrap_or(Side::Proposers));
    assert!(rt; solution.best.places.as_slice() == places);
}

/// The small hospitals have one stable matching.
fn both_have_one(rt: &(impl Abort + AllocGlobal)) {
    let hospitals = small_hospitals(rt);
    let places = [Some(0), Some(1), Some(0)];
    has_best(rt, &hospitals, None, &places);
    has_best(rt, &hospitals, Some(Side::Reviewers), &places);
}

/// Each opposed side has its first choices.
fn each_has_its_own(rt: &(impl Abort + AllocGlobal)) {
    let marriage = opposed(rt);
    has_best(rt, &marriage, Some(Side::Proposers), &[Some(0), Some(0)]);
    has_best(rt, &marriage, Some(Side::Reviewers), &[Some(1), Some(1)]);
}

#[test]
fn both_sides_have_their_best(rt: HostRuntime) {
    both_have_one(&rt);
    each_has_its_own(&rt);
}

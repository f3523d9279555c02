//! Meet and join of pairings that were made by hand, a median, and routes.

use crate::tests::{passed_seat, poset, set};
use crate::texts::{MEMORY, holds, market, pairing};
use sm_lattice::{
    LatticeFault, count_members, count_number, join, median_of, meet, number_at_place, route,
};
use sm_market::Market;
use sm_poset::Poset;
use sm_theory::Step;
use std::process::Abort;

/// Twice two proposers with opposed lists.
fn two_pairs(rt: &(impl Abort + AllocGlobal)) -> Market {
    market(rt, "01/10/23/32", "10/01/32/23")
}

/// Makes sure which pair blocks which of two pairings.
fn refuses(
    rt: &(impl Abort + AllocGlobal),
    market: &Market,
    first: &str,
    second: &str,
    fault: LatticeFault,
) {
    let first = pairing(rt, market, first);
    let second = pairing(rt, market, second);
    match join(rt.alloc(), market, &first, &second) {
        Ok(_) => assert!(rt; false, "both are stable"),
        Err(found) => assert!(rt; found == fault),
    }
}

#[test]
fn the_meet_of_two_in_the_middle(rt: HostRuntime) {
    let market = two_pairs(&rt);
    let first = pairing(&rt, &market, "0011");
    let second = pairing(&rt, &market, "1100");
    let both = meet(rt.alloc(), &market, &first, &second).expect(&rt, "a meet");
    holds(&rt, &market, &both, "0000");
}

#[test]
fn the_join_of_two_in_the_middle(rt: HostRuntime) {
    let market = two_pairs(&rt);
    let first = pairing(&rt, &market, "0011");
    let second = pairing(&rt, &market, "1100");
    let both = join(rt.alloc(), &market, &first, &second).expect(&rt, "a join");
    holds(&rt, &market, &both, "1111");
}

#[test]
fn a_pairing_that_is_blocked(rt: HostRuntime) {
    let market = two_pairs(&rt);
    refuses(
        &rt,
        &market,
        "00--",
        "----",
        LatticeFault::NotStable(true, 2, 0),
    );
    refuses(
        &rt,
        &market,
        "0000",
        "00--",
        LatticeFault::NotStable(false, 2, 0),
    );
}

/// Makes sure of the set whose pairing stands in the middle, where so many of `total` sets have each rotation, or that there is none.
fn has_median(
    rt: &(impl Abort + AllocGlobal),
    poset: &Poset,
    holds: &[u32; 2],
    total: u32,
    wanted: Option<&[bool]>,
) {
    assert!(rt; poset.chain().rotations.len() == 2);
    let found = median_of(rt.alloc(), poset, holds, total).expect(rt, MEMORY);
    match (found, wanted) {
        (Some(set), Some(wanted)) => assert!(rt; set.members.as_slice() == wanted),
        (None, None) => {}
        _ => assert!(rt; false, "another median"),
    }
}

/// Makes sure of the steps from one closed set to another.
fn leads(rt: &(impl Abort + AllocGlobal), poset: &Poset, left: &str, right: &str, wanted: &[Step]) {
    let left = set(rt, left);
    let right = set(rt, right);
    assert!(rt; left.members.len() == poset.chain().rotations.len());
    assert!(rt; right.members.len() == poset.chain().rotations.len());
    assert!(rt; poset.is_closed(&left));
    assert!(rt; poset.is_closed(&right));
    let steps = route(rt.alloc(), poset, &left, &right).expect(rt, MEMORY);
    assert!(rt; steps.as_slice() == wanted);
}

#[test]
fn a_median_and_a_route(rt: HostRuntime) {
    let poset = poset(&rt, &two_pairs(&rt));
    let mut holds = [1, 1];
    count_members(&mut holds, &[true, false]);
    assert!(rt; holds == [2, 1]);
    has_median(&rt, &poset, &holds, 3, Some(&[true, false]));
    leads(&rt, &poset, "10", "01", &[Step::Back(0), Step::Forth(1)]);
    leads(&rt, &poset, "11", "11", &[]);
}

#[test]
fn no_median_without_a_predecessor(rt: HostRuntime) {
    has_median(&rt, &poset(&rt, &passed_seat(&rt)), &[0, 1], 1, None);
}

#[test]
fn the_middle_of_four(rt: HostRuntime) {
    let mut counts = [0, 2, 1, 0];
    count_number(&mut counts, 3);
    assert!(rt; number_at_place(&counts, 2) == 1);
    assert!(rt; number_at_place(&counts, 3) == 2);
    assert!(rt; number_at_place(&counts, 4) == 3);
}

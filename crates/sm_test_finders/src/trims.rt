//! An instance that is trimmed, by hand.

use crate::made::{MEMORY, small_hospitals};
use sm_instance::{Agent, Instance};
use sm_text::TextHash;
use sm_trim::trimmed;
use std::process::Abort;

/// Makes sure of a list.
fn has_list(rt: &impl Abort, agents: &[Agent], a: usize, wanted: &[u32]) {
    assert!(rt; a < agents.len());
    assert!(rt; agents[a].entries.as_slice() == wanted);
}

/// Hospital z has no place, so its list ends at once, and b then comes to h first. The lists of a and c end behind k and h, at
/// which nobody is dearer. b and c both come to h, which has two places, and its list ends behind them, where it ended.
fn have_lists(rt: &impl Abort, t: &Instance) {
    has_list(rt, t.proposers(), 0, &[1]);
    has_list(rt, t.proposers(), 1, &[2, 0]);
    has_list(rt, t.proposers(), 2, &[0]);
    has_list(rt, t.reviewers(), 0, &[2, 0, 1]);
    has_list(rt, t.reviewers(), 1, &[0]);
    has_list(rt, t.reviewers(), 2, &[]);
}

#[test]
fn small_hospitals_are_trimmed(rt: HostRuntime) {
    let instance = small_hospitals(&rt);
    let t = trimmed(rt.alloc(), TextHash::of(b"text"), &instance).expect(&rt, MEMORY);
    have_lists(&rt, &t);
}

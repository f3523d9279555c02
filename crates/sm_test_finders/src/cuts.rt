//! Least cuts that are weighed once more, in nets that were worked out by hand.

ghost use Rattle.std.specs.Prelude.{◌≡◌, ◌+◌, ◌≤◌, ◌^◌, unsigned_abs};

use crate::made::MEMORY;
use sm_weight::{Edge, TwoCuts, least_cuts};
use std::process::Abort;

/// An edge of a net.
fn edge(from: u32, to: u32, room: Option<u64>) -> Edge
    ensures { result ≡ record { from = from; to = to; room = room } }
{
    Edge { from, to, room }
}

/// Makes sure of the values of both flows, of the members and of the lines of the second flow, with these second gains. The net is
/// that of two rotations of three proposers who go round in a cycle, with gains 4 and -4: 4 may flow from the source to the second
/// rotation and from the first one to the sink, and the second one needs the first.
fn weighs(
    rt: &(impl Abort + AllocGlobal),
    gains: (i64, i64),
    second_value: u64,
    members: &[bool],
    lines: usize,
)
    requires { unsigned_abs gains.0 + unsigned_abs gains.1 ≤ 2 ^ 55 }
{
    let edges = [edge(0, 2, Some(4)), edge(1, 3, Some(4)), edge(2, 1, None)];
    let found = least_cuts(rt.alloc(), 2, &edges, &[gains.0, gains.1])
        .expect(rt, MEMORY)
        .expect(rt, "a bounded path");
    assert_eq!(rt; found.value, 4);
    assert_eq!(rt; found.second_value, second_value);
    assert!(rt; found.members.as_slice() == members);
    assert_eq!(rt; found.second_lines.len(), lines);
}

#[test]
fn second_gains(rt: HostRuntime) {
    weighs(&rt, (1, -3), 1, &[true, true], 3);
    weighs(&rt, (1, 1), 0, &[false, false], 0);
    weighs(&rt, (0, 0), 0, &[false, false], 0);
}

#[test]
fn path_without_a_bound(rt: HostRuntime) {
    let edges = [edge(0, 1, None), edge(1, 2, None)];
    let found = least_cuts(rt.alloc(), 1, &edges, &[5]).expect(&rt, MEMORY);
    assert!(rt; found.is_none());
}

//! What several files make: copies, agents of one letter, sides of them, and small hospitals.

ghost use Rattle.std.specs.Prelude.{◌≡◌};

use sm_instance::{Agent, Instance, Kind};
use std::process::Abort;

pub const MEMORY: &str = "memory";

/// A copy of a list.
pub fn copy<T: Copy>(rt: &(impl Abort + AllocGlobal), list: &[T]) -> Vec<T>
    ensures { result.items ≡ list.now }
{
    Vec::from_slice(rt.alloc(), list).expect(rt, MEMORY)
}

/// An agent of one letter, with a capacity and a list.
pub fn agent(rt: &(impl Abort + AllocGlobal), letter: u8, capacity: u32, list: &[u32]) -> Agent {
    Agent {
        name: copy(rt, &[letter]),
        capacity,
        line: 0,
        entries: copy(rt, list),
    }
}

/// A side of one agent.
pub fn one(rt: &(impl Abort + AllocGlobal), agent: Agent) -> Vec<Agent> {
    let mut side = Vec::new(rt.alloc());
    side.push(agent).expect(rt, MEMORY);
    side
}

/// A side of two agents.
pub fn two(rt: &(impl Abort + AllocGlobal), first: Agent, second: Agent) -> Vec<Agent> {
    let mut side = one(rt, first);
    side.push(second).expect(rt, MEMORY);
    side
}

/// A side of three agents.
pub fn three(
    rt: &(impl Abort + AllocGlobal),
    first: Agent,
    second: Agent,
    third: Agent,
) -> Vec<Agent> {
    let mut side = two(rt, first, second);
    side.push(third).expect(rt, MEMORY);
    side
}

/// A marriage of these sides, without weights and conditions.
pub fn marriage(
    rt: &(impl Abort + AllocGlobal),
    proposers: Vec<Agent>,
    reviewers: Vec<Agent>,
) -> Instance {
    Instance::build(
        rt.alloc(),
        Kind::Marriage,
        proposers,
        reviewers,
        copy(rt, &[]),
        copy(rt, &[]),
        copy(rt, &[]),
    )
    .expect(rt, "an instance")
}

/// The residents a: k h, b: z h and c: h k.
fn residents(rt: &(impl Abort + AllocGlobal)) -> Vec<Agent> {
    three(
        rt,
        agent(rt, b'a', 1, &[1, 0]),
        agent(rt, b'b', 1, &[2, 0]),
        agent(rt, b'c', 1, &[0, 1]),
    )
}

/// The hospitals h with two places, k with one and z with none.
fn hospitals(rt: &(impl Abort + AllocGlobal)) -> Vec<Agent> {
    three(
        rt,
        agent(rt, b'h', 2, &[2, 0, 1]),
        agent(rt, b'k', 1, &[0]),
        agent(rt, b'z', 0, &[1]),
    )
}

/// Three residents and three hospitals, with two weights, a forced pair and a forbidden one; c doesn't stand on k's list.
pub fn small_hospitals(rt: &(impl Abort + AllocGlobal)) -> Instance {
    Instance::build(
        rt.alloc(),
        Kind::Hospitals,
        residents(rt),
        hospitals(rt),
        copy(rt, &[(0, 0, 4), (2, 0, -10)]),
        copy(rt, &[(0, 0)]),
        copy(rt, &[(1, 0)]),
    )
    .expect(rt, "an instance")
}

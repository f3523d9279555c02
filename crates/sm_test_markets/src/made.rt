//! Two bodies against each other on made markets: the chain, and one rotation after another by the plain definition.

ghost use Rattle.std.specs.Prelude.{◌≡◌, ◌<◌, length};
ghost use Rattle.sm_market.specs.Vectors.{rows_of};
ghost use Rattle.sm_market.specs.Limits.{AreWithinLimits};

use crate::texts::MEMORY;
use sm_accept::proposer_best;
use sm_market::{Market, Side};
use sm_rotations::{chain, eliminate, exposed};
use sm_theory::Rotation;
use std::process::Abort;

/// Whether two agents of the made market of a seed list each other. One proposer lists a single reviewer at most, and
/// reviewers 0 and 5 and proposer 3 list nobody.
fn list_each_other(seed: u32, p: u32, r: u32) -> bool {
    r.wrapping_mul(p.wrapping_add(2)) % 5 != 0 && (p != seed % 7 || r == seed % 7)
}

/// The list of an agent in the made market of a seed. Both sides go round in the same steps, proposers upward from their
/// own number and reviewers from the next one, so that what one side likes best the other likes least.
fn made_list(rt: &(impl Abort + AllocGlobal), seed: u32, side: Side, a: u32) -> Vec<u32>
    ensures { length result.items < 8 }
{
    let step = 1 + seed % 6;
    let mut list = Vec::new(rt.alloc());
    for k in 0..7 {
        let (p, r) = match side {
            Side::Proposers => (a, a.wrapping_add(step.wrapping_mul(k)) % 7),
            Side::Reviewers => (a.wrapping_add(step.wrapping_mul(k + 1)) % 7, a),
        };
        if list_each_other(seed, p, r) {
            list.push(if side == Side::Proposers { r } else { p })
                .expect(rt, MEMORY);
        }
    }
    list
}

/// The lists of a side in the made market of a seed.
fn made_lists(rt: &(impl Abort + AllocGlobal), seed: u32, side: Side) -> Vec<Vec<u32>>
    ensures { AreWithinLimits (rows_of result.items) }
{
    let mut lists = Vec::new(rt.alloc());
    for a in 0..7 {
        lists.push(made_list(rt, seed, side, a)).expect(rt, MEMORY);
    }
    lists
}

/// The made market of a seed, of seven proposers and seven reviewers.
fn made(rt: &(impl Abort + AllocGlobal), seed: u32) -> Market {
    let proposers = made_lists(rt, seed, Side::Proposers);
    let reviewers = made_lists(rt, seed, Side::Reviewers);
    Market::build(rt.alloc(), proposers, reviewers).expect(rt, "a market")
}

/// The rotations of a market, by the walk with one stack.
fn by_the_chain(rt: &(impl Abort + AllocGlobal), market: &Market) -> Vec<Rotation> {
    let best = proposer_best(rt.alloc(), market).expect(rt, MEMORY);
    chain(rt.alloc(), market, &best)
        .expect(rt, MEMORY)
        .rotations
}

/// The first eight rotations of a market, each found by the plain definition.
fn step_by_step(rt: &(impl Abort + AllocGlobal), market: &Market) -> Vec<Rotation> {
    let mut rotations = Vec::new(rt.alloc());
    let mut m = proposer_best(rt.alloc(), market).expect(rt, MEMORY);
    'turns: for _ in 0..8 {
        let Some(rotation) = exposed(rt.alloc(), market, &m).expect(rt, MEMORY) else {
            break;
        };
        eliminate(market, &mut m, &rotation);
        rotations.push(rotation).expect(rt, MEMORY);
    }
    rotations
}

/// Whether the rotations have the same pairs.
fn are_same(rotations: &[Rotation], others: &[Rotation]) -> bool {
    if rotations.len() != others.len() {
        return false;
    }
    for i in 0..rotations.len() {
        if rotations[i].pairs.as_slice() != others[i].pairs.as_slice() {
            return false;
        }
    }
    true
}

/// Makes sure that the made markets, by their seeds, have so many rotations, the same both ways.
fn have_rotations(rt: &(impl Abort + AllocGlobal), counts: &[u32]) {
    let mut seed = 0;
    for count in counts {
        let market = made(rt, seed);
        let rotations = by_the_chain(rt, &market);
        assert!(rt; rotations.len() == *count as usize, "{seed}");
        assert!(rt; are_same(&rotations, &step_by_step(rt, &market)), "{seed}");
        seed = seed.wrapping_add(1);
    }
}

/// The counts are those of an independent program.
#[test]
fn the_chain_is_what_one_step_after_another_finds(rt: HostRuntime) {
    have_rotations(&rt, &[3, 2, 3, 0, 3, 3, 3, 3, 4, 3, 0, 3]);
}

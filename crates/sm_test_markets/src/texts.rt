//! Lists, places and rotations that are written as texts, one digit for each agent and a stroke between two lists.

ghost use Rattle.std.specs.Prelude.{◌≡◌, ◌<◌, length, IfOk};
ghost use Rattle.sm_market.specs.Vectors.{rows_of};
ghost use Rattle.sm_market.specs.Limits.{AreWithinLimits};
ghost use Rattle.sm_market.specs.Pairing.{IsPairingOf};

use sm_market::{Market, MarketFault, Pairing};
use sm_theory::Rotation;
use std::process::Abort;

pub const MEMORY: &str = "memory";

/// The agents of one list.
pub fn list(rt: &(impl Abort + AllocGlobal), text: &str) -> Vec<u32>
    ensures { length result.items < 100 }
{
    let mut list = Vec::new(rt.alloc());
    for byte in text.as_bytes() {
        assert!(rt; list.len() < 99);
        list.push(u32::from(*byte).wrapping_sub(48))
            .expect(rt, MEMORY);
    }
    list
}

/// The lists of one side.
pub fn lists(rt: &(impl Abort + AllocGlobal), text: &str) -> Vec<Vec<u32>>
    ensures { AreWithinLimits (rows_of result.items) }
{
    let mut lists = Vec::new(rt.alloc());
    for part in text.split('/') {
        assert!(rt; lists.len() < 99);
        lists.push(list(rt, part)).expect(rt, MEMORY);
    }
    lists
}

/// Makes a market, or tells why there is none.
pub fn build(
    rt: &(impl Abort + AllocGlobal),
    proposers: &str,
    reviewers: &str,
) -> Result<Market, MarketFault> {
    Market::build(rt.alloc(), lists(rt, proposers), lists(rt, reviewers))
}

/// The market of these lists.
pub fn market(rt: &(impl Abort + AllocGlobal), proposers: &str, reviewers: &str) -> Market {
    build(rt, proposers, reviewers).expect(rt, "a market")
}

/// Places, with `-` for who is unmatched.
pub fn places(rt: &(impl Abort + AllocGlobal), text: &str) -> Vec<Option<u32>> {
    let mut places = Vec::new(rt.alloc());
    for byte in text.as_bytes() {
        let place = u32::from(*byte).wrapping_sub(48);
        places
            .push((place < 10).then_some(place))
            .expect(rt, MEMORY);
    }
    places
}

/// The pairing in which the proposers hold these places.
pub fn pairing(rt: &(impl Abort + AllocGlobal), market: &Market, text: &str) -> Pairing
    ensures { IsPairingOf market.now result }
{
    Pairing::of(rt.alloc(), market, &places(rt, text)).expect(rt, "a pairing")
}

/// Makes sure that the proposers hold these places.
pub fn holds(rt: &(impl Abort + AllocGlobal), market: &Market, m: &Pairing, text: &str)
    requires { IsPairingOf market.now m.now }
{
    let wanted = places(rt, text);
    assert_eq!(rt; market.proposers() as usize, wanted.len(), "{text}");
    for p in 0..market.proposers() {
        assert_eq!(rt; m.place(p), wanted[p as usize], "{text}");
    }
}

/// Makes sure that lists are these.
pub fn lists_are(rt: &(impl Abort + AllocGlobal), rows: &[Vec<u32>], text: &str) {
    let wanted = lists(rt, text);
    assert_eq!(rt; rows.len(), wanted.len(), "{text}");
    for i in 0..rows.len() {
        assert!(rt; i < wanted.len());
        assert!(rt; rows[i].as_slice() == wanted[i].as_slice(), "{text}");
    }
}

/// The rotation of these pairs, each a proposer and a reviewer.
pub fn rotation(rt: &(impl Abort + AllocGlobal), text: &str) -> Rotation {
    let mut pairs = Vec::new(rt.alloc());
    let mut p = None;
    for agent in list(rt, text).as_slice() {
        match p {
            Some(proposer) => {
                pairs.push((proposer, *agent)).expect(rt, MEMORY);
                p = None;
            }
            None => p = Some(*agent),
        }
    }
    Rotation { pairs }
}

/// Each pair's proposer and reviewer, in one list for each rotation.
fn pairs_of(rt: &(impl Abort + AllocGlobal), rotations: &[Rotation]) -> Vec<Vec<u32>> {
    let mut lists = Vec::new(rt.alloc());
    for rotation in rotations {
        let mut list = Vec::new(rt.alloc());
        for (p, r) in rotation.pairs.as_slice() {
            list.push(*p).expect(rt, MEMORY);
            list.push(*r).expect(rt, MEMORY);
        }
        lists.push(list).expect(rt, MEMORY);
    }
    lists
}

/// Makes sure that rotations have these pairs, each a proposer and a reviewer.
pub fn rotations_are(rt: &(impl Abort + AllocGlobal), rotations: &[Rotation], text: &str) {
    lists_are(rt, &pairs_of(rt, rotations), text);
}

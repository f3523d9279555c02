//! Each call once with memory, each fault once, and the poset of a market that was worked out by hand.

ghost use Rattle.std.specs.Prelude.{◌≡◌, IfOk, length};
ghost use Rattle.sm_market.specs.Pairing.{IsPairingOf};
ghost use Rattle.sm_market.specs.Stable.{IsProposersBest};
ghost use Rattle.sm_accept.specs.Linking.{IsLinkedOf};

use crate::texts::{
    MEMORY, build, holds, lists_are, market, pairing, places, rotation, rotations_are,
};
use sm_accept::{Linked, proposer_best, reduced_between, reduced_lists, reviewer_best};
use sm_market::{Market, MarketFault, Pairing, PairingFault, Side};
use sm_poset::Poset;
use sm_rotations::chain;
use sm_theory::{ClosedSet, is_exposed, successor};
use std::process::Abort;

/// Two proposers and two reviewers, each of whom is the last of its own first.
fn two_by_two(rt: &(impl Abort + AllocGlobal)) -> Market {
    market(rt, "01/10", "10/01")
}

/// Proposer 2 can't go past reviewer 0 before that one has given up proposer 0.
pub fn passed_seat(rt: &(impl Abort + AllocGlobal)) -> Market {
    market(rt, "01/10/203/32", "120/01/32/23")
}

/// Makes sure that each of these lists makes no market, by the first fault.
fn refuses_lists(rt: &(impl Abort + AllocGlobal), rows: &[(&str, &str, MarketFault)]) {
    for (proposers, reviewers, fault) in rows {
        assert_eq!(rt;
            build(rt, proposers, reviewers).err(),
            Some(*fault),
            "{proposers}"
        );
    }
}

#[test]
fn each_fault_of_lists(rt: HostRuntime) {
    refuses_lists(
        &rt,
        &[
            ("0", "", MarketFault::NotMutual(Side::Proposers, 0, 0)),
            ("", "0", MarketFault::NotMutual(Side::Reviewers, 0, 0)),
            ("01", "0", MarketFault::OutOfRange(Side::Proposers, 0, 1)),
            ("0/", "021", MarketFault::OutOfRange(Side::Reviewers, 0, 1)),
            ("00", "0", MarketFault::Repeated(Side::Proposers, 0, 1)),
            ("0", "00", MarketFault::Repeated(Side::Reviewers, 0, 1)),
        ],
    );
}

/// Makes sure that these places make no pairing, by the first fault.
fn refuses_places(rt: &(impl Abort + AllocGlobal), rows: &[(&str, PairingFault)]) {
    let market = two_by_two(rt);
    for (text, fault) in rows {
        let found = Pairing::of(rt.alloc(), &market, &places(rt, text)).err();
        assert_eq!(rt; found, Some(*fault), "{text}");
    }
}

#[test]
fn each_fault_of_places(rt: HostRuntime) {
    refuses_places(
        &rt,
        &[
            ("7", PairingFault::WrongLength),
            ("02", PairingFault::OutOfRange(1)),
            ("01", PairingFault::Taken(1)),
        ],
    );
}

#[test]
fn sides_swapped(rt: HostRuntime) {
    let market = market(&rt, "0/01", "10/1");
    let swapped = market.swapped(rt.alloc()).expect(&rt, MEMORY);
    holds(&rt, &swapped, &pairing(&rt, &swapped, "1-"), "1-");
}

#[test]
fn copies(rt: HostRuntime) {
    let market = market(&rt, "0/01", "10/1");
    let copy = market.copy(rt.alloc()).expect(&rt, MEMORY);
    let m = pairing(&rt, &market, "-1");
    holds(&rt, &copy, &m.copy(rt.alloc()).expect(&rt, MEMORY), "-1");
}

/// Makes sure whether the first proposer's first reviewer would rather have it, and whether the two block.
fn likes(rt: &impl Abort, market: &Market, m: &Pairing, would: bool, blocks: bool)
    requires { IsPairingOf market.now m.now }
{
    assert!(rt; 0 < market.proposers());
    assert!(rt; 0 < market.proposer_len(0));
    assert!(rt; market.cross(0, 0) < 2);
    assert!(rt; market.prefers(m, market.reviewer_at(0, 0), 0) == would);
    assert!(rt; market.blocks(m, 0, 0) == blocks);
}

/// Makes sure which pair is the first that blocks.
fn first_blocks(
    rt: &(impl Abort + AllocGlobal),
    market: &Market,
    text: &str,
    wanted: Option<(u32, u32)>,
) {
    assert!(rt;
        market.first_blocking(&pairing(rt, market, text)) == wanted,
        "{text}"
    );
}

#[test]
fn blocking_pairs(rt: HostRuntime) {
    let market = two_by_two(&rt);
    likes(&rt, &market, &pairing(&rt, &market, "-0"), true, true);
    first_blocks(&rt, &market, "0-", Some((1, 0)));
    first_blocks(&rt, &market, "00", None);
}

/// Makes sure whether a rotation is exposed in a pairing.
fn exposes(rt: &(impl Abort + AllocGlobal), market: &Market, m: &Pairing, pairs: &str, wanted: bool)
    requires { IsPairingOf market.now m.now }
{
    assert!(rt;
        is_exposed(market, m, &rotation(rt, pairs)) == wanted,
        "{pairs}"
    );
}

#[test]
fn successors_and_exposed_rotations(rt: HostRuntime) {
    let market = two_by_two(&rt);
    let first = pairing(&rt, &market, "00");
    assert!(rt; 0 < market.proposers());
    assert!(rt; successor(&market, &first, 0) == Some(1));
    exposes(&rt, &market, &first, "0011", true);
    exposes(&rt, &market, &first, "00", false);
}

/// Each side's best pairing differs from the other's, and one proposer has the same partner in both.
fn three_by_three(rt: &(impl Abort + AllocGlobal)) -> Market {
    market(rt, "012/102/201", "102/012/201")
}

#[test]
fn best_for_the_proposers(rt: HostRuntime) {
    let market = three_by_three(&rt);
    let best = proposer_best(rt.alloc(), &market).expect(&rt, MEMORY);
    holds(&rt, &market, &best, "000");
}

#[test]
fn best_for_the_reviewers(rt: HostRuntime) {
    let market = three_by_three(&rt);
    let best = reviewer_best(rt.alloc(), &market).expect(&rt, MEMORY);
    holds(&rt, &market, &best, "110");
}

#[test]
fn reduced_lists_of_all_pairings(rt: HostRuntime) {
    let reduced = reduced_lists(rt.alloc(), &three_by_three(&rt)).expect(&rt, MEMORY);
    lists_are(&rt, &reduced.proposers, "01/10/2");
    lists_are(&rt, &reduced.reviewers, "10/01/2");
}

#[test]
fn reduced_lists_of_one_pairing(rt: HostRuntime) {
    let market = three_by_three(&rt);
    let first = proposer_best(rt.alloc(), &market).expect(&rt, MEMORY);
    let between = reduced_between(rt.alloc(), &market, &first, &first).expect(&rt, MEMORY);
    lists_are(&rt, &between.proposers, "0/1/2");
}

/// Makes sure what the first proposer's first two held places are.
fn keeps(rt: &impl Abort, market: &Market, linked: &Linked, wanted: (Option<u32>, Option<u32>))
    requires { IsLinkedOf market.now linked.now }
{
    assert!(rt; 0 < market.proposers());
    let first = linked.first(market, 0);
    assert!(rt; first == wanted.0);
    if let Some(place) = first {
        assert!(rt; linked.behind(market, 0, place) == wanted.1);
    }
}

#[test]
fn all_pairs_linked_until_some_are_cut(rt: HostRuntime) {
    let market = two_by_two(&rt);
    assert!(rt; 0 < market.reviewers());
    let mut linked = Linked::of(rt.alloc(), &market).expect(&rt, MEMORY);
    keeps(&rt, &market, &linked, (Some(0), Some(1)));
    linked.cut(&market, 0, 0);
    keeps(&rt, &market, &linked, (Some(1), None));
}

/// The poset of a market's chain.
pub fn poset(rt: &(impl Abort + AllocGlobal), market: &Market) -> Poset {
    let first = proposer_best(rt.alloc(), market).expect(rt, MEMORY);
    let chain = chain(rt.alloc(), market, &first).expect(rt, MEMORY);
    Poset::of(rt.alloc(), market, chain).expect(rt, MEMORY)
}

/// A set of rotations, of which 1 is a member and 0 isn't.
pub fn set(rt: &(impl Abort + AllocGlobal), text: &str) -> ClosedSet {
    let mut members = Vec::new(rt.alloc());
    for byte in text.as_bytes() {
        members.push(*byte == b'1').expect(rt, MEMORY);
    }
    ClosedSet { members }
}

/// Makes sure whether a set of rotations is closed, and of a closed one what its matching is and that the set is found of it.
fn asserts(rt: &(impl Abort + AllocGlobal), poset: &Poset, members: &str, matching: Option<&str>) {
    let set = set(rt, members);
    assert!(rt; set.members.len() == poset.chain().rotations.len());
    let is_closed = poset.is_closed(&set);
    assert!(rt; is_closed == matching.is_some(), "{members}");
    if let Some(text) = matching
        && is_closed
    {
        let m = poset.matching_of(rt.alloc(), &set).expect(rt, MEMORY);
        holds(rt, poset.market(), &m, text);
        let found = poset.set_of(rt.alloc(), &m).expect(rt, MEMORY);
        assert!(rt; found.members.as_slice() == set.members.as_slice());
    }
}

#[test]
fn a_poset_by_a_passed_seat(rt: HostRuntime) {
    let poset = poset(&rt, &passed_seat(&rt));
    rotations_are(&rt, &poset.chain().rotations, "0011/2233");
    assert!(rt; poset.chain().rotations.len() == 2);
    assert!(rt; poset.needs(1) == [0].as_slice());
    assert!(rt; 2 < poset.market().proposers());
    assert!(rt; poset.moves(2) == [(1, 2)].as_slice());
    assert!(rt; poset.all_moves().len() == 4);
    asserts(&rt, &poset, "00", Some("0000"));
    asserts(&rt, &poset, "10", Some("1100"));
    asserts(&rt, &poset, "11", Some("1121"));
    asserts(&rt, &poset, "01", None);
}

//! Rotations, and when one is exposed.

ghost use Rattle.std.specs.Prelude.{◌≡◌, ℕ, ◌<◌, ◌↔◌, length, IsTrue, MatchOption, Some, ◌+◌, ◌==◌, if◌then◌else◌};
ghost use Rattle.sm_market.specs.Lists.{row, place_of, IsMarket};
ghost use Rattle.sm_market.specs.Matching.{held};
ghost use Rattle.sm_market.specs.Pairing.{IsPairingOf};
ghost use Rattle.sm_theory.specs.Rotations.{WouldTake, IsSuccessor, IsLink, IsExposed, proposer_at, reviewer_at, target_at};

use sm_market::{Market, Pairing, next_in};

/// A rotation: a cycle of pairs of a proposer and a reviewer, by their numbers. It moves each proposer to the reviewer of
/// the next pair, and the last proposer to the reviewer of the first pair (Gusfield and Irving 1989, section 2.5).
#[derive(Debug, Drop)]
pub struct Rotation {
    /// Each pair's proposer and reviewer, numbered from 0.
    pub pairs: Vec<(u32, u32)>,
}

/// The place of `p`'s successor on its list: the first reviewer behind `p`'s partner that is unmatched or likes `p` more
/// than its partner, if that reviewer is matched.
///
/// `None` exactly where `p` is unmatched, where there is no such reviewer, and where the first one is unmatched. The
/// pairing has to be made for a market of these lists; a stable one is meant. Takes time in proportion to the places
/// behind `p`'s partner (Gusfield and Irving 1989, section 2.5).
pub fn successor(market: &Market, m: &Pairing, p: u32) -> Option<u32>
    requires in_range { p < length market.now.proposers }
    requires made { IsPairingOf market.now m.now }
    ensures { MatchOption result
        ((i : ℕ) → ¬ IsSuccessor market.now m.now.places p i)
        (λ i. IsSuccessor market.now m.now.places p i) }
{
    let places = market.proposer_list(p).len() as u32;
    for place in market.proposer_standing(m, p) + 1..places {
        if would_take(market, m, p, place) {
            let r = market.reviewer_at(p, place);
            if m.reviewer_place(r).is_none() {
                return None;
            }
            return Some(place);
        }
    }
    None
}

/// Whether the reviewer at `place` of `p`'s list is unmatched or likes `p` more than its partner. The pairing has to be made
/// for a market of these lists. Takes the same time for all.
pub fn would_take(market: &Market, m: &Pairing, p: u32, place: u32) -> bool
    requires in_range { p < length market.now.proposers }
    requires on_list { place < length (row market.now.proposers p) }
    requires made { IsPairingOf market.now m.now }
    ensures { IsTrue result ↔ WouldTake market.now m.now.places p place }
{
    market.cross(p, place) < market.reviewer_standing(m, market.reviewer_at(p, place))
}

/// Whether the reviewer `target` is `p`'s successor.
fn is_successor(market: &Market, m: &Pairing, p: u32, target: u32) -> bool
    requires in_range { p < length market.now.proposers }
    requires market { IsMarket market.now }
    requires made { IsPairingOf market.now m.now }
    ensures { IsTrue result
        ↔ IsSuccessor market.now m.now.places p (place_of market.now.proposers p target) }
{
    match successor(market, m, p) {
        Some(place) => market.reviewer_at(p, place) == target,
        None => false,
    }
}

/// Whether `r` is `p`'s partner.
fn are_partners(market: &Market, m: &Pairing, p: u32, r: u32) -> bool
    requires in_range { p < length market.now.proposers }
    requires market { IsMarket market.now }
    requires made { IsPairingOf market.now m.now }
    ensures { IsTrue result
        ↔ (held m.now.places.proposers p ≡ Some (place_of market.now.proposers p r)) }
{
    match m.place(p) {
        Some(place) => market.reviewer_at(p, place) == r,
        None => false,
    }
}

/// Whether `r` is `p`'s partner, and the reviewer `target` its successor.
fn is_link(market: &Market, m: &Pairing, p: u32, r: u32, target: u32) -> bool
    requires made { IsPairingOf market.now m.now }
    ensures link { IsTrue result ↔ IsLink market.now m.now.places p r target }
    ensures market { IsMarket market.now }
{
    p < market.proposers() && are_partners(market, m, p, r) && is_successor(market, m, p, target)
}

/// Whether the pair `i` of a cycle consists of partners, and its proposer's successor is the reviewer of the next pair.
fn is_link_at(market: &Market, m: &Pairing, pairs: &[(u32, u32)], i: usize) -> bool
    requires in_range { i < length pairs.now }
    requires made { IsPairingOf market.now m.now }
    ensures link { IsTrue result
        ↔ IsLink market.now m.now.places (proposer_at pairs.now i) (reviewer_at pairs.now i)
        (target_at pairs.now i) }
    ensures market { IsMarket market.now }
{
    let (p, r) = pairs[i];
    let next = next_in(i, pairs.len());
    is_link(market, m, p, r, pairs[next].1)
}

/// Whether a later pair of a cycle has the first one's proposer again.
fn repeats(pairs: &[(u32, u32)], i: usize) -> bool
    requires { i < length pairs.now }
    ensures { IsTrue result ↔ ((0 < i) × (proposer_at pairs.now i ≡ proposer_at pairs.now 0)) }
{
    0 < i && pairs[i].0 == pairs[0].0
}

/// Whether a rotation is exposed at a pairing: its proposers differ, its pairs are partners in the pairing, and each
/// proposer's successor is the reviewer of the next pair.
///
/// The pairing has to be made for a market of these lists; a stable one is meant. Any numbers may stand in the rotation.
/// Takes time in proportion to the places behind the partners of the rotation's proposers (Gusfield and Irving 1989,
/// section 2.5).
pub fn is_exposed(market: &Market, m: &Pairing, rotation: &Rotation) -> bool
    requires made { IsPairingOf market.now m.now }
    ensures { IsTrue result ↔ IsExposed market.now m.now.places rotation.now.pairs.items }
{
    let pairs = rotation.pairs.as_slice();
    for i in 0..pairs.len() {
        if repeats(pairs, i) || !is_link_at(market, m, pairs, i) {
            return false;
        }
    }
    !pairs.is_empty()
}

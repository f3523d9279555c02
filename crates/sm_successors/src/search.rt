//! The search for the successor of a proposer, along its list.

ghost use Rattle.std.specs.Prelude.{◌≡◌, ◌≢◌, ℕ, ◌<◌, ◌≤◌, length, Some, MatchOption, slice_index};
ghost use Rattle.sm_market.specs.Lists.{row};
ghost use Rattle.sm_market.specs.Matching.{standing};
ghost use Rattle.sm_market.specs.Pairing.{IsPairingOf};
ghost use Rattle.sm_theory.specs.Rotations.{WouldTake, IsSuccessor, IsNext};
ghost use Rattle.sm_successors.specs.Search.{IsSearchAt};

use sm_market::{Market, Pairing};
use sm_theory::would_take;

/// The proposer that has `p`'s successor. `None` exactly where `p` has no successor.
///
/// Proposers and places are numbered from 0. For each proposer `from` has a place of its list: behind its partner and before
/// that place nobody would take it. The successor is looked for from there on, and the place where the search ends is noted,
/// unless a later one stands there; where there is a successor, this is its place. So a caller may note the greatest number for
/// a proposer that has no successor left. In the beginning each place is 0. The places serve as long as each pairing comes from
/// the one before by eliminating a rotation, since reviewers then never get worse partners.
///
/// Takes no memory, and constant time but for the entries that are passed. Over all calls along a chain of rotations each
/// entry of the market is passed at most once (Gusfield and Irving 1989, section 3.2).
#[inline(always)]
pub fn next_proposer(market: &Market, m: &Pairing, p: u32, from: &mut [u32]) -> Option<u32>
    requires in_range { p < length market.now.proposers }
    requires made { IsPairingOf market.now m.now }
    requires search { IsSearchAt market.now m.now.places from.old }
    ensures search { IsSearchAt market.now m.now.places from.new }
    ensures one_each { length from.new ≡ length from.old }
    ensures further { (q : ℕ) → slice_index from.old q ≤ slice_index from.new q }
    ensures others { (q : ℕ) → q ≢ p → slice_index from.new q ≡ slice_index from.old q }
    ensures next { MatchOption result
        ((i : ℕ) → ¬ IsSuccessor market.now m.now.places p i)
        (λ q. IsNext market.now m.now.places p q) }
    ensures found { (q : ℕ) → result ≡ Some q
        → IsSuccessor market.now m.now.places p (slice_index from.new p) }
    ensures in_range { MatchOption result (Unit {0}) (λ q. q < length market.now.proposers) }
{
    let place = first_taker(market, m, p, from[p as usize]);
    from[p as usize] = place.max(from[p as usize]);
    if place >= market.proposer_len(p) {
        return None;
    }
    m.holder(market.reviewer_at(p, place))
}

/// The first place of `p`'s list behind its partner whose reviewer would take `p`, where there is none before the place
/// `from`. The length of the list where there is none at all.
///
/// Proposers and places are numbered from 0. An unmatched proposer's partner stands past the end of its list. Takes no
/// memory, and time in proportion to the entries that are passed: those behind the partner and from `from` on (Gusfield and
/// Irving 1989, section 3.2).
#[inline(always)]
pub fn first_taker(market: &Market, m: &Pairing, p: u32, from: u32) -> u32
    requires in_range { p < length market.now.proposers }
    requires made { IsPairingOf market.now m.now }
    requires passed { (i : ℕ) → standing market.now.proposers m.now.places.proposers p < i → i
        < length (row market.now.proposers p)
        → i < from
        → ¬ WouldTake market.now m.now.places p i }
    ensures passed { (i : ℕ) → standing market.now.proposers m.now.places.proposers p < i → i
        < result
        → ¬ WouldTake market.now m.now.places p i }
    ensures within { result ≤ length (row market.now.proposers p) }
    ensures behind { result < length (row market.now.proposers p)
        → standing market.now.proposers m.now.places.proposers p < result }
    ensures takes { result < length (row market.now.proposers p)
        → WouldTake market.now m.now.places p result }
    ensures further { result < length (row market.now.proposers p) → from ≤ result }
{
    let places = market.proposer_list(p).len() as u32;
    let behind = market.proposer_standing(m, p) + 1;
    for place in behind.max(from)..places {
        if would_take(market, m, p, place) {
            return place;
        }
    }
    places
}

//! Deferred acceptance, with proposers proposing.
//!
//! Each proposer goes down its list, and each reviewer holds the best of those who proposed to it. Whoever is turned
//! down proposes to the next on its list (Gale and Shapley 1962; Gusfield and Irving 1989, section 1.2). The reviewers'
//! best is found with the sides exchanged.

ghost use Rattle.std.specs.Prelude.{◌≡◌, ℕ, ◌+◌, ◌<◌, ◌≤◌, ◌⊎◌, length, slice_index, IfOk, None, MatchOption, replicate};
ghost use Rattle.sm_market.specs.Lists.{row, entry, IsMarket};
ghost use Rattle.sm_market.specs.Limits.{IsWithinLimits};
ghost use Rattle.sm_market.specs.Stable.{IsProposersBest, IsReviewersBest};
ghost use Rattle.sm_market.specs.Pairing.{IsPairingOf};
ghost use Rattle.sm_accept.specs.Accepting.{IsProgress, IsTakenIn, IsTakenFor, IsRejected, AreEnds, AreBestPlaces};
ghost use Rattle.sm_accept.specs.Bests.{IsWorstOfReviewers, IsBestOfReviewers};

use crate::lengths::write_lengths;
use sm_market::{Market, Pairing};
use std::alloc::{AllocError, Global};

/// The stable matching in which every proposer has the best partner that it has in any stable matching, and every
/// reviewer the worst, by deferred acceptance with proposers proposing (Gale and Shapley 1962; Gusfield and Irving 1989,
/// section 1.2).
///
/// Takes time in proportion to the agents and entries, and memory in proportion to the agents, none of it while
/// proposals are made.
///
/// # Errors
///
/// `AllocError` where memory ran out, and only then.
pub fn proposer_best(alloc: Global, market: &Market) -> Result<Pairing, AllocError>
    ensures pairing { IfOk result (λ m. IsPairingOf market.now m) }
    ensures best { IfOk result (λ m. IsProposersBest market.now m.places) }
    ensures worst { IfOk result (λ m. IsWorstOfReviewers market.now m.places) }
{
    let places = best_places(alloc, market)?;
    Pairing::held(alloc, market, &places)
}

/// The stable matching in which every reviewer has the best partner that it has in any stable matching, and every
/// proposer the worst, by deferred acceptance with reviewers proposing (Gale and Shapley 1962; Gusfield and Irving 1989,
/// section 1.2).
///
/// Takes time and memory in proportion to the agents and entries: the market is copied with its sides exchanged. No
/// memory is taken while proposals are made.
///
/// # Errors
///
/// `AllocError` where memory ran out, and only then.
pub fn reviewer_best(alloc: Global, market: &Market) -> Result<Pairing, AllocError>
    ensures pairing { IfOk result (λ m. IsPairingOf market.now m) }
    ensures worst { IfOk result (λ m. IsReviewersBest market.now m.places) }
    ensures best { IfOk result (λ m. IsBestOfReviewers market.now m.places) }
{
    let swapped = market.swapped(alloc)?;
    let best = proposer_best(alloc, &swapped)?;
    let mut places = vec![in alloc; None; market.proposers() as usize]?;
    copy_places(&swapped, &best, &mut places);
    Pairing::held(alloc, market, &places)
}

/// Writes the place that each reviewer of a pairing holds.
fn copy_places(market: &Market, m: &Pairing, places: &mut [Option<u32>])
    requires made { IsPairingOf market.now m.now }
    requires one_each { length places.old ≡ length market.now.reviewers }
    ensures { places.new ≡ m.now.places.reviewers }
{
    for r in 0..market.reviewers() {
        places[r as usize] = m.reviewer_place(r);
    }
}

/// The place of each proposer in the proposers' best stable matching.
fn best_places(alloc: Global, market: &Market) -> Result<Vec<Option<u32>>, AllocError>
    ensures { IfOk result (λ places. AreBestPlaces market.now places.items) }
{
    let mut next = vec![in alloc; 0; market.proposers() as usize]?;
    let mut standings = vec![in alloc; 0; market.reviewers() as usize]?;
    let mut places = vec![in alloc; None; market.proposers() as usize]?;
    let next = next.as_mut_slice();
    let standings = standings.as_mut_slice();
    // Every reviewer is free: it stands past its list.
    write_lengths(market, standings);
    for p in 0..market.proposers() {
        let_propose(market, p, next, standings);
    }
    set_places(market, next, places.as_mut_slice());
    Ok(places)
}

/// Lets one more proposer propose, and in turn each one that is turned down, until a free reviewer takes one or one is
/// at the end of its list.
fn let_propose(market: &Market, p: u32, next: &mut [u32], standings: &mut [u32])
    requires in_range { p < length market.now.proposers }
    requires market { IsMarket market.now }
    requires limits { IsWithinLimits market.now }
    requires before { IsProgress market.now p p next.old standings.old }
    ensures { IsProgress market.now (p + 1) (p + 1) next.new standings.new }
{
    let mut away = p;
    'proposals: while next[away as usize] < market.proposer_len(away) {
        let Some(turned_down) = propose(market, away, next[away as usize], standings) else {
            return;
        };
        next[turned_down as usize] += 1;
        away = turned_down;
    }
}

/// Lets `p` propose to the reviewer at a place of its list, who holds the better of `p` and the one that it held.
/// Returns whom it turns down, `None` where it was free.
fn propose(market: &Market, p: u32, place: u32, standings: &mut [u32]) -> Option<u32>
    requires in_range { p < length market.now.proposers }
    requires on_list { place < length (row market.now.proposers p) }
    requires one_each { length standings.old ≡ length market.now.reviewers }
    requires standing_on_list { (r : ℕ) → slice_index standings.old r
        ≤ length (row market.now.reviewers r) }
    ensures { let r = entry market.now.proposers p place in MatchOption result
        (IsTakenIn market.now p r standings.old standings.new)
        (λ q. IsTakenFor market.now p r q standings.old standings.new
        ⊎ IsRejected market.now p r q standings.old standings.new) }
{
    let r = market.reviewer_at(p, place);
    let offered = market.cross(p, place);
    let standing = standings[r as usize];
    if offered >= standing {
        return Some(p);
    }
    standings[r as usize] = offered;
    if standing < market.reviewer_len(r) {
        Some(market.proposer_at(r, standing))
    } else {
        None
    }
}

/// Ends each proposer at its next place, and those at the end of their lists unmatched.
fn set_places(market: &Market, next: &[u32], places: &mut [Option<u32>])
    requires next_each { length next.now ≡ length market.now.proposers }
    requires places { places.old ≡ replicate (length market.now.proposers) None }
    ensures { AreEnds market.now next.now places.new }
{
    for p in 0..market.proposers() {
        let place = next[p as usize];
        if place < market.proposer_len(p) {
            places[p as usize] = Some(place);
        }
    }
}

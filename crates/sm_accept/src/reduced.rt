//! The reduced lists.

ghost use Rattle.std.specs.Prelude.{◌≡◌, ◌+◌, ◌<◌, ◌≤◌, length, IfOk, IfSome, OnOk, MatchOption, [], ◌∷◌, ◌++◌, if◌then◌else◌};
ghost use Rattle.sm_market.specs.Lists.{IsMarket};
ghost use Rattle.sm_market.specs.Matching.{Places};
ghost use Rattle.sm_market.specs.Vectors.{rows_of, lists_of};
ghost use Rattle.sm_market.specs.Pairing.{IsPairingOf};
ghost use Rattle.sm_market.specs.Stable.{IsProposersBest, IsReviewersBest};
ghost use Rattle.sm_market.specs.Reduced.{reduced_row, reduced_lists_of};
ghost use Rattle.sm_accept.specs.Reducing.{KeepsStablePairs};

use crate::accept::{proposer_best, reviewer_best};
use sm_market::{Market, Pairing, is_between};
use std::alloc::{AllocError, Global};

/// The reduced lists of both sides, best first, by the numbers of the agents.
#[derive(Debug, Drop)]
pub struct Reduced {
    /// Each proposer's reviewers.
    pub proposers: Vec<Vec<u32>>,
    /// Each reviewer's proposers.
    pub reviewers: Vec<Vec<u32>>,
}

/// The reduced lists of a market: each matched agent keeps those of its list that it likes no less than the worst partner
/// that it has in any stable matching, and that in turn like it no less than the worst partner that they have. The others
/// have empty lists (Gusfield and Irving 1989, section 1.2.4).
///
/// Takes time and memory in proportion to the agents and entries.
///
/// # Errors
///
/// `AllocError` where memory ran out, and only then.
pub fn reduced_lists(alloc: Global, market: &Market) -> Result<Reduced, AllocError>
    ensures reduced { IfOk result (λ reduced.
        (first last : Places) → IsProposersBest market.now first → IsReviewersBest market.now last
        → lists_of reduced.proposers.items reduced.reviewers.items
        ≡ reduced_lists_of market.now first last) }
    ensures keeps { IfOk result
        (λ reduced. KeepsStablePairs market.now (lists_of reduced.proposers.items
        reduced.reviewers.items)) }
{
    let first = proposer_best(alloc, market)?;
    let last = reviewer_best(alloc, market)?;
    reduced_between(alloc, market, &first, &last)
}

/// The lists with what stands between two pairings: each agent that is matched keeps those of its list that it likes no
/// less than its partner, a proposer by `last` and a reviewer by `first`, and that in turn like it no less than their
/// partner by the other. Where the two pairings are the proposers' best and the reviewers' best, these are the reduced
/// lists of the market (Gusfield and Irving 1989, section 1.2.4).
///
/// The pairings have to be made for a market of these lists. Of each list only the part up to the partner is looked at.
/// Takes time in proportion to the agents and these parts, and memory in proportion to the agents and the lists that it gives.
///
/// # Errors
///
/// `AllocError` where memory ran out, and only then.
pub fn reduced_between(
    alloc: Global,
    market: &Market,
    first: &Pairing,
    last: &Pairing,
) -> Result<Reduced, AllocError>
    requires first { IsPairingOf market.now first.now }
    requires last { IsPairingOf market.now last.now }
    ensures reduced { IfOk result (λ reduced. lists_of reduced.proposers.items
        reduced.reviewers.items
        ≡ reduced_lists_of market.now first.now.places last.now.places) }
    ensures market { OnOk result (IsMarket market.now) }
{
    let _count = market.proposers();
    Ok(Reduced {
        proposers: reviewers_between(alloc, market, first, last)?,
        reviewers: proposers_between(alloc, market, first, last)?,
    })
}

/// For each proposer the reviewers that stand between the pairings on its list.
fn reviewers_between(
    alloc: Global,
    market: &Market,
    first: &Pairing,
    last: &Pairing,
) -> Result<Vec<Vec<u32>>, AllocError>
    requires first { IsPairingOf market.now first.now }
    requires last { IsPairingOf market.now last.now }
    ensures { IfOk result (λ rows. rows_of rows.items
        ≡ (reduced_lists_of market.now first.now.places last.now.places).proposers) }
{
    let mut rows = Vec::with_capacity(alloc, market.proposers() as usize)?;
    for p in 0..market.proposers() {
        let mut row = Vec::new(alloc);
        add_reviewers(&mut row, market, first, last, p)?;
        rows.push(row)?;
    }
    Ok(rows)
}

/// For each reviewer the proposers that stand between the pairings on its list.
fn proposers_between(
    alloc: Global,
    market: &Market,
    first: &Pairing,
    last: &Pairing,
) -> Result<Vec<Vec<u32>>, AllocError>
    requires first { IsPairingOf market.now first.now }
    requires last { IsPairingOf market.now last.now }
    ensures { IfOk result (λ rows. rows_of rows.items
        ≡ (reduced_lists_of market.now first.now.places last.now.places).reviewers) }
{
    let mut rows = Vec::with_capacity(alloc, market.reviewers() as usize)?;
    for r in 0..market.reviewers() {
        let mut row = Vec::new(alloc);
        add_proposers(&mut row, market, first, last, r)?;
        rows.push(row)?;
    }
    Ok(rows)
}

/// Adds the reviewers that stand between the pairings on a proposer's list.
fn add_reviewers(
    row: &mut Vec<u32>,
    market: &Market,
    first: &Pairing,
    last: &Pairing,
    p: u32,
) -> Result<(), AllocError>
    requires market { IsMarket market.now }
    requires in_range { p < length market.now.proposers }
    requires first { IsPairingOf market.now first.now }
    requires last { IsPairingOf market.now last.now }
    requires empty { row.old.items ≡ [] }
    ensures { OnOk result (row.new.items ≡ reduced_row market.now.proposers market.now.reviewers
        last.now.places.proposers first.now.places.reviewers p) }
{
    for place in 0..front_to(last.place(p), market.proposer_len(p)) {
        let between = is_between(market, first, last, p, place);
        push_if(row, between, market.reviewer_at(p, place))?;
    }
    Ok(())
}

/// Adds the proposers that stand between the pairings on a reviewer's list.
fn add_proposers(
    row: &mut Vec<u32>,
    market: &Market,
    first: &Pairing,
    last: &Pairing,
    r: u32,
) -> Result<(), AllocError>
    requires market { IsMarket market.now }
    requires in_range { r < length market.now.reviewers }
    requires first { IsPairingOf market.now first.now }
    requires last { IsPairingOf market.now last.now }
    requires empty { row.old.items ≡ [] }
    ensures { OnOk result (row.new.items ≡ reduced_row market.now.reviewers market.now.proposers
        first.now.places.reviewers last.now.places.proposers r) }
{
    for place in 0..front_to(first.reviewer_place(r), market.reviewer_len(r)) {
        let p = market.proposer_at(r, place);
        let between = is_between(market, first, last, p, market.reviewer_cross(r, place));
        push_if(row, between, p)?;
    }
    Ok(())
}

/// How long the part of a list is that ends with the place which its owner holds: nobody behind it is kept. 0 where the owner is
/// unmatched.
fn front_to(held: Option<u32>, len: u32) -> u32
    requires { IfSome held (λ place. place < len) }
    ensures front { MatchOption held (result ≡ 0) (λ place. result ≡ place + 1) }
    ensures fits { result ≤ len }
{
    match held {
        Some(place) => place + 1,
        None => 0,
    }
}

/// Adds an agent at the end of a list, if it is to stay there.
fn push_if(row: &mut Vec<u32>, stays: bool, agent: u32) -> Result<(), AllocError>
    ensures { OnOk result (row.new.items ≡ row.old.items ++ (if stays then agent ∷ [] else [])) }
{
    if stays {
        row.push(agent)?;
    }
    Ok(())
}

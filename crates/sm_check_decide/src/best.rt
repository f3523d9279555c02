//! Whether a stable pairing is the best of a side.

ghost use Rattle.std.specs.Prelude.{◌≡◌, ◌↔◌, IsTrue, IfOk};
ghost use Rattle.sm_market.specs.Lists.{reversed_lists};
ghost use Rattle.sm_market.specs.Matching.{reversed};
ghost use Rattle.sm_market.specs.Stable.{IsStable, IsProposersBest, IsReviewersBest};
ghost use Rattle.sm_market.specs.Pairing.{IsPairingOf};

use crate::exposure::Search;
use sm_market::{Market, Pairing};
use std::alloc::{AllocError, Global};

/// Whether every proposer stands as well as in any stable matching.
///
/// The pairing has to be stable and made for a market of these lists. It is the best exactly where no rotation is exposed at
/// it once the sides are exchanged (Gusfield and Irving 1989, section 2.5). So the market is copied with its sides exchanged,
/// and the time and the memory are in proportion to the agents and entries.
///
/// # Errors
///
/// `AllocError` where memory ran out, and only then.
pub fn is_proposers_best(alloc: Global, market: &Market, m: &Pairing) -> Result<bool, AllocError>
    requires made { IsPairingOf market.now m.now }
    requires stable { IsStable market.now m.now.places }
    ensures { IfOk result (λ best. IsTrue best ↔ IsProposersBest market.now m.now.places) }
{
    prove!(market.proposers() < 1 << 24);
    let swapped = market.swapped(alloc)?;
    let back = exchanged(alloc, market, &swapped, m)?;
    let mut search = Search::of(alloc, &swapped)?;
    Ok(search.is_nothing_exposed(&swapped, &back))
}

/// Whether every reviewer stands as well as in any stable matching.
///
/// The pairing has to be stable and made for a market of these lists. It is the best exactly where no rotation is exposed at
/// it (Gusfield and Irving 1989, section 2.5). Takes time in proportion to the agents and entries, and memory in proportion to
/// the proposers.
///
/// # Errors
///
/// `AllocError` where memory ran out, and only then.
pub fn is_reviewers_best(alloc: Global, market: &Market, m: &Pairing) -> Result<bool, AllocError>
    requires made { IsPairingOf market.now m.now }
    requires stable { IsStable market.now m.now.places }
    ensures { IfOk result (λ best. IsTrue best ↔ IsReviewersBest market.now m.now.places) }
{
    let mut search = Search::of(alloc, market)?;
    Ok(search.is_nothing_exposed(market, m))
}

/// The pairing with the sides exchanged, of the market with its sides exchanged.
fn exchanged(
    alloc: Global,
    market: &Market,
    swapped: &Market,
    m: &Pairing,
) -> Result<Pairing, AllocError>
    requires made { IsPairingOf market.now m.now }
    requires swapped { swapped.now ≡ reversed_lists market.now }
    ensures made { IfOk result (λ back. IsPairingOf (reversed_lists market.now) back) }
    ensures places { IfOk result (λ back. back.places ≡ reversed m.now.places) }
{
    let places = reviewer_places(alloc, market, m)?;
    Pairing::held(alloc, swapped, &places)
}

/// The place that each reviewer of a pairing holds.
fn reviewer_places(
    alloc: Global,
    market: &Market,
    m: &Pairing,
) -> Result<Vec<Option<u32>>, AllocError>
    requires made { IsPairingOf market.now m.now }
    ensures { IfOk result (λ places. places.items ≡ m.now.places.reviewers) }
{
    let mut places = Vec::with_capacity(alloc, market.reviewers() as usize)?;
    for r in 0..market.reviewers() {
        places.push(m.reviewer_place(r))?;
    }
    Ok(places)
}

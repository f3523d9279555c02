//! The complete chain of rotations.

ghost use Rattle.std.specs.Prelude.{◌≡◌, IfOk};
ghost use Rattle.sm_market.specs.Stable.{IsProposersBest};
ghost use Rattle.sm_market.specs.Pairing.{IsPairingOf};
ghost use Rattle.sm_market.specs.Vectors.{rows_of};
ghost use Rattle.sm_theory.specs.Chains.{IsPrintedChain, AreNeeds};
ghost use Rattle.sm_theory.specs.Values.{rotations_of};

use crate::notes::Notes;
use crate::order::{ChainWithNeeds, in_order};
use crate::walk::walk;
use sm_market::{Market, Pairing};
use sm_theory::Chain;
use std::alloc::{AllocError, Global};

/// The complete chain of rotations from the proposers' best stable matching to the reviewers' best.
///
/// At each turn the exposed rotation with the lowest-numbered proposer is eliminated, and each rotation begins with its
/// lowest-numbered proposer. The pairing has to be the proposers' best of the market, as
/// [`sm_accept::proposer_best`] gives it (Gusfield and Irving 1989, section 2.5).
///
/// Takes the time and the memory of [`chain_with_needs`], whose chain it gives.
///
/// # Errors
///
/// `AllocError` where memory ran out, and only then.
pub fn chain(alloc: Global, market: &Market, best: &Pairing) -> Result<Chain, AllocError>
    requires made { IsPairingOf market.now best.now }
    requires best { IsProposersBest market.now best.now.places }
    ensures made { IfOk result (λ chain. IsPairingOf market.now chain.first) }
    ensures first { IfOk result (λ chain. chain.first.places ≡ best.now.places) }
    ensures chain { IfOk result (λ chain. IsPrintedChain market.now best.now.places
        (rotations_of chain.rotations.items)) }
{
    let ChainWithNeeds { chain, .. } = chain_with_needs(alloc, market, best)?;
    Ok(chain)
}

/// The complete chain of rotations, as [`chain`] gives it, with what each rotation needs, as [`needs`](crate::needs) finds it
/// of that chain.
///
/// A walk with one stack of proposers along successors finds the rotations and what each one needs, and a heap puts them into
/// their order, in which the needs take their new numbers. Takes time and memory in proportion to the
/// agents, the entries and the predecessors of the rotations, up to a logarithm in the number of rotations (Gusfield and
/// Irving 1989, section 2.5 and chapter 3).
///
/// # Errors
///
/// `AllocError` where memory ran out, and only then.
pub fn chain_with_needs(
    alloc: Global,
    market: &Market,
    best: &Pairing,
) -> Result<ChainWithNeeds, AllocError>
    requires made { IsPairingOf market.now best.now }
    requires best { IsProposersBest market.now best.now.places }
    ensures made { IfOk result (λ found. IsPairingOf market.now found.chain.first) }
    ensures first { IfOk result (λ found. found.chain.first.places ≡ best.now.places) }
    ensures chain { IfOk result (λ found. IsPrintedChain market.now best.now.places
        (rotations_of found.chain.rotations.items)) }
    ensures needs { IfOk result (λ found. AreNeeds market.now
        (rotations_of found.chain.rotations.items) (rows_of found.needs.items)) }
{
    let mut notes = Notes::of(alloc, market)?;
    let rotations = walk(alloc, market, best, &mut notes)?;
    let followers = notes.into_followers();
    in_order(alloc, market, best, rotations, &followers)
}

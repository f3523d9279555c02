//! The board of a poset with levels.

ghost use Rattle.std.specs.Prelude.{◌≡◌, ℕ, ◌<◌, length, map, slice_index, is_some, ◌+◌, ◌∷◌, IfOk};
ghost use Rattle.sm_market.specs.Lists.{row, agents};
ghost use Rattle.sm_market.specs.Vectors.{rows_of};
ghost use Rattle.sm_market.specs.Matching.{held};
ghost use Rattle.sm_theory.specs.Vectors.{AreLevels};
ghost use Rattle.sm_theory.specs.Values.{rotations_of};
ghost use Rattle.sm_poset.specs.Moves.{AreMoves, moves_in, place_to};
ghost use Rattle.sm_board.specs.BoardOf.{places_at, IsBoardFor};

use crate::board::Board;
use sm_poset::Poset;
use std::alloc::{AllocError, Global};

/// The levels of a proposer at its first place and at those to which its moves lead.
fn levels_at(
    alloc: Global,
    levels: &[u32],
    first: u32,
    moves: &[(u32, u32)],
) -> Result<Vec<u32>, AllocError>
    requires first { first < length levels.now }
    requires places { (a : ℕ) → a < length moves.now → place_to moves.now a < length levels.now }
    ensures { IfOk result (λ at. at.items ≡ map (λ i. slice_index levels.now i) (first ∷ map
        (λ m. m.1) moves.now)) }
{
    let mut at = Vec::with_capacity(alloc, moves.len() + 1)?;
    at.push(levels[first as usize])?;
    for &(_, place) in moves {
        at.push(levels[place as usize])?;
    }
    Ok(at)
}

/// For each proposer whether it is matched.
fn matched(alloc: Global, poset: &Poset) -> Result<Vec<bool>, AllocError>
    ensures { IfOk result (λ matched. matched.items
        ≡ map (λ p. is_some (held poset.now.first.places.proposers p))
        (agents poset.now.lists.proposers)) }
{
    let first = &poset.chain().first;
    let proposers = poset.market().proposers();
    let mut matched = Vec::with_capacity(alloc, proposers as usize)?;
    for p in 0..proposers {
        matched.push(first.place(p).is_some())?;
    }
    Ok(matched)
}

/// For each proposer the levels at its first place and at those to which its moves lead.
fn stay_levels(
    alloc: Global,
    poset: &Poset,
    levels: &[Vec<u32>],
    moves: &[Vec<(u32, u32)>],
) -> Result<Vec<Vec<u32>>, AllocError>
    requires levels { AreLevels poset.now.lists (rows_of levels.now) }
    requires moves { AreMoves poset.now.lists poset.now.rotations (length poset.now.rotations)
        (moves_in moves.now) }
    ensures { IfOk result (λ made. rows_of made.items ≡ map
        (λ p. map (λ i. slice_index (row (rows_of levels.now) p) i)
        (places_at poset.now.lists poset.now.first.places (moves_in moves.now) p))
        (agents poset.now.lists.proposers)) }
{
    let market = poset.market();
    let first = &poset.chain().first;
    let mut made = Vec::with_capacity(alloc, levels.len())?;
    for p in 0..market.proposers() {
        let place = market.proposer_standing(first, p);
        made.push(levels_at(alloc, &levels[p as usize], place, &moves[p as usize])?)?;
    }
    Ok(made)
}

/// The board of a poset with levels.
///
/// It keeps the chain and the digraph of its rotations with the poset: these aren't copied. Takes time and memory in proportion
/// to the proposers and to the pairs of the rotations.
///
/// # Errors
///
/// `AllocError` where memory ran out, and only then.
pub fn make_board(alloc: Global, poset: &Poset, levels: &[Vec<u32>]) -> Result<Board, AllocError>
    requires { AreLevels poset.now.lists (rows_of levels.now) }
    ensures { IfOk result (λ board. IsBoardFor poset.now (rows_of levels.now) board) }
{
    let _chain = poset.chain();
    let (chain, digraph) = poset.shared_rotations()?;
    let stay_levels = stay_levels(alloc, poset, levels, &digraph.as_ref().moves)?;
    let matched = matched(alloc, poset)?;
    Ok(Board {
        chain,
        digraph,
        levels: stay_levels,
        matched,
    })
}

//! The moves of each proposer, found by going down the chain once.

ghost use Rattle.std.specs.Prelude.{◌≡◌, ◌≢◌, ℕ, ◌<◌, length, replicate, [], slice_index, IfOk, OnOk};
ghost use Rattle.sm_market.specs.Lists.{row, place_of, IsMarket};
ghost use Rattle.sm_market.specs.Limits.{IsWithinLimits};
ghost use Rattle.sm_market.specs.Pairing.{IsPairingOf};
ghost use Rattle.sm_theory.specs.Rotations.{proposer_at, target_at};
ghost use Rattle.sm_theory.specs.Chains.{IsCompleteChain};
ghost use Rattle.sm_theory.specs.Values.{rotations_of};
ghost use Rattle.sm_poset.specs.Kept.{AreLeaders, AreMovesAfter, ArePlacesOf};
ghost use Rattle.sm_poset.specs.Moves.{AreMoves, moves_at, moves_in};

use sm_market::{Market, Pairing, next_in, place_from};
use sm_theory::Chain;
use std::alloc::{AllocError, Global};

/// What the rotations of a chain move.
pub(crate) struct Moves {
    /// For each proposer the rotations that move it, rising, with the places to which they move it.
    pub(crate) of_proposers: Vec<Vec<(u32, u32)>>,
    /// For each rotation a proposer that it moves, with the place to which it moves that one.
    pub(crate) leaders: Vec<(u32, u32)>,
}

/// Follows a chain from its first matching to its last and notes what its rotations move. No matching but the first is looked
/// at: a rotation tells itself to whom it moves its proposers.
pub(crate) fn follow(alloc: Global, market: &Market, chain: &Chain) -> Result<Moves, AllocError>
    requires made { IsPairingOf market.now chain.now.first }
    requires complete { IsCompleteChain market.now chain.now.first.places
        (rotations_of chain.now.rotations.items) }
    ensures moves { IfOk result (λ m. AreMoves market.now (rotations_of chain.now.rotations.items)
        (length chain.now.rotations.items) (moves_in m.of_proposers.items)) }
    ensures leaders { IfOk result (λ m. AreLeaders market.now
        (rotations_of chain.now.rotations.items)
        (length chain.now.rotations.items) m.leaders.items) }
    ensures market { OnOk result (IsMarket market.now) }
    ensures limits { OnOk result (IsWithinLimits market.now) }
{
    let mut of_proposers = no_moves(alloc, market.proposers() as usize, chain)?;
    let mut leaders = Vec::with_capacity(alloc, chain.rotations.len())?;
    let mut at = places_in(alloc, market, &chain.first)?;
    let at = at.as_mut_slice();
    for k in 0..chain.rotations.len() as u32 {
        let rotation = &chain.rotations[k as usize];
        add_moves(market, k, &rotation.pairs, at, &mut of_proposers)?;
        let leader = rotation.pairs[0].0;
        leaders.push((leader, at[leader as usize]))?;
    }
    Ok(Moves {
        of_proposers,
        leaders,
    })
}

/// No moves of anybody yet, with room for all that a chain has.
fn no_moves(
    alloc: Global,
    proposers: usize,
    chain: &Chain,
) -> Result<Vec<Vec<(u32, u32)>>, AllocError>
    ensures { IfOk result (λ moves. moves_in moves.items ≡ replicate proposers []) }
{
    let counts = move_counts(alloc, proposers, chain)?;
    let mut moves = Vec::with_capacity(alloc, proposers)?;
    for p in 0..proposers {
        moves.push(Vec::with_capacity(alloc, counts[p] as usize)?)?;
    }
    Ok(moves)
}

/// How many moves each proposer will have.
fn move_counts(alloc: Global, proposers: usize, chain: &Chain) -> Result<Vec<u32>, AllocError>
    ensures { IfOk result (λ counts. length counts.items ≡ proposers) }
{
    let mut counts = vec![in alloc; 0; proposers]?;
    for rotation in &chain.rotations {
        count_moves(&rotation.pairs, &mut counts);
    }
    Ok(counts)
}

/// Counts one move more for each proposer of a rotation.
fn count_moves(rotation: &[(u32, u32)], counts: &mut [u32])
    ensures { length counts.new ≡ length counts.old }
{
    for &(p, _) in rotation {
        if (p as usize) < counts.len() {
            counts[p as usize] = counts[p as usize].wrapping_add(1);
        }
    }
}

/// The places that the proposers hold, 0 for who is unmatched.
fn places_in(alloc: Global, market: &Market, m: &Pairing) -> Result<Vec<u32>, AllocError>
    requires made { IsPairingOf market.now m.now }
    ensures { IfOk result (λ at. ArePlacesOf market.now at.items) }
{
    let mut at = Vec::with_capacity(alloc, market.proposers() as usize)?;
    for p in 0..market.proposers() {
        at.push(m.place(p).unwrap_or(0))?;
    }
    Ok(at)
}

/// Gives each proposer of rotation `k` one more move, to the place of the next pair's reviewer on its list, which is looked for
/// from the place to which it was moved before.
fn add_moves(
    market: &Market,
    k: u32,
    rotation: &[(u32, u32)],
    at: &mut [u32],
    moves: &mut [Vec<(u32, u32)>],
) -> Result<(), AllocError>
    requires one_each { length market.now.proposers ≡ length moves.old }
    requires places { ArePlacesOf market.now at.old }
    requires in_range { (i : ℕ) → i < length rotation.now → proposer_at rotation.now i
        < length market.now.proposers }
    requires listed { (i : ℕ) → i < length rotation.now
        → place_of market.now.proposers (proposer_at rotation.now i) (target_at rotation.now i)
        < length (row market.now.proposers (proposer_at rotation.now i)) }
    requires distinct { (i j : ℕ) → i < j → j < length rotation.now → proposer_at rotation.now i
        ≢ proposer_at rotation.now j }
    ensures places { OnOk result (ArePlacesOf market.now at.new) }
    ensures there { OnOk result ((i : ℕ) → i < length rotation.now
        → slice_index at.new (proposer_at rotation.now i)
        ≡ place_of market.now.proposers (proposer_at rotation.now i) (target_at rotation.now i)) }
    ensures moves { OnOk result ((p : ℕ)
        → AreMovesAfter market.now k rotation.now (length rotation.now) p
        (moves_at (moves_in moves.old) p) (moves_at (moves_in moves.new) p)) }
{
    for i in 0..rotation.len() {
        let p = rotation[i].0;
        let target = rotation[next_in(i, rotation.len())].1;
        let place = place_from(market, p, at[p as usize], target);
        at[p as usize] = place;
        moves[p as usize].push((k, place))?;
    }
    Ok(())
}

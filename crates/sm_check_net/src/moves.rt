//! How rotations move their proposers, by places.

ghost use Rattle.std.specs.Prelude.{◌≡◌, ℕ, ◌+◌, ◌*◌, ◌<◌, ◌≤◌, ◌^◌, length, List, IfOk, unsigned_abs};
ghost use Rattle.sm_market.specs.Lists.{Lists};
ghost use Rattle.sm_market.specs.Pairing.{IsPairingOf};
ghost use Rattle.sm_theory.specs.Rotations.{IsExposed};
ghost use Rattle.sm_theory.specs.Weights.{gain_of};
ghost use Rattle.sm_theory.specs.Sizes.{weights_in, place_weights, AreSmall};
ghost use Rattle.sm_check_net.specs.Moves.{move_at, move_gain, IsMoveOf, IsOnList, AreRotationMoves, AreOnLists, HaveWeights};

use sm_check_decide::place_behind;
use sm_market::{Market, Pairing};
use sm_theory::Rotation;
use std::alloc::{AllocError, Global};

/// That a rotation moves a proposer from one place of its list to another. Proposers and places are numbered from 0.
#[derive(Debug, Clone, Copy, PartialEq, Eq)]
pub struct Move {
    /// The proposer that is moved.
    pub proposer: u32,
    /// The place that it leaves.
    pub from: u32,
    /// The place to which it comes.
    pub to: u32,
}

/// How a rotation moves its proposers, in the order of its pairs.
///
/// The pairing has to be made for a market of these lists, and the rotation exposed at it. Takes time in proportion to the
/// rotation and the places by which it moves its proposers, and memory in proportion to the rotation.
///
/// # Errors
///
/// `AllocError` where memory ran out, and only then.
pub fn moves_of(
    alloc: Global,
    market: &Market,
    m: &Pairing,
    rotation: &Rotation,
) -> Result<Vec<Move>, AllocError>
    requires made { IsPairingOf market.now m.now }
    requires exposed { IsExposed market.now m.now.places rotation.now.pairs.items }
    ensures moves { IfOk result (λ moves. AreRotationMoves market.now rotation.now.pairs.items
        moves.items) }
    ensures on_lists { IfOk result (λ moves. AreOnLists market.now moves.items) }
{
    let pairs = rotation.pairs.as_slice();
    let mut moves = Vec::with_capacity(alloc, pairs.len())?;
    for i in 0..pairs.len() {
        moves.push(move_of(market, m, pairs, i))?;
    }
    Ok(moves)
}

/// How a rotation moves the proposer of a pair.
fn move_of(market: &Market, m: &Pairing, pairs: &[(u32, u32)], i: usize) -> Move
    requires in_range { i < length pairs.now }
    requires made { IsPairingOf market.now m.now }
    requires exposed { IsExposed market.now m.now.places pairs.now }
    ensures is { IsMoveOf market.now pairs.now i result }
    ensures on_list { IsOnList market.now result }
{
    prove!(market.proposers() < 1 << 24);
    let proposer = pairs[i].0;
    Move {
        proposer,
        from: market.proposer_standing(m, proposer),
        to: place_behind(market, m, pairs, i),
    }
}

/// The weight of the places to which these moves lead less that of the places from which they lead. Where they are those of a
/// rotation, it is its gain.
///
/// Takes time in proportion to the moves.
pub fn gain(weights: &[Vec<i64>], moves: &[Move]) -> i64
    requires few { length moves.now < 2 ^ 24 }
    requires weights { HaveWeights (weights_in weights.now) moves.now }
    requires small { AreSmall (weights_in weights.now) }
    ensures { (l : Lists) (rotation : List (ℕ × ℕ)) → AreRotationMoves l rotation moves.now
        → result ≡ gain_of l (weights_in weights.now) rotation }
{
    let mut gain = 0;
    for i in 0..moves.len() {
        gain += gain_at(weights, moves, i);
    }
    gain
}

/// What one move adds to the weight.
fn gain_at(weights: &[Vec<i64>], moves: &[Move], i: usize) -> i64
    requires in_range { i < length moves.now }
    requires weights { HaveWeights (weights_in weights.now) moves.now }
    requires small { AreSmall (weights_in weights.now) }
    ensures gain { result ≡ move_gain (weights_in weights.now) (move_at moves.now i) }
    ensures small { unsigned_abs result ≤ 2 ^ 31 }
{
    let step = moves[i];
    let row = weights_at(weights, step.proposer);
    row[step.to as usize] - row[step.from as usize]
}

/// The weights of a proposer's places.
fn weights_at(weights: &[Vec<i64>], p: u32) -> &[i64]
    requires { p < length weights.now }
    ensures { result.now ≡ place_weights (weights_in weights.now) p }
{
    &weights[p as usize]
}

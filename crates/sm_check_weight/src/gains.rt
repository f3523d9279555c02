//! What the rotations of an answer add to the weight, and what they need.

ghost use Rattle.std.specs.Prelude.{◌≡◌, ℕ, ◌-◌, ◌<◌, List, length, map, IfOk};
ghost use Rattle.sm_lists.specs.Rows.{rows_of};
ghost use Rattle.sm_market.specs.Lists.{Lists};
ghost use Rattle.sm_theory.specs.Chains.{rotation_at};
ghost use Rattle.sm_theory.specs.Sizes.{weights_in};
ghost use Rattle.sm_theory.specs.Weights.{gain_of};
ghost use Rattle.sm_check_net.specs.Moves.{moves_in, AreMovesByRotation};
ghost use Rattle.sm_report.specs.Lines.{line_of};
ghost use Rattle.sm_check_clauses.specs.Said.{all_needs_in};
ghost use Rattle.sm_check_weight.specs.Gains.{CanBeWeighed};

use sm_check_clauses::from_zero;
use sm_check_net::{Move, gain, moves_at};
use sm_report::Line;
use std::alloc::{AllocError, Global};

/// What the last of some rotations adds to the weight, 0 where there is none.
pub(crate) fn last_gain(weights: &[Vec<i64>], moves: &[Vec<Move>]) -> i64
    requires { CanBeWeighed (weights_in weights.now) (moves_in moves.now) }
    ensures { (l : Lists) (rotations : List (List (ℕ × ℕ)))
        → AreMovesByRotation l rotations (moves_in moves.now)
        → result ≡ gain_of l (weights_in weights.now) (rotation_at rotations
        (length rotations - 1)) }
{
    if moves.is_empty() {
        return 0;
    }
    gain(weights, moves_at(moves, moves.len() - 1))
}

/// What each of some rotations adds to the weight.
pub(crate) fn gains_of(
    alloc: Global,
    weights: &[Vec<i64>],
    moves: &[Vec<Move>],
) -> Result<Vec<i64>, AllocError>
    requires { CanBeWeighed (weights_in weights.now) (moves_in moves.now) }
    ensures { IfOk result (λ gains. (l : Lists) (rotations : List (List (ℕ × ℕ)))
        → AreMovesByRotation l rotations (moves_in moves.now)
        → gains.items ≡ map (gain_of l (weights_in weights.now)) rotations) }
{
    let mut gains = Vec::with_capacity(alloc, moves.len())?;
    for k in 0..moves.len() {
        gains.push(gain(weights, moves_at(moves, k)))?;
    }
    Ok(gains)
}

/// What the rotations among some lines need, by numbers from 0.
pub(crate) fn all_needs(alloc: Global, lines: &[Line]) -> Result<Vec<Vec<u32>>, AllocError>
    ensures { IfOk result (λ needs. rows_of needs.items ≡ all_needs_in (map line_of lines.now)) }
{
    let mut needs = Vec::new(alloc);
    for line in lines {
        if let Line::Needs(_, needed) = line {
            needs.push(from_zero(alloc, needed)?)?;
        }
    }
    Ok(needs)
}

//! The matching of a set of rotations.

ghost use Rattle.std.specs.Prelude.{◌≡◌, ℕ, ◌+◌, ◌<◌, length, List, IfOk, if◌then◌else◌};
ghost use Rattle.sm_market.specs.Lists.{Lists};
ghost use Rattle.sm_market.specs.Pairing.{IsPairingOf};
ghost use Rattle.sm_theory.specs.ClosedSets.{is_member, matching_of};
ghost use Rattle.sm_check_net.specs.Moves.{move_at, moves_in, row_of_moves, AreMovesByRotation};
ghost use Rattle.sm_check_net.specs.SetPlaces.{lowered, lowered_by, worst_by, AreMade};

use crate::moves::Move;
use crate::spans::moves_at;
use sm_market::{Market, Pairing};
use std::alloc::{AllocError, Global};

/// The places of the proposers in the matching of a set of the rotations of a chain, where the moves of all rotations are given,
/// and the first matching: each proposer has the worst of its first place and of those to which members move it.
///
/// Takes time in proportion to the proposers and moves, and memory in proportion to the proposers (Gusfield and Irving 1989,
/// theorem 2.5.7).
///
/// # Errors
///
/// `AllocError` where memory ran out, and only then.
pub fn set_places(
    alloc: Global,
    market: &Market,
    first: &Pairing,
    moves: &[Vec<Move>],
    set: &[bool],
) -> Result<Vec<Option<u32>>, AllocError>
    requires made { IsPairingOf market.now first.now }
    requires set { length set.now ≡ length moves.now }
    requires proposers { (k i : ℕ) → i < length (row_of_moves (moves_in moves.now) k)
        → (move_at (row_of_moves (moves_in moves.now) k) i).proposer < length market.now.proposers }
    ensures { IfOk result (λ places. (rotations : List (List (ℕ × ℕ)))
        → AreMovesByRotation market.now rotations (moves_in moves.now)
        → places.items ≡ (matching_of market.now first.now.places rotations set.now).proposers) }
{
    let mut places = first_places(alloc, market, first)?;
    lower_all(moves, set, &mut places);
    Ok(places)
}

/// The places that the proposers hold.
fn first_places(
    alloc: Global,
    market: &Market,
    first: &Pairing,
) -> Result<Vec<Option<u32>>, AllocError>
    requires made { IsPairingOf market.now first.now }
    ensures { IfOk result (λ places. places.items ≡ first.now.places.proposers) }
{
    let mut places = Vec::with_capacity(alloc, market.proposers() as usize)?;
    for p in 0..market.proposers() {
        places.push(first.place(p))?;
    }
    Ok(places)
}

/// Gives each proposer the worst of its place and of those to which members of the set move it.
fn lower_all(moves: &[Vec<Move>], set: &[bool], places: &mut [Option<u32>])
    requires set { length set.now ≡ length moves.now }
    requires proposers { (k i : ℕ) → i < length (row_of_moves (moves_in moves.now) k)
        → (move_at (row_of_moves (moves_in moves.now) k) i).proposer < length places.old }
    ensures { AreMade places.old (λ p. worst_by p (moves_in moves.now) set.now (length moves.now))
        places.new }
{
    for k in 0..moves.len() {
        lower_if(set[k], moves_at(moves, k), places);
    }
}

/// The same for one rotation, if it is a member.
fn lower_if(is_member: bool, moves: &[Move], places: &mut [Option<u32>])
    requires { (i : ℕ) → i < length moves.now → (move_at moves.now i).proposer < length places.old }
    ensures { AreMade places.old (λ p i. if is_member then lowered_by p moves.now (length moves.now)
        i else i) places.new }
{
    if is_member {
        lower(moves, places);
    }
}

/// Gives each proposer the worst of its place and of those to which these moves lead it.
fn lower(moves: &[Move], places: &mut [Option<u32>])
    requires { (i : ℕ) → i < length moves.now → (move_at moves.now i).proposer < length places.old }
    ensures { AreMade places.old (λ p. lowered_by p moves.now (length moves.now)) places.new }
{
    for n in 0..moves.len() {
        lower_by(moves[n], places);
    }
}

/// Gives a proposer the worse of its place and of the one to which a move leads it.
fn lower_by(step: Move, places: &mut [Option<u32>])
    requires { step.proposer < length places.old }
    ensures { AreMade places.old (λ p. lowered p step) places.new }
{
    if let Some(place) = places[step.proposer as usize] {
        places[step.proposer as usize] = Some(place.max(step.to));
    }
}

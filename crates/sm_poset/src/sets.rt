//! Sets of rotations, over what a poset keeps.

ghost use Rattle.std.specs.Prelude.{◌≡◌, ℕ, ◌<◌, ◌^◌, ◌↔◌, nat_le, length, map, IsTrue, All, IfOk, slice_index_or};
ghost use Rattle.sm_market.specs.Lists.{row};
ghost use Rattle.sm_market.specs.Vectors.{rows_of};
ghost use Rattle.sm_market.specs.Matching.{held, standing};
ghost use Rattle.sm_market.specs.Pairing.{IsPairingOf};
ghost use Rattle.sm_theory.specs.ClosedSets.{IsMember};
ghost use Rattle.sm_poset.specs.Moves.{rotation_of, IsWorstOf, IsWorstPlace, moves_in, moves_at};

use sm_market::{Market, Pairing};
use std::alloc::{AllocError, Global};

/// Whether all predecessors of each member are members.
pub(crate) fn are_closed(members: &[bool], needs: &[Vec<u32>]) -> bool
    requires one_each { length needs.now ≡ length members.now }
    requires in_range { (j : ℕ) → All (λ k. k < length members.now) (row (rows_of needs.now) j) }
    ensures { IsTrue result ↔ ((j : ℕ) → j < length members.now → IsMember members.now j
        → All (λ k. IsMember members.now k) (row (rows_of needs.now) j)) }
{
    for j in 0..members.len() {
        if members[j] && !are_members(members, &needs[j]) {
            return false;
        }
    }
    true
}

/// Whether all of these rotations are members.
fn are_members(members: &[bool], rotations: &[u32]) -> bool
    requires { All (λ k. k < length members.now) rotations.now }
    ensures { IsTrue result ↔ All (λ k. IsMember members.now k) rotations.now }
{
    rotations.iter().all(|&k| members[k as usize])
}

/// For each proposer the worst of its first place and those to which members move it, `None` where it has no first place.
pub(crate) fn worst_places(
    alloc: Global,
    first: &Pairing,
    moves: &[Vec<(u32, u32)>],
    members: &[bool],
) -> Result<Vec<Option<u32>>, AllocError>
    requires one_each { length first.now.places.proposers ≡ length moves.now }
    requires few { length moves.now < 2 ^ 24 }
    requires in_range { (p a : ℕ) → a < length (moves_at (moves_in moves.now) p)
        → rotation_of (moves_at (moves_in moves.now) p) a < length members.now }
    ensures one_each { IfOk result (λ places. length places.items ≡ length moves.now) }
    ensures worst { IfOk result (λ places. (p : ℕ) → p < length moves.now
        → IsWorstPlace (held first.now.places.proposers p) (moves_at (moves_in moves.now) p)
        members.now (held places.items p)) }
{
    let mut places = Vec::with_capacity(alloc, moves.len())?;
    for p in 0..moves.len() as u32 {
        places.push(worst_place(first.place(p), &moves[p as usize], members))?;
    }
    Ok(places)
}

/// The worst of a first place, if there is one, and those to which members move a proposer.
fn worst_place(first: Option<u32>, moves: &[(u32, u32)], members: &[bool]) -> Option<u32>
    requires { (a : ℕ) → a < length moves.now → rotation_of moves.now a < length members.now }
    ensures { IsWorstPlace first moves.now members.now result }
{
    Some(worst_of(first?, moves, members))
}

/// The worst of a first place and those to which members move a proposer.
fn worst_of(first: u32, moves: &[(u32, u32)], members: &[bool]) -> u32
    requires { (a : ℕ) → a < length moves.now → rotation_of moves.now a < length members.now }
    ensures { IsWorstOf first moves.now members.now result }
{
    let mut worst = first;
    for &(rotation, place) in moves {
        if members[rotation as usize] && worst < place {
            worst = place;
        }
    }
    worst
}

/// For each of these proposers whether it stands in a pairing at the place beside it, or at a worse one.
pub(crate) fn reached(
    alloc: Global,
    market: &Market,
    m: &Pairing,
    leaders: &[(u32, u32)],
) -> Result<Vec<bool>, AllocError>
    requires made { IsPairingOf market.now m.now }
    requires in_range { (k : ℕ) → k < length leaders.now → (slice_index_or leaders.now k (0, 0)).0
        < length market.now.proposers }
    ensures { IfOk result (λ members. members.items
        ≡ map (λ leader. nat_le leader.1 (standing market.now.proposers m.now.places.proposers
        leader.0)) leaders.now) }
{
    let mut members = Vec::with_capacity(alloc, leaders.len())?;
    for &(p, place) in leaders {
        members.push(place <= market.proposer_standing(m, p))?;
    }
    Ok(members)
}

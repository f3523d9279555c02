//! The median of stable pairings, by how many of them have each rotation.

ghost use Rattle.std.specs.Prelude.{◌≡◌, length, IfOk, MatchOption};
ghost use Rattle.sm_theory.specs.ClosedSets.{IsClosed};
ghost use Rattle.sm_theory.specs.Medians.{median_set};

use crate::members::many_members;
use sm_poset::Poset;
use sm_theory::ClosedSet;
use std::alloc::{AllocError, Global};

/// The rotations that so many of `total` closed sets have that the median of their pairings is behind them: with m half of
/// `total` plus one, rounded down, those that at least `total - m + 1` sets have. `holds` says for each rotation how many sets
/// have it. `None` exactly where these rotations aren't a closed set; so never where `holds` counts closed sets, of which there
/// is one at least, and then the pairing of the result gives each proposer the partner at place m when its partners in the
/// pairings of the sets stand best first with repeats (Teo and Sethuraman 1998).
///
/// Takes time in proportion to the rotations and their predecessors, and memory in proportion to the rotations.
///
/// # Errors
///
/// `AllocError` where memory ran out, and only then.
pub fn median_of(
    alloc: Global,
    poset: &Poset,
    holds: &[u32],
    total: u32,
) -> Result<Option<ClosedSet>, AllocError>
    requires { length holds.now ≡ length poset.now.rotations }
    ensures { IfOk result (λ found. MatchOption found
        (¬ IsClosed poset.now.lists poset.now.rotations (median_set holds.now total))
        (λ set. (set.members.items ≡ median_set holds.now total)
        × IsClosed poset.now.lists poset.now.rotations set.members.items)) }
{
    let set = ClosedSet {
        members: many_members(alloc, holds, total)?,
    };
    if !poset.is_closed(&set) {
        return Ok(None);
    }
    Ok(Some(set))
}

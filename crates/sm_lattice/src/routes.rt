//! A shortest route between two stable pairings.

ghost use Rattle.std.specs.Prelude.{◌≡◌, length, map, IfOk};
ghost use Rattle.sm_theory.specs.ClosedSets.{IsClosed, matching_of};
ghost use Rattle.sm_theory.specs.Routes.{IsShortestRoute, sets_along, steps_between};

use crate::stepping::steps_of;
use sm_poset::Poset;
use sm_theory::{ClosedSet, Step};
use std::alloc::{AllocError, Global};

/// The steps from the pairing of one closed set to that of another: `Back` for each rotation of the left set that the right one
/// lacks, highest number first, and then `Forth` for each of the right one that the left one lacks, lowest first. Rotations are
/// numbered from 0.
///
/// Each pairing on the way is stable, and no route has fewer steps. Takes time and memory in proportion to the rotations.
///
/// # Errors
///
/// `AllocError` where memory ran out, and only then.
pub fn route(
    alloc: Global,
    poset: &Poset,
    left: &ClosedSet,
    right: &ClosedSet,
) -> Result<Vec<Step>, AllocError>
    requires left { IsClosed poset.now.lists poset.now.rotations left.now.members.items }
    requires right { IsClosed poset.now.lists poset.now.rotations right.now.members.items }
    ensures steps { IfOk result (λ steps. steps.items
        ≡ steps_between left.now.members.items right.now.members.items
        (length poset.now.rotations)) }
    ensures shortest { IfOk result (λ steps. IsShortestRoute poset.now.lists
        (matching_of poset.now.lists poset.now.first.places poset.now.rotations
        left.now.members.items)
        (map (matching_of poset.now.lists poset.now.first.places poset.now.rotations)
        (sets_along left.now.members.items steps.items))
        (matching_of poset.now.lists poset.now.first.places poset.now.rotations
        right.now.members.items)) }
{
    // the poset has fewer than 2^24 rotations, which `chain` says
    let _chain = poset.chain();
    steps_of(alloc, &left.members, &right.members)
}

//! Counting in how many sets each rotation is, and the rotations that enough of them have.

ghost use Rattle.std.specs.Prelude.{◌≡◌, ℕ, ◌+◌, ◌^◌, ◌<◌, Bool, true, if◌then◌else◌, length, slice_index_or, All, IfOk};
ghost use Rattle.sm_theory.specs.ClosedSets.{is_member};
ghost use Rattle.sm_theory.specs.Medians.{median_set};

use std::alloc::{AllocError, Global};

/// Counts one more set: each of its members is in one set more. `holds` says for each rotation, by its number from 0, how many
/// sets have it. Takes time in proportion to the rotations.
pub fn count_members(holds: &mut [u32], members: &[bool])
    requires each { length members.now ≡ length holds.old }
    requires few { All (λ h. h + 1 < 2 ^ 32) holds.old }
    ensures each { length holds.new ≡ length holds.old }
    ensures counted { (k : ℕ) → k < length holds.old → slice_index_or holds.new k 0
        ≡ slice_index_or holds.old k 0 + (if is_member members.now k then 1 else 0) }
{
    for k in 0..holds.len() {
        holds[k] += u32::from(members[k]);
    }
}

/// The rotations that more than half of `total` sets have: those whose matching stands in the middle. Takes time and memory in
/// proportion to the rotations.
///
/// # Errors
///
/// `AllocError` where memory ran out, and only then.
pub(crate) fn many_members(
    alloc: Global,
    holds: &[u32],
    total: u32,
) -> Result<Vec<bool>, AllocError>
    ensures { IfOk result (λ members. members.items ≡ median_set holds.now total) }
{
    let enough = total / 2 + 1;
    holds.iter().map(|&h| h >= enough).collect(alloc)
}

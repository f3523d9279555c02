//! Where the proposers end.

ghost use Rattle.std.specs.Prelude.{◌≡◌, length, IfOk};
ghost use Rattle.sm_answer_solve.specs.Ends.{end_at, ended_places};

use sm_instance::Instance;
use std::alloc::{AllocError, Global};

/// Where the proposers end: at the places of their written lists to which they have come, or which they hold, and unmatched
/// behind these.
pub(crate) fn ends(
    alloc: Global,
    instance: &Instance,
    places: &[u32],
) -> Result<Vec<Option<u32>>, AllocError>
    requires { length places.now ≡ length instance.now.proposers }
    ensures { IfOk result (λ ends. ends.items ≡ ended_places instance.now places.now) }
{
    let mut ends = Vec::with_capacity(alloc, places.len())?;
    for p in 0..instance.proposer_count() {
        ends.push(end_at(instance.proposer_len(p), places[p as usize]))?;
    }
    Ok(ends)
}

/// Where a proposer ends that has come to a place of a list of this length.
fn end_at(len: u32, place: u32) -> Option<u32>
    ensures { result ≡ end_at len place }
{
    if place < len { Some(place) } else { None }
}

//! The lists of persons.

ghost use Rattle.std.specs.Prelude.{◌≡◌, IfOk};
ghost use Rattle.sm_agents.specs.Written.{lists_of};

use sm_agents::lent_lists;
use sm_check_decide::RoomLists;
use sm_instance::Persons;
use std::alloc::{AllocError, Global};

/// The lists of persons, with who stands where on them. Takes time and memory in proportion to the persons and entries.
///
/// # Errors
///
/// `AllocError` where memory ran out, and only then.
pub(crate) fn room_lists(alloc: Global, persons: &Persons) -> Result<RoomLists<'_>, AllocError>
    ensures { IfOk result (λ rooms. rooms ≡ lists_of persons.now) }
{
    let lists = lent_lists(alloc, persons.persons())?;
    RoomLists::new(alloc, lists)
}

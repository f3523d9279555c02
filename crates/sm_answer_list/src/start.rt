//! A lister of an instance.

ghost use Rattle.std.specs.Prelude.{◌≡◌, length, IfOk};
ghost use Rattle.sm_seats.specs.Seating.{seating_of};
ghost use Rattle.sm_seats.specs.Correspondence.{IsSeating};
ghost use Rattle.sm_answer_list.specs.ListAnswer.{IsCursor};
ghost use Rattle.sm_answer_list.specs.Started.{cursor_in, IsListerOf};

use sm_answer_rotations::{conditions_of, find_poset};
use sm_answer_vectors::{copy_of_cursor, small_copy};
use sm_instance::Instance;
use sm_least::Least;
use sm_lister::Lister;
use sm_seats::Seats;
use std::alloc::{AllocError, Global};

/// Makes ready to list the rank vectors of the stable matchings that the conditions of an instance allow, behind a vector
/// where one is given, in the order of the instance.
///
/// The vector has an item for each proposer; it needn't be that of a matching. Takes the time and the memory of
/// [`find_poset`] and [`Lister::start`], and all memory of the listing but that of its lines.
///
/// # Errors
///
/// `AllocError` where memory ran out, and only then.
pub fn start_list(
    alloc: Global,
    instance: &Instance,
    seats: &Seats,
    after: &Option<Vec<u32>>,
) -> Result<Lister, AllocError>
    requires seats { seats.now ≡ seating_of instance.now }
    requires seating { IsSeating instance.now seats.now }
    requires after { IsCursor (length instance.now.proposers) (cursor_in after.now) }
    ensures { IfOk result (λ lister. IsListerOf instance.now (cursor_in after.now) lister) }
{
    let poset = find_poset(alloc, seats)?;
    let _chain = poset.chain();
    let least = Least::start(alloc, &poset, seats.levels(alloc)?)?;
    let conditions = conditions_of(alloc, instance)?;
    let order = small_copy(alloc, instance.order())?;
    let after = copy_of_cursor(alloc, after)?;
    Lister::start(alloc, least, conditions, order, after)
}

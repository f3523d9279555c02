//! The seats of an instance, where they aren't too many.

ghost use Rattle.std.specs.Prelude.{◌≡◌, IfOk, IfErr, OnOk, None};
ghost use Rattle.sm_instance.specs.declared.inputs.Input.TheVariants.{Two};
ghost use Rattle.sm_seats.specs.Counted.{AreSeatCounts};
ghost use Rattle.sm_seats.specs.SeatEntries.{AreFewSeats, first_too_many};
ghost use Rattle.sm_serve.specs.Refusals.{IsTooMany};
ghost use Rattle.sm_serve.specs.Stops.{StopsBy};

use crate::stop::Stop;
use sm_instance::Instance;
use sm_seats::{SeatCounts, SeatsFault, seat_counts};
use sm_text::RefusalKind;
use std::alloc::Global;

/// What is counted of the seats of an instance, as [`sm_seats::seat_counts`] does.
///
/// # Errors
///
/// `Refused(TooManySeats, LINE)` where they have more than 1,048,576 entries, with the line of the first reviewer with whom they
/// do; and `OutOfMemory`.
pub fn counts_of(alloc: Global, instance: &Instance) -> Result<SeatCounts, Stop>
    ensures counts { IfOk result (AreSeatCounts instance.now) }
    ensures few { OnOk result (AreFewSeats instance.now) }
    ensures none { OnOk result (first_too_many instance.now ≡ None) }
    ensures stop { IfErr result (λ stop. StopsBy (λ _. ⊥) (IsTooMany (Two instance.now)) ⊥ stop) }
{
    match seat_counts(alloc, instance) {
        Ok(counts) => Ok(counts),
        Err(SeatsFault::TooManySeats(r)) => {
            let line = instance.reviewers()[r as usize].line;
            Err(Stop::Refused(RefusalKind::TooManySeats, line))
        }
        Err(SeatsFault::OutOfMemory) => Err(Stop::OutOfMemory),
    }
}

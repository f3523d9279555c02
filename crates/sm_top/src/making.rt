//! Made instances: their texts, and their summaries.

ghost use Rattle.std.specs.Prelude.{◌≡◌, map, None, IfErr};
ghost use Rattle.sm_answer.specs.Printing.{IsShown};
ghost use Rattle.sm_tally.specs.Fold.{shown_as};
ghost use Rattle.sm_serve.specs.Refusals.{too_many_in};
ghost use Rattle.sm_top.specs.Outcome.{IsMade, IsSummary};
ghost use Rattle.sm_serve.specs.Stops.{StopsBy};
ghost use Rattle.sm_serve.specs.Wrote.{Leaves};

use crate::performing::solve_roommates;
use sm_answer_survey::survey_lines;
use sm_instance::Input;
use sm_instance_lines::instance_lines;
use sm_io::Sink;
use sm_seats::Seats;
use sm_serve::{Status, Stop, counts_of, write};
use sm_tally::Tally;
use sm_words::{Form, USUAL_LIMIT};
use std::alloc::Global;

/// Writes the text of a made instance, or its summary. Its seats never have too many entries.
pub(crate) fn show_made<K: Sink>(
    alloc: Global,
    input: &Input,
    is_summary: bool,
    form: Form,
    tallies: &mut Vec<Box<dyn Tally>>,
    sink: &mut K,
) -> Result<Status, Stop>
    requires few { too_many_in input.now ≡ None }
    ensures leaves { Leaves form (IsMade (map (λ t. shown_as (kind t) (shown t))
        tallies.old.items) input.now is_summary)
        K.held K.faults sink.old sink.new result }
    ensures stop { IfErr result (λ stop. StopsBy (λ _. ⊥) (λ _. ⊥) ⊥ stop) }
{
    if is_summary {
        return summarize(alloc, input, form, tallies, sink);
    }
    Ok(write(alloc, sink, form, Status::Done, instance_lines(input)))
}

/// Writes what `survey` answers without a limit, or `solve` for roommates.
fn summarize<K: Sink>(
    alloc: Global,
    input: &Input,
    form: Form,
    tallies: &mut Vec<Box<dyn Tally>>,
    sink: &mut K,
) -> Result<Status, Stop>
    requires few { too_many_in input.now ≡ None }
    ensures leaves { Leaves form (λ status. IsShown input.now (IsSummary (map
        (λ t. shown_as (kind t) (shown t)) tallies.old.items) input.now status))
        K.held K.faults sink.old sink.new result }
    ensures stop { IfErr result (λ stop. StopsBy (λ _. ⊥) (λ _. ⊥) ⊥ stop) }
{
    match input {
        Input::Two(instance) => {
            let counts = counts_of(alloc, instance)?;
            let seats = Seats::counted(alloc, instance, &counts)?;
            let lines = survey_lines(alloc, input, instance, &seats, USUAL_LIMIT, tallies)?;
            Ok(write(alloc, sink, form, Status::Done, lines))
        }
        Input::Room(persons) => Ok(solve_roommates(alloc, input, persons, form, sink)?),
    }
}

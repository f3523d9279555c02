//! Doing `meet` and `join`.

ghost use Rattle.std.specs.Prelude.{◌<◌, ◌+◌, ◌^◌, length, drop, IfErr};
ghost use Rattle.sm_answer.specs.Printing.{IsShown};
ghost use Rattle.sm_text.specs.Lines.{lines, texts_from};
ghost use Rattle.sm_answer_given.specs.Chosen.{IsChosenAnswer};
ghost use Rattle.sm_top.specs.Outcome.{IsGivenRefusal};
ghost use Rattle.sm_serve.specs.Stops.{StopsBy};
ghost use Rattle.sm_serve.specs.Wrote.{Leaves, With};

use crate::behind::given_behind;
use crate::counted::Counted;
use sm_answer_given::chosen_lines;
use sm_holding::choose_places;
use sm_io::Sink;
use sm_serve::{Status, Stop, write};
use sm_theory::Choice;
use std::alloc::Global;

/// Does `meet` or `join` on an instance with two sides and the two matchings behind its `end`.
pub(crate) fn choose<K: Sink>(
    alloc: Global,
    given: &Counted<'_>,
    bytes: &[u8],
    choice: Choice,
    sink: &mut K,
) -> Result<Status, Stop>
    requires { given.now.read.now.rest_line
        + length (lines (drop given.now.read.now.rest bytes.now)) < 2 ^ 32 }
    ensures leaves { Leaves given.now.form
        (With Status.Done (IsShown given.now.read.now.input (IsChosenAnswer choice (texts_from
        bytes.now given.now.read.now.rest) given.now.instance.now)))
        K.held K.faults sink.old sink.new result }
    ensures stop { IfErr result (λ stop. StopsBy (λ _. ⊥)
        (IsGivenRefusal given.now.instance.now (texts_from bytes.now given.now.read.now.rest)
        given.now.read.now.rest_line) ⊥ stop) }
{
    let instance = given.instance;
    let two = given_behind(alloc, given, bytes)?;
    let chosen = choose_places(alloc, instance, choice, &two.left, &two.right)?;
    let lines = chosen_lines(&given.read.input, instance, choice, &two, &chosen);
    Ok(write(alloc, sink, given.form, Status::Done, lines))
}

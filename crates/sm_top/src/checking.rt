//! Doing `check`.

ghost use Rattle.std.specs.Prelude.{◌≡◌, ◌≤◌, ◌<◌, List, ℕ, length, drop, IfErr, Ok};
ghost use Rattle.sm_answer.specs.Giving.{HasRest};
ghost use Rattle.sm_answer.specs.Printing.{IsShown};
ghost use Rattle.sm_instance.specs.Inputs.{right_of};
ghost use Rattle.sm_agents.specs.Written.{agent_at};
ghost use Rattle.sm_instance.specs.declared.inputs.Input.{Input};
ghost use Rattle.sm_reader.specs.InstanceText.{instance_text, read_of};
ghost use Rattle.sm_report.specs.Lines.{line_of};
ghost use Rattle.sm_report.specs.Sound.{IsLineOf};
ghost use Rattle.sm_tally.specs.Fold.{Shown};
ghost use Rattle.sm_text.specs.Limits.{most_bytes};
ghost use Rattle.sm_words.specs.Jobs.{Check};
ghost use Rattle.sm_top.specs.Accepting.{judged, accepted};
ghost use Rattle.sm_top.specs.Checked.{verdict_line, verdict_lines, status_by};
ghost use Rattle.sm_top.specs.Outcome.{IsAnswer, IsRefused};
ghost use Rattle.sm_serve.specs.Stops.{StopsBy};
ghost use Rattle.sm_serve.specs.Wrote.{Leaves};

use sm_answer::{Lines, One, Printed, Then};
use sm_cert::{CertFault, check};
use sm_check_clauses::Verdict;
use sm_instance::Input;
use sm_io::Sink;
use sm_reader::Read;
use sm_report::{Head, Line};
use sm_serve::{Status, Stop, write};
use sm_text::RefusalKind;
use sm_words::Form;
use std::alloc::Global;

/// The lines of the answer of `check`.
pub(crate) type VerdictLines<'a> = Printed<'a, Then<One, Then<One, One>>>;

/// Does `check` on an input that was read for it, and the answer behind its `end`.
pub(crate) fn check_answer<K: Sink>(
    alloc: Global,
    bytes: &[u8],
    read: &Read,
    form: Form,
    sink: &mut K,
) -> Result<Status, Stop>
    requires short { length bytes.now ≤ most_bytes }
    requires text { instance_text bytes.now ≡ Ok (read_of read.now) }
    requires accepted { accepted Check bytes.now ≡ judged Check (read_of read.now) }
    ensures leaves { (tallies : List Shown)
        → Leaves form (IsAnswer tallies Check bytes.now)
        K.held K.faults sink.old sink.new result }
    ensures stop { IfErr result (λ stop. StopsBy (λ _. ⊥) (IsRefused Check bytes.now) ⊥ stop) }
{
    let answer = text_from(bytes, read.rest);
    match check(alloc, &read.input, answer, read.rest_line) {
        Ok(verdict) => {
            let lines = verdict_lines(&read.input, verdict);
            Ok(write(alloc, sink, form, status_by(verdict), lines))
        }
        Err(CertFault::TooManySeats(r)) => {
            let line = right_line(&read.input, r);
            Err(Stop::Refused(RefusalKind::TooManySeats, line))
        }
        Err(CertFault::BadAnswer(line)) => Err(Stop::Refused(RefusalKind::BadAnswer, line)),
        Err(CertFault::OutOfMemory) => Err(Stop::OutOfMemory),
    }
}

/// The bytes from a place on.
fn text_from(bytes: &[u8], from: usize) -> &[u8]
    ensures { result.now ≡ drop from bytes.now }
{
    &bytes[from.min(bytes.len())..]
}

/// The line of a reviewer, or in roommates of a person.
fn right_line(input: &Input, at: u32) -> u32
    requires { at < length (right_of input.now) }
    ensures { result ≡ (agent_at (right_of input.now) at).line }
{
    let agents = match input {
        Input::Two(instance) => instance.reviewers(),
        Input::Room(persons) => persons.persons(),
    };
    agents[at as usize].line
}

/// The head, the verdict, and `end`.
fn verdict_lines<'a>(input: &'a Input, verdict: Verdict) -> VerdictLines<'a>
    ensures right { (lines : List (List ℕ)) → ⟦<VerdictLines<'a> as Lines>⟧.gives result lines
        → IsShown input.now (λ answer. answer ≡ verdict_lines verdict) lines }
    ensures some { HasRest (⟦<VerdictLines<'a> as Lines>⟧.gives result) }
{
    Printed {
        input,
        answer: Then {
            first: One(Some(Line::Answer(Head::Check))),
            second: Then {
                first: One(Some(verdict_line(verdict))),
                second: One(Some(Line::End)),
            },
        },
    }
}

/// `yes`, or `no` with the line at which a clause fails and why.
fn verdict_line(verdict: Verdict) -> Line
    ensures line { line_of result ≡ verdict_line verdict }
    ensures sound { (input : Input) → IsLineOf input (line_of result) }
{
    match verdict {
        Verdict::Yes => Line::Yes,
        Verdict::No(line, why) => Line::No(line, why.number()),
    }
}

/// The status that goes with a verdict.
fn status_by(verdict: Verdict) -> Status
    ensures { result ≡ status_by verdict }
{
    match verdict {
        Verdict::Yes => Status::Done,
        Verdict::No(line, why) => Status::CheckedNo(line, why),
    }
}

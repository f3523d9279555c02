//! The lines of an answer, read to the end of a text.

ghost use Rattle.std.specs.Prelude.{◌+◌, ◌<◌, ◌^◌, length, map, IfOk, IfErr};
ghost use Rattle.sm_text.specs.Lines.{lines, content};
ghost use Rattle.sm_instance.specs.Inputs.{IsInput};
ghost use Rattle.sm_report.specs.Lines.{line_of};
ghost use Rattle.sm_check_forms.specs.Forms.{AreAnswer, IsAnswerFault};
ghost use Rattle.sm_check_forms.specs.Taking.{TakesText, IsSoFar};
ghost use Rattle.sm_check_forms.specs.Seats.{AreFirsts};

use crate::answer_fault::AnswerFault;
use crate::answers::Answer;
use sm_instance::Input;
use sm_report::{Line, LineFault, read_line};
use sm_text::line_at;
use std::alloc::{AllocError, Global};

/// The lines of an answer over an instance, with the first seats of its reviewers.
///
/// Takes time linear in the text, a look-up for each name, and memory in proportion to the text.
///
/// # Errors
///
/// `Misplaced` with the first line, counted from 0, that isn't of an answer's form where it stands, or the one behind the last
/// where the closing line is missing. `OutOfMemory` where memory ran out, and only then.
pub fn read_answer(
    alloc: Global,
    input: &Input,
    firsts: &[u32],
    answer: &[u8],
) -> Result<Vec<Line>, AnswerFault>
    requires firsts { AreFirsts input.now firsts.now }
    requires few { length (lines answer.now) < 2 ^ 32 }
    ensures lines { IfOk result (λ found. AreAnswer input.now (map content (lines answer.now))
        (map line_of found.items)) }
    ensures fault { IfErr result (λ f. IsAnswerFault input.now (map content (lines answer.now)) f) }
{
    let _kind = input.kind();
    let mut taken = Answer::new(alloc);
    let mut at = 0;
    let mut number = 0;
    'lines: while let Some(line) = line_at(answer, at) {
        if !take_text(
            alloc,
            input,
            firsts,
            &mut taken,
            &answer[line.start..line.stop],
        )? {
            return Err(AnswerFault::Misplaced(number));
        }
        number += 1;
        at = line.next;
    }
    if taken.is_whole(input) {
        Ok(taken.lines)
    } else {
        Err(AnswerFault::Misplaced(number))
    }
}

/// Takes the text of the next line, and answers `false` where it can't stand there.
fn take_text(
    alloc: Global,
    input: &Input,
    firsts: &[u32],
    taken: &mut Answer,
    text: &[u8],
) -> Result<bool, AllocError>
    requires input { IsInput input.now }
    requires firsts { AreFirsts input.now firsts.now }
    requires taken { IsSoFar input.now taken.old }
    ensures { IfOk result (λ fits. TakesText input.now taken.old taken.new text.now fits) }
{
    match read_line(alloc, input, text) {
        Ok(line) => Ok(taken.take(alloc, input, firsts, line)?),
        Err(LineFault::BadAnswer) => Ok(false),
        Err(LineFault::OutOfMemory) => Err(AllocError),
    }
}

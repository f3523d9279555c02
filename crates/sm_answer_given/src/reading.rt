//! The lines of two given matchings, read to the end of a text.

ghost use Rattle.std.specs.Prelude.{◌+◌, ◌<◌, ◌^◌, length, drop, IfOk, IfErr};
ghost use Rattle.sm_text.specs.Lines.{lines, texts_from};
ghost use Rattle.sm_instance.specs.Inputs.{IsInput};
ghost use Rattle.sm_answer_given.specs.GivenText.{AreGiven};
ghost use Rattle.sm_answer_given.specs.Taking.{AreInTurn, TakesText, IsGivenReadFault};

use crate::faults::GivenFault;
use crate::pairs::{GivenPairs, Group};
use sm_instance::Input;
use sm_report::{LineFault, read_line};
use sm_text::line_at;
use std::alloc::{AllocError, Global};

/// The pairs of two matchings whose lines stand from a place of a text to its end, of which the first has this number.
pub(crate) fn read_pairs(
    alloc: Global,
    input: &Input,
    bytes: &[u8],
    from: usize,
    first_line: u32,
) -> Result<GivenPairs, GivenFault>
    requires input { IsInput input.now }
    requires few { first_line + length (lines (drop from bytes.now)) < 2 ^ 32 }
    ensures given { IfOk result (λ g. AreGiven input.now (texts_from bytes.now from) g.left.items
        g.right.items) }
    ensures fault { IfErr result (λ f. IsGivenReadFault input.now (texts_from bytes.now from)
        first_line f) }
{
    let mut pairs = GivenPairs::new(alloc);
    let mut at = from;
    let mut number = first_line;
    'lines: while let Some(line) = line_at(bytes, at) {
        if !take_text(alloc, input, &mut pairs, &bytes[line.start..line.stop])? {
            return Err(GivenFault::BadAnswer(number));
        }
        number += 1;
        at = line.next;
    }
    match pairs.group {
        Group::Ended => Ok(pairs),
        Group::Left | Group::Right => Err(GivenFault::BadAnswer(number)),
    }
}

/// Takes the text of the next line, and answers `false` where it can't stand there.
fn take_text(
    alloc: Global,
    input: &Input,
    pairs: &mut GivenPairs,
    text: &[u8],
) -> Result<bool, AllocError>
    requires input { IsInput input.now }
    requires in_turn { AreInTurn pairs.old }
    ensures { IfOk result (λ fits. TakesText input.now pairs.old pairs.new text.now fits) }
{
    match read_line(alloc, input, text) {
        Ok(line) => Ok(pairs.take(&line)?),
        Err(LineFault::BadAnswer) => Ok(false),
        Err(LineFault::OutOfMemory) => Err(AllocError),
    }
}

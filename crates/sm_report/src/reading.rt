//! Lines read from their texts.

ghost use Rattle.std.specs.Prelude.{◌≡◌, IfOk, IfErr, option_map};
ghost use Rattle.sm_instance.specs.Inputs.{kind_of};
ghost use Rattle.sm_report.specs.Lines.{line_of};
ghost use Rattle.sm_report.specs.Reading.{HasText, IsLineFault};
ghost use Rattle.sm_report.specs.Meanings.{line_behind, line_in};
ghost use Rattle.sm_text.specs.Slices.{texts_of};

use crate::faults::LineFault;
use crate::fields_of::{fields_in, headed};
use crate::head_reader::head_in;
use crate::keywords::{Keyword, keyword_named};
use crate::line_readers::{
    bare_in, flow_in, gain_in, large_in, needs_in, no_in, only_vector_in, pair_in, person_in,
    proposer_in, reviewer_in, rotation_with_pairs_in, seated_in, small_in, step_in, tally_in,
    total_in,
};
use crate::lines::Line;
use crate::list_readers::{lefts_in, rising_in};
use sm_instance::{Input, Kind};
use std::alloc::{AllocError, Global};

/// The line of an instance that has a text, without its end.
///
/// It is the inverse of [`crate::put_text`]: a line of the instance that was put is read again, and what is read was so
/// written. A line of an instance names its agents, has numbers within the bounds of their fields, and, in `needs` and
/// `taken`, numbers that rise; a first line names a side exactly where the instance has two. Fields stand with one space
/// between them, none before the first and none behind the last, and a number has no zero before its digits.
///
/// It takes time linear in the text, a look-up for each name, and memory in the length of the text.
///
/// # Errors
///
/// `BadAnswer` exactly where no line of the instance has the text. `OutOfMemory` where memory ran out, and only then.
pub fn read_line(alloc: Global, input: &Input, text: &[u8]) -> Result<Line, LineFault>
    ensures line { IfOk result (λ line. HasText input.now text.now (line_of line)) }
    ensures fault { IfErr result (λ fault. IsLineFault input.now text.now fault) }
{
    let fields = fields_in(alloc, text)?;
    match line_in(alloc, input, input.kind(), &fields)? {
        Some(line) => Ok(line),
        None => Err(LineFault::BadAnswer),
    }
}

/// The line that fields make.
fn line_in(
    alloc: Global,
    input: &Input,
    kind: Kind,
    fields: &[&[u8]],
) -> Result<Option<Line>, AllocError>
    requires { kind ≡ kind_of input.now }
    ensures { IfOk result (λ found. line_in input.now (texts_of fields.now)
        ≡ option_map line_of found) }
{
    let Some((word, more)) = headed(fields) else {
        return Ok(None);
    };
    match keyword_named(word) {
        Some(word) => line_behind(alloc, input, kind, word, more),
        None => Ok(None),
    }
}

/// The line that begins with a word and has these fields behind it.
fn line_behind(
    alloc: Global,
    input: &Input,
    kind: Kind,
    word: Keyword,
    fields: &[&[u8]],
) -> Result<Option<Line>, AllocError>
    requires { kind ≡ kind_of input.now }
    ensures { IfOk result (λ found. line_behind input.now word (texts_of fields.now)
        ≡ option_map line_of found) }
{
    match word {
        Keyword::Answer => Ok(head_in(alloc, kind, fields)?.map(Line::Answer)),
        Keyword::Pair => Ok(pair_in(input, fields).map(|(p, r)| Line::Pair(p, r))),
        Keyword::Nothing => Ok(bare_in(Line::Nothing, fields)),
        Keyword::Party => Ok(lefts_in(alloc, input, fields)?.map(Line::Party)),
        Keyword::First => Ok(seated_in(input, fields).map(|(p, seat)| Line::First(p, seat))),
        Keyword::Last => Ok(seated_in(input, fields).map(|(p, seat)| Line::Last(p, seat))),
        Keyword::Proposer => proposer_in(alloc, input, fields),
        Keyword::Reviewer => reviewer_in(alloc, input, fields),
        Keyword::Rotation => rotation_with_pairs_in(alloc, input, fields),
        Keyword::Needs => needs_in(alloc, fields),
        Keyword::Gain => Ok(gain_in(fields).map(|(i, gain)| Line::Gain(i, gain))),
        Keyword::Flow => Ok(flow_in(fields).map(|((from, to), amount)| Line::Flow(
            from, to, amount,
        ))),
        Keyword::Taken => Ok(rising_in(alloc, fields)?.map(Line::Taken)),
        Keyword::Value => Ok(large_in(fields).map(Line::Value)),
        Keyword::Cut => Ok(large_in(fields).map(Line::Cut)),
        Keyword::Total => Ok(total_in(fields).map(Line::Total)),
        Keyword::Some => Ok(pair_in(input, fields).map(|(p, r)| Line::SomePair(p, r))),
        Keyword::All => Ok(pair_in(input, fields).map(|(p, r)| Line::AllPair(p, r))),
        Keyword::Vector => Ok(only_vector_in(alloc, fields)?.map(Line::Vector)),
        Keyword::More => Ok(only_vector_in(alloc, fields)?.map(Line::More)),
        Keyword::Regret => Ok(small_in(fields).map(Line::Regret)),
        Keyword::Left => Ok(pair_in(input, fields).map(|(p, r)| Line::LeftPair(p, r))),
        Keyword::Right => Ok(pair_in(input, fields).map(|(p, r)| Line::RightPair(p, r))),
        Keyword::Listed => Ok(small_in(fields).map(Line::Listed)),
        Keyword::Tally => tally_in(alloc, fields),
        Keyword::Yes => Ok(bare_in(Line::Yes, fields)),
        Keyword::No => Ok(no_in(fields).map(|(at, reason)| Line::No(at, reason))),
        Keyword::End => Ok(bare_in(Line::End, fields)),
        Keyword::SecondGain => Ok(gain_in(fields).map(|(i, gain)| Line::SecondGain(i, gain))),
        Keyword::SecondFlow => Ok(flow_in(fields).map(|((from, to), amount)| Line::SecondFlow(
            from, to, amount,
        ))),
        Keyword::SecondValue => Ok(large_in(fields).map(Line::SecondValue)),
        Keyword::SecondCut => Ok(large_in(fields).map(Line::SecondCut)),
        Keyword::SecondTotal => Ok(total_in(fields).map(Line::SecondTotal)),
        Keyword::Back => Ok(step_in(fields).map(Line::Back)),
        Keyword::Forth => Ok(step_in(fields).map(Line::Forth)),
        Keyword::Out => Ok(person_in(input, fields).map(Line::Out)),
    }
}

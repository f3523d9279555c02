//! What is written for each line.

ghost use Rattle.std.specs.Prelude.{[], ◌∷◌, ◌++◌, map, codes};
ghost use Rattle.std.specs.List.{join_with_byte};
ghost use Rattle.sm_text.specs.Lines.{LF};
ghost use Rattle.sm_report.specs.Heads.{head_of};
ghost use Rattle.sm_report.specs.Lines.{line_of};
ghost use Rattle.sm_report.specs.Texts.{fields_of_head, text_of_line, left_name, right_name};
ghost use Rattle.sm_report.specs.Sound.{IsPrintable, ArePair};
ghost use Rattle.sm_report.specs.Fields.{text_of_field, AreShown, spaced};
ghost use Rattle.sm_report.specs.Items.{fields_of_items, AreNamed};
ghost use Rattle.sm_report.specs.Putting.{PutsText};

use crate::fields::{Field, put_field, put_fields};
use crate::heads::Head;
use crate::items::{Items, put_items};
use crate::lines::Line;
use crate::reasons::reason_name;
use sm_instance::{Input, Measure, Side};
use sm_text::LineWriter;
use std::alloc::AllocError;

/// Puts a line's text and LF behind what a writer holds.
///
/// The agents that the line names have to be there, and the reason of a `no` has to be a number from 1 to 25. A text is
/// fields with one space between them: a word, then names, seats, numbers and lists as they stand in the [`Line`]. A
/// seat is written as its reviewer's name, in hospitals with `/` and its number behind it; a list, or a vector, that is
/// empty as `-`; a vector as its numbers with commas between them; the ends of a flow as `S`, a rotation's number or
/// `T`. Takes time in the length of what is written, and no memory but what the writer needs: none where the line fits
/// the room that is left.
///
/// # Errors
///
/// `AllocError` where memory ran out, and only then. The writer then holds what it held and a front of the text.
pub fn put_line(into: &mut LineWriter, input: &Input, line: &Line) -> Result<(), AllocError>
    requires { IsPrintable input.now (line_of line.now) }
    ensures { PutsText into.old into.new (text_of_line input.now (line_of line.now)
        ++ LF ∷ []) result }
{
    put_text(into, input, line)?;
    into.put_byte(b'\n')
}

/// Puts a word and fields, with a space between each two of them.
fn put_words(
    into: &mut LineWriter,
    input: &Input,
    word: &[u8],
    fields: &[Field<'_>],
) -> Result<(), AllocError>
    requires { AreShown input.now fields.now }
    ensures { PutsText into.old into.new (join_with_byte 32
        (word.now ∷ map (text_of_field input.now) fields.now)) result }
{
    into.put_bytes(word)?;
    put_fields(into, input, fields)
}

/// Puts a word and the names of a pair, with a space between each two of them.
fn put_named(
    into: &mut LineWriter,
    input: &Input,
    word: &[u8],
    p: u32,
    r: u32,
) -> Result<(), AllocError>
    requires { ArePair input.now p r }
    ensures { PutsText into.old into.new (join_with_byte 32
        (word.now ∷ left_name input.now p ∷ right_name input.now r ∷ [])) result }
{
    into.put_bytes(word)?;
    put_names(into, input, p, r)
}

/// Puts the names of a pair, each behind a space.
#[inline(always)]
fn put_names(into: &mut LineWriter, input: &Input, p: u32, r: u32) -> Result<(), AllocError>
    requires { ArePair input.now p r }
    ensures { PutsText into.old into.new (spaced (left_name input.now p
        ∷ right_name input.now r ∷ [])) result }
{
    put_field(into, input, Field::Left(p))?;
    put_field(into, input, Field::Right(r))
}

/// Puts a word, fields and a list, with a space between each two of them.
fn put_list(
    into: &mut LineWriter,
    input: &Input,
    word: &[u8],
    fields: &[Field<'_>],
    items: Items<'_>,
) -> Result<(), AllocError>
    requires shown { AreShown input.now fields.now }
    requires named { AreNamed input.now items }
    ensures { PutsText into.old into.new (join_with_byte 32 (word.now
        ∷ (map (text_of_field input.now) fields.now ++ fields_of_items input.now items.entry)))
        result }
{
    put_words(into, input, word, fields)?;
    put_items(into, input, items)
}

/// Puts a line's text behind what a writer holds, without LF. The rest is as [`put_line`] says.
///
/// # Errors
///
/// `AllocError` where memory ran out, and only then. The writer then holds what it held and a front of the text.
pub fn put_text(into: &mut LineWriter, input: &Input, line: &Line) -> Result<(), AllocError>
    requires { IsPrintable input.now (line_of line.now) }
    ensures { PutsText into.old into.new (text_of_line input.now (line_of line.now)) result }
{
    match line {
        Line::Answer(head) => put_head(into, input, head),
        Line::Pair(p, r) => put_named(into, input, b"pair", *p, *r),
        Line::Nothing => put_words(into, input, b"none", &[]),
        Line::Party(persons) => put_list(into, input, b"party", &[], Items::Lefts(persons)),
        Line::Out(person) => put_words(into, input, b"out", &[Field::Left(*person)]),
        Line::First(p, seat) => put_words(
            into,
            input,
            b"first",
            &[Field::Left(*p), Field::At(*seat)],
        ),
        Line::Last(p, seat) => put_words(
            into,
            input,
            b"last",
            &[Field::Left(*p), Field::At(*seat)],
        ),
        Line::ProposerList(p, seats) => put_list(
            into,
            input,
            b"proposer",
            &[Field::Left(*p)],
            Items::Seats(seats),
        ),
        Line::ReviewerList(seat, proposers) => put_list(
            into,
            input,
            b"reviewer",
            &[Field::At(*seat)],
            Items::Lefts(proposers),
        ),
        Line::Rotation(i, pairs) => put_list(
            into,
            input,
            b"rotation",
            &[Field::Number(u64::from(*i))],
            Items::Pairs(pairs),
        ),
        Line::Needs(i, needed) => put_list(
            into,
            input,
            b"needs",
            &[Field::Number(u64::from(*i))],
            Items::Numbers(needed),
        ),
        Line::Gain(i, gain) => put_words(
            into,
            input,
            b"gain",
            &[Field::Number(u64::from(*i)), Field::Signed(*gain)],
        ),
        Line::SecondGain(i, gain) => put_words(
            into,
            input,
            b"gain2",
            &[Field::Number(u64::from(*i)), Field::Signed(*gain)],
        ),
        Line::Flow(from, to, amount) => put_words(
            into,
            input,
            b"flow",
            &[
                Field::FlowEnd(*from),
                Field::FlowEnd(*to),
                Field::Number(*amount),
            ],
        ),
        Line::SecondFlow(from, to, amount) => put_words(
            into,
            input,
            b"flow2",
            &[
                Field::FlowEnd(*from),
                Field::FlowEnd(*to),
                Field::Number(*amount),
            ],
        ),
        Line::Taken(taken) => put_list(into, input, b"taken", &[], Items::Numbers(taken)),
        Line::Value(value) => put_words(into, input, b"value", &[Field::Number(*value)]),
        Line::SecondValue(value) => put_words(into, input, b"value2", &[Field::Number(*value)]),
        Line::Cut(value) => put_words(into, input, b"cut", &[Field::Number(*value)]),
        Line::SecondCut(value) => put_words(into, input, b"cut2", &[Field::Number(*value)]),
        Line::Total(weight) => put_words(into, input, b"total", &[Field::Signed(*weight)]),
        Line::SecondTotal(weight) => put_words(into, input, b"total2", &[Field::Signed(*weight)]),
        Line::SomePair(p, r) => put_named(into, input, b"some", *p, *r),
        Line::AllPair(p, r) => put_named(into, input, b"all", *p, *r),
        Line::Vector(vector) => put_words(into, input, b"vector", &[Field::Vector(vector)]),
        Line::More(vector) => put_words(into, input, b"more", &[Field::Vector(vector)]),
        Line::Regret(regret) => put_words(
            into,
            input,
            b"regret",
            &[Field::Number(u64::from(*regret))],
        ),
        Line::LeftPair(p, r) => put_named(into, input, b"left", *p, *r),
        Line::RightPair(p, r) => put_named(into, input, b"right", *p, *r),
        Line::Back(i) => put_words(into, input, b"back", &[Field::Number(u64::from(*i))]),
        Line::Forth(i) => put_words(into, input, b"forth", &[Field::Number(u64::from(*i))]),
        Line::Listed(count) => put_words(
            into,
            input,
            b"listed",
            &[Field::Number(u64::from(*count))],
        ),
        Line::TallyLine(tag, figures) => put_list(
            into,
            input,
            b"tally",
            &[Field::Number(u64::from(*tag))],
            Items::Figures(figures),
        ),
        Line::Yes => put_words(into, input, b"yes", &[]),
        Line::No(at, reason) => put_words(
            into,
            input,
            b"no",
            &[
                Field::Number(u64::from(*at)),
                Field::Text(reason_name(*reason)),
            ],
        ),
        Line::End => put_words(into, input, b"end", &[]),
    }
}

/// Puts the text of a first line: the command, and its operands with what wasn't said filled in.
fn put_head(into: &mut LineWriter, input: &Input, head: &Head) -> Result<(), AllocError>
    ensures { PutsText into.old into.new (join_with_byte 32
        (codes "answer" ∷ fields_of_head (head_of head.now))) result }
{
    match head {
        Head::Solve(None) => put_answer(into, input, &[Field::Text(b"solve")]),
        Head::Solve(Some(Side::Proposers)) => put_answer(
            into,
            input,
            &[Field::Text(b"solve"), Field::Text(b"side=proposers")],
        ),
        Head::Solve(Some(Side::Reviewers)) => put_answer(
            into,
            input,
            &[Field::Text(b"solve"), Field::Text(b"side=reviewers")],
        ),
        Head::Reduced => put_answer(into, input, &[Field::Text(b"reduced")]),
        Head::Rotations => put_answer(into, input, &[Field::Text(b"rotations")]),
        Head::Pairs => put_answer(into, input, &[Field::Text(b"pairs")]),
        Head::List(None, limit) => put_answer(
            into,
            input,
            &[Field::Text(b"list"), Field::Limit(*limit)],
        ),
        Head::List(Some(after), limit) => put_answer(
            into,
            input,
            &[
                Field::Text(b"list"),
                Field::After(after),
                Field::Limit(*limit),
            ],
        ),
        Head::Regret => put_answer(into, input, &[Field::Text(b"regret")]),
        Head::Weight(Measure::Ranks) => put_answer(
            into,
            input,
            &[Field::Text(b"weight"), Field::Text(b"by=ranks")],
        ),
        Head::Weight(Measure::Given) => put_answer(
            into,
            input,
            &[Field::Text(b"weight"), Field::Text(b"by=given")],
        ),
        Head::Meet => put_answer(into, input, &[Field::Text(b"meet")]),
        Head::Join => put_answer(into, input, &[Field::Text(b"join")]),
        Head::Survey(limit) => put_answer(
            into,
            input,
            &[Field::Text(b"survey"), Field::Limit(*limit)],
        ),
        Head::Check => put_answer(into, input, &[Field::Text(b"check")]),
        Head::Median => put_answer(into, input, &[Field::Text(b"median")]),
        Head::Route => put_answer(into, input, &[Field::Text(b"route")]),
        Head::Rest => put_answer(into, input, &[Field::Text(b"rest")]),
    }
}

/// Puts `answer` and fields.
fn put_answer(into: &mut LineWriter, input: &Input, fields: &[Field<'_>]) -> Result<(), AllocError>
    requires { AreShown input.now fields.now }
    ensures { PutsText into.old into.new (join_with_byte 32
        (codes "answer" ∷ map (text_of_field input.now) fields.now)) result }
{
    put_words(into, input, b"answer", fields)
}

//! What is printed for each line of an instance.

ghost use Rattle.std.specs.Prelude.{◌≡◌, ◌≤◌, ◌<◌, ◌-◌, ◌++◌, ◌∷◌, [], true, is_some, codes, length, slice_get};
ghost use Rattle.std.specs.Fmt.{signed_decimal};
ghost use Rattle.std.specs.Option.{option_map};
ghost use Rattle.sm_text.specs.Lines.{LF};
ghost use Rattle.sm_instance.specs.Inputs.{left_of, right_of};
ghost use Rattle.sm_report.specs.Putting.{PutsText};
ghost use Rattle.sm_instance_lines.specs.Names.{said_of, said_pair, said_weight};
ghost use Rattle.sm_instance_lines.specs.Printed.{header_line, pair_text, second_text, weight_line, lines_of};
ghost use Rattle.sm_instance_lines.specs.Lines.{line_text, IsPair, NamesAgents};
ghost use Rattle.sm_instance_lines.specs.Putting.{PutsIfAny};

use crate::finding::{InstanceLine, line_at};
use crate::formats::format;
use crate::naming::{lefts, put_names, put_proposer, put_reviewer, rights};
use sm_instance::{Input, Kind};
use sm_text::LineWriter;
use std::alloc::AllocError;

/// Puts line `at`, counted from 1, of the printed instance and LF behind what a writer holds, and answers true. It answers
/// false exactly where the instance has fewer lines, and then does nothing.
///
/// The lines are the header `stable 1` or `stable 2` with the kind, a line `p` for each proposer or person and a line `r` for
/// each reviewer with their lists, lines `weight`, `force` and `forbid` in the order of the instance, a line `order` with all
/// proposers where their order isn't that of their lines, and `end`. A weight has its second number where it isn't 0. The
/// header is of format 2 exactly where there is a line `order` or a second number. One space stands between
/// tokens, but none before `:`. In hospitals each reviewer has its capacity, as in `r h [2]: a b`. Takes time in the length of
/// what is written, and no memory but what the writer needs: none where the line fits the room that is left.
///
/// # Errors
///
/// `AllocError` where memory ran out, and only then. The writer then holds what it held and a front of the line's text.
pub fn put_instance_line(into: &mut LineWriter, input: &Input, at: u32) -> Result<bool, AllocError>
    requires { 1 ≤ at }
    ensures { PutsIfAny into.old into.new (option_map (λ line. line ++ LF ∷ [])
        (slice_get (lines_of input.now) (at - 1))) result }
{
    if !put_text_at(into, input, at as usize - 1)? {
        return Ok(false);
    }
    into.put_bytes(b"\n")?;
    Ok(true)
}

/// Puts the line at a place, from 0, without LF. The rest is as [`put_instance_line`] says.
pub(crate) fn put_text_at(
    into: &mut LineWriter,
    input: &Input,
    place: usize,
) -> Result<bool, AllocError>
    ensures { PutsIfAny into.old into.new (slice_get (lines_of input.now) place) result }
{
    match line_at(input, place) {
        Some(line) => {
            put_line(into, input, line)?;
            Ok(true)
        }
        None => Ok(false),
    }
}

/// Puts what a line says of the instance, without its end.
fn put_line(into: &mut LineWriter, input: &Input, line: InstanceLine) -> Result<(), AllocError>
    requires { NamesAgents input.now line }
    ensures { PutsText into.old into.new (line_text input.now line) result }
{
    match line {
        InstanceLine::Header => put_header(into, format(input), input.kind()),
        InstanceLine::Proposer(p) => {
            put_proposer(into, &lefts(input)[p as usize], rights(input))
        }
        InstanceLine::Reviewer(r) => put_reviewer(
            into,
            input.kind(),
            &rights(input)[r as usize],
            lefts(input),
        ),
        InstanceLine::Weight(p, r, weight, second) => {
            put_weight(into, input, p, r, weight, second)
        }
        InstanceLine::Force(p, r) => put_pair(into, input, b"force ", p, r),
        InstanceLine::Forbid(p, r) => put_pair(into, input, b"forbid ", p, r),
        InstanceLine::Order => put_order(into, input),
        InstanceLine::End => into.put_bytes(b"end"),
    }
}

/// Puts the header of a format and a kind behind what a writer holds. Takes constant time, and no memory but what the writer needs.
///
/// # Errors
///
/// `AllocError` where memory ran out, and only then. The writer then holds what it held and a front of the header.
pub fn put_header(into: &mut LineWriter, format: u32, kind: Kind) -> Result<(), AllocError>
    ensures { PutsText into.old into.new (header_line format kind) result }
{
    into.put_bytes(b"stable ")?;
    into.put_number(u64::from(format))?;
    into.put_bytes(b" ")?;
    into.put_bytes(kind.name().as_bytes())
}

/// Puts a pair and its weights.
fn put_weight(
    into: &mut LineWriter,
    input: &Input,
    p: u32,
    r: u32,
    weight: i64,
    second: i64,
) -> Result<(), AllocError>
    requires { IsPair input.now p r }
    ensures { PutsText into.old into.new (weight_line
        (said_weight (left_of input.now) (right_of input.now) ((p, r, weight), second))) result }
{
    put_pair(into, input, b"weight ", p, r)?;
    put_weights(into, weight, second)
}

/// Puts the weight of a pair, and its second weight where it isn't 0, each behind a space.
fn put_weights(into: &mut LineWriter, weight: i64, second: i64) -> Result<(), AllocError>
    ensures { PutsText into.old into.new (codes " " ++ signed_decimal weight ++ second_text second)
        result }
{
    put_spaced(into, weight)?;
    if second == 0 {
        return Ok(());
    }
    put_spaced(into, second)
}

/// Puts a number behind a space.
fn put_spaced(into: &mut LineWriter, number: i64) -> Result<(), AllocError>
    ensures { PutsText into.old into.new (codes " " ++ signed_decimal number) result }
{
    into.put_bytes(b" ")?;
    into.put_signed(number)
}

/// Puts the order of the proposers, where it isn't that of their numbers.
fn put_order(into: &mut LineWriter, input: &Input) -> Result<(), AllocError>
    requires { is_some (said_of input.now).order ≡ true }
    ensures { PutsText into.old into.new (line_text input.now InstanceLine.Order) result }
{
    match input {
        Input::Two(instance) => {
            into.put_bytes(b"order")?;
            put_names(into, instance.proposers(), instance.order())
        }
        Input::Room(_) => Ok(()),
    }
}

/// Puts a word and the names of a pair.
fn put_pair(
    into: &mut LineWriter,
    input: &Input,
    word: &[u8],
    p: u32,
    r: u32,
) -> Result<(), AllocError>
    requires { IsPair input.now p r }
    ensures { PutsText into.old into.new (word.now ++ pair_text
        (said_pair (left_of input.now) (right_of input.now) (p, r))) result }
{
    into.put_bytes(word)?;
    into.put_bytes(input.left_name(p))?;
    into.put_bytes(b" ")?;
    into.put_bytes(input.right_name(r))
}

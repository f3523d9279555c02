//! The first lines of answers, read.

ghost use Rattle.std.specs.Prelude.{◌≡◌, IfOk, MatchOption, option_map};
ghost use Rattle.sm_report.specs.Heads.{head_of};
ghost use Rattle.sm_report.specs.Meanings.{behind_word, limit_in, after_in, bare_head_in, side_in, measure_in, operand_head_in, list_head_in, head_in};
ghost use Rattle.sm_text.specs.Slices.{texts_of};

use crate::heads::Head;
use crate::values::{limit_named, measure_named, side_named};
use crate::vectors::vector_in;
use sm_instance::{Kind, Measure, Side};
use sm_text::is;
use std::alloc::{AllocError, Global};

/// What the fields behind `answer` say: a command with its operands.
#[tactic(auto, unfolding(crate::specs::Meanings::head_in))]
pub(crate) fn head_in(
    alloc: Global,
    kind: Kind,
    fields: &[&[u8]],
) -> Result<Option<Head>, AllocError>
    ensures { IfOk result (λ found. head_in kind (texts_of fields.now) ≡ option_map head_of found) }
{
    match fields {
        [] => Ok(None),
        [command] => Ok(bare_head_in(kind, command)),
        [command, operand] => Ok(operand_head_in(kind, command, operand)),
        [command, after, limit] => list_head_in(alloc, command, after, limit),
        _ => Ok(None),
    }
}

/// A command without operands.
fn bare_head_in(kind: Kind, command: &[u8]) -> Option<Head>
    ensures { bare_head_in kind command.now ≡ option_map head_of result }
{
    if kind == Kind::Roommates && is(command, b"solve") {
        Some(Head::Solve(None))
    } else if is(command, b"reduced") {
        Some(Head::Reduced)
    } else if is(command, b"rotations") {
        Some(Head::Rotations)
    } else if is(command, b"pairs") {
        Some(Head::Pairs)
    } else if is(command, b"regret") {
        Some(Head::Regret)
    } else if is(command, b"meet") {
        Some(Head::Meet)
    } else if is(command, b"join") {
        Some(Head::Join)
    } else if is(command, b"check") {
        Some(Head::Check)
    } else if is(command, b"median") {
        Some(Head::Median)
    } else if is(command, b"route") {
        Some(Head::Route)
    } else if is(command, b"rest") {
        Some(Head::Rest)
    } else {
        None
    }
}

/// A command with one operand.
fn operand_head_in(kind: Kind, command: &[u8], operand: &[u8]) -> Option<Head>
    ensures { operand_head_in kind command.now operand.now ≡ option_map head_of result }
{
    if is(command, b"solve") {
        Some(Head::Solve(Some(side_in(kind, operand)?)))
    } else if is(command, b"weight") {
        Some(Head::Weight(measure_in(operand)?))
    } else if is(command, b"list") {
        Some(Head::List(None, limit_in(operand)?))
    } else if is(command, b"survey") {
        Some(Head::Survey(limit_in(operand)?))
    } else {
        None
    }
}

/// `list` with the vector behind which it begins, and its limit.
fn list_head_in(
    alloc: Global,
    command: &[u8],
    after: &[u8],
    limit: &[u8],
) -> Result<Option<Head>, AllocError>
    ensures { IfOk result (λ found. list_head_in command.now after.now limit.now
        ≡ option_map head_of found) }
{
    if !is(command, b"list") {
        return Ok(None);
    }
    match (after_in(alloc, after)?, limit_in(limit)) {
        (Some(after), Some(limit)) => Ok(Some(Head::List(Some(after), limit))),
        _ => Ok(None),
    }
}

/// The side that an operand of `solve` names, which an instance with two sides alone has.
fn side_in(kind: Kind, operand: &[u8]) -> Option<Side>
    ensures { result ≡ side_in kind operand.now }
{
    if kind == Kind::Roommates {
        return None;
    }
    side_named(behind(operand, b"side=")?)
}

/// The measure that an operand of `weight` names.
fn measure_in(operand: &[u8]) -> Option<Measure>
    ensures { result ≡ measure_in operand.now }
{
    measure_named(behind(operand, b"by=")?)
}

/// The limit that an operand gives.
fn limit_in(operand: &[u8]) -> Option<u32>
    ensures { result ≡ limit_in operand.now }
{
    limit_named(behind(operand, b"limit=")?)
}

/// The vector that an operand gives.
fn after_in(alloc: Global, operand: &[u8]) -> Result<Option<Vec<u32>>, AllocError>
    ensures { IfOk result (λ found. after_in operand.now ≡ option_map (λ v. v.items) found) }
{
    match behind(operand, b"after=") {
        Some(text) => vector_in(alloc, text),
        None => Ok(None),
    }
}

/// What stands behind an operand's name and `=`.
fn behind<'a>(operand: &'a [u8], name: &[u8]) -> Option<&'a [u8]>
    ensures { MatchOption result (behind_word name.now operand.now
        ≡ None) (λ x. behind_word name.now operand.now ≡ Some x.now) }
{
    operand.strip_prefix(name)
}

//! The reading of a text.

ghost use Rattle.std.specs.Prelude.{◌≡◌, ◌≢◌, ◌<◌, ◌≤◌, ◌+◌, length, drop, IfOk, IfErr, Ok, None};
ghost use Rattle.std.specs.List.{list_any};
ghost use Rattle.sm_keys.specs.Tokens.{is_bad};
ghost use Rattle.sm_text.specs.Limits.{most_bytes};
ghost use Rattle.sm_text.specs.Lines.{lines};
ghost use Rattle.sm_instance.specs.Inputs.{IsInput};
ghost use Rattle.sm_instance.specs.declared.inputs.Input.TheVariants.{Two};
ghost use Rattle.sm_agents.specs.Named.{nothing};
ghost use Rattle.sm_text.specs.Tokens.{tokens};
ghost use Rattle.sm_reader.specs.Judging.{heading_of, verdict_on};
ghost use Rattle.sm_reader.specs.InstanceText.{instance_text, read_of, IsTextFault, before_header, behind_header, unknown_lines, least, input_of, two_sides};
ghost use Rattle.sm_text.specs.Slices.{texts_of};
ghost use Rattle.sm_reader.specs.Draft.{said_of, IsDraft, JudgesTokens, KeepsOrder, IsRefusedBy};
ghost use Rattle.sm_reader.specs.Numbering.{IsReady, IsUnknownFault};
ghost use Rattle.sm_reader.specs.Reading.{IsHeaded, IsFaultOf, heading_is, IsHeadingFault, EndsAt, Finishes};

use crate::draft::{Draft, Order, empty};
use crate::faults::TextFault;
use crate::header::Header;
use crate::judging::{Judged, Step, judge};
use crate::listed::{add_line, agent_line};
use crate::numbering::{first_unknown, numbered_persons, numbered_sides};
use sm_forms::header_of;
use sm_instance::{Input, Instance, Kind, Persons};
use sm_keys::{cut_enough, line_from};
use sm_text::{MOST_BYTES, RefusalKind, TextHash};
use std::alloc::{AllocError, Global};
use std::mem::swap;

/// So many bytes have too few names for look-ups of chosen ones to cost time.
const FEW_BYTES: usize = 65_536;

/// An instance that was read, and what stands behind it.
#[derive(Drop)]
pub struct Read {
    /// The instance.
    pub input: Input,
    /// The line of the header. Lines are counted from 1 over the whole text.
    pub header_line: u32,
    /// The place behind the line `end` with its line end, counted in bytes from 0.
    pub rest: usize,
    /// The number of the line that begins at that place.
    pub rest_line: u32,
}

/// Reads the text of an instance, up to the line `end`.
///
/// Agents get their numbers in the order of their lines. Names that stand before their declarations are found, and the
/// text behind the line `end` isn't looked at. In format 2 a line that uses a master list is judged as though the names stood in
/// it, and the instance has the names themselves. It takes time and memory in proportion to the text and to all lists.
///
/// # Errors
///
/// `Refused` names the first line that has a fault, and of all faults of that line the first in the order in which
/// [`RefusalKind`] has them. A missing `end` counts as a fault of the line behind the last one. Only where there is no
/// such fault, `UnknownName` names the first line that lists, pairs or orders an agent which isn't declared. A text of more than
/// 16,777,216 bytes is refused at line 0.
pub fn read_instance(alloc: Global, bytes: &[u8]) -> Result<Read, TextFault>
    ensures read { IfOk result (λ read. instance_text bytes.now ≡ Ok (read_of read)) }
    ensures sound { IfOk result (λ read. IsInput read.input) }
    ensures fault { IfErr result (λ f. IsTextFault bytes.now f) }
{
    if bytes.len() > MOST_BYTES {
        return Err(TextFault::Refused(RefusalKind::TooLong, 0));
    }
    let header = read_header(alloc, bytes)?;
    read_lines(alloc, bytes, header)
}

/// What the first line that isn't blank says, and where the lines behind it begin.
fn read_header(alloc: Global, bytes: &[u8]) -> Result<Header, TextFault>
    requires { length bytes.now ≤ most_bytes }
    ensures header { IfOk result (λ header. IsHeaded bytes.now header) }
    ensures fault { IfErr result (λ f. IsFaultOf (before_header 1 0 (lines bytes.now)) f) }
{
    let mut tokens = Vec::new(alloc);
    let mut at = 0;
    let mut line = 1;
    'lines: while let Some((text, next)) = line_from(bytes, at) {
        let found = cut_enough(text, &mut tokens)?;
        if let Some((kind, format)) = heading(&tokens, found.bad, line)? {
            return Ok(Header {
                kind,
                format,
                line,
                next,
            });
        }
        at = next;
        line += 1;
    }
    Err(TextFault::Refused(RefusalKind::BadHeader, line))
}

/// The kind and the format that a line names which stands before the header or is it, `None` where it has no token.
fn heading(tokens: &[&[u8]], bad: bool, line: u32) -> Result<Option<(Kind, u32)>, TextFault>
    requires { bad ≡ list_any is_bad (texts_of tokens.now) }
    ensures heading { IfOk result (λ header. heading_of (texts_of tokens.now)
        ≡ heading_is header) }
    ensures fault { IfErr result (λ f. IsHeadingFault (heading_of (texts_of tokens.now)) line f) }
{
    if tokens.is_empty() {
        return Ok(None);
    }
    if bad {
        return Err(TextFault::Refused(RefusalKind::BadByte, line));
    }
    match header_of(tokens) {
        Some(header) => Ok(Some(header)),
        None => Err(TextFault::Refused(RefusalKind::BadHeader, line)),
    }
}

/// Where an instance ends: the place behind its line `end`, and the number of the line that begins there.
#[derive(Clone, Copy)]
struct End {
    rest: usize,
    rest_line: u32,
}

/// What is kept from line to line for its memory alone.
#[derive(Drop)]
struct Scratch<'a> {
    /// Tokens of a line.
    tokens: Vec<&'a [u8]>,
    /// Indexes of the names on a list.
    indexes: Vec<u32>,
}

/// Reads the lines behind the header.
fn read_lines(alloc: Global, bytes: &[u8], header: Header) -> Result<Read, TextFault>
    requires short { length bytes.now ≤ most_bytes }
    requires headed { IsHeaded bytes.now header }
    ensures sound { IfOk result (λ read. IsInput read.input) }
    ensures read { IfOk result (λ read. behind_header header.kind header.format header.line nothing
        (header.line + 1) header.next (lines (drop header.next bytes.now)) ≡ Ok (read_of read)) }
    ensures fault { IfErr result (λ f. IsFaultOf (behind_header header.kind header.format header.line nothing
        (header.line + 1) header.next (lines (drop header.next bytes.now))) f) }
{
    let mut draft = empty(alloc, bytes)?;
    match judge_lines(alloc, bytes, header, &mut draft) {
        Ok(end) => {
            let hash = hash_for(&draft, bytes.len() - end.rest);
            let input = finished(alloc, hash, header.kind, draft)?;
            Ok(Read {
                input,
                header_line: header.line,
                rest: end.rest,
                rest_line: end.rest_line,
            })
        }
        Err(fault) => {
            drop(draft);
            Err(fault)
        }
    }
}

/// Judges the lines behind the header, up to the line `end`.
fn judge_lines<'a>(
    alloc: Global,
    bytes: &'a [u8],
    header: Header,
    draft: &mut Draft<'a>,
) -> Result<End, TextFault>
    requires short { length bytes.now ≤ most_bytes }
    requires headed { IsHeaded bytes.now header }
    requires said { said_of header.kind draft.old ≡ nothing }
    requires draft { IsDraft header.kind (header.line + 1) draft.old }
    ensures ends { IfOk result (λ end. EndsAt bytes.now header draft.new end) }
    ensures fault { IfErr result (λ f. IsFaultOf (behind_header header.kind header.format header.line nothing
        (header.line + 1) header.next (lines (drop header.next bytes.now))) f) }
{
    let mut scratch = Scratch {
        tokens: Vec::new(alloc),
        indexes: Vec::new(alloc),
    };
    let mut at = header.next;
    let mut line = header.line + 1;
    'lines: while let Some((text, next)) = line_from(bytes, at) {
        match judge_line(alloc, header, draft, line, text, &mut scratch)? {
            Step::Goes => {
                at = next;
                line += 1;
            }
            Step::Stops => {
                return Ok(End {
                    rest: next,
                    rest_line: line + 1,
                });
            }
        }
    }
    Err(TextFault::Refused(RefusalKind::MissingEnd, line))
}

/// Judges a line, and adds what it says. The line of an agent is mostly added as it is read, and else judged by its tokens.
fn judge_line<'a>(
    alloc: Global,
    header: Header,
    draft: &mut Draft<'a>,
    line: u32,
    text: &'a [u8],
    scratch: &mut Scratch<'a>,
) -> Result<Step, TextFault>
    requires { IsDraft header.kind line draft.old }
    ensures judged { IfOk result (λ step. JudgesTokens header.kind header.format line
        (tokens text.now) draft.old draft.new step) }
    ensures refused { IfErr result (λ f. IsRefusedBy
        (verdict_on header.kind header.format (said_of header.kind draft.old) line
        (tokens text.now)) line f) }
{
    let Some(agent) = agent_line(header.kind, text) else {
        return judge_tokens(alloc, header, draft, line, text, &mut scratch.tokens);
    };
    if add_line(alloc, header.kind, draft, line, agent, &mut scratch.indexes)? {
        return Ok(Step::Goes);
    }
    judge_tokens(alloc, header, draft, line, text, &mut scratch.tokens)
}

/// Judges a line by its tokens, and adds what it says.
fn judge_tokens<'a>(
    alloc: Global,
    header: Header,
    draft: &mut Draft<'a>,
    line: u32,
    text: &'a [u8],
    kept: &mut Vec<&'a [u8]>,
) -> Result<Step, TextFault>
    requires { IsDraft header.kind line draft.old }
    ensures judged { IfOk result (λ step. JudgesTokens header.kind header.format line
        (tokens text.now) draft.old draft.new step) }
    ensures refused { IfErr result (λ f. IsRefusedBy
        (verdict_on header.kind header.format (said_of header.kind draft.old) line
        (tokens text.now)) line f) }
{
    let found = cut_enough(text, kept)?;
    match judge(alloc, header, draft, line, kept, found)? {
        Judged::Added => Ok(Step::Goes),
        Judged::Orders => {
            keep_order(draft, line, kept);
            Ok(Step::Goes)
        }
        Judged::Ends => Ok(Step::Stops),
    }
}

/// Keeps the tokens of the line that orders proposers, and leaves none.
fn keep_order<'a>(draft: &mut Draft<'a>, line: u32, kept: &mut Vec<&'a [u8]>)
    ensures { KeepsOrder line (texts_of kept.old.items) draft.old draft.new }
{
    let mut tokens = Vec::new(*kept.allocator());
    swap(kept, &mut tokens);
    draft.order = Some(Order { tokens, line });
}

/// The hashes for the names and pairs of an instance, behind which so many bytes stand. The text's are wanted where it has
/// weights, and where many names may stand behind it, each of which will be looked for.
fn hash_for(draft: &Draft<'_>, behind: usize) -> TextHash {
    if draft.weights.is_empty() && behind > FEW_BYTES {
        TextHash::of(draft.text)
    } else {
        *draft.weights.hasher()
    }
}

/// The instance that a text says whose lines have no fault.
fn finished(alloc: Global, hash: TextHash, kind: Kind, draft: Draft<'_>) -> Result<Input, TextFault>
    requires { IsReady kind draft }
    ensures finished { IfOk result (λ input. Finishes kind draft.entry input) }
    ensures fault { IfErr result (λ f. IsUnknownFault kind draft.entry f) }
{
    if let Some(line) = first_unknown(kind, &draft) {
        drop(draft);
        return Err(TextFault::Refused(RefusalKind::UnknownName, line));
    }
    match kind {
        Kind::Roommates => Ok(persons(alloc, hash, draft)?),
        _ => Ok(two_sides(alloc, hash, kind, draft)?),
    }
}

/// The roommates of a draft in which every name has its line.
fn persons(alloc: Global, hash: TextHash, draft: Draft<'_>) -> Result<Input, AllocError>
    requires ready { IsReady Kind.Roommates draft }
    requires known { least (unknown_lines Kind.Roommates (said_of Kind.Roommates draft)) ≡ None }
    ensures sound { IfOk result (λ input. IsInput input) }
    ensures persons { IfOk result (λ input. input ≡ input_of Kind.Roommates
        (said_of Kind.Roommates draft.entry)) }
{
    let persons = numbered_persons(alloc, draft)?;
    Ok(Input::Room(Persons::held(alloc, hash, persons)?))
}

/// The two sides, with their weights and conditions.
fn two_sides(
    alloc: Global,
    hash: TextHash,
    kind: Kind,
    draft: Draft<'_>,
) -> Result<Input, AllocError>
    requires two_sided { kind ≢ Kind.Roommates }
    requires ready { IsReady kind draft }
    requires known { least (unknown_lines kind (said_of kind draft)) ≡ None }
    ensures sound { IfOk result (λ input. IsInput input) }
    ensures sides { IfOk result (λ input. input ≡ Two (two_sides kind (said_of kind draft.entry))) }
{
    let sides = numbered_sides(alloc, kind, draft)?;
    Ok(Input::Two(Instance::held(alloc, hash, sides)?))
}

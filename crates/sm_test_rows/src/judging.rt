//! Whether a worked run comes out as the table says.

use crate::bytes::{bytes_of, cut_in_line, filled, front_of, put_behind};
use crate::case::{Case, Faults, Input, Output};
use crate::running::{Failing, Ran, run_once};
use std::alloc::{AllocError, Global};

/// The bytes of the longest input that is also read in small pieces.
const SHORT: usize = 4_096;

/// The bytes of a small piece.
const PIECE: usize = 7;

/// The number of the status `Done`.
const DONE: u8 = 0;

/// The reads of a run after which none is tried any more.
const MOST_READS: u64 = 1_000;

/// The bytes that are shown of what was written.
const SHOWN: usize = 200;

/// What the case before read and wrote.
#[derive(Drop)]
pub struct Before {
    input: Vec<u8>,
    written: Vec<u8>,
}

impl Before {
    /// Nothing.
    pub fn new(alloc: Global) -> Before {
        Before {
            input: Vec::new(alloc),
            written: Vec::new(alloc),
        }
    }
}

/// What is otherwise than the case says, if anything is. Leaves what it read and wrote in `before`.
pub fn judge(
    alloc: Global,
    case: &Case,
    before: &mut Before,
) -> Result<Option<String>, AllocError> {
    if let Some(input) = &case.input {
        before.input = input_of(alloc, input, &before.input)?;
    }
    if let Some(behind) = case.behind {
        put_behind(&mut before.input, behind, &before.written)?;
    }
    match case.faults {
        Some(Faults::EachRead) => judge_reads(alloc, case, &before.input),
        Some(Faults::EachWrite) => judge_writes(alloc, case, &before.input),
        Some(Faults::Read(call)) => {
            judge_failing(alloc, case, &before.input, Failing::Read(call))
        }
        Some(Faults::Write(call, most)) => {
            judge_failing(alloc, case, &before.input, Failing::Write(call, most))
        }
        None => judge_whole(alloc, case, before),
    }
}

/// The bytes of an input, behind a case that read `before`.
fn input_of(alloc: Global, input: &Input, before: &[u8]) -> Result<Vec<u8>, AllocError> {
    match input {
        Input::Lines(lines) => bytes_of(alloc, lines),
        Input::Text(text) => Vec::from_slice(alloc, text.as_bytes()),
        Input::Made { words } => Ok(run_once(alloc, words, &[], 1, Failing::None)?.written),
        Input::Filled { text, times } => filled(alloc, text, *times),
        Input::Front { front } => front_of(alloc, before, *front),
    }
}

/// Judges a case in which nothing fails.
fn judge_whole(
    alloc: Global,
    case: &Case,
    before: &mut Before,
) -> Result<Option<String>, AllocError> {
    let whole = before.input.len();
    let pieces = if whole <= SHORT {
        [1, PIECE, whole]
    } else {
        [whole; 3]
    };
    for piece in pieces {
        let ran = run_once(alloc, &case.words, &before.input, piece, Failing::None)?;
        if !is_right(alloc, case, &ran)? {
            return Ok(Some(told(alloc, piece, &ran)?));
        }
        before.written = ran.written;
        if piece == whole {
            break;
        }
    }
    Ok(None)
}

/// Whether a run came out as its case says.
fn is_right(alloc: Global, case: &Case, ran: &Ran) -> Result<bool, AllocError> {
    if ran.status != case.status {
        return Ok(false);
    }
    match &case.output {
        None => Ok(true),
        Some(Output::Lines(lines)) => Ok(bytes_of(alloc, lines)? == ran.written),
        Some(Output::Text(text)) => Ok(text.as_bytes() == ran.written.as_slice()),
        Some(Output::Either { either }) => {
            for lines in either {
                if bytes_of(alloc, lines)? == ran.written {
                    return Ok(true);
                }
            }
            Ok(false)
        }
        Some(Output::Outline { lines, first, last }) => {
            let mut found = ran.written.split(|byte| *byte == b'\n');
            Ok(
                found.next() == Some(first.as_bytes())
                    && found.next_back() == Some(b"")
                    && found.next_back() == Some(last.as_bytes())
                    && found.count() == lines.saturating_sub(2),
            )
        }
    }
}

/// Judges a case in which one call fails.
fn judge_failing(
    alloc: Global,
    case: &Case,
    input: &[u8],
    failing: Failing,
) -> Result<Option<String>, AllocError> {
    let ran = run_once(alloc, &case.words, input, PIECE, failing)?;
    if is_right(alloc, case, &ran)? {
        Ok(None)
    } else {
        Ok(Some(told(alloc, PIECE, &ran)?))
    }
}

/// Judges a case in which each read fails in turn.
fn judge_reads(alloc: Global, case: &Case, input: &[u8]) -> Result<Option<String>, AllocError> {
    for call in 1..MOST_READS {
        let ran = run_once(alloc, &case.words, input, PIECE, Failing::Read(call))?;
        let is_done = ran.status == DONE;
        let is_as_said = is_done
            || ran.status == case.status && ran.written.is_empty() && ran.reads == call;
        if !is_as_said {
            return Ok(Some(told(alloc, PIECE, &ran)?));
        }
        if is_done {
            return Ok(None);
        }
    }
    Ok(Some(String::from_str(alloc, "no run ends with Done")?))
}

/// Judges a case in which each of the first writes fails in turn.
fn judge_writes(alloc: Global, case: &Case, input: &[u8]) -> Result<Option<String>, AllocError> {
    let mut written = Vec::new(alloc);
    if let Some(Output::Lines(lines)) = &case.output {
        written = bytes_of(alloc, lines)?;
    }
    for before in 0..5u32 {
        let call = u64::from(before) + 1;
        for most in [0u32, 4] {
            let ran = run_once(
                alloc,
                &case.words,
                input,
                input.len(),
                Failing::Write(call, most),
            )?;
            let front = cut_in_line(alloc, &written, before as usize, most as usize)?;
            if ran.status != case.status || ran.written != front || ran.writes != call {
                return Ok(Some(told(alloc, input.len(), &ran)?));
            }
        }
    }
    Ok(None)
}

/// What a run came to, in a sentence.
fn told(alloc: Global, piece: usize, ran: &Ran) -> Result<String, AllocError> {
    let shown = &ran.written[..ran.written.len().min(SHOWN)];
    let text = String::from_utf8_lossy(alloc, shown)?;
    format!(in alloc;
        "in pieces of {piece} status {}, {} reads, {} writes, {text:?}",
        ran.status, ran.reads, ran.writes
    )
}

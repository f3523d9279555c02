//! Lines.

ghost use Rattle.std.specs.Prelude.{◌≡◌, ◌≤◌, ◌<◌, ◌+◌, length, drop, MatchOption};
ghost use Rattle.sm_text.specs.Limits.{most_bytes};
ghost use Rattle.sm_text.specs.Lines.{IsLineAt, first_line, content, without_last, lines};

use memchr::memchr;

/// Where a line stands in a text: its bytes are `start..stop`, its end is `stop..next`, and the line after it, if there is
/// one, begins at `next`. Places are counted from 0.
#[derive(Clone, Copy, Debug, PartialEq, Eq)]
pub struct LineSpan {
    pub start: usize,
    pub stop: usize,
    pub next: usize,
}

const LF: u8 = b'\n';

const CR: u8 = b'\r';

/// The line that begins at the place `from` of a text, and `None` exactly where `from` is at or past the text's end.
///
/// It takes time in the length of the line, and no memory.
pub fn line_at(bytes: &[u8], from: usize) -> Option<LineSpan>
    ensures { MatchOption result (length bytes.now ≤ from) (λ span. IsLineAt bytes.now from span) }
{
    if from >= bytes.len() {
        return None;
    }
    let line = first_line(&bytes[from..]);
    Some(LineSpan {
        start: from,
        stop: from + content(line).len(),
        next: from + line.len(),
    })
}

/// How many lines a text has, which may have one byte more than an input.
///
/// It takes time in the length of the text, and no memory.
pub fn line_count(bytes: &[u8]) -> u32
    requires { length bytes.now ≤ most_bytes + 1 }
    ensures { result ≡ length (lines bytes.now) }
{
    let mut count = 0;
    let mut from = 0;
    while let Some(line) = line_at(bytes, from) {
        count += 1;
        from = line.next;
    }
    count
}

/// The first line, with its end.
fn first_line(bytes: &[u8]) -> &[u8]
    ensures { result.now ≡ first_line bytes.now }
{
    match memchr(LF, bytes) {
        Some(at) => &bytes[..at + 1],
        None => bytes,
    }
}

/// What a line holds: the line without its end.
fn content(line: &[u8]) -> &[u8]
    ensures { result.now ≡ content line.now }
{
    without_last(CR, without_last(LF, line))
}

/// The bytes without the last one, where that is b.
#[tactic(auto, using(crate::proofs::LineLemmas::without_last_at))]
fn without_last(b: u8, bytes: &[u8]) -> &[u8]
    ensures { result.now ≡ without_last b bytes.now }
{
    match bytes {
        [front @ .., last] if *last == b => front,
        _ => bytes,
    }
}

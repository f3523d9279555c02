//! Tokens of lines.

ghost use Rattle.std.specs.Prelude.{◌≡◌, ◌≤◌, length};
ghost use Rattle.std.specs.Str.{bytes_eq};
ghost use Rattle.sm_text.specs.Tokens.{token_at, LeadsTokens, blanks_end, run_end, is_blank, is_mark};

use crate::names::is_name_byte;

/// What stands first in a line, from a place on. Places are counted from 0.
#[derive(Clone, Copy, Debug, PartialEq, Eq)]
pub enum TokenAt {
    /// A longest run of name bytes: where it begins, and the place behind it.
    Run(usize, usize),
    /// One of `:`, `[` and `]`.
    Mark(usize),
    /// A byte that no token and no comment begins with.
    Bad(usize),
    /// Nothing but blanks, or a comment.
    Over,
}

/// The first token of a line at or behind the place `from`.
///
/// A space and a TAB are blanks, and `#` begins a comment, which reaches to the end of the line. `Bad` comes exactly
/// where the next byte that is no blank begins neither a token nor a comment, and `Over` exactly where only blanks or a
/// comment follow. It takes time in the length of the blanks and of the token, and no memory.
pub fn token_at(line: &[u8], from: usize) -> TokenAt
    ensures token { result ≡ token_at line.now from }
    ensures leads { LeadsTokens line.now from result }
{
    let at = blanks_end(line, from);
    if at >= line.len() {
        return TokenAt::Over;
    }
    match line[at] {
        b'#' => TokenAt::Over,
        b if is_name_byte(b) => TokenAt::Run(at, run_end(line, at + 1)),
        b if is_mark(b) => TokenAt::Mark(at),
        _ => TokenAt::Bad(at),
    }
}

/// Is the token this text? Takes time in the bytes of the text.
pub fn is(token: &[u8], text: &[u8]) -> bool
    ensures { result ≡ bytes_eq token.now text.now }
{
    token == text
}

/// Where the blanks end that begin at a place.
fn blanks_end(line: &[u8], from: usize) -> usize
    ensures { result ≡ blanks_end line.now from }
{
    let mut at = from;
    while at < line.len() && is_blank(line[at]) {
        at += 1;
    }
    at
}

/// Where a run of name bytes ends that goes on at a place, if it does.
fn run_end(line: &[u8], from: usize) -> usize
    ensures { result ≡ run_end line.now from }
{
    let mut at = from;
    while at < line.len() && is_name_byte(line[at]) {
        at += 1;
    }
    at
}

/// Is it a space or a TAB?
#[tactic(auto, unfolding(crate::specs::Tokens::is_blank))]
fn is_blank(b: u8) -> bool
    ensures { result ≡ is_blank b }
{
    matches!(b, b' ' | b'\t')
}

/// Is it `:`, `[` or `]`?
#[tactic(auto, unfolding(crate::specs::Tokens::is_mark))]
fn is_mark(b: u8) -> bool
    ensures { result ≡ is_mark b }
{
    matches!(b, b':' | b'[' | b']')
}

//! Lines, and their tokens.

ghost use Rattle.std.specs.Prelude.{◌≡◌, ◌+◌, ◌-◌, ◌<◌, ◌≤◌, ℕ, [], ◌∷◌, ◌++◌, true, false, length, take, drop, IfOk, IfSome, MatchOption};
ghost use Rattle.std.specs.List.{list_any, list_all};
ghost use Rattle.sm_text.specs.Limits.{most_name_bytes};
ghost use Rattle.sm_text.specs.Name.{is_name as is_a_name, is_name_byte, begins_name};
ghost use Rattle.sm_text.specs.Tokens.{tokens, begins_run, token_at, run_end, IsLeading, LeadsTokens};
ghost use Rattle.sm_keys.specs.Tokens.{is_bad, LeadsLines, AreNamesAtEnd};
ghost use Rattle.sm_keys.specs.Lines.{BeginsList};
ghost use Rattle.sm_text.specs.Slices.{texts_of};

use crate::long::LONG;
use sm_text::{
    LineSpan, MOST_NAME_BYTES, TokenAt, begins_name, is, is_name_byte, line_at, token_at,
};
use std::alloc::AllocError;

/// What the tokens of a line were found to be.
#[derive(Clone, Copy)]
pub struct Found {
    /// Is a token a byte that no line of an instance holds?
    pub bad: bool,
    /// How many tokens at the end of the line are names.
    pub names: usize,
}

/// A line that begins with a word, a name and a colon, cut there.
#[derive(Clone, Copy)]
pub struct Head<'a> {
    /// The word, which is a name too.
    pub word: &'a [u8],
    /// The name.
    pub name: &'a [u8],
    /// What stands behind the colon.
    pub list: &'a [u8],
}

/// Where a token stands on a line, and what it was found to be.
#[derive(Clone, Copy)]
pub(crate) struct Token {
    pub(crate) start: usize,
    pub(crate) stop: usize,
    /// Is it a byte that no line of an instance holds?
    pub(crate) bad: bool,
    /// Is it a name?
    pub(crate) name: bool,
}

/// What the line that begins at a place holds, and the place behind the line; `None` past the last line. Takes time in the
/// length of the line.
pub fn line_from<'a>(bytes: &'a [u8], from: usize) -> Option<(&'a [u8], usize)>
    ensures line { MatchOption result (length bytes.now ≤ from)
        (λ r. LeadsLines bytes.now from r.0.now r.1) }
    ensures later { IfSome result (λ r. from < r.1) }
    ensures within { IfSome result (λ r. r.1 ≤ length bytes.now) }
{
    let LineSpan { start, stop, next } = line_at(bytes, from)?;
    Some((&bytes[start..stop], next))
}

/// The word of one byte, the name and the colon with which a line begins, and `None` where it begins in another way or is a long
/// line. Takes time in their length, and in that of the first token alone where it is no such word.
pub fn head_of<'a>(line: &'a [u8]) -> Option<Head<'a>>
    ensures { IfSome result (λ head. BeginsList line.now head.word.now head.name.now head.list.now) }
{
    if line.len() > LONG {
        return None;
    }
    let word = token_from(line, 0)?;
    if !word.name || word.stop - word.start > 1 {
        return None;
    }
    let name = token_from(line, word.stop)?;
    let colon = token_from(line, name.stop)?;
    if name.name && is(&line[colon.start..colon.stop], b":") {
        Some(Head {
            word: &line[word.start..word.stop],
            name: &line[name.start..name.stop],
            list: &line[colon.stop..],
        })
    } else {
        None
    }
}

/// Cuts a line into its tokens, instead of what the vector holds. Takes time in the length of the line.
///
/// # Errors
///
/// `AllocError` where memory ran out, and only then. Nothing is said of the vector then.
pub(crate) fn cut<'a>(line: &'a [u8], into: &mut Vec<&'a [u8]>) -> Result<Found, AllocError>
    ensures cut { IfOk result (λ _. texts_of into.new.items ≡ tokens line.now) }
    ensures bad { IfOk result (λ found. found.bad ≡ list_any is_bad (tokens line.now)) }
    ensures names { IfOk result (λ found. AreNamesAtEnd found.names (tokens line.now)) }
{
    into.clear();
    let mut from = 0;
    let mut bad = false;
    // The place behind the last token that isn't a name.
    let mut others = 0;
    'tokens: while let Some(token) = token_from(line, from) {
        bad = bad || token.bad;
        others = if token.name { others } else { into.len() + 1 };
        into.push(&line[token.start..token.stop])?;
        from = cut_names(line, behind_blank(line, token.stop), into)?;
    }
    Ok(Found {
        bad,
        names: into.len() - others,
    })
}

/// Adds the names that stand one after the other from a place on, with one blank behind each, to what the vector holds, and
/// answers the place behind them. Nearly all tokens of a list are such names, and no more than this is done for them.
fn cut_names<'a>(line: &'a [u8], from: usize, into: &mut Vec<&'a [u8]>) -> Result<usize, AllocError>
    ensures cut { IfOk result (λ next. texts_of into.new.items ++ tokens (drop next line.now)
        ≡ texts_of into.old.items ++ tokens (drop from line.now)) }
    ensures bad { IfOk result (λ next. list_any is_bad (tokens (drop next line.now))
        ≡ list_any is_bad (tokens (drop from line.now))) }
    ensures names { IfOk result (λ _. (k : ℕ) → k ≤ length into.old.items
        → list_all is_a_name (drop k (texts_of into.new.items))
        ≡ list_all is_a_name (drop k (texts_of into.old.items))) }
    ensures longer { length into.old.items ≤ length into.new.items }
    ensures behind { IfOk result (λ next. from ≤ next) }
{
    let last = line.len().saturating_sub(8);
    let mut at = from;
    'names: while let Some(name) = name_at(line, at, last) {
        into.push(name)?;
        at += name.len() + 1;
    }
    Ok(at)
}

/// The name that begins at a place before the last eight bytes, if one does and a blank stands behind it. The length of the
/// line is tested once for all bytes of a short name.
fn name_at<'a>(line: &'a [u8], at: usize, last: usize) -> Option<&'a [u8]>
    requires { last ≤ length line.now - 8 }
    ensures within { IfSome result (λ name. at + length name.now < length line.now) }
    ensures tokens { IfSome result (λ name. tokens (drop at line.now)
        ≡ name.now ∷ tokens (drop (at + length name.now + 1) line.now)) }
    ensures name { IfSome result (λ name. is_a_name name.now ≡ true) }
    ensures bad { IfSome result (λ name. is_bad name.now ≡ false) }
{
    if at >= last || !begins_name(line[at]) {
        return None;
    }
    let len = run_len(line, at);
    if line[at + len] == b' ' {
        Some(&line[at..at + len])
    } else {
        None
    }
}

/// How long the run of name bytes is that begins at a place, where it is no longer than a name may be and some byte stands
/// behind it, and else how long some part of it is. The loop has a fixed length, so that it becomes a row of tests.
fn run_len(line: &[u8], at: usize) -> usize
    requires { at + 8 < length line.now }
    ensures within { at + result < length line.now }
    ensures few { result ≤ most_name_bytes }
    ensures some { 1 ≤ result }
    ensures run { run_end line.now (at + result) ≡ run_end line.now (at + 1) }
{
    'run: for len in 1..8 {
        if !is_name_byte(line[at + len]) {
            return len;
        }
    }
    long_run_len(line, at)
}

/// The same for a run of eight bytes or more. Never inlined, so that shorter names pay nothing for it.
#[inline(never)]
fn long_run_len(line: &[u8], at: usize) -> usize
    requires within { at + 8 < length line.now }
    requires run { run_end line.now (at + 8) ≡ run_end line.now (at + 1) }
    ensures within { at + result < length line.now }
    ensures few { result ≤ most_name_bytes }
    ensures some { 1 ≤ result }
    ensures run { run_end line.now (at + result) ≡ run_end line.now (at + 1) }
{
    let stop = run_end(line, at + 8);
    if stop < line.len() && stop - at <= MOST_NAME_BYTES {
        stop - at
    } else {
        8
    }
}

/// The first token at or behind a place of a line.
pub(crate) fn token_from(line: &[u8], from: usize) -> Option<Token>
    ensures places { MatchOption result (tokens (drop from line.now) ≡ [])
        (λ t. IsLeading line.now from t.start t.stop) }
    ensures bad { IfSome result (λ t. t.bad ≡ is_bad
        (take (t.stop - t.start) (drop t.start line.now))) }
    ensures name { IfSome result (λ t. t.name ≡ is_a_name
        (take (t.stop - t.start) (drop t.start line.now))) }
{
    match first_token(line, from) {
        TokenAt::Run(start, stop) => Some(Token {
            start,
            stop,
            bad: false,
            name: is_name_run(&line[start..stop]),
        }),
        TokenAt::Mark(at) => Some(Token {
            start: at,
            stop: at + 1,
            bad: false,
            name: false,
        }),
        TokenAt::Bad(at) => Some(Token {
            start: at,
            stop: at + 1,
            bad: true,
            name: false,
        }),
        TokenAt::Over => None,
    }
}

/// The place behind the blank that stands at a place, and the place itself where none does. One blank stands between most
/// tokens.
pub(crate) fn behind_blank(line: &[u8], at: usize) -> usize
    ensures tokens { tokens (drop result line.now) ≡ tokens (drop at line.now) }
    ensures behind { at ≤ result }
{
    if at < line.len() && line[at] == b' ' {
        at + 1
    } else {
        at
    }
}

/// What `token_at` finds, with less to test where a run begins at the place itself.
#[inline(always)]
fn first_token(line: &[u8], from: usize) -> TokenAt
    ensures token { result ≡ token_at line.now from }
    ensures leads { LeadsTokens line.now from result }
{
    if from < line.len() && is_name_byte(line[from]) {
        TokenAt::Run(from, run_end(line, from + 1))
    } else {
        token_at(line, from)
    }
}

/// Where a run of name bytes ends that goes on at a place, if it does. Where four bytes are left, the length is tested once
/// for all four.
fn run_end(line: &[u8], from: usize) -> usize
    requires { from ≤ length line.now }
    ensures { result ≡ run_end line.now from }
{
    let mut at = from;
    'fours: while line.len() - at >= 4 {
        if !is_name_byte(line[at]) {
            return at;
        }
        if !is_name_byte(line[at + 1]) {
            return at + 1;
        }
        if !is_name_byte(line[at + 2]) {
            return at + 2;
        }
        if !is_name_byte(line[at + 3]) {
            return at + 3;
        }
        at += 4;
    }
    'ones: while at < line.len() && is_name_byte(line[at]) {
        at += 1;
    }
    at
}

/// Is the token a run of name bytes? It is one where it begins with one. Takes constant time.
pub fn is_run(token: &[u8]) -> bool
    ensures { result ≡ begins_run token.now }
{
    match token {
        [first, ..] => is_name_byte(*first),
        [] => false,
    }
}

/// Is this run, which is name bytes all through, a name?
fn is_name_run(run: &[u8]) -> bool
    requires some { 1 ≤ length run.now }
    requires all { list_all is_name_byte run.now ≡ true }
    ensures { result ≡ is_a_name run.now }
{
    run.len() <= MOST_NAME_BYTES && begins_name(run[0])
}

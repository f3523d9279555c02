//! Names that are known, read from a line without a look at each byte.

ghost use Rattle.std.specs.Prelude.{◌≡◌, ◌≢◌, ◌+◌, ◌-◌, ◌<◌, ◌≤◌, true, false, length, slice_index, slice_set, take, drop, vec_len, vec_capacity, IfSome};
ghost use Rattle.std.specs.Int.{from_le_bytes, w64};
ghost use Rattle.sm_keys.specs.Lines.{IsNamed, IsNameAt, ListsLineFurther};
ghost use Rattle.sm_keys.specs.Keys.{key_texts};
ghost use Rattle.sm_keys.specs.Words.{HasWord};

use crate::key::Key;
use crate::recent::Guesses;
use crate::tokens::behind_blank;

/// In each byte the highest bit.
const HIGHEST: u64 = 0x8080_8080_8080_8080;

/// In each byte the number behind that of a blank.
const BEHIND_BLANK: u64 = 0x2121_2121_2121_2121;

/// The names of one side, by index, with guesses at their indexes.
#[derive(Clone, Copy)]
pub(crate) struct Known<'b, 'a> {
    pub(crate) guesses: Guesses<'b>,
    pub(crate) names: &'b [Key<'a>],
}

/// Lists the next names on a line, up to one that isn't where it is guessed or has this stamp, and answers the place behind them.
/// No call stands in a loop, so that what it reads stays in registers, and names among the last eight bytes have a loop of their
/// own, so that nothing is tested for them where the others are read.
#[inline(always)]
pub(crate) fn list_known(
    known: Known<'_, '_>,
    stamps: &mut [u32],
    line: &[u8],
    from: usize,
    stamp: u32,
    indexes: &mut Vec<u32>,
) -> usize
    requires each { length stamps.old ≡ length known.names.now }
    requires some { 0 < stamp }
    requires room { vec_len indexes.old + (length line.now - from) ≤ vec_capacity indexes.old }
    ensures further { ListsLineFurther (key_texts known.entry.names.now) stamps.old stamps.new
        line.now stamp from result (vec_len indexes.old) (vec_len indexes.new)
        indexes.old.items indexes.new.items }
    ensures behind { from ≤ result }
    ensures room { vec_len indexes.new + (length line.now - result) ≤ vec_capacity indexes.new }
{
    let last = line.len().saturating_sub(8);
    let mut at = from;
    'names: while let Some((index, next)) = name_at(known, line, at, last) {
        if !stamp_name(stamps, index, stamp) {
            return at;
        }
        indexes.push_reserved(index);
        at = next;
    }
    'ends: while let Some((index, next)) = name_at_end(known, line, at, last) {
        if !stamp_name(stamps, index, stamp) {
            return at;
        }
        indexes.push_reserved(index);
        at = next;
    }
    at
}

/// Gives a name a stamp, unless it has this one, and answers whether it did.
#[inline(always)]
fn stamp_name(stamps: &mut [u32], index: u32, stamp: u32) -> bool
    requires { index < length stamps.old }
    ensures stamped { result ≡ true → stamps.new ≡ slice_set stamps.old index stamp }
    ensures other { result ≡ true → slice_index stamps.old index ≢ stamp }
    ensures same { result ≡ false → stamps.new ≡ stamps.old }
{
    if stamps[index as usize] == stamp {
        return false;
    }
    stamps[index as usize] = stamp;
    true
}

/// Has the first name on a line at most eight bytes? Longer ones can't be guessed at, and tokens are cut faster together than one
/// by one. Nothing needs the answer to be so.
pub(crate) fn begins_short(line: &[u8]) -> bool {
    let at = behind_blank(line, 0);
    if line.len() <= at || line.len() - at <= 8 {
        return true;
    }
    guessed_len(eight_from(line, at)) < 8 || line[at + 8] == b' '
}

/// The index of the name that stands at a place before the last eight bytes with one blank behind it, and the place behind the
/// blank; `None` where it isn't where it is guessed.
#[inline(always)]
fn name_at(known: Known<'_, '_>, line: &[u8], at: usize, last: usize) -> Option<(u32, usize)>
    requires { last ≤ length line.now - 8 }
    ensures { IfSome result (λ r. IsNameAt (key_texts known.entry.names.now) line.now at r.0 r.1) }
{
    if at >= last {
        return None;
    }
    let first = eight_from(line, at);
    let len = guessed_len(first);
    let index = index_of(known, &line[at..at + len], first)?;
    if line[at + len] == b' ' {
        Some((index, at + len + 1))
    } else {
        None
    }
}

/// The index of the name that stands at a place among the last eight bytes and ends the line or has one blank behind it, and the
/// place behind it or the blank; `None` where it isn't where it is guessed. A line of fewer bytes has none.
#[inline(always)]
fn name_at_end(known: Known<'_, '_>, line: &[u8], at: usize, last: usize) -> Option<(u32, usize)>
    requires { last ≡ length line.now - 8 }
    ensures { IfSome result (λ r. IsNameAt (key_texts known.entry.names.now) line.now at r.0 r.1) }
{
    if at < last {
        return None;
    }
    let before = at - last;
    if line.len() < 8 || before >= 8 {
        return None;
    }
    let first = last_from(line, at, last);
    let len = guessed_len(first).min(8 - before);
    let index = index_of(known, &line[at..at + len], first)?;
    let stop = at + len;
    if stop == line.len() {
        Some((index, stop))
    } else if line[stop] == b' ' {
        Some((index, stop + 1))
    } else {
        None
    }
}

/// The number that the bytes from a place among the last eight on make, the first one least.
#[inline(always)]
fn last_from(line: &[u8], at: usize, last: usize) -> u64
    requires last { last + 8 ≡ length line.now }
    requires behind { last ≤ at }
    requires within { at < length line.now }
    ensures { result ≡ from_le_bytes w64 (drop at line.now) }
{
    eight_from(line, last) >> (8 * (at - last))
}

/// The number that the next eight bytes make, the first one least. They are named one by one, since they are read at once then,
/// without a test of their number.
#[inline(always)]
fn eight_from(line: &[u8], at: usize) -> u64
    requires { at + 8 ≤ length line.now }
    ensures { result ≡ from_le_bytes w64 (take 8 (drop at line.now)) }
{
    u64::from_le_bytes([
        line[at],
        line[at + 1],
        line[at + 2],
        line[at + 3],
        line[at + 4],
        line[at + 5],
        line[at + 6],
        line[at + 7],
    ])
}

/// How many of eight bytes stand before the first that may be a blank. The lowest byte that is marked is the first below 33, and
/// nothing needs this to be so.
#[inline(always)]
fn guessed_len(first: u64) -> usize
    ensures { result ≤ 8 }
{
    let marked = first.wrapping_sub(BEHIND_BLANK) & !first & HIGHEST;
    (marked.trailing_zeros() >> 3) as usize
}

/// The index of bytes that are a name, where they have one of the two that are guessed. `first` is the number that they make with
/// those behind them, eight in all.
#[inline(always)]
fn index_of(known: Known<'_, '_>, name: &[u8], first: u64) -> Option<u32>
    requires few { length name.now ≤ 8 }
    requires first { HasWord first name.now }
    ensures { IfSome result (IsNamed (key_texts known.entry.names.now) name.now) }
{
    if name.is_empty() {
        return None;
    }
    let key = Key::beginning(name, first);
    match index_at(known, key, known.guesses.first(key.word, name.len())) {
        Some(index) => Some(index),
        None => index_at(known, key, known.guesses.second(key.word, name.len())),
    }
}

/// An index, if it is that of these bytes and they are a name.
#[inline(always)]
fn index_at(known: Known<'_, '_>, key: Key<'_>, index: u32) -> Option<u32>
    requires enough { 1 ≤ length key.text.now }
    requires few { length key.text.now ≤ 8 }
    ensures { IfSome result (IsNamed (key_texts known.entry.names.now) key.entry.text.now) }
{
    let name = known.names.get(index as usize)?;
    if name.is_name_of(key) {
        Some(index)
    } else {
        None
    }
}

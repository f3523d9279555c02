//! Vectors read from their texts.

ghost use Rattle.std.specs.Prelude.{◌≡◌, ◌==◌, ◌<◌, ◌∷◌, [], IfOk, MatchOption, length, option_map};
ghost use Rattle.std.specs.List.{slice_split, position, position_or_len, before_first, after_first};
ghost use Rattle.sm_text.specs.Numbers.{number_of};
ghost use Rattle.sm_report.specs.Vectors.{most_in_vector, is_comma, numbers_in, vector_in};

use sm_text::{is, number};
use std::alloc::{AllocError, Global};

/// The vector that a text spells: `-` for the one without numbers, and else one or more numbers of at most 4,294,967,295
/// with one comma between each two. `None` exactly where the text spells none.
///
/// It takes time and memory in the length of the text.
///
/// # Errors
///
/// `AllocError` where memory ran out, and only then.
pub fn vector(alloc: Global, text: &str) -> Result<Option<Vec<u32>>, AllocError>
    ensures { IfOk result (λ found. vector_in text.now ≡ option_map (λ v. v.items) found) }
{
    vector_in(alloc, text.as_bytes())
}

/// The vector that bytes spell, as [`vector`] says.
pub(crate) fn vector_in(alloc: Global, text: &[u8]) -> Result<Option<Vec<u32>>, AllocError>
    ensures { IfOk result (λ found. vector_in text.now ≡ option_map (λ v. v.items) found) }
{
    if is(text, b"-") {
        return Ok(Some(Vec::new(alloc)));
    }
    numbers_in(alloc, text)
}

/// The numbers that a text spells with commas between them.
fn numbers_in(alloc: Global, text: &[u8]) -> Result<Option<Vec<u32>>, AllocError>
    ensures { IfOk result (λ found. numbers_in (slice_split is_comma text.now)
        ≡ option_map (λ v. v.items) found) }
{
    let mut numbers = Vec::new(alloc);
    let mut rest = text;
    'parts: while let Some((part, behind)) = cut_at(rest, b',') {
        match small_number(part) {
            Some(n) => numbers.push(n)?,
            None => return Ok(None),
        }
        rest = behind;
    }
    match small_number(rest) {
        Some(n) => {
            numbers.push(n)?;
            Ok(Some(numbers))
        }
        None => Ok(None),
    }
}

/// What stands before the first byte that is a mark, and what behind it.
pub(crate) fn cut_at(text: &[u8], mark: u8) -> Option<(&[u8], &[u8])>
    ensures parts { MatchOption result (slice_split (λ b. b == mark) text.now ≡ text.now ∷ [])
        (λ x. (slice_split (λ b. b == mark) text.now ≡ x.0.now ∷ slice_split
        (λ b. b == mark) x.1.now) × (length x.1.now < length text.now)) }
    ensures ends { MatchOption result (position_or_len (λ b. b == mark) text.now ≡ length text.now)
        (λ x. (x.0.now ≡ before_first (λ b. b == mark) text.now)
        × (x.1.now ≡ after_first (λ b. b == mark) text.now)) }
{
    let len = text.len();
    match mark_at(text, mark) {
        Some(at) => Some((&text[..at], &text[at + 1..len])),
        None => None,
    }
}

/// The place of the first byte that is a mark.
fn mark_at(text: &[u8], mark: u8) -> Option<usize>
    ensures { result ≡ position (λ b. b == mark) text.now }
{
    text.iter().position(|b| *b == mark)
}

/// The number that a text spells, where it has 32 bits.
pub(crate) fn small_number(text: &[u8]) -> Option<u32>
    ensures { result ≡ number_of text.now most_in_vector }
{
    match number(text, u64::from(u32::MAX)) {
        Some(n) => Some(n as u32),
        None => None,
    }
}

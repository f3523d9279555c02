//! Long lines, of whose tokens no more are kept than are needed to judge them.

ghost use Rattle.std.specs.Prelude.{◌≡◌, ◌++◌, ◌∷◌, [], List, ℕ, true, IfOk};
ghost use Rattle.std.specs.List.{list_any};
ghost use Rattle.sm_text.specs.Slices.{texts_of};
ghost use Rattle.sm_text.specs.Tokens.{tokens};
ghost use Rattle.sm_keys.specs.Tokens.{is_bad, AreNamesAtEnd};
ghost use Rattle.sm_keys.specs.Enough.{AreEnough, StandsTwice};

use crate::tokens::{Found, cut, token_from};
use sm_text::{is, is_name};
use std::alloc::{AllocError, Global};
use std::mem::swap;

/// A line of more bytes is long. So few bytes have too few tokens for memory to matter.
pub(crate) const LONG: usize = 1 << 20;

/// The memory for more tokens isn't kept for the next line.
const MANY_TOKENS: usize = 65_536;

/// So many tokens at the front of a line are kept in any case.
const FIRST_TOKENS: usize = 10;

/// The number of slots for tokens of one or two bytes.
const SLOTS: usize = 1 << 16;

/// Cuts a line into tokens, instead of what the vector holds, and keeps enough of them to judge the line: of a long line, which may
/// have half as many tokens as a text has bytes, short tokens that stand on it often are left out. Takes time in the length of the
/// line.
///
/// # Errors
///
/// `AllocError` where memory ran out, and only then. Nothing is said of the vector then.
pub fn cut_enough<'a>(line: &'a [u8], into: &mut Vec<&'a [u8]>) -> Result<Found, AllocError>
    ensures enough { IfOk result (λ _. AreEnough (texts_of into.new.items) (tokens line.now)) }
    ensures bad { IfOk result (λ found. found.bad ≡ list_any is_bad (texts_of into.new.items)) }
    ensures names { IfOk result (λ found. AreNamesAtEnd found.names (texts_of into.new.items)) }
{
    forget_long(into);
    if line.len() > LONG {
        return cut_long(line, into);
    }
    cut(line, into)
}

/// Gives back the memory for the tokens of a long line.
fn forget_long(into: &mut Vec<&[u8]>) {
    if into.len() > MANY_TOKENS {
        let mut none = Vec::new(*into.allocator());
        swap(into, &mut none);
    }
}

/// The same for a long line. Never inlined, so that others pay nothing for it.
#[inline(never)]
fn cut_long<'a>(line: &'a [u8], into: &mut Vec<&'a [u8]>) -> Result<Found, AllocError>
    ensures enough { IfOk result (λ _. AreEnough (texts_of into.new.items) (tokens line.now)) }
    ensures bad { IfOk result (λ found. found.bad ≡ list_any is_bad (texts_of into.new.items)) }
    ensures names { IfOk result (λ found. AreNamesAtEnd found.names (texts_of into.new.items)) }
{
    into.clear();
    let mut places = no_places(*into.allocator(), SLOTS)?;
    let bad = keep_tokens(line, into, &mut places)?;
    Ok(Found {
        bad,
        names: names_at_end(into),
    })
}

/// So many pairs of places at which no token is looked for.
fn no_places(alloc: Global, slots: usize) -> Result<Vec<(usize, usize)>, AllocError> {
    vec![in alloc; (0, 0); slots]
}

/// Keeps enough of the tokens of a line, and answers whether one of them is a byte that no line of an instance holds. The places
/// are those at which a token of one or two bytes was kept last.
fn keep_tokens<'a>(
    line: &'a [u8],
    kept: &mut Vec<&'a [u8]>,
    places: &mut [(usize, usize)],
) -> Result<bool, AllocError>
    requires { kept.old.items ≡ [] }
    ensures enough { IfOk result (λ _. AreEnough (texts_of kept.new.items) (tokens line.now)) }
    ensures bad { IfOk result (λ bad. bad ≡ list_any is_bad (tokens line.now)) }
{
    let mut from = 0;
    let mut bad = false;
    'tokens: while let Some(token) = token_from(line, from) {
        bad = bad || token.bad;
        keep(&line[token.start..token.stop], kept, places)?;
        from = token.stop;
    }
    Ok(bad)
}

/// Keeps a token behind others, unless it stands twice among them already.
fn keep<'a>(
    token: &'a [u8],
    kept: &mut Vec<&'a [u8]>,
    places: &mut [(usize, usize)],
) -> Result<(), AllocError>
    ensures { IfOk result (λ _. (more : List (List ℕ)) → AreEnough (texts_of kept.new.items ++ more)
        (texts_of kept.old.items ++ token.now ∷ more)) }
{
    let slot = slot_of(token);
    if slot < places.len() {
        let (first, second) = places[slot];
        if stands_twice(kept, token, first, second) {
            return Ok(());
        }
        places[slot] = (second, kept.len());
    }
    kept.push(token)?;
    Ok(())
}

/// The slot of a token of one or two bytes. A longer token has none.
fn slot_of(token: &[u8]) -> usize {
    match token {
        [only] => usize::from(*only),
        [first, second] => usize::from(*first) << 8 | usize::from(*second),
        _ => SLOTS,
    }
}

/// Does a token stand at both of these places, of which the second is behind the first, and the first behind those tokens that
/// are kept in any case?
fn stands_twice(kept: &[&[u8]], token: &[u8], first: usize, second: usize) -> bool
    ensures { result ≡ true → StandsTwice (texts_of kept.now) token.now first second }
{
    if FIRST_TOKENS <= first && first < second && second < kept.len() && is(kept[first], token) {
        return is(kept[second], token);
    }
    false
}

/// How many tokens at the end are names.
fn names_at_end(tokens: &[&[u8]]) -> usize
    ensures { AreNamesAtEnd result (texts_of tokens.now) }
{
    let mut others = tokens.len();
    'others: while others > 0 {
        if !is_name(tokens[others - 1]) {
            return tokens.len() - others;
        }
        others -= 1;
    }
    tokens.len()
}

//! Names of a text as keys of a set.

ghost use Rattle.std.specs.Prelude.{◌≡◌, ◌-◌, ◌*◌, ◌%◌, ◌^◌, ◌≤◌, true, length, take, drop};
ghost use Rattle.std.specs.Str.{bytes_eq};
ghost use Rattle.sm_text.specs.Name.{is_name as is_a_name};
ghost use Rattle.sm_keys.specs.Words.{IsWordOf, IsNameLen, HasWord};

use sm_text::is_name;
use std::hash::{FoldHasher, Hash, Hasher};

/// A name as a key of a set. All its bytes are hashed at once, where a slice is hashed byte by byte. Names of at most eight
/// bytes are compared by their words, and names of nine to sixteen bytes by their ends, four bytes at a time.
#[derive(Clone, Copy)]
pub struct Key<'a> {
    /// The name.
    pub text: &'a [u8],
    /// The name's word. Of one to eight bytes, no other name of the same length has it.
    pub word: u64,
    /// Its length, if it was found to be a name by the rule of names, and else 0.
    name_len: usize,
    ghost is_word: { IsWordOf word text.now },
    ghost is_name_len: { IsNameLen name_len text.now },
}

impl<'a> Key<'a> {
    /// The key of a name. Takes time in its length.
    #[inline(always)]
    pub fn of(text: &'a [u8]) -> Key<'a>
        ensures { result.text.now ≡ text.now }
    {
        // One to eight bytes stand at the top of their word, and zeros below them.
        let word = match *text {
            [] => 0,
            [a] => u64::from_le_bytes([0, 0, 0, 0, 0, 0, 0, a]),
            [a, b] => u64::from_le_bytes([0, 0, 0, 0, 0, 0, a, b]),
            [a, b, c] => u64::from_le_bytes([0, 0, 0, 0, 0, a, b, c]),
            [a, b, c, d] => u64::from_le_bytes([0, 0, 0, 0, a, b, c, d]),
            [a, b, c, d, e] => u64::from_le_bytes([0, 0, 0, a, b, c, d, e]),
            [a, b, c, d, e, f] => u64::from_le_bytes([0, 0, a, b, c, d, e, f]),
            [a, b, c, d, e, f, g] => u64::from_le_bytes([0, a, b, c, d, e, f, g]),
            [a, b, c, d, e, f, g, h] => u64::from_le_bytes([a, b, c, d, e, f, g, h]),
            _ => hash(text),
        };
        Key {
            text,
            word,
            name_len: 0,
        }
    }

    /// The key of one to eight bytes with which eight bytes begin. `first` is the number that the eight make, the first one least.
    /// Takes constant time.
    #[inline(always)]
    pub(crate) fn beginning(text: &'a [u8], first: u64) -> Key<'a>
        requires enough { 1 ≤ length text.now }
        requires few { length text.now ≤ 8 }
        requires first { HasWord first text.now }
        ensures { result.text.now ≡ text.now }
    {
        Key {
            text,
            word: at_top(first, text.len()),
            name_len: 0,
        }
    }

    /// The same key, which tells whether it is that of a name. Takes time in the length of the name.
    pub(crate) fn tried(self) -> Key<'a>
        ensures { result.text.now ≡ self.entry.text.now }
    {
        let Key { text, word, .. } = self;
        if is_name(text) {
            let name_len = text.len();
            Key {
                text,
                word,
                name_len,
            }
        } else {
            self
        }
    }

    /// Is this the key of one to eight bytes, and were they found to be a name? Takes constant time.
    #[inline(always)]
    pub(crate) fn is_name_of(&self, key: Key<'_>) -> bool
        requires enough { 1 ≤ length key.text.now }
        requires few { length key.text.now ≤ 8 }
        ensures same { result ≡ true → self.now.text.now ≡ key.entry.text.now }
        ensures name { result ≡ true → is_a_name key.entry.text.now ≡ true }
    {
        let (text, other) = (self.text, key.text);
        self.name_len == other.len() && have_same_word(text, other, self.word, key.word)
    }
}

impl<'a> PartialEq for Key<'a> {
    ghost use Rattle.std.specs.Prelude.{nat_eq};
    ghost use Rattle.std.specs.Cmp.{partial_equiv_from_equiv, on_per};
    ghost use Rattle.std.specs.Cmp.Lexicographic.{pointwise, nat_list_eq_equiv};
    ghost use Rattle.sm_keys.specs.Keys.{text_of};

    ghost eq = { λ a b. pointwise nat_eq (text_of a) (text_of b) };

    ghost laws = { on_per text_of (partial_equiv_from_equiv nat_list_eq_equiv) };

    #[inline(always)]
    fn eq(&self, other: &Key<'a>) -> bool {
        let (a, b) = (self.text, other.text);
        if a.len() != b.len() {
            return false;
        }
        match b.len() {
            1..=8 => have_same_word(a, b, self.word, other.word),
            9..=16 => equal_by_eights(a, b),
            _ => a == b,
        }
    }
}

impl<'a> Eq for Key<'a> {
    ghost use Rattle.std.specs.Cmp.{on_equiv};
    ghost use Rattle.std.specs.Cmp.Lexicographic.{nat_list_eq_equiv};
    ghost use Rattle.sm_keys.specs.Keys.{text_of};

    ghost laws = { on_equiv text_of nat_list_eq_equiv };
}

impl<'a> Hash for Key<'a> {
    ghost use Rattle.std.specs.Prelude.{◌∷◌, []};
    ghost use Rattle.std.specs.Cmp.Rules.{hashing};
    ghost use Rattle.std.proofs.Common.{rules};
    ghost use Rattle.sm_keys.specs.Keys.{text_of};

    ghost hash_input = { λ key. text_of key ∷ [] };

    ghost respects_eq = { Prim.search (hashing, rules) };

    fn hash<H: Hasher>(&self, state: &mut H) {
        state.write(self.text);
    }
}

/// A number whose lowest bytes, so many, stand at its top instead.
#[inline(always)]
fn at_top(first: u64, len: usize) -> u64
    requires enough { 1 ≤ len }
    requires few { len ≤ 8 }
    ensures { result ≡ first * 2 ^ (64 - 8 * len) % 2 ^ 64 }
{
    first << (64 - 8 * len)
}

/// The word of any other name: a hash of all its bytes.
#[inline(never)]
fn hash(text: &[u8]) -> u64 {
    let mut hasher = FoldHasher::default();
    hasher.write(text);
    hasher.finish()
}

/// Are one to eight bytes the same, of which these are the words?
#[inline(always)]
fn have_same_word(a: &[u8], b: &[u8], word: u64, other: u64) -> bool
    requires same_len { length a.now ≡ length b.now }
    requires enough { 1 ≤ length b.now }
    requires few { length b.now ≤ 8 }
    requires word { IsWordOf word a.now }
    requires other { IsWordOf other b.now }
    ensures { result ≡ bytes_eq a.now b.now }
{
    word == other
}

/// Are four to eight bytes the same? They are where the last four are and the first four.
#[inline(always)]
fn equal_by_fours(a: &[u8], b: &[u8]) -> bool
    requires same_len { length a.now ≡ length b.now }
    requires enough { 4 ≤ length a.now }
    requires few { length a.now ≤ 8 }
    ensures { result ≡ bytes_eq a.now b.now }
{
    are_same(last_four(a), last_four(b)) && are_same(first_four(a), first_four(b))
}

/// Are four bytes the same? They are compared as one number.
#[inline(always)]
fn are_same(a: &[u8; 4], b: &[u8; 4]) -> bool
    ensures { result ≡ bytes_eq a.now b.now }
{
    u32::from_le_bytes(*a) == u32::from_le_bytes(*b)
}

/// Are eight to sixteen bytes the same? They are where the first eight are and the last eight.
#[inline(always)]
fn equal_by_eights(a: &[u8], b: &[u8]) -> bool
    requires same_len { length a.now ≡ length b.now }
    requires enough { 8 ≤ length a.now }
    requires few { length a.now ≤ 16 }
    ensures { result ≡ bytes_eq a.now b.now }
{
    let behind = a.len() - 8;
    equal_by_fours(&a[..8], &b[..8]) && equal_by_fours(&a[behind..], &b[behind..])
}

/// The first four bytes.
fn first_four(text: &[u8]) -> &[u8; 4]
    requires { 4 ≤ length text.now }
    ensures { result.now ≡ take 4 text.now }
{
    text.first_chunk().unwrap()
}

/// The last four bytes.
fn last_four(text: &[u8]) -> &[u8; 4]
    requires { 4 ≤ length text.now }
    ensures { result.now ≡ drop (length text.now - 4) text.now }
{
    text.last_chunk().unwrap()
}

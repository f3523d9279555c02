//! Guesses at the indexes of names.

ghost use Rattle.std.specs.Prelude.{◌<◌};

use std::alloc::{AllocError, Global};

/// The binary digits of the number of a pair.
const PAIR_BITS: u32 = 14;

/// The number of pairs.
const PAIRS: usize = 1 << PAIR_BITS;

/// An odd number whose binary digits are as good as random: the golden ratio's (Knuth 1998, volume 3, section 6.4).
const ODD: u64 = 0x9E37_79B9_7F4A_7C15;

/// The indexes of names that were met of late, which spare most look-ups in a set.
///
/// A name falls to a pair by its word and its length, and others may fall to the same. A pair has the two indexes that were noted
/// there last, the newer one first, so what is found in it are guesses, which whoever asks has to test. Names that were chosen to
/// fall to one pair are all looked up in the set, and no more.
#[derive(Drop)]
pub struct Recent {
    /// The pairs, of zeros where nothing was noted. There is none before the first index is noted.
    pairs: Vec<[u16; 2]>,
}

impl Recent {
    /// No indexes. Takes no memory.
    pub fn new(alloc: Global) -> Recent {
        Recent {
            pairs: Vec::new(alloc),
        }
    }

    /// The index that a name of this word and length may have. Takes constant time.
    #[inline(always)]
    pub fn guess(&self, word: u64, len: usize) -> u32 {
        match self.guesses() {
            Some(guesses) => guesses.first(word, len),
            None => 0,
        }
    }

    /// The index that it may have if not that one. Takes constant time.
    #[inline(always)]
    pub fn second_guess(&self, word: u64, len: usize) -> u32 {
        match self.guesses() {
            Some(guesses) => guesses.second(word, len),
            None => 0,
        }
    }

    /// All guesses, where an index was noted.
    #[inline(always)]
    pub(crate) fn guesses(&self) -> Option<Guesses<'_>> {
        let pairs = self.pairs.first_chunk()?;
        Some(Guesses { pairs })
    }

    /// Notes the index of a name of this word and length, if it fits two bytes, as nearly all do. What was noted in its pair last
    /// stays there, and what was before that goes. Takes constant time, and memory for all pairs at the first index.
    ///
    /// # Errors
    ///
    /// `AllocError` where memory ran out, and only then.
    pub fn note(&mut self, word: u64, len: usize, index: u32) -> Result<(), AllocError> {
        if self.pairs.is_empty() {
            self.pairs.resize(PAIRS, [0, 0])?;
        }
        if let Ok(index) = u16::try_from(index) {
            if let Some(pair) = self.pairs.get_mut(pair_for(word, len)) {
                *pair = [index, pair[0]];
            }
        }
        Ok(())
    }
}

/// What is guessed of names, one pair for each.
#[derive(Clone, Copy)]
pub(crate) struct Guesses<'a> {
    pairs: &'a [[u16; 2]; PAIRS],
}

impl Guesses<'_> {
    /// The index that a name of this word and length may have.
    #[inline(always)]
    pub(crate) fn first(self, word: u64, len: usize) -> u32 {
        u32::from(self.pairs[pair_for(word, len)][0])
    }

    /// The index that it may have if not that one.
    #[inline(always)]
    pub(crate) fn second(self, word: u64, len: usize) -> u32 {
        u32::from(self.pairs[pair_for(word, len)][1])
    }
}

/// The pair of a name. Its length counts, since many names have the same ends, as `w12` and `w112` have. It is put where the ends
/// of names seldom differ.
#[inline(always)]
fn pair_for(word: u64, len: usize) -> usize
    ensures { result < PAIRS }
{
    let mixed = word.wrapping_add((len as u64) << 3);
    (mixed.wrapping_mul(ODD) >> (64 - PAIR_BITS)) as usize
}

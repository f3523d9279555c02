//! Hashes that a text can't choose.

use std::hash::{BuildHasher, DefaultHasher, Hasher};

/// What has at most so many bytes has too few names for chosen ones to cost time.
const SHORT: usize = 65_536;

/// Makes hashers for the names of a text, so that nobody can write a text whose names have equal hashes: each hasher
/// starts from a digest of the whole text, so that another name in it, or in a comment, changes the hashes of all.
///
/// The hash is SipHash (Aumasson and Bernstein 2012), which is made for keys that somebody else has chosen. It is the same
/// for the same text, and for all short ones.
#[derive(Clone, Copy)]
pub struct TextHash {
    start: DefaultHasher,
}

impl TextHash {
    /// The hashes for the names of a text.
    ///
    /// It takes time in the length of the text, and no memory.
    pub fn of(text: &[u8]) -> TextHash {
        let mut digest = Digest::new();
        digest.take(text);
        digest.hash()
    }
}

impl BuildHasher for TextHash {
    type Hasher = DefaultHasher;

    ghost build_hasher = { λ hash. hash.start };

    fn build_hasher(&self) -> DefaultHasher {
        self.start
    }
}

/// A digest of pieces that are taken one after another, where no text is at hand.
#[derive(Clone, Copy)]
pub struct Digest {
    hasher: DefaultHasher,
    bytes: usize,
}

impl Digest {
    /// A digest of no piece. Takes constant time.
    pub fn new() -> Digest {
        Digest {
            hasher: DefaultHasher::new(),
            bytes: 0,
        }
    }

    /// Takes a piece. It takes time in its length, and no memory.
    pub fn take(&mut self, piece: &[u8]) {
        if self.bytes <= SHORT && piece.len() <= SHORT {
            self.bytes += piece.len();
        } else {
            self.bytes = SHORT + 1;
        }
        self.hasher.write(piece);
    }

    /// The hashes that start from this digest. Takes constant time.
    pub fn hash(&self) -> TextHash {
        let mut start = DefaultHasher::new();
        if self.bytes > SHORT {
            start.write_u64(self.hasher.finish());
        }
        TextHash { start }
    }
}

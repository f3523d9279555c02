//! Lines that are given one after another.

use sm_text::LineWriter;
use std::alloc::{AllocError, Global};

/// Lines of bytes that are given one after another. They are known by a relation, since there may be more of them than
/// memory holds, and since there may be several right ones. Each line has bytes from 32 to 126 alone, neither `"` nor `\`,
/// so that it stands for itself in a string of JSON.
pub trait Lines {
    ghost use Rattle.std.specs.Prelude.{ℕ, List};
    ghost use Rattle.sm_answer.specs.Giving.{HasRest, PutsNext};

    /// These may be the lines that are left.
    ghost gives: { Self → List (List ℕ) → Type 0 };

    /// At most so many are left.
    ghost most: { Self → ℕ };

    /// Puts the next line behind what the writer holds, without its end, and answers true. It answers false where no line
    /// is left, and then the writer holds what it held. There have to be lines that may be left.
    ///
    /// # Errors
    ///
    /// `AllocError` where memory ran out, and only then. Nothing is said then of what is left, nor of what the writer holds.
    fn put_next(&mut self, alloc: Global, into: &mut LineWriter) -> Result<bool, AllocError>
        requires { HasRest (gives self.old) }
        ensures { PutsNext (gives self.old) (gives self.new) (most self.old) (most self.new)
            into.old.bytes into.new.bytes result };
}

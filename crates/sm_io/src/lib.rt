//! Sources and sinks of bytes with counts of faults.
//!
//! A [`Source`] gives bytes and a [`Sink`] takes them, piece by piece. Each counts its faults: a count of faults begins with 0,
//! never falls and stops at the greatest `u64`. A call answers `Failed` only where its object's count rose, or stands there
//! already. So a caller that reports a failed read or write can show that there was a fault, whatever the object is.
//!
//! - [`MemSource`] and [`MemSink`] work in memory and fail at chosen calls.
//! - [`SteadySource`] and [`SteadySink`] work in memory and never fail.
//! - [`ReadSource`] and [`WriteSink`] reach outside, over any `std::io::Read` and `std::io::Write`.
#![tactic(auto)]

ghost use Rattle.std.specs.Prelude.{◌≡◌, ℕ, ◌≤◌, List, Option};
ghost use Rattle.sm_io.specs.Faults.{Rose};

pub use edge::{ReadSource, WriteSink};
pub use memory::{MemSink, MemSource};
pub use steady::{SteadySink, SteadySource};

mod edge;
mod memory;
mod steady;

/// What a call of [`Source::take`] answers.
#[derive(Clone, Copy, Debug, PartialEq, Eq)]
pub enum Taken {
    /// So many bytes were given, at least one.
    Got(usize),
    /// No byte was given: none is left, or the buffer is empty.
    End,
    /// No byte was given: there was a fault.
    Failed,
}

/// What a call of [`Sink::put`] answers.
#[derive(Clone, Copy, Debug, PartialEq, Eq)]
pub enum Put {
    /// The whole piece was taken.
    Done,
    /// A front of the piece was taken, perhaps none of it: there was a fault.
    Failed,
}

/// Gives bytes, piece by piece.
pub trait Source {
    ghost use Rattle.sm_io.specs.Source.{Takes};

    /// The bytes still to come, where the source tells them.
    ghost left: { Self → Option (List ℕ) };

    /// How many faults there were so far, at most the greatest `u64`.
    ghost faults: { Self → ℕ };

    /// Writes the next bytes to the front of `into` and says how many. What stands behind them in `into` is left open,
    /// and so is all of `into` after `End` and `Failed`.
    fn take(&mut self, into: &mut [u8]) -> Taken
        ensures taken { Takes (left self.old) (left self.new) result into.new }
        ensures later { faults self.old ≤ faults self.new }
        ensures failed { result ≡ Taken.Failed → Rose (faults self.old) (faults self.new) };
}

/// Takes bytes, piece by piece.
pub trait Sink {
    ghost use Rattle.sm_io.specs.Sink.{Puts};

    /// The bytes taken so far, where the sink tells them.
    ghost held: { Self → Option (List ℕ) };

    /// How many faults there were so far, at most the greatest `u64`.
    ghost faults: { Self → ℕ };

    /// Takes the bytes of `piece`, or after a fault a front of them, behind those that it took before.
    fn put(&mut self, piece: &[u8]) -> Put
        ensures taken { Puts (held self.old) (held self.new) result piece.now }
        ensures later { faults self.old ≤ faults self.new }
        ensures failed { result ≡ Put.Failed → Rose (faults self.old) (faults self.new) };
}

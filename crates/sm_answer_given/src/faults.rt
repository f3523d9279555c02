//! Why two given matchings have no meet and no join.

use std::alloc::{AllocError, AllocFailed};

/// One of two given matchings.
#[derive(Clone, Copy, Debug, PartialEq, Eq)]
pub enum Which {
    /// The one of the `left` lines.
    Left,
    /// The one of the `right` lines.
    Right,
}

/// What keeps a pair from a stable matching.
#[derive(Clone, Copy, Debug, PartialEq, Eq)]
pub enum Flaw {
    /// A given pair isn't acceptable, or its proposer or its reviewer has no place left beside the pairs before it.
    Breach,
    /// The pair blocks the matching.
    Blocks,
}

/// Why a given matching isn't stable. Agents are numbered from 0.
#[derive(Clone, Copy, Debug, PartialEq, Eq)]
pub struct Unstable {
    /// The line of the pair that can't be held, or the one of the closing `end`; lines are counted from 1.
    pub line: u32,
    /// The matching that isn't stable.
    pub which: Which,
    /// What keeps the pair from it.
    pub flaw: Flaw,
    /// The proposer of the pair.
    pub proposer: u32,
    /// The reviewer of the pair.
    pub reviewer: u32,
}

/// Why two given matchings have no meet and no join.
#[derive(Clone, Copy, Debug, PartialEq, Eq)]
pub enum GivenFault {
    /// The text isn't that of two matchings: the first line that can't stand where it stands, or the one behind the last
    /// where the closing `end` is missing. Lines are counted from 1.
    BadAnswer(u32),
    /// One of the matchings isn't stable.
    NotStable(Unstable),
    /// Memory ran out. Nothing is said of the text.
    OutOfMemory,
}

impl From<AllocError> for GivenFault {
    ghost use Rattle.std.specs.Prelude.{◌≡◌};
    ghost use Rattle.sm_answer_given.specs.declared.faults.GivenFault.TheVariants.{OutOfMemory};

    ghost from_gives = { λ _ e. e ≡ OutOfMemory };

    fn from(_error: AllocError) -> GivenFault {
        GivenFault::OutOfMemory
    }
}

impl<T: Drop> From<AllocFailed<T>> for GivenFault {
    ghost use Rattle.std.specs.Prelude.{◌≡◌};
    ghost use Rattle.sm_answer_given.specs.declared.faults.GivenFault.TheVariants.{OutOfMemory};

    ghost from_gives = { λ _ e. e ≡ OutOfMemory };

    fn from(_error: AllocFailed<T>) -> GivenFault {
        GivenFault::OutOfMemory
    }
}

//! What words may ask for, and why they ask for nothing.

use sm_instance::{Measure, Side};
use sm_make::Shape;
use std::alloc::AllocError;
use thiserror::Error;

/// What the words ask for.
#[derive(Debug, Drop, PartialEq, Eq)]
pub enum Job {
    /// The best stable matching of a side, of the proposers where no side is named.
    Solve(Option<Side>),
    /// The first and the last partners, and the reduced lists.
    Reduced,
    /// The first partners, the chain of rotations, and what each rotation needs.
    Rotations,
    /// The rank vectors of the allowed stable matchings behind a vector, where one is given, and at most so many.
    List(Option<Vec<u32>>, u32),
    /// The stable pairs, and which of them are in every stable matching.
    Pairs,
    /// The allowed stable matching of the least regret.
    Regret,
    /// The lightest allowed stable matching by this measure, with a flow that certifies it.
    Weight(Measure),
    /// The matching in which each proposer has the better of its partners in two stable matchings that are given.
    Meet,
    /// The matching in which each proposer has the worse of them.
    Join,
    /// What tallies say of the allowed stable matchings, of so many at most.
    Survey(u32),
    /// The verdict on an answer that is given.
    Check,
    /// The instance that is made from a shape, a size and a seed: its text, or where the last is `true`, its summary, which
    /// is what `survey` says of it with the usual limit, and `solve` of roommates.
    Make(Shape, u32, u64, bool),
    /// Of roommates who are left out, and a matching of the others.
    Rest,
    /// The median of the allowed stable matchings, and how many they are.
    Median,
    /// The fewest steps from one of two stable matchings that are given to the other.
    Route,
    /// The instance in JSON.
    Export,
}

/// How an instance is given and its answer written.
#[derive(Clone, Copy, Debug, PartialEq, Eq)]
pub enum Form {
    /// As lines of text.
    Text,
    /// In JSON.
    Json,
}

/// Why words ask for nothing.
#[derive(Debug, Drop, Error)]
pub enum WordsFault {
    /// The word of this number, counted from 1, is faulty.
    #[error("word {0} is faulty")]
    Usage(u32),
    /// There was no memory.
    #[error("no memory")]
    OutOfMemory,
}

impl From<AllocError> for WordsFault {
    ghost use Rattle.std.specs.Prelude.{◌≡◌};
    ghost use Rattle.sm_words.specs.declared.jobs.WordsFault.TheVariants.{OutOfMemory};

    ghost from_gives = { λ _ e. e ≡ OutOfMemory };

    fn from(_e: AllocError) -> WordsFault {
        WordsFault::OutOfMemory
    }
}

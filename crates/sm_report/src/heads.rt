//! The first lines of answers.

use sm_instance::{Measure, Side};

/// What an answer answers, with everything filled in that need not be said: what its first line says.
#[derive(Debug, Drop)]
pub enum Head {
    /// One stable matching: the best for a side of an instance with two sides, and any one of roommates.
    Solve(Option<Side>),
    /// The reduced lists.
    Reduced,
    /// All rotations.
    Rotations,
    /// The stable pairs.
    Pairs,
    /// The rank vectors above a given one, or from the first on where none is given, and at most so many of them.
    List(Option<Vec<u32>>, u32),
    /// A stable matching of least regret.
    Regret,
    /// A lightest stable matching.
    Weight(Measure),
    /// The best for each proposer of two stable matchings.
    Meet,
    /// The worst for each proposer of two stable matchings.
    Join,
    /// What tallies make of the rank vectors, and at most so many of these.
    Survey(u32),
    /// Whether an answer is right.
    Check,
    /// The median of all stable matchings.
    Median,
    /// A shortest route from one stable matching to another.
    Route,
    /// A matching of the persons that stay where an odd party excludes a stable matching.
    Rest,
}

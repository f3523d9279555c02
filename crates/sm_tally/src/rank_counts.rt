//! Rank vectors by what tallies count of them.

use crate::Profile;

/// What tallies count of a rank vector.
#[derive(Clone, Copy)]
pub struct RankCounts {
    /// The sum of its ranks.
    pub sum: u64,
    /// How many of them are 1, 2, 3 and greater.
    pub profile: Profile,
}

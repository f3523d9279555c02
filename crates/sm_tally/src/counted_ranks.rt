//! Rank vectors that change in places, with what tallies count of them.

ghost use Rattle.std.specs.Prelude.{◌≡◌, ◌<◌, ◌≤◌, ◌+◌, ◌-◌, ◌^◌, cond, length, replicate, slice_set, IfOk};
ghost use Rattle.sm_tally.specs.Counts.{AreCountsOf};

use crate::{Profile, RankCounts};
use std::alloc::{AllocError, Global};
use std::marker::Model;

/// A rank for each proposer, with what tallies count of all ranks.
#[derive(Drop)]
pub struct CountedRanks {
    ranks: Vec<u32>,
    counts: RankCounts,
}

impl Model for CountedRanks {
    ghost use Rattle.std.specs.Prelude.{ℕ, List};
    ghost use Rattle.sm_tally.specs.Counts.{AreKeptCounts};

    ghost Value = { List ℕ };

    ghost view = { λ r. r.ranks.items };

    ghost invariant = { λ r. AreKeptCounts r.ranks.items r.counts };
}

impl CountedRanks {
    /// Ranks 0 of so many proposers. Takes time and memory in proportion to these.
    ///
    /// # Errors
    ///
    /// `AllocError` where memory ran out, and only then.
    pub fn new(alloc: Global, proposers: u32) -> Result<CountedRanks, AllocError>
        ensures { IfOk result (λ ranks. ranks ≡ replicate proposers 0) }
    {
        let ranks = vec![in alloc; 0; proposers as usize]?;
        Ok(CountedRanks {
            ranks,
            counts: RankCounts {
                sum: 0,
                profile: Profile {
                    first: 0,
                    second: 0,
                    third: 0,
                    greater: 0,
                },
            },
        })
    }

    /// The ranks. Takes constant time.
    pub fn ranks(&self) -> &[u32]
        ensures { result.now ≡ self.now }
    {
        self.ranks.as_slice()
    }

    /// What is counted of the ranks. Takes constant time.
    pub fn counts(&self) -> RankCounts
        ensures { AreCountsOf self.now result }
    {
        self.counts
    }

    /// Puts a rank in place of that of a proposer. Takes constant time.
    pub fn set(&mut self, p: u32, rank: u32)
        requires { p < length self.old }
        ensures { self.new ≡ slice_set self.old p rank }
    {
        let last = self.ranks[p as usize];
        let RankCounts { sum, profile } = self.counts;
        self.ranks[p as usize] = rank;
        self.counts = RankCounts {
            sum: sum + u64::from(rank) - u64::from(last),
            profile: Profile {
                first: exchanged(profile.first, rank == 1, last == 1),
                second: exchanged(profile.second, rank == 2, last == 2),
                third: exchanged(profile.third, rank == 3, last == 3),
                greater: exchanged(profile.greater, rank > 3, last > 3),
            },
        };
    }
}

/// How many there are once one more comes and one goes, where they do.
fn exchanged(count: u64, comes: bool, goes: bool) -> u64
    requires few { count < 2 ^ 32 }
    requires held { cond goes 1 0 ≤ count }
    ensures { result ≡ count + cond comes 1 0 - cond goes 1 0 }
{
    count + u64::from(comes) - u64::from(goes)
}

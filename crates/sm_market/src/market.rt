//! Markets: the lists of both sides, and where each agent stands on the lists of those whom it lists.

ghost use Rattle.std.specs.Prelude.{◌≡◌, ◌≢◌, ℕ, ◌<◌, ◌^◌, length, IfOk, IfErr, OnOk};
ghost use Rattle.sm_market.specs.Lists.{Lists, row, entry, place_of, both_sides, reversed_lists, IsMarket};
ghost use Rattle.sm_market.specs.Vectors.{rows_of, lists_of};
ghost use Rattle.sm_market.specs.Limits.{IsWithinLimits};
ghost use Rattle.sm_lists.specs.Crosses.{AreCrossPlaces};
ghost use Rattle.sm_lists.specs.Held.{held_in, place_in};
ghost use Rattle.sm_market.specs.Crosses.{AreCrosses};

use crate::entries::check_entries;
use crate::faults::{MarketFault, Side};
use sm_lists::{CrossPlaces, Naming, Packed, RaisedRows, Rows, cross_places, lent, namings};
use std::alloc::{AllocError, Global};
use std::marker::Model;

/// A market with mutual lists: two agents list each other, or neither lists the other.
///
/// It keeps the lists of each side one behind another, and beside each entry the place of the list's owner on the list
/// of the agent that the entry names. So it takes memory in proportion to the entries, and none for each pair of agents;
/// equal lists may be kept once, and so may places that differ from agent to agent by one.
#[derive(Debug, Drop)]
pub struct Market {
    proposer_lists: Rows,
    reviewer_lists: Rows,
    proposer_crosses: RaisedRows,
    reviewer_crosses: RaisedRows,
}

impl Model for Market {
    ghost use Rattle.sm_market.specs.Lists.{Lists, both_sides};
    ghost use Rattle.sm_market.specs.Kept.{IsKept};

    ghost Value = { Lists };

    ghost view = { λ m. both_sides m.proposer_lists m.reviewer_lists };

    ghost invariant = { λ m. IsKept (both_sides m.proposer_lists m.reviewer_lists)
        m.proposer_crosses m.reviewer_crosses };
}

impl Market {
    ghost use Rattle.sm_market.specs.MarketFaults.{IsFirstFault};

    /// Makes a market of lists, or names the first faulty entry.
    ///
    /// Each side has to have fewer than 2^24 agents, and fewer than 2^24 entries on all its lists. The lists are moved
    /// into the market, and are dropped where they make none. Takes time and memory in proportion to the agents and
    /// entries.
    ///
    /// # Errors
    ///
    /// An entry that names no agent of the other side (`OutOfRange`), that stands earlier on its list (`Repeated`), or
    /// that names an agent which doesn't list the list's owner (`NotMutual`), tried at each entry in this order. The
    /// first entry with a fault is named. `OutOfMemory` where memory ran out.
    pub fn build(
        alloc: Global,
        proposer_lists: Vec<Vec<u32>>,
        reviewer_lists: Vec<Vec<u32>>,
    ) -> Result<Market, MarketFault>
        requires { IsWithinLimits (lists_of proposer_lists.items reviewer_lists.items) }
        ensures lists { IfOk result (λ m. m ≡ lists_of proposer_lists.items reviewer_lists.items) }
        ensures market { OnOk result (IsMarket (lists_of proposer_lists.items
            reviewer_lists.items)) }
        ensures fault { IfErr result
            (λ f. IsFirstFault (lists_of proposer_lists.items reviewer_lists.items) f) }
        ensures no_market { IfErr result
            (λ f. f ≢ MarketFault.OutOfMemory
            → ¬ IsMarket (lists_of proposer_lists.items reviewer_lists.items)) }
    {
        let CrossPlaces {
            rows: proposer_crosses,
            others: reviewer_crosses,
        } = crosses_of(alloc, &proposer_lists, &reviewer_lists)?;
        check_entries(
            alloc,
            Side::Proposers,
            &proposer_lists,
            &reviewer_lists,
            &proposer_crosses,
        )?;
        check_entries(
            alloc,
            Side::Reviewers,
            &reviewer_lists,
            &proposer_lists,
            &reviewer_crosses,
        )?;
        Ok(Market {
            proposer_lists: joined(alloc, proposer_lists)?,
            reviewer_lists: joined(alloc, reviewer_lists)?,
            proposer_crosses: RaisedRows::level(alloc, Rows::of_packed(alloc, &proposer_crosses)?),
            reviewer_crosses: RaisedRows::level(alloc, Rows::of_packed(alloc, &reviewer_crosses)?),
        })
    }

    /// A market of lists that are known to make one, with the cross positions of both sides. Nothing is tried, and no
    /// memory is taken.
    pub fn held(
        proposer_lists: Rows,
        reviewer_lists: Rows,
        proposer_crosses: RaisedRows,
        reviewer_crosses: RaisedRows,
    ) -> Market
        requires limits { IsWithinLimits (both_sides proposer_lists reviewer_lists) }
        requires market { IsMarket (both_sides proposer_lists reviewer_lists) }
        requires proposers { AreCrosses proposer_lists reviewer_lists proposer_crosses }
        requires reviewers { AreCrosses reviewer_lists proposer_lists reviewer_crosses }
        ensures lists { result ≡ both_sides proposer_lists reviewer_lists }
    {
        Market {
            proposer_lists,
            reviewer_lists,
            proposer_crosses,
            reviewer_crosses,
        }
    }

    /// The market with its sides exchanged: the reviewers of this one propose there, each with its own list.
    ///
    /// Takes time and memory in proportion to the agents and entries.
    ///
    /// # Errors
    ///
    /// `AllocError` where memory ran out, and only then.
    pub fn swapped(&self, alloc: Global) -> Result<Market, AllocError>
        ensures { IfOk result (λ m. m ≡ reversed_lists self.now) }
    {
        Ok(Market {
            proposer_lists: self.reviewer_lists.copy(alloc)?,
            reviewer_lists: self.proposer_lists.copy(alloc)?,
            proposer_crosses: self.reviewer_crosses.copy(alloc)?,
            reviewer_crosses: self.proposer_crosses.copy(alloc)?,
        })
    }

    /// A market with the same lists.
    ///
    /// Takes time and memory in proportion to the agents and entries.
    ///
    /// # Errors
    ///
    /// `AllocError` where memory ran out, and only then.
    pub fn copy(&self, alloc: Global) -> Result<Market, AllocError>
        ensures { IfOk result (λ copy. copy ≡ self.now) }
    {
        Ok(Market {
            proposer_lists: self.proposer_lists.copy(alloc)?,
            reviewer_lists: self.reviewer_lists.copy(alloc)?,
            proposer_crosses: self.proposer_crosses.copy(alloc)?,
            reviewer_crosses: self.reviewer_crosses.copy(alloc)?,
        })
    }

    /// How many proposers there are. Takes constant time.
    pub fn proposers(&self) -> u32
        ensures count { result ≡ length self.now.proposers }
        ensures market { IsMarket self.now }
        ensures limits { IsWithinLimits self.now }
    {
        self.proposer_lists.len() as u32
    }

    /// How many reviewers there are. Takes constant time.
    pub fn reviewers(&self) -> u32
        ensures count { result ≡ length self.now.reviewers }
        ensures market { IsMarket self.now }
        ensures limits { IsWithinLimits self.now }
    {
        self.reviewer_lists.len() as u32
    }

    /// A proposer's list of reviewers, best first. Agents are numbered from 0. Takes constant time.
    #[tactic(auto, using(sm_lists::proofs::RowLemmas::row_fits))]
    pub fn proposer_list(&self, p: u32) -> &[u32]
        requires { p < length self.now.proposers }
        ensures list { result.now ≡ row self.now.proposers p }
        ensures fits { length result.now < 2 ^ 24 }
    {
        self.proposer_lists.at(p)
    }

    /// A reviewer's list of proposers, best first. Agents are numbered from 0. Takes constant time.
    #[tactic(auto, using(sm_lists::proofs::RowLemmas::row_fits))]
    pub fn reviewer_list(&self, r: u32) -> &[u32]
        requires { r < length self.now.reviewers }
        ensures list { result.now ≡ row self.now.reviewers r }
        ensures fits { length result.now < 2 ^ 24 }
    {
        self.reviewer_lists.at(r)
    }

    /// How many reviewers a proposer lists. Agents are numbered from 0. Takes constant time.
    pub fn proposer_len(&self, p: u32) -> u32
        requires { p < length self.now.proposers }
        ensures { result ≡ length (row self.now.proposers p) }
    {
        self.proposer_list(p).len() as u32
    }

    /// How many proposers a reviewer lists. Agents are numbered from 0. Takes constant time.
    pub fn reviewer_len(&self, r: u32) -> u32
        requires { r < length self.now.reviewers }
        ensures { result ≡ length (row self.now.reviewers r) }
    {
        self.reviewer_list(r).len() as u32
    }

    /// The reviewer at a place of a proposer's list. Agents and places are numbered from 0. Takes constant time.
    pub fn reviewer_at(&self, p: u32, place: u32) -> u32
        requires in_range { p < length self.now.proposers }
        requires on_list { place < length (row self.now.proposers p) }
        ensures named { result ≡ entry self.now.proposers p place }
        ensures in_range { result < length self.now.reviewers }
        ensures market { IsMarket self.now }
    {
        self.proposer_lists.entry_at(p, place)
    }

    /// The proposer at a place of a reviewer's list. Agents and places are numbered from 0. Takes constant time.
    pub fn proposer_at(&self, r: u32, place: u32) -> u32
        requires in_range { r < length self.now.reviewers }
        requires on_list { place < length (row self.now.reviewers r) }
        ensures named { result ≡ entry self.now.reviewers r place }
        ensures in_range { result < length self.now.proposers }
        ensures market { IsMarket self.now }
    {
        self.reviewer_lists.entry_at(r, place)
    }

    /// The place of proposer `p` on the list of the reviewer at `place` of `p`'s list. Takes the same time for all.
    pub fn cross(&self, p: u32, place: u32) -> u32
        requires in_range { p < length self.now.proposers }
        requires on_list { place < length (row self.now.proposers p) }
        ensures place { result ≡ place_of self.now.reviewers (entry self.now.proposers p place) p }
        ensures on_list { result < length (row self.now.reviewers (entry self.now.proposers p
            place)) }
    {
        self.proposer_crosses.entry_at(p, place)
    }

    /// The place of reviewer `r` on the list of the proposer at `place` of `r`'s list. Takes the same time for all.
    pub fn reviewer_cross(&self, r: u32, place: u32) -> u32
        requires in_range { r < length self.now.reviewers }
        requires on_list { place < length (row self.now.reviewers r) }
        ensures place { result ≡ place_of self.now.proposers (entry self.now.reviewers r place) r }
        ensures on_list { result < length (row self.now.proposers (entry self.now.reviewers r
            place)) }
    {
        self.reviewer_crosses.entry_at(r, place)
    }
}

/// The cross places of both sides' lists, whatever their entries are.
fn crosses_of(
    alloc: Global,
    proposers: &[Vec<u32>],
    reviewers: &[Vec<u32>],
) -> Result<CrossPlaces<u32>, AllocError>
    requires { IsWithinLimits (lists_of proposers.now reviewers.now) }
    ensures proposers { IfOk result (λ c. AreCrossPlaces (rows_of proposers.now)
        (rows_of reviewers.now)
        (held_in place_in c.rows)) }
    ensures reviewers { IfOk result (λ c. AreCrossPlaces (rows_of reviewers.now)
        (rows_of proposers.now)
        (held_in place_in c.others)) }
{
    let proposers = lent(alloc, proposers)?;
    let reviewers = lent(alloc, reviewers)?;
    let namings: Packed<Naming> = namings(alloc, &proposers, &reviewers)?;
    cross_places(alloc, &proposers, &reviewers, &namings)
}

/// These lists, one behind another. The vectors are freed.
fn joined(alloc: Global, vectors: Vec<Vec<u32>>) -> Result<Rows, AllocError>
    ensures { IfOk result (λ rows. rows ≡ rows_of vectors.items) }
{
    Rows::of(alloc, &vectors)
}

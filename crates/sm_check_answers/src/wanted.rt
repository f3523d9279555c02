//! The pairs of a matching that is wanted, as an answer writes them.

ghost use Rattle.std.specs.Prelude.{◌≡◌, ◌↔◌, ℕ, ◌<◌, [], List, length, Option, IsTrue, IfOk};
ghost use Rattle.sm_instance.specs.Matching.{IsAssignment};
ghost use Rattle.sm_check_clauses.specs.Pairs.{AreAllThere};
ghost use Rattle.sm_check_answers.specs.Stood.{Stands, AreStood};

use sm_instance::Instance;
use std::alloc::{AllocError, Global};

/// The proposers that stand in pairs so far, whether each does, from proposer 0 on.
#[derive(Drop)]
pub struct Stood {
    /// Whether each proposer stands in a pair.
    pub stood: Vec<bool>,
}

impl Stood {
    /// Nobody stands in a pair. Takes time and memory in proportion to the proposers.
    ///
    /// # Errors
    ///
    /// `AllocError` where memory ran out, and only then.
    pub fn nobody(alloc: Global, instance: &Instance) -> Result<Stood, AllocError>
        ensures { IfOk result (λ nobody. AreStood instance.now [] nobody.stood.items) }
    {
        Ok(Stood {
            stood: vec![in alloc; false; instance.proposer_count() as usize]?,
        })
    }

    /// Whether a pair is one of the matching that is wanted, and its proposer stood in none before. Then it stands too. Agents are
    /// counted from 0, and `wanted` has for each proposer a place of its list, counted from 0, where it is matched. Takes constant
    /// time.
    pub fn add(&mut self, instance: &Instance, wanted: &[Option<u32>], p: u32, r: u32) -> bool
        requires proposer { p < length instance.now.proposers }
        requires one_each { length self.old.stood.items ≡ length instance.now.proposers }
        requires wanted { IsAssignment instance.now wanted.now }
        ensures one_each { length self.new.stood.items ≡ length instance.now.proposers }
        ensures stands { (pairs : List (ℕ × ℕ)) → AreStood instance.now pairs self.old.stood.items
            → Stands instance.now wanted.now pairs (p, r) self.new.stood.items result }
    {
        let _proposers = instance.proposer_count();
        let Some(place) = wanted[p as usize] else {
            return false;
        };
        if instance.reviewer_at(p, place) != r || self.stood[p as usize] {
            return false;
        }
        self.stood[p as usize] = true;
        true
    }

    /// Whether each proposer that is matched in the matching that is wanted stands in a pair, where `wanted` has for each proposer
    /// a place of its list, counted from 0, if it is matched. Takes time in proportion to the proposers.
    pub fn are_all_there(&self, instance: &Instance, wanted: &[Option<u32>]) -> bool
        requires one_each { length self.now.stood.items ≡ length instance.now.proposers }
        requires wanted { IsAssignment instance.now wanted.now }
        ensures { (pairs : List (ℕ × ℕ)) → AreStood instance.now pairs self.now.stood.items
            → IsTrue result ↔ AreAllThere wanted.now pairs }
    {
        for p in 0..instance.proposer_count() as usize {
            if wanted[p].is_some() && !self.stood[p] {
                return false;
            }
        }
        true
    }
}

//! Looking for cross places one by one.

ghost use Rattle.std.specs.Prelude.{◌≡◌, ◌<◌, length, IfOk, IfSome};
ghost use Rattle.sm_text.specs.Limits.{most_agents};
ghost use Rattle.sm_agents.specs.Written.{row, entry};
ghost use Rattle.sm_instance.specs.Crosses.{cross_place};

use crate::crosses::LentCrosses;
use crate::instance::Instance;
use sm_agents::count_entries;
use sm_lists::first_place;
use std::alloc::{AllocError, Global};
use std::marker::Model;

/// Looks for cross places of an instance one by one: along a list, until that took four times as many steps as there are entries,
/// and from then on in those of the whole instance. Those are made then, unless the instance keeps them.
#[derive(Drop)]
pub struct CrossSearch<'a> {
    instance: &'a Instance,
    made: Option<LentCrosses<'a>>,
    steps_left: usize,
}

impl<'a> Model for CrossSearch<'a> {
    ghost use Rattle.sm_agents.specs.Written.{Written};
    ghost use Rattle.sm_instance.specs.Crosses.{IsCrossSearch};

    ghost Value = { Written };

    ghost view = { λ s. s.instance.now };

    ghost invariant = { λ s. IsCrossSearch s.instance.now s.made };
}

impl<'a> CrossSearch<'a> {
    /// A search that has taken no step yet. Takes time in proportion to the agents.
    pub fn new(instance: &'a Instance) -> CrossSearch<'a>
        ensures { result ≡ instance.now }
    {
        let entries = count_entries(instance.proposers()) + count_entries(instance.reviewers());
        let made = match instance.kept_crosses() {
            Some(crosses) => Some(LentCrosses::Kept(crosses)),
            None => None,
        };
        CrossSearch {
            instance,
            made,
            steps_left: 4 * entries,
        }
    }

    /// The place of proposer `p` on the list of the reviewer at `place` of `p`'s list; `None` where it isn't on it, so that the
    /// entry is inert. A call takes constant time once cross places are at hand, and till then time in the length of
    /// the reviewer's list. All calls together take time and memory in proportion to the calls, agents and entries.
    ///
    /// # Errors
    ///
    /// `AllocError` where memory ran out, and only then.
    pub fn cross(&mut self, alloc: Global, p: u32, place: u32) -> Result<Option<u32>, AllocError>
        requires in_range { p < length self.old.proposers }
        requires on_list { place < length (row self.old.proposers p) }
        ensures same { self.new ≡ self.old }
        ensures cross { IfOk result
            (λ back. back ≡ cross_place self.old.reviewers (entry self.old.proposers p place) p) }
        ensures fits { IfOk result (λ back. IfSome back (λ back. back < most_agents)) }
    {
        self.make_when_due(alloc)?;
        if let Some(made) = &self.made {
            return Ok(made.get().of_proposer(p)[place as usize].place());
        }
        let list = self
            .instance
            .reviewer_list(self.instance.reviewer_at(p, place));
        let back = first_place(list, p);
        self.note_steps(list, back);
        Ok(back)
    }

    /// The place of reviewer `r` on the list of the proposer at `place` of `r`'s list; `None` where it isn't on it. Takes what
    /// [`CrossSearch::cross`] takes.
    ///
    /// # Errors
    ///
    /// `AllocError` where memory ran out, and only then.
    pub fn cross_back(
        &mut self,
        alloc: Global,
        r: u32,
        place: u32,
    ) -> Result<Option<u32>, AllocError>
        requires in_range { r < length self.old.reviewers }
        requires on_list { place < length (row self.old.reviewers r) }
        ensures same { self.new ≡ self.old }
        ensures cross { IfOk result
            (λ back. back ≡ cross_place self.old.proposers (entry self.old.reviewers r place) r) }
    {
        self.make_when_due(alloc)?;
        if let Some(made) = &self.made {
            return Ok(made.get().of_reviewer(r)[place as usize].place());
        }
        let list = self
            .instance
            .proposer_list(self.instance.proposer_at(r, place));
        let back = first_place(list, r);
        self.note_steps(list, back);
        Ok(back)
    }

    /// Takes the cross places of the whole instance, where no step along a list is left.
    fn make_when_due(&mut self, alloc: Global) -> Result<(), AllocError>
        ensures { self.new ≡ self.old }
    {
        if self.steps_left == 0 && self.made.is_none() {
            self.made = Some(self.instance.crosses(alloc)?);
        }
        Ok(())
    }

    /// Counts the steps along a list up to a place on it, or up to its end.
    fn note_steps(&mut self, list: &[u32], place: Option<u32>)
        ensures { self.new ≡ self.old }
    {
        let steps = match place {
            Some(place) => place as usize + 1,
            None => list.len(),
        };
        self.steps_left = self.steps_left.saturating_sub(steps);
    }
}

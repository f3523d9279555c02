//! Which pairs block a matching.

ghost use Rattle.std.specs.Prelude.{◌≡◌, ℕ, ◌<◌, ◌↔◌, length, IsTrue, MatchOption};
ghost use Rattle.sm_agents.specs.Written.{row, entry};
ghost use Rattle.sm_instance.specs.Matching.{IsMatching};
ghost use Rattle.sm_instance.specs.Stable.{Blocks, IsStable, IsFirstBlocking, IsGainLimit};
ghost use Rattle.sm_instance.specs.Loads.{IsFirstBlockingWith, sooner_of};

use crate::instance::Instance;
use sm_agents::Assignment;
use sm_lists::CompactNaming;

impl Instance {
    /// Whether a proposer and a reviewer block a matching: they are acceptable to each other, the proposer would rather
    /// have the reviewer than stay as it stands, and the reviewer has a free place or a proposer that it likes less
    /// (Manlove 2013, section 3.2). A reviewer of capacity 0 never blocks.
    ///
    /// [`Instance::breach`] has to be `None`. Takes time in proportion to those who list the reviewer.
    pub fn blocks(&self, a: &Assignment, p: u32, r: u32) -> bool
        requires matching { IsMatching self.now a.now.places.items }
        requires proposer { p < length self.now.proposers }
        requires reviewer { r < length self.now.reviewers }
        ensures { IsTrue result ↔ Blocks self.now a.now.places.items p r }
    {
        match self.place(p, r) {
            Some(place) => self.blocks_at(a, p, place, self.gain_limit(a, r)),
            None => false,
        }
    }

    /// Whether a proposer and the reviewer at a place of its list block, where the reviewer gains before this limit.
    fn blocks_at(&self, a: &Assignment, p: u32, place: u32, limit: u32) -> bool
        requires matching { IsMatching self.now a.now.places.items }
        requires proposer { p < length self.now.proposers }
        requires on_list { place < length (row self.now.proposers p) }
        requires limit { IsGainLimit self.now a.now.places.items
            (entry self.now.proposers p place) limit }
        ensures { IsTrue result ↔ Blocks self.now a.now.places.items p
            (entry self.now.proposers p place) }
    {
        match self.cross(p, place) {
            Some(back) => back < limit && place < self.standing(a, p),
            None => false,
        }
    }

    /// The first pair that blocks a matching, by proposer and then by place on its list. `None` exactly where no pair
    /// blocks, so that the matching is stable.
    ///
    /// [`Instance::breach`] has to be `None`. Takes time in proportion to the agents and entries.
    pub fn first_blocking(&self, a: &Assignment) -> Option<(u32, u32)>
        requires matching { IsMatching self.now a.now.places.items }
        ensures { MatchOption result
            (IsStable self.now a.now.places.items)
            (λ b. IsFirstBlocking self.now a.now.places.items b.0 b.1) }
    {
        let mut first: Option<CompactNaming> = None;
        for r in 0..self.reviewer_count() {
            first = sooner(first, self.first_blocking_at(a, r));
        }
        match first {
            Some(naming) => {
                let p = u32::from(naming.by);
                Some((p, self.reviewer_at(p, u32::from(naming.place))))
            }
            None => None,
        }
    }

    /// The first proposer that blocks with a reviewer.
    fn first_blocking_at(&self, a: &Assignment, r: u32) -> Option<CompactNaming>
        requires matching { IsMatching self.now a.now.places.items }
        requires reviewer { r < length self.now.reviewers }
        ensures { MatchOption result
            ((p : ℕ) → ¬ Blocks self.now a.now.places.items p r)
            (λ n. IsFirstBlockingWith self.now a.now.places.items r n) }
    {
        let limit = self.gain_limit(a, r);
        let namings = self.namings_of(r);
        for e in 0..namings.len() {
            let naming = namings.at(e);
            let p = u32::from(naming.by);
            let place = u32::from(naming.place);
            if place < self.standing(a, p) && self.blocks_at(a, p, place, limit) {
                return Some(naming);
            }
        }
        None
    }
}

/// The sooner of two pairs, by proposer and then by place.
fn sooner(a: Option<CompactNaming>, b: Option<CompactNaming>) -> Option<CompactNaming>
    ensures { result ≡ sooner_of a b }
{
    match (a, b) {
        (Some(m), Some(n)) => {
            if n.by < m.by || (n.by == m.by && n.place < m.place) {
                Some(n)
            } else {
                Some(m)
            }
        }
        (Some(m), None) => Some(m),
        (None, b) => b,
    }
}

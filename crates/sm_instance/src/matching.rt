//! Assignments of proposers: which are matchings, and where others break.

ghost use Rattle.std.specs.Prelude.{◌≡◌, ◌<◌, ◌↔◌, length, Some, IsTrue, MatchOption, IfSome, ◌≤◌};
ghost use Rattle.sm_text.specs.Limits.{most_agents};
ghost use Rattle.sm_agents.specs.Written.{row};
ghost use Rattle.sm_instance.specs.Matching.{held, standing, load, IsAssignment, IsMatching, IsFirstBreach};
ghost use Rattle.sm_agents.specs.Sound.{IsInstance};
ghost use Rattle.sm_instance.specs.Loads.{IsFirstOf, IsUnacceptable, IsOverfull, IsWorst};
ghost use Rattle.sm_instance.specs.Stable.{IsGainLimit};

use crate::instance::Instance;
use sm_agents::Assignment;
use sm_lists::{CompactNaming, earlier};

/// Does a proposer hold the place at which it names a reviewer?
fn holds(a: &Assignment, naming: CompactNaming) -> bool
    requires { naming.by < length a.now.places.items }
    ensures { IsTrue result ↔ (held a.now.places.items naming.by ≡ Some naming.place) }
{
    match a.places[naming.by as usize] {
        Some(held) => held == u32::from(naming.place),
        None => false,
    }
}

/// The place that a proposer holds, counted from 0, `None` where it is unmatched. Takes constant time.
pub fn held_place(a: &Assignment, p: u32) -> Option<u32>
    requires { p < length a.now.places.items }
    ensures { result ≡ held a.now.places.items p }
{
    a.places[p as usize]
}

impl Instance {
    /// The first proposer whose pair isn't acceptable, or whose reviewer is full with earlier proposers. `None` exactly
    /// where the assignment is a matching.
    ///
    /// The assignment has to have one item for each proposer, and each place has to be on its list. Takes time in
    /// proportion to the agents and entries.
    pub fn breach(&self, a: &Assignment) -> Option<u32>
        requires { IsAssignment self.now a.now.places.items }
        ensures { MatchOption result
            (IsMatching self.now a.now.places.items)
            (λ p. IsFirstBreach self.now a.now.places.items p) }
    {
        let mut first = self.first_unacceptable(a);
        for r in 0..self.reviewer_count() {
            first = earlier(first, self.first_overfull(a, r));
        }
        first
    }

    /// Whether an assignment has one item for each proposer, and each place is on its list. Takes time in proportion to
    /// the proposers.
    pub fn is_assignment(&self, a: &Assignment) -> bool
        ensures { IsTrue result ↔ IsAssignment self.now a.now.places.items }
    {
        if a.places.len() != self.proposer_count() as usize {
            return false;
        }
        for p in 0..self.proposer_count() {
            if let Some(place) = held_place(a, p) {
                if place >= self.proposer_len(p) {
                    return false;
                }
            }
        }
        true
    }

    /// The first proposer whose pair isn't acceptable.
    fn first_unacceptable(&self, a: &Assignment) -> Option<u32>
        requires { IsAssignment self.now a.now.places.items }
        ensures { IsFirstOf (IsUnacceptable self.now a.now.places.items) result }
    {
        for p in 0..self.proposer_count() {
            if let Some(place) = self.place_held(a, p) {
                if self.cross(p, place).is_none() {
                    return Some(p);
                }
            }
        }
        None
    }

    /// The first proposer that finds a reviewer full with earlier ones.
    fn first_overfull(&self, a: &Assignment, r: u32) -> Option<u32>
        requires assignment { IsAssignment self.now a.now.places.items }
        requires in_range { r < length self.now.reviewers }
        ensures { IsFirstOf (IsOverfull self.now a.now.places.items r) result }
    {
        let capacity = self.capacity(r);
        let mut load = 0;
        let namings = self.namings_of(r);
        for e in 0..namings.len() {
            let naming = namings.at(e);
            if holds(a, naming) {
                if load == capacity {
                    return Some(u32::from(naming.by));
                }
                load += 1;
            }
        }
        None
    }

    /// How many proposers an assignment gives to a reviewer. Takes time in proportion to those who list the reviewer.
    pub fn load(&self, a: &Assignment, r: u32) -> u32
        requires assignment { IsAssignment self.now a.now.places.items }
        requires in_range { r < length self.now.reviewers }
        ensures { result ≡ load self.now a.now.places.items r }
    {
        let mut load = 0;
        let namings = self.namings_of(r);
        for e in 0..namings.len() {
            let naming = namings.at(e);
            if holds(a, naming) {
                load += 1;
            }
        }
        load
    }

    /// The place, on a reviewer's list, of the one that it likes least of the proposers that it has; 0 where it has none.
    fn worst(&self, a: &Assignment, r: u32) -> u32
        requires matching { IsMatching self.now a.now.places.items }
        requires in_range { r < length self.now.reviewers }
        ensures { IsWorst self.now a.now.places.items r result }
    {
        let mut worst = 0;
        let namings = self.namings_of(r);
        for e in 0..namings.len() {
            let naming = namings.at(e);
            if holds(a, naming) {
                if let Some(place) = self.cross(u32::from(naming.by), u32::from(naming.place)) {
                    worst = worst.max(place);
                }
            }
        }
        worst
    }

    /// Which proposers on its list a reviewer would rather have than stay as it stands: those before this place. That is the
    /// length of its list where it has a free place, and else the place of the one that it likes least of those it has.
    ///
    /// [`Instance::breach`] has to be `None`. Takes time in proportion to those who list the reviewer.
    pub fn gain_limit(&self, a: &Assignment, r: u32) -> u32
        requires matching { IsMatching self.now a.now.places.items }
        requires in_range { r < length self.now.reviewers }
        ensures { IsGainLimit self.now a.now.places.items r result }
    {
        if self.load(a, r) < self.capacity(r) {
            self.reviewer_len(r)
        } else {
            self.worst(a, r)
        }
    }

    /// How a proposer stands: the place that it holds, or the length of its list where it is unmatched. Lower is better.
    /// Takes constant time.
    pub fn standing(&self, a: &Assignment, p: u32) -> u32
        requires assignment { IsAssignment self.now a.now.places.items }
        requires in_range { p < length self.now.proposers }
        ensures standing { result ≡ standing self.now a.now.places.items p }
        ensures fits { result ≤ most_agents }
        ensures instance { IsInstance self.now }
    {
        let past = self.proposer_len(p);
        self.place_held(a, p).unwrap_or(past)
    }

    /// The place that a proposer holds, if it is matched.
    pub(crate) fn place_held(&self, a: &Assignment, p: u32) -> Option<u32>
        requires assignment { IsAssignment self.now a.now.places.items }
        requires in_range { p < length self.now.proposers }
        ensures held { result ≡ held a.now.places.items p }
        ensures on_list { IfSome result (λ place. place < length (row self.now.proposers p)) }
    {
        held_place(a, p)
    }
}

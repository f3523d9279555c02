//! The rank vector of a matching, its regret and its weight.

ghost use Rattle.std.specs.Prelude.{◌≡◌, ◌<◌, ◌≤◌, length, Some};
ghost use Rattle.std.specs.Int.RustNames.{unsigned_abs};
ghost use Rattle.sm_text.specs.Limits.{most_agents, most_weight};
ghost use Rattle.sm_agents.specs.Written.{row, entry, IsAcceptable};
ghost use Rattle.sm_instance.specs.Matching.{IsMatching};
ghost use Rattle.sm_instance.specs.Ranks.{rank_vector_of, rank_back, worse_rank, regret_of, pair_weight, weight_of, second_weight_of};

use crate::instance::Instance;
use sm_agents::{Assignment, Measure};

impl Instance {
    /// Writes for each proposer the rank of its partner, or one more than the length of its list where it is unmatched.
    /// Ranks are written places counted from 1, so inert entries count.
    ///
    /// [`Instance::breach`] has to be `None`, and `into` has to have one item for each proposer. Takes time in proportion to the
    /// proposers.
    pub fn rank_vector(&self, a: &Assignment, into: &mut [u32])
        requires matching { IsMatching self.now a.now.places.items }
        requires one_each { length into.old ≡ length self.now.proposers }
        ensures { into.new ≡ rank_vector_of self.now a.now.places.items }
    {
        for p in 0..self.proposer_count() {
            into[p as usize] = self.standing(a, p) + 1;
        }
    }

    /// The greatest rank that an agent of a matched pair gives its partner, 0 where nobody is matched
    /// (Gusfield and Irving 1989, section 3.4.1).
    ///
    /// [`Instance::breach`] has to be `None`. Takes time in proportion to the proposers.
    pub fn regret(&self, a: &Assignment) -> u32
        requires matching { IsMatching self.now a.now.places.items }
        ensures { result ≡ regret_of self.now a.now.places.items }
    {
        let mut regret = 0;
        for p in 0..self.proposer_count() {
            if let Some(place) = self.place_held(a, p) {
                regret = regret.max(self.worse_rank(p, place));
            }
        }
        regret
    }

    /// The sum over the matched pairs, of both ranks or of the weights that are given to them, 0 where none is
    /// (Gusfield and Irving 1989, section 3.6).
    ///
    /// [`Instance::breach`] has to be `None`. Takes time in proportion to the proposers.
    pub fn weigh(&self, a: &Assignment, by: Measure) -> i64
        requires matching { IsMatching self.now a.now.places.items }
        ensures { result ≡ weight_of by self.now a.now.places.items }
    {
        let mut weight = 0;
        for p in 0..self.proposer_count() {
            if let Some(place) = self.place_held(a, p) {
                weight += self.pair_weight(p, place, by);
            }
        }
        weight
    }

    /// The sum of the second weights over the matched pairs, 0 where none is given.
    ///
    /// [`Instance::breach`] has to be `None`. Takes time in proportion to the proposers.
    pub fn weigh_second(&self, a: &Assignment) -> i64
        requires matching { IsMatching self.now a.now.places.items }
        ensures { result ≡ second_weight_of self.now a.now.places.items }
    {
        let mut weight = 0;
        for p in 0..self.proposer_count() {
            if let Some(place) = self.place_held(a, p) {
                weight += self.second(p, self.reviewer_at(p, place));
            }
        }
        weight
    }

    /// The rank that the reviewer at a place of a proposer's list gives the proposer, from 1. The two have to be acceptable
    /// to each other.
    fn rank_back(&self, p: u32, place: u32) -> u32
        requires in_range { p < length self.now.proposers }
        requires on_list { place < length (row self.now.proposers p) }
        requires acceptable { IsAcceptable self.now p (entry self.now.proposers p place) }
        ensures rank { result ≡ rank_back self.now p place }
        ensures fits { result ≤ most_agents }
        ensures place_fits { place < most_agents }
    {
        match self.cross(p, place) {
            Some(back) => back + 1,
            None => 0,
        }
    }

    /// The greater of the ranks, from 1, that a proposer and the reviewer at a place of its list give each other. The two have
    /// to be acceptable to each other. Takes the same time for all.
    pub fn worse_rank(&self, p: u32, place: u32) -> u32
        requires in_range { p < length self.now.proposers }
        requires on_list { place < length (row self.now.proposers p) }
        requires acceptable { IsAcceptable self.now p (entry self.now.proposers p place) }
        ensures { result ≡ worse_rank self.now p (Some place) }
    {
        let back = self.rank_back(p, place);
        back.max(place + 1)
    }

    /// The weight of a proposer and the reviewer at a place of its list: the sum of the ranks, from 1, that they give each other,
    /// or the weight that is given to them. The two have to be acceptable to each other. Takes the same time for all.
    pub fn pair_weight(&self, p: u32, place: u32, by: Measure) -> i64
        requires in_range { p < length self.now.proposers }
        requires on_list { place < length (row self.now.proposers p) }
        requires acceptable { IsAcceptable self.now p (entry self.now.proposers p place) }
        ensures weight { result ≡ pair_weight by self.now p (Some place) }
        ensures size { unsigned_abs result ≤ most_weight }
    {
        match by {
            Measure::Ranks => {
                let back = self.rank_back(p, place);
                i64::from(place + 1 + back)
            }
            Measure::Given => self.weight(p, self.reviewer_at(p, place)),
        }
    }
}

//! Instances with two sides.

ghost use Rattle.std.specs.Prelude.{◌≡◌, ◌≢◌, ℕ, ◌+◌, ◌<◌, ◌≤◌, ◌^◌, ◌↔◌, ◌∷◌, IsTrue, IfSome, length, map, position, IfOk, IfErr, OnOk, OnErr};
ghost use Rattle.std.specs.Str.{bytes_eq};
ghost use Rattle.std.specs.Int.RustNames.{unsigned_abs};
ghost use Rattle.sm_text.specs.Limits.{most_agents, most_capacity, most_weight};
ghost use Rattle.sm_agents.specs.Written.{agent_at, row, entry, names_of, capacity_of, IsAcceptable, given_weight, second_weight, seconds_among, weighed as weighed_pair};
ghost use Rattle.sm_agents.specs.Vectors.{agents_of, written_from, written_in};
ghost use Rattle.sm_instance.specs.Ranks.{HasSeconds};
ghost use Rattle.sm_agents.specs.Sound.{IsInstance};
ghost use Rattle.sm_lists.specs.EachOnce.{IsEachOnce};
ghost use Rattle.sm_instance.specs.Crosses.{cross_place, AreCrossesOf, crosses_lent};
ghost use Rattle.sm_instance.specs.Namings.{AreAskedOf, asked};
ghost use Rattle.sm_agents.specs.NameTables.{AreNamesOf};
ghost use Rattle.sm_instance.specs.Kept.{IsKept};

use crate::crosses::{Crosses, LentCrosses, find_crosses};
use crate::namings::Namings;
use sm_agents::{
    Agent, InstanceFault, Kind, NameTables, Pairs, Parts, SpacedSides, are_within_limits,
    capacity_at, checked, checked_seconds, find_named, has_nonzero, list_at, put_name_at,
    set_seconds,
};
use sm_lists::{first_place, is_each_once, place_by};
use sm_text::{LineWriter, TextHash};
use std::alloc::{AllocError, Global};
use std::marker::Model;

/// An instance with two sides: a marriage, or hospitals and residents.
///
/// From [`Instance::keep_crosses`] on it keeps, beside what is written, for each reviewer who names it and for each place of a list
/// the place of the list's owner on the other list, and from [`Instance::keep_names`] on tables of the names, so that no later call
/// searches lists or agents. [`Instance::build`] keeps both from the start. The times that calls say are those of an instance that
/// keeps both. Without cross places each look at one takes time in the length of a list, and to ask who lists a reviewer takes time
/// in proportion to all entries. It takes memory in proportion to the agents, the entries and the weights, and none for each pair
/// of agents.
#[derive(Drop)]
pub struct Instance {
    kind: Kind,
    proposers: Vec<Agent>,
    reviewers: Vec<Agent>,
    weights: Vec<(u32, u32, i64)>,
    forced: Vec<(u32, u32)>,
    forbidden: Vec<(u32, u32)>,
    seconds: Vec<i64>,
    order: Vec<u32>,
    weighed: Pairs,
    crosses: Option<Crosses>,
    names: Option<NameTables>,
    spaced: SpacedSides,
}

impl Model for Instance {
    ghost use Rattle.sm_agents.specs.Written.{Written};
    ghost use Rattle.sm_agents.specs.Vectors.{written_with};
    ghost use Rattle.sm_instance.specs.Kept.{IsKept};

    ghost Value = { Written };

    ghost view = { λ i. written_with i.kind i.proposers.items i.reviewers.items i.weights.items
        i.forced.items i.forbidden.items i.seconds.items i.order.items };

    ghost invariant = { λ i. IsKept
        (written_with i.kind i.proposers.items i.reviewers.items i.weights.items i.forced.items
        i.forbidden.items i.seconds.items i.order.items)
        i.weighed i.crosses i.names i.spaced };
}

impl Instance {
    ghost use Rattle.sm_text.specs.Writer.{PutsPiece};
    ghost use Rattle.sm_agents.specs.Faults.{IsInstanceFault, IsOrderFault, IsSecondFault, IsSoundSecond};

    /// Makes an instance, or names the first thing that stands in the way.
    ///
    /// The kind has to be one with two sides, and there have to be fewer than 2^24 weights, forced and forbidden pairs
    /// together. Each pair has the proposer first. What is given is moved into the instance, and is dropped where it
    /// makes none. All second weights are 0, and the order of the proposers is that of their numbers. Takes time and memory
    /// in proportion to the agents, the entries and the items.
    ///
    /// # Errors
    ///
    /// The faults are those of [`InstanceFault`], in its order, and never `BadOrder`. Agents and entries are tried on the
    /// proposers' side first, then by number and by place. The capacity has to be 1 for a proposer, and for every agent of a
    /// marriage.
    pub fn build(
        alloc: Global,
        kind: Kind,
        proposers: Vec<Agent>,
        reviewers: Vec<Agent>,
        weights: Vec<(u32, u32, i64)>,
        forced: Vec<(u32, u32)>,
        forbidden: Vec<(u32, u32)>,
    ) -> Result<Instance, InstanceFault>
        requires two_sided { kind ≢ Kind.Roommates }
        requires few { length weights.items + length forced.items + length forbidden.items
            < 2 ^ 24 }
        ensures written { IfOk result (λ i. i ≡ written_from kind
            proposers.items reviewers.items weights.items forced.items forbidden.items) }
        ensures instance { OnOk result (IsInstance (written_from kind
            proposers.items reviewers.items weights.items forced.items forbidden.items)) }
        ensures fault { IfErr result (λ f. IsInstanceFault (written_from kind
            proposers.items reviewers.items weights.items forced.items forbidden.items) f) }
    {
        if !are_within_limits(&proposers, &reviewers) {
            return Err(InstanceFault::TooMany);
        }
        let parts = Parts::plain(
            alloc, kind, proposers, reviewers, weights, forced, forbidden,
        )?;
        let (proposers, reviewers, weighed) = checked(alloc, &parts)?;
        Ok(of_checked(
            alloc,
            parts,
            NameTables {
                proposers,
                reviewers,
            },
            weighed,
        )?)
    }

    /// An instance of parts that are known to make one. Nothing is tried. Pairs, and names where they are kept, will be found by
    /// these hashes, which shouldn't be known to whoever chose them. Neither cross places nor tables of names are kept: see
    /// [`Instance::keep_crosses`] and [`Instance::keep_names`]. Takes time and memory in proportion to the agents and weights.
    ///
    /// # Errors
    ///
    /// `AllocError` where memory ran out, and only then.
    pub fn held(alloc: Global, hash: TextHash, parts: Parts) -> Result<Instance, AllocError>
        requires instance { IsInstance (written_in parts) }
        requires few { length parts.weights.items + length parts.forced.items
            + length parts.forbidden.items < 2 ^ 24 }
        ensures { IfOk result (λ i. i ≡ written_in parts) }
    {
        let weighed = Pairs::of(alloc, hash, &parts.weights)?;
        let spaced = SpacedSides::of(alloc, &parts.proposers, &parts.reviewers)?;
        Ok(of_parts(parts, weighed, None, None, spaced))
    }

    /// The kind, which is a marriage or hospitals. Takes constant time.
    #[inline(always)]
    pub fn kind(&self) -> Kind
        ensures kind { result ≡ self.now.kind }
        ensures instance { IsInstance self.now }
    {
        self.kind
    }

    /// The proposers, by number. Takes constant time.
    pub fn proposers(&self) -> &[Agent]
        ensures agents { agents_of result.now ≡ self.now.proposers }
        ensures instance { IsInstance self.now }
    {
        &self.proposers
    }

    /// The reviewers, by number. Takes constant time.
    pub fn reviewers(&self) -> &[Agent]
        ensures agents { agents_of result.now ≡ self.now.reviewers }
        ensures instance { IsInstance self.now }
    {
        &self.reviewers
    }

    /// Puts a space and a proposer's name behind what a writer holds.
    #[inline(always)]
    pub(crate) fn put_proposer(&self, into: &mut LineWriter, p: u32) -> Result<(), AllocError>
        requires { p < length self.now.proposers }
        ensures { PutsPiece into.old into.new (32 ∷ (agent_at self.now.proposers p).name) result }
    {
        put_name_at(into, &self.proposers, &self.spaced.proposers, p)
    }

    /// Puts a space and a reviewer's name behind what a writer holds.
    #[inline(always)]
    pub(crate) fn put_reviewer(&self, into: &mut LineWriter, r: u32) -> Result<(), AllocError>
        requires { r < length self.now.reviewers }
        ensures { PutsPiece into.old into.new (32 ∷ (agent_at self.now.reviewers r).name) result }
    {
        put_name_at(into, &self.reviewers, &self.spaced.reviewers, r)
    }

    /// The weights in the order in which they were given, each with its proposer and its reviewer. Takes constant time.
    pub fn weights(&self) -> &[(u32, u32, i64)]
        ensures { result.now ≡ self.now.weights }
    {
        &self.weights
    }

    /// The forced pairs, in the order in which they were given. Takes constant time.
    pub fn forced(&self) -> &[(u32, u32)]
        ensures pairs { result.now ≡ self.now.forced }
        ensures few { length self.now.weights + length self.now.forced
            + length self.now.forbidden < 2 ^ 24 }
        ensures instance { IsInstance self.now }
    {
        &self.forced
    }

    /// The forbidden pairs, in the order in which they were given. Takes constant time.
    pub fn forbidden(&self) -> &[(u32, u32)]
        ensures pairs { result.now ≡ self.now.forbidden }
        ensures few { length self.now.weights + length self.now.forced
            + length self.now.forbidden < 2 ^ 24 }
        ensures instance { IsInstance self.now }
    {
        &self.forbidden
    }

    /// The second weights, one beside each weight, in the order of [`Instance::weights`]. A second weight that wasn't given
    /// is 0. Takes constant time.
    pub fn seconds(&self) -> &[i64]
        ensures seconds { result.now ≡ self.now.seconds }
        ensures each { length self.now.seconds ≡ length self.now.weights }
    {
        &self.seconds
    }

    /// The order of the proposers in which rank vectors are compared: each proposer once. Takes constant time.
    pub fn order(&self) -> &[u32]
        ensures order { result.now ≡ self.now.order }
        ensures instance { IsInstance self.now }
    {
        &self.order
    }

    /// Sets the order of the proposers in which rank vectors are compared. Takes time in proportion to the proposers, and
    /// memory for a mark of each.
    ///
    /// # Errors
    ///
    /// `BadOrder` exactly where the order doesn't have each proposer once, and else `OutOfMemory` alone. The instance is then
    /// as it was.
    pub fn reorder(&mut self, order: &[u32]) -> Result<(), InstanceFault>
        ensures done { OnOk result (self.new ≡ record self.old { order = order.now }) }
        ensures is_order { OnOk result (IsEachOnce (length self.old.proposers) order.now) }
        ensures fault { IfErr result (λ f. IsOrderFault (length self.old.proposers) order.now f) }
        ensures same { OnErr result (self.new ≡ self.old) }
    {
        let alloc = *self.order.allocator();
        if !is_each_once(alloc, self.proposers.len() as u32, order)? {
            return Err(InstanceFault::BadOrder);
        }
        self.order.copy_from_slice(order);
        Ok(())
    }

    /// Sets the second weights in place of all earlier ones. A pair that is given none has the second weight 0.
    ///
    /// There have to be fewer than 2^24 items, each a proposer, a reviewer and a second weight. They are moved in and dropped.
    /// Takes time in proportion to the items and the weights, and memory in proportion to the weights.
    ///
    /// # Errors
    ///
    /// `BadPair` names the first item, from 0, that names an agent that isn't there, has a weight of a size above 1,000,000,000,
    /// or names a pair that has no weight or that an earlier item names. Else `OutOfMemory` alone. The instance is then as it
    /// was.
    pub fn add_seconds(&mut self, seconds: Vec<(u32, u32, i64)>) -> Result<(), InstanceFault>
        requires { length seconds.items < 2 ^ 24 }
        ensures done { OnOk result (self.new ≡ record self.old {
          seconds = seconds_among self.old.weights seconds.items;
        }) }
        ensures sound { OnOk result ((n : ℕ) → n < length seconds.items
            → IsSoundSecond self.old seconds.items n) }
        ensures fault { IfErr result (λ f. IsSecondFault self.old seconds.items f) }
        ensures same { OnErr result (self.new ≡ self.old) }
    {
        let alloc = *self.seconds.allocator();
        let given = checked_seconds(alloc, &self.weighed, &seconds)?;
        set_seconds(&mut self.seconds, &given);
        Ok(())
    }

    /// Whether a pair has a second weight that isn't 0. Takes time in proportion to the weights.
    pub fn has_seconds(&self) -> bool
        ensures { IsTrue result ↔ HasSeconds self.now }
    {
        has_nonzero(&self.seconds)
    }

    /// How many proposers there are. Takes constant time.
    pub fn proposer_count(&self) -> u32
        ensures count { result ≡ length self.now.proposers }
        ensures instance { IsInstance self.now }
    {
        self.proposers.len() as u32
    }

    /// How many reviewers there are. Takes constant time.
    pub fn reviewer_count(&self) -> u32
        ensures count { result ≡ length self.now.reviewers }
        ensures instance { IsInstance self.now }
    {
        self.reviewers.len() as u32
    }

    /// How many reviewers a proposer lists. Takes constant time.
    pub fn proposer_len(&self, p: u32) -> u32
        requires { p < length self.now.proposers }
        ensures length { result ≡ length (row self.now.proposers p) }
        ensures fits { result ≤ most_agents }
        ensures instance { IsInstance self.now }
    {
        list_at(&self.proposers, p).len() as u32
    }

    /// How many proposers a reviewer lists. Takes constant time.
    pub fn reviewer_len(&self, r: u32) -> u32
        requires { r < length self.now.reviewers }
        ensures length { result ≡ length (row self.now.reviewers r) }
        ensures fits { result ≤ most_agents }
    {
        list_at(&self.reviewers, r).len() as u32
    }

    /// The reviewer at a place of a proposer's list. Takes constant time.
    pub fn reviewer_at(&self, p: u32, place: u32) -> u32
        requires in_range { p < length self.now.proposers }
        requires on_list { place < length (row self.now.proposers p) }
        ensures named { result ≡ entry self.now.proposers p place }
        ensures in_range { result < length self.now.reviewers }
    {
        list_at(&self.proposers, p)[place as usize]
    }

    /// The proposer at a place of a reviewer's list.
    pub(crate) fn proposer_at(&self, r: u32, place: u32) -> u32
        requires in_range { r < length self.now.reviewers }
        requires on_list { place < length (row self.now.reviewers r) }
        ensures named { result ≡ entry self.now.reviewers r place }
        ensures in_range { result < length self.now.proposers }
    {
        list_at(&self.reviewers, r)[place as usize]
    }

    /// Whom a proposer lists, best first. Takes constant time.
    pub fn proposer_list(&self, p: u32) -> &[u32]
        requires { p < length self.now.proposers }
        ensures { result.now ≡ row self.now.proposers p }
    {
        list_at(&self.proposers, p)
    }

    /// Whom a reviewer lists, best first. Takes constant time.
    pub fn reviewer_list(&self, r: u32) -> &[u32]
        requires { r < length self.now.reviewers }
        ensures { result.now ≡ row self.now.reviewers r }
    {
        list_at(&self.reviewers, r)
    }

    /// How many proposers a reviewer may have. Takes constant time.
    pub fn capacity(&self, r: u32) -> u32
        requires { r < length self.now.reviewers }
        ensures capacity { result ≡ capacity_of self.now.reviewers r }
        ensures fits { result ≤ most_capacity }
    {
        capacity_at(&self.reviewers, r)
    }

    /// The place of proposer `p` on the list of the reviewer at `place` of `p`'s list; `None` where it isn't on it, so
    /// that the entry is inert. Takes the same time for all where cross places are kept, else time in the length of that list.
    pub fn cross(&self, p: u32, place: u32) -> Option<u32>
        requires in_range { p < length self.now.proposers }
        requires on_list { place < length (row self.now.proposers p) }
        ensures cross { result ≡ cross_place self.now.reviewers (entry self.now.proposers p place)
            p }
        ensures fits { IfSome result (λ back. back < most_agents) }
        ensures place_fits { place < most_agents }
    {
        match &self.crosses {
            Some(crosses) => crosses.of_proposer(p)[place as usize].place(),
            None => first_place(self.reviewer_list(self.reviewer_at(p, place)), p),
        }
    }

    /// The place of reviewer `r` on the list of the proposer at `place` of `r`'s list; `None` where it isn't on it. Takes what
    /// [`Instance::cross`] takes.
    pub fn cross_back(&self, r: u32, place: u32) -> Option<u32>
        requires in_range { r < length self.now.reviewers }
        requires on_list { place < length (row self.now.reviewers r) }
        ensures { result ≡ cross_place self.now.proposers (entry self.now.reviewers r place) r }
    {
        match &self.crosses {
            Some(crosses) => crosses.of_reviewer(r)[place as usize].place(),
            None => first_place(self.proposer_list(self.proposer_at(r, place)), r),
        }
    }

    /// The cross places of both sides' lists, where they are kept.
    pub(crate) fn kept_crosses(&self) -> Option<&Crosses>
        ensures { IfSome result (λ c. AreCrossesOf self.now.proposers self.now.reviewers c.now) }
    {
        self.crosses.as_ref()
    }

    /// The cross places of both sides' lists, which are made where they aren't kept. Takes constant time where they are kept,
    /// else time and memory in proportion to the agents and entries.
    ///
    /// # Errors
    ///
    /// `AllocError` where memory ran out, and only then.
    pub fn crosses(&self, alloc: Global) -> Result<LentCrosses<'_>, AllocError>
        ensures { IfOk result
            (λ c. AreCrossesOf self.now.proposers self.now.reviewers (crosses_lent c)) }
    {
        match self.kept_crosses() {
            Some(crosses) => Ok(LentCrosses::Kept(crosses)),
            None => Ok(LentCrosses::Made(self.made_crosses(alloc)?)),
        }
    }

    /// The cross places of both sides' lists, made anew.
    fn made_crosses(&self, alloc: Global) -> Result<Crosses, AllocError>
        ensures { IfOk result (λ c. AreCrossesOf self.now.proposers self.now.reviewers c) }
    {
        find_crosses(alloc, &self.proposers, &self.reviewers)
    }

    /// Keeps the cross places of both sides' lists from now on, with who names each reviewer. Takes what [`Instance::crosses`]
    /// takes.
    ///
    /// # Errors
    ///
    /// `AllocError` where memory ran out, and only then. The instance is then as it was.
    pub fn keep_crosses(&mut self) -> Result<(), AllocError>
        ensures { self.new ≡ self.old }
    {
        if self.crosses.is_none() {
            let alloc = *self.order.allocator();
            self.crosses = Some(self.made_crosses(alloc)?);
        }
        Ok(())
    }

    /// Keeps tables of the names of both sides from now on. Names will be found by the hashes that [`Instance::held`] was given.
    /// Takes time and memory in proportion to the agents, or constant time where the tables are kept.
    ///
    /// # Errors
    ///
    /// `AllocError` where memory ran out, and only then. The instance is then as it was.
    pub fn keep_names(&mut self) -> Result<(), AllocError>
        ensures { self.new ≡ self.old }
    {
        if self.names.is_none() {
            let alloc = *self.order.allocator();
            let hash = self.weighed.hash();
            self.names = Some(NameTables::of(alloc, hash, &self.proposers, &self.reviewers)?);
        }
        Ok(())
    }

    /// Whether a proposer and a reviewer are acceptable to each other: each lists the other.
    ///
    /// Takes time in proportion to the logarithm of how many list the reviewer.
    pub fn acceptable(&self, p: u32, r: u32) -> bool
        requires proposer { p < length self.now.proposers }
        requires reviewer { r < length self.now.reviewers }
        ensures { IsTrue result ↔ IsAcceptable self.now p r }
    {
        match self.place(p, r) {
            Some(place) => self.cross(p, place).is_some(),
            None => false,
        }
    }

    /// The place of a reviewer on a proposer's list; `None` where it isn't on it. Takes time in proportion to the logarithm of how
    /// many list the reviewer, or in the length of the proposer's list where no cross places are kept.
    pub fn place(&self, p: u32, r: u32) -> Option<u32>
        requires proposer { p < length self.now.proposers }
        requires reviewer { r < length self.now.reviewers }
        ensures { result ≡ cross_place self.now.proposers p r }
    {
        match &self.crosses {
            Some(crosses) => place_by(crosses.namings_of(r), p),
            None => first_place(self.proposer_list(p), r),
        }
    }

    /// Who lists a reviewer, among others where cross places aren't kept.
    pub(crate) fn namings_of(&self, r: u32) -> Namings<'_>
        requires { r < length self.now.reviewers }
        ensures namings { AreAskedOf self.now.proposers r (asked result) }
        ensures instance { IsInstance self.now }
    {
        match &self.crosses {
            Some(crosses) => Namings::Kept(crosses.namings_of(r)),
            None => Namings::Sought(self, r),
        }
    }

    /// The weight that is given to a pair, 0 where none is. Takes the same time for all.
    pub fn weight(&self, p: u32, r: u32) -> i64
        requires proposer { p < length self.now.proposers }
        requires reviewer { r < length self.now.reviewers }
        ensures weight { result ≡ given_weight self.now p r }
        ensures size { unsigned_abs result ≤ most_weight }
    {
        if self.weights.is_empty() {
            return 0;
        }
        match self.weighed.find((p, r)) {
            Some(n) => self.weights[n].2,
            None => 0,
        }
    }

    /// The second weight of a pair, 0 where none is given. Takes the same time for all.
    pub fn second(&self, p: u32, r: u32) -> i64
        ensures second { result ≡ second_weight self.now p r }
        ensures size { unsigned_abs result ≤ most_weight }
    {
        if self.weights.is_empty() {
            return 0;
        }
        match self.weighed.find((p, r)) {
            Some(n) => self.seconds[n],
            None => 0,
        }
    }

    /// The number of the proposer with a name, `None` where there is none. Takes time in proportion to the proposers where no
    /// tables of names are kept.
    pub(crate) fn find_proposer(&self, name: &[u8]) -> Option<u32>
        ensures number { result ≡ position (bytes_eq name.now) (names_of self.now.proposers) }
        ensures in_range { IfSome result (λ n. n < length self.now.proposers) }
    {
        match &self.names {
            Some(names) => names.proposers.find(name),
            None => find_named(&self.proposers, name),
        }
    }

    /// The number of the reviewer with a name, `None` where there is none. Takes time in proportion to the reviewers where no
    /// tables of names are kept.
    pub(crate) fn find_reviewer(&self, name: &[u8]) -> Option<u32>
        ensures number { result ≡ position (bytes_eq name.now) (names_of self.now.reviewers) }
        ensures in_range { IfSome result (λ n. n < length self.now.reviewers) }
    {
        match &self.names {
            Some(names) => names.reviewers.find(name),
            None => find_named(&self.reviewers, name),
        }
    }
}

/// An instance of parts that are known to make one, of their names and of the pairs that are weighed, with cross places.
fn of_checked(
    alloc: Global,
    parts: Parts,
    names: NameTables,
    weighed: Pairs,
) -> Result<Instance, AllocError>
    requires instance { IsInstance (written_in parts) }
    requires few { length parts.weights.items + length parts.forced.items
        + length parts.forbidden.items < 2 ^ 24 }
    requires names { AreNamesOf (agents_of parts.proposers.items) (agents_of parts.reviewers.items) names }
    requires pairs { weighed ≡ map weighed_pair parts.weights.items }
    ensures { IfOk result (λ i. i ≡ written_in parts) }
{
    let crosses = find_crosses(alloc, &parts.proposers, &parts.reviewers)?;
    let spaced = SpacedSides::of(alloc, &parts.proposers, &parts.reviewers)?;
    Ok(of_parts(parts, weighed, Some(crosses), Some(names), spaced))
}

/// An instance of parts that are known to make one, and of what is kept beside them.
fn of_parts(
    parts: Parts,
    weighed: Pairs,
    crosses: Option<Crosses>,
    names: Option<NameTables>,
    spaced: SpacedSides,
) -> Instance
    requires { IsKept (written_in parts) weighed crosses names spaced }
    ensures { result ≡ written_in parts }
{
    Instance {
        kind: parts.kind,
        proposers: parts.proposers,
        reviewers: parts.reviewers,
        weights: parts.weights,
        forced: parts.forced,
        forbidden: parts.forbidden,
        seconds: parts.seconds,
        order: parts.order,
        weighed,
        crosses,
        names,
        spaced,
    }
}

//! Listers.

ghost use Rattle.std.specs.Prelude.{◌≡◌, true, false, List, ℕ, Option, Some, length, option_map, IfOk, MatchOption};
ghost use Rattle.sm_theory.specs.ClosedSets.{IsClosed};
ghost use Rattle.sm_theory.specs.Vectors.{IsOrder, AreInRange};
ghost use Rattle.sm_lister.specs.Listers.{IsStarted, IsNextOf, IsAtEnd, IsSameLister, IsChangedFrom, vector_of};

use crate::vector_walk::{VectorWalk, advance};
use sm_least::{Least, SearchParts};
use sm_poset::Conditions;
use sm_theory::ClosedSet;
use std::alloc::{AllocError, Global};
use std::marker::Model;

/// Goes over the stable matchings that conditions allow, from one level vector to the next one in an order of the proposers.
///
/// Each step goes on from the closed set that is held; none takes memory (in the manner of Gusfield and Irving 1989, section
/// 3.3, where all closed sets are listed).
#[derive(Debug, Drop)]
pub struct Lister {
    alloc: Global,
    parts: SearchParts,
    conditions: Conditions,
    walk: VectorWalk,
    here: bool,
}

impl Model for Lister {
    ghost use Rattle.sm_market.specs.Vectors.{rows_of};
    ghost use Rattle.sm_theory.specs.Values.{rotations_of};
    ghost use Rattle.sm_poset.specs.Posets.{poset_of};
    ghost use Rattle.sm_lister.specs.Walking.{cursor_of};
    ghost use Rattle.sm_lister.specs.Listers.{Lister as Plain};
    ghost use Rattle.sm_lister.specs.Kept.{IsLister};

    ghost Value = { Plain };

    ghost view = { λ s. record {
      poset = poset_of s.parts.market.value s.parts.chain.value.first
          (rotations_of s.parts.chain.value.rotations.items);
      levels = rows_of s.parts.levels.items;
      forced = s.conditions.forced.items;
      forbidden = s.conditions.forbidden.items;
      order = s.parts.course.order;
      cursor = cursor_of s.walk;
      here = s.here;
      changed_from = s.walk.changed_from;
      set = s.parts.held.set;
    } };

    ghost invariant = { λ s. IsLister
        (poset_of s.parts.market.value s.parts.chain.value.first (rotations_of s.parts.chain.value.rotations.items))
        (rows_of s.parts.levels.items)
        s.conditions.forced.items
        s.conditions.forbidden.items
        s.parts.course
        s.parts.gates
        s.parts.held
        s.walk
        s.here };
}

impl Lister {
    /// Makes ready to go over the stable matchings that meet the conditions, behind a vector where one is given, in the order of
    /// their level vectors. Two vectors are compared at the first proposer of `order` at which they differ.
    ///
    /// The order has each proposer once, the conditions name proposers that there are, and `after` has an item for each proposer;
    /// it needn't be the vector of a matching. All memory is taken here. Takes time and memory in proportion to the stays, the
    /// conditions, the proposers and the rotations.
    ///
    /// # Errors
    ///
    /// `AllocError` where memory ran out, and only then; the search is dropped.
    pub fn start(
        alloc: Global,
        least: Least,
        conditions: Conditions,
        order: Vec<u32>,
        after: Option<Vec<u32>>,
    ) -> Result<Lister, AllocError>
        requires order { IsOrder (length least.poset.lists.proposers) order.items }
        requires after { MatchOption after (Unit {0}) (λ v. length v.items
            ≡ length least.poset.lists.proposers) }
        requires forced { AreInRange (length least.poset.lists.proposers) conditions.forced.items }
        requires forbidden { AreInRange (length least.poset.lists.proposers)
            conditions.forbidden.items }
        ensures { IfOk result (λ s. IsStarted least conditions.forced.items
            conditions.forbidden.items order.items (option_map (λ v. v.items) after) s) }
    {
        let mut least = least;
        let any = least.begin(&order, &conditions);
        let parts = least.into_parts();
        let walk = VectorWalk::start(alloc, &parts.course, after, any)?;
        Ok(Lister {
            alloc,
            parts,
            conditions,
            walk,
            here: false,
        })
    }

    /// Goes to the first level vector of an allowed stable matching behind the last one, or behind the one after which it was
    /// started at the first call, or to the first of all. False exactly where there is none, and then always false.
    ///
    /// Takes no memory, and time in proportion to the positions that are tried, to the rotations that enter and leave with their
    /// needs and proposers, to the positions from the one that goes up on, and to the proposers from [`Lister::changed_from`] on.
    pub fn advance(&mut self) -> bool
        ensures same { IsSameLister self.old self.new }
        ensures next { result ≡ true → (v : List ℕ) × (self.new.cursor ≡ Some v)
            × IsNextOf self.old v }
        ensures none { result ≡ false → IsAtEnd self.old × (self.new.cursor ≡ self.old.cursor) }
        ensures here { self.new.here ≡ result }
        ensures changed { result ≡ true → (v : List ℕ) → self.new.cursor ≡ Some v
            → IsChangedFrom self.new.changed_from self.old.cursor v }
    {
        self.here = advance(
            &self.parts.course,
            &self.parts.gates,
            &mut self.parts.held,
            &mut self.walk,
        );
        self.here
    }

    /// The level vector to which the last call of [`Lister::advance`] came. It has to have answered true. Takes no memory.
    pub fn current(&self) -> &[u32]
        requires { self.now.here ≡ true }
        ensures { self.now.cursor ≡ Some result.now }
    {
        let _ = self.here;
        &self.walk.vector
    }

    /// The proposer below which the last call of [`Lister::advance`] that answered true left all levels as they were in the vector
    /// before, given or reached; 0 where there was none before. Takes constant time and no memory.
    pub fn changed_from(&self) -> u32
        ensures { result ≡ self.now.changed_from }
    {
        self.walk.changed_from
    }

    /// A copy of the level vector to which the last call of [`Lister::advance`] came. It has to have answered true.
    ///
    /// # Errors
    ///
    /// `AllocError` where memory ran out, and only then.
    pub(crate) fn copied(&self) -> Result<Vec<u32>, AllocError>
        requires { self.now.here ≡ true }
        ensures { (v : List ℕ) × (self.now.cursor ≡ Some v) × IfOk result (λ vector. vector.items
            ≡ v) }
    {
        Vec::from_slice(self.alloc, self.current())
    }

    /// The closed set of the matching to which the last call of [`Lister::advance`] came. It has to have answered true. Takes no
    /// memory.
    pub fn set(&self) -> &ClosedSet
        requires { self.now.here ≡ true }
        ensures closed { IsClosed self.now.poset.lists self.now.poset.rotations
            result.now.members.items }
        ensures vector { self.now.cursor ≡ Some (vector_of self.now result.now.members.items) }
    {
        let _ = self.here;
        self.parts.held.set()
    }

    /// The last vector reached, or else the one after which it was started, if there was one. A lister started after it gives
    /// what this one still has to give.
    ///
    /// # Errors
    ///
    /// `AllocError` where memory ran out, and only then.
    pub fn cursor(&self, alloc: Global) -> Result<Option<Vec<u32>>, AllocError>
        ensures { IfOk result (λ cursor. option_map (λ v. v.items) cursor ≡ self.now.cursor) }
    {
        if !self.walk.given {
            return Ok(None);
        }
        Ok(Some(Vec::from_slice(alloc, &self.walk.vector)?))
    }
}

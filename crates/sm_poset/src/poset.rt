//! Rotation posets.

ghost use Rattle.std.specs.Prelude.{◌≡◌, ◌<◌, ◌↔◌, Bool, List, length, IsTrue, IfOk};
ghost use Rattle.sm_market.specs.Stable.{IsStable};
ghost use Rattle.sm_market.specs.Pairing.{IsPairingOf};
ghost use Rattle.sm_market.specs.Vectors.{rows_of};
ghost use Rattle.sm_theory.specs.Chains.{IsPrintedChain, AreNeedsOf, AreNeeds};
ghost use Rattle.sm_theory.specs.ClosedSets.{IsClosed, matching_of};
ghost use Rattle.sm_theory.specs.Values.{rotations_of};
ghost use Rattle.sm_poset.specs.Posets.{RotationPoset, poset_of, IsPoset};
ghost use Rattle.sm_poset.specs.Moves.{AreMoves, moves_in, AreMovesOf, GoDown};

use crate::digraph::Digraph;
use crate::moves::{Moves, follow};
use crate::sets::{are_closed, reached, worst_places};
use sm_market::{Market, Pairing};
use sm_rotations::{ChainWithNeeds, needs};
use sm_theory::{Chain, ClosedSet};
use std::alloc::{AllocError, Global};
use std::marker::Model;
use std::rc::Rc;

/// The rotations of a market's complete chain with what each one needs and whom it moves where.
///
/// It keeps the market and the chain, which others may keep too, and in proportion to the pairs of the rotations and to the
/// predecessors what it looks up (Gusfield and Irving 1989, section 2.5 and chapter 3).
#[derive(Debug, Drop)]
pub struct Poset {
    market: Rc<Market>,
    chain: Rc<Chain>,
    digraph: Rc<Digraph>,
    leaders: Vec<(u32, u32)>,
}

impl Model for Poset {
    ghost use Rattle.sm_market.specs.Vectors.{rows_of};
    ghost use Rattle.sm_theory.specs.Values.{rotations_of};
    ghost use Rattle.sm_poset.specs.Posets.{RotationPoset, poset_of};
    ghost use Rattle.sm_poset.specs.Kept.{IsKept};
    ghost use Rattle.sm_poset.specs.Moves.{moves_in};

    ghost Value = { RotationPoset };

    ghost view = { λ s. poset_of s.market.value s.chain.value.first
        (rotations_of s.chain.value.rotations.items) };

    ghost invariant = { λ s. IsKept
        (poset_of s.market.value s.chain.value.first (rotations_of s.chain.value.rotations.items))
        (rows_of s.digraph.value.needs.items)
        (moves_in s.digraph.value.moves.items)
        s.leaders.items };
}

impl Poset {
    /// Makes the poset of a market and its chain, whose rotations begin with the lowest-numbered proposer of all that are
    /// exposed at their turn.
    ///
    /// The first matching of the chain has to be made for a market of these lists, and the chain has to be complete. The
    /// market is copied. The chain is moved into the poset, and dropped where memory runs out. Takes time and memory in
    /// proportion to the agents and entries.
    ///
    /// # Errors
    ///
    /// `AllocError` where memory ran out, and only then.
    pub fn of(alloc: Global, market: &Market, chain: Chain) -> Result<Poset, AllocError>
        requires made { IsPairingOf market.now chain.first }
        requires printed { IsPrintedChain market.now chain.first.places
            (rotations_of chain.rotations.items) }
        ensures { IfOk result (λ poset. poset
            ≡ poset_of market.now chain.first (rotations_of chain.rotations.items)) }
    {
        let needs = needs(alloc, market, &chain)?;
        let market = Rc::new(alloc, market.copy(alloc)?)?;
        Poset::with_needs(alloc, market, ChainWithNeeds { chain, needs })
    }

    /// Makes the poset of a market and its chain as [`Poset::of`] does, with the needs of the rotations, which aren't looked
    /// for again, and a market that others may keep too. [`sm_rotations::chain_with_needs`] gives a chain with its needs.
    ///
    /// All three are moved into the poset, and dropped where memory runs out. Takes time in proportion to the agents and to
    /// the places by which proposers move down their lists, and memory in proportion to the agents and to the pairs of the
    /// rotations.
    ///
    /// # Errors
    ///
    /// `AllocError` where memory ran out, and only then.
    pub fn with_needs(
        alloc: Global,
        market: Rc<Market>,
        found: ChainWithNeeds,
    ) -> Result<Poset, AllocError>
        requires made { IsPairingOf market.value found.chain.first }
        requires printed { IsPrintedChain market.value found.chain.first.places
            (rotations_of found.chain.rotations.items) }
        requires needs { AreNeeds market.value (rotations_of found.chain.rotations.items)
            (rows_of found.needs.items) }
        ensures { IfOk result (λ poset. poset ≡ poset_of market.value found.chain.first
            (rotations_of found.chain.rotations.items)) }
    {
        let ChainWithNeeds { chain, needs } = found;
        let Moves {
            of_proposers,
            leaders,
        } = follow(alloc, market.as_ref(), &chain)?;
        let chain = Rc::new(alloc, chain)?;
        let moves = of_proposers;
        let digraph = Rc::new(alloc, Digraph { needs, moves })?;
        Ok(Poset {
            market,
            chain,
            digraph,
            leaders,
        })
    }

    /// The market for which the poset was made. Takes constant time.
    pub fn market(&self) -> &Market
        ensures market { result.now ≡ self.now.lists }
        ensures poset { IsPoset self.now }
    {
        self.market.as_ref()
    }

    /// The chain of which the poset was made. Takes constant time.
    pub fn chain(&self) -> &Chain
        ensures first { result.now.first ≡ self.now.first }
        ensures rotations { rotations_of result.now.rotations.items ≡ self.now.rotations }
        ensures poset { IsPoset self.now }
    {
        self.chain.as_ref()
    }

    /// The market and the chain for one more keeper: nothing is copied. Takes constant time.
    ///
    /// # Errors
    ///
    /// `AllocError` where there are too many keepers, and only then.
    pub fn shared(&self) -> Result<(Rc<Market>, Rc<Chain>), AllocError>
        ensures { IfOk result (λ both. poset_of both.0.value both.1.value.first
            (rotations_of both.1.value.rotations.items) ≡ self.now) }
    {
        Ok((self.market.clone()?, self.chain.clone()?))
    }

    /// The chain and what the poset tells of its rotations for one more keeper: nothing is copied. Takes constant time.
    ///
    /// # Errors
    ///
    /// `AllocError` where there are too many keepers, and only then.
    pub fn shared_rotations(&self) -> Result<(Rc<Chain>, Rc<Digraph>), AllocError>
        ensures rotations { IfOk result (λ both. rotations_of both.0.value.rotations.items
            ≡ self.now.rotations) }
        ensures needs { IfOk result (λ both. AreNeeds self.now.lists self.now.rotations
            (rows_of both.1.value.needs.items)) }
        ensures moves { IfOk result (λ both. AreMoves self.now.lists self.now.rotations
            (length self.now.rotations) (moves_in both.1.value.moves.items)) }
    {
        Ok((self.chain.clone()?, self.digraph.clone()?))
    }

    /// The numbers of the predecessors of a rotation, rising. All are numbered from 0.
    ///
    /// There are two kinds: a rotation that moves a proposer to a reviewer from which this one moves it, and one that moves a
    /// reviewer, which this one makes a proposer pass over on its list, from a proposer that the reviewer likes less than that
    /// one to one that it likes more. Takes constant time.
    pub fn needs(&self, rotation: u32) -> &[u32]
        requires { rotation < length self.now.rotations }
        ensures { AreNeedsOf self.now.lists self.now.rotations rotation result.now }
    {
        &self.digraph.as_ref().needs[rotation as usize]
    }

    /// For all rotations what [`Poset::needs`] gives for one. Takes constant time.
    pub fn all_needs(&self) -> &[Vec<u32>]
        ensures { AreNeeds self.now.lists self.now.rotations (rows_of result.now) }
    {
        &self.digraph.as_ref().needs
    }

    /// The numbers of the rotations that move a proposer, rising, each with the place on the proposer's list to which it moves
    /// it. Rotations and places are numbered from 0. Each move leads further down the list than those before it. Takes constant
    /// time.
    pub fn moves(&self, p: u32) -> &[(u32, u32)]
        requires { p < length self.now.lists.proposers }
        ensures moves { AreMovesOf self.now.lists self.now.rotations (length self.now.rotations) p
            result.now }
        ensures down { GoDown self.now.lists p result.now }
    {
        &self.digraph.as_ref().moves[p as usize]
    }

    /// For all proposers what [`Poset::moves`] gives for one. Takes constant time.
    pub fn all_moves(&self) -> &[Vec<(u32, u32)>]
        ensures { AreMoves self.now.lists self.now.rotations (length self.now.rotations)
            (moves_in result.now) }
    {
        &self.digraph.as_ref().moves
    }

    /// Whether a set of rotations has, with each member, all predecessors of it. The set has to have one item for each
    /// rotation.
    ///
    /// Takes no memory, and time in proportion to the predecessors (Gusfield and Irving 1989, section 2.5).
    pub fn is_closed(&self, set: &ClosedSet) -> bool
        requires { length set.now.members.items ≡ length self.now.rotations }
        ensures { IsTrue result ↔ IsClosed self.now.lists self.now.rotations set.now.members.items }
    {
        are_closed(&set.members, self.all_needs())
    }

    /// The matching of a closed set: each proposer that is matched at first gets the reviewer that it likes least among its
    /// first one and those to which members of the set move it. It is stable.
    ///
    /// Takes time and memory in proportion to the agents and to the pairs of the rotations (Irving and Leather 1986;
    /// Gusfield and Irving 1989, theorem 2.5.7).
    ///
    /// # Errors
    ///
    /// `AllocError` where memory ran out, and only then.
    pub fn matching_of(&self, alloc: Global, set: &ClosedSet) -> Result<Pairing, AllocError>
        requires { IsClosed self.now.lists self.now.rotations set.now.members.items }
        ensures pairing { IfOk result (λ m. IsPairingOf self.now.lists m) }
        ensures places { IfOk result (λ m. m.places
            ≡ matching_of self.now.lists self.now.first.places self.now.rotations
            set.now.members.items) }
        ensures stable { IfOk result (λ m. IsStable self.now.lists m.places) }
    {
        let first = &self.chain.as_ref().first;
        let moves = &self.digraph.as_ref().moves;
        let places = worst_places(alloc, first, moves, &set.members)?;
        Pairing::held(alloc, self.market.as_ref(), &places)
    }

    /// The closed set whose matching is this stable one. There is no other.
    ///
    /// The pairing has to be stable and made for a market of these lists. Takes time and memory in proportion to the
    /// rotations: a rotation is a member where one of the proposers that it moves, and so each of them, stands in the
    /// matching where the rotation moves it, or worse (Gusfield and Irving 1989, section 2.5).
    ///
    /// # Errors
    ///
    /// `AllocError` where memory ran out, and only then.
    pub fn set_of(&self, alloc: Global, m: &Pairing) -> Result<ClosedSet, AllocError>
        requires made { IsPairingOf self.now.lists m.now }
        requires stable { IsStable self.now.lists m.now.places }
        ensures closed { IfOk result (λ set. IsClosed self.now.lists self.now.rotations
            set.members.items) }
        ensures matching { IfOk result (λ set.
            matching_of self.now.lists self.now.first.places self.now.rotations set.members.items
            ≡ m.now.places) }
        ensures one { IfOk result (λ set. (other : List Bool)
            → IsClosed self.now.lists self.now.rotations other
            → matching_of self.now.lists self.now.first.places self.now.rotations other
            ≡ m.now.places
            → other ≡ set.members.items) }
    {
        Ok(ClosedSet {
            members: reached(alloc, self.market.as_ref(), m, &self.leaders)?,
        })
    }
}

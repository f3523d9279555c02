//! The best stable matching within bounds that meets conditions.

ghost use Rattle.std.specs.Prelude.{◌≡◌, ℕ, ◌<◌, ◌^◌, true, false, List, Bool, [], length, slice_index, IfOk};
ghost use Rattle.sm_market.specs.Vectors.{rows_of};
ghost use Rattle.sm_market.specs.Matching.{Places};
ghost use Rattle.sm_market.specs.Stable.{IsStable};
ghost use Rattle.sm_theory.specs.ClosedSets.{IsClosed, matching_of};
ghost use Rattle.sm_theory.specs.Vectors.{AreLevels, IsAllowed, IsWithin, IsOrder, level_vector_of, AreInRange};
ghost use Rattle.sm_poset.specs.Moves.{rotation_of};
ghost use Rattle.sm_board.specs.Board.{IsBoard, Fits, IsLeast, firsts, level, members_in};
ghost use Rattle.sm_theory.specs.Weights.{regret_of};
ghost use Rattle.sm_least.specs.Gates.{AreUnbounded};
ghost use Rattle.sm_theory.specs.Regrets.{AreRanks, IsBestBelow};
ghost use Rattle.sm_least.specs.Regrets.{IsRanked, AreAtStays, rank_now, greatest_of};
ghost use Rattle.sm_board.specs.BoardOf.{IsLeastWithin, IsBestAllowed};
ghost use Rattle.sm_least.specs.Searches.{IsSearch, IsSame, IsInOrder, search_of};
ghost use Rattle.sm_least.specs.StayRanks.{AreStayRanks};

use crate::gates::Gates;
use crate::grow::find;
use crate::ranks::{StayRanks, along_stays, rank_of};
use sm_board::{Board, Course, Held, make_board};
use sm_market::Market;
use sm_poset::{Conditions, Poset};
use sm_theory::{Chain, ClosedSet};
use std::alloc::{AllocError, Global};
use std::marker::Model;
use std::rc::Rc;

/// What a search is made of.
#[derive(Debug, Drop)]
pub struct SearchParts {
    /// The market.
    pub market: Rc<Market>,
    /// The chain.
    pub chain: Rc<Chain>,
    /// For each proposer the levels of its places, and of being unmatched.
    pub levels: Vec<Vec<u32>>,
    /// The board, and the order of a walk over it.
    pub course: Course,
    /// Which stays are open.
    pub gates: Gates,
    /// What is held.
    pub held: Held,
}

/// A search for the stable matching that is best for all proposers among those within bounds that meet conditions.
///
/// The closed set of the last search is held. All memory is taken at the start (Gusfield 1987; Gusfield and Irving 1989,
/// section 3.4, in a form of this project's own).
#[derive(Debug, Drop)]
pub struct Least {
    parts: SearchParts,
}

impl Model for Least {
    ghost use Rattle.sm_least.specs.Searches.{Search, IsSearch, search_of};

    ghost Value = { Search };

    ghost view = { λ s. search_of s.parts };

    ghost invariant = { λ s. IsSearch (search_of s.parts) };
}

impl Least {
    /// Makes ready to search the stable matchings of a poset, with levels for all places of each proposer and one for being
    /// unmatched, never falling along a list.
    ///
    /// It keeps the market, the chain and the digraph with the poset: these aren't copied. The levels are moved into it, and
    /// dropped where memory runs out. Takes time and memory in proportion to the proposers and to the pairs of the rotations.
    ///
    /// # Errors
    ///
    /// `AllocError` where memory ran out, and only then.
    pub fn start(alloc: Global, poset: &Poset, levels: Vec<Vec<u32>>) -> Result<Least, AllocError>
        requires { AreLevels poset.now.lists (rows_of levels.items) }
        ensures poset { IfOk result (λ least. least.poset ≡ poset.now) }
        ensures levels { IfOk result (λ least. least.levels ≡ rows_of levels.items) }
    {
        let _chain = poset.chain();
        let board = make_board(alloc, poset, &levels)?;
        let gates = Gates::new(alloc, &board)?;
        let held = Held::nothing(alloc, &board)?;
        let course = Course::new(alloc, board)?;
        let (market, chain) = poset.shared()?;
        let parts = SearchParts {
            market,
            chain,
            levels,
            course,
            gates,
            held,
        };
        Ok(Least { parts })
    }

    /// The levels with which it was started: for each proposer one for each place of its list, and one for being unmatched.
    /// Takes constant time.
    pub fn levels(&self) -> &[Vec<u32>]
        ensures { rows_of result.now ≡ self.now.levels }
    {
        &self.parts.levels
    }

    /// Looks for the stable matching that is best for every proposer among those whose levels lie between `low` and `high`,
    /// both included, and that meet the conditions. True where there is one, and its closed set is held then. False exactly
    /// where there is none.
    ///
    /// The bounds have one item for each proposer, and the conditions name proposers that there are. Takes no memory, and
    /// time in proportion to the stays, the conditions and what is held before and after.
    pub fn least(&mut self, low: &[u32], high: &[u32], conditions: &Conditions) -> bool
        requires low_each { length low.now ≡ length self.old.poset.lists.proposers }
        requires high_each { length high.now ≡ length self.old.poset.lists.proposers }
        requires forced { AreInRange (length self.old.poset.lists.proposers)
            conditions.now.forced.items }
        requires forbidden { AreInRange (length self.old.poset.lists.proposers)
            conditions.now.forbidden.items }
        ensures same { IsSame self.old self.new }
        ensures found { result ≡ true → IsLeastWithin self.new.poset.lists self.new.levels low.now
            high.now
            conditions.now.forced.items conditions.now.forbidden.items
            (matching_of self.new.poset.lists self.new.poset.first.places self.new.poset.rotations
            self.new.held.set) }
        ensures none { result ≡ false → (m : Places) → IsStable self.new.poset.lists m
            → IsWithin self.new.poset.lists self.new.levels low.now high.now m
            → ¬ IsAllowed self.new.levels conditions.now.forced.items conditions.now.forbidden.items
            m }
    {
        self.parts
            .gates
            .set(self.parts.course.board(), low, high, conditions);
        find(&self.parts.course, &self.parts.gates, &mut self.parts.held)
    }

    /// Looks for the stable matching that is best for every proposer among those that meet the conditions. True where there is
    /// one, and its closed set is held then. False exactly where there is none.
    ///
    /// The conditions name proposers that there are. Takes no memory, and time as [`Least::least`].
    pub fn best_allowed(&mut self, conditions: &Conditions) -> bool
        requires forced { AreInRange (length self.old.poset.lists.proposers)
            conditions.now.forced.items }
        requires forbidden { AreInRange (length self.old.poset.lists.proposers)
            conditions.now.forbidden.items }
        ensures same { IsSame self.old self.new }
        ensures found { result ≡ true → IsBestAllowed self.new.poset.lists self.new.levels
            conditions.now.forced.items conditions.now.forbidden.items
            (matching_of self.new.poset.lists self.new.poset.first.places self.new.poset.rotations
            self.new.held.set) }
        ensures none { result ≡ false → (m : Places) → IsStable self.new.poset.lists m
            → ¬ IsAllowed self.new.levels conditions.now.forced.items conditions.now.forbidden.items
            m }
    {
        self.parts
            .gates
            .set_unbounded(self.parts.course.board(), conditions);
        find(&self.parts.course, &self.parts.gates, &mut self.parts.held)
    }

    /// Ranks with those of the stays. `ranks` has one item for each place of a proposer's list, and places of one level have equal
    /// ones.
    ///
    /// Takes time and memory in proportion to the proposers and the stays, and for some stays the logarithm of their proposers'
    /// places.
    ///
    /// # Errors
    ///
    /// `AllocError` where memory ran out, and only then.
    pub fn stay_ranks<'a>(
        &self,
        alloc: Global,
        ranks: &'a [Vec<u32>],
    ) -> Result<StayRanks<'a>, AllocError>
        requires { AreRanks self.now.poset.lists self.now.levels (rows_of ranks.now) }
        ensures places { IfOk result (λ made. rows_of made.places.now ≡ rows_of ranks.now) }
        ensures ranks { IfOk result (λ made. AreStayRanks self.now.poset.lists self.now.levels
            self.now.course.board made) }
    {
        let stays = along_stays(alloc, self.parts.course.board(), &self.parts.levels, ranks)?;
        Ok(StayRanks {
            places: ranks,
            stays,
        })
    }

    /// Looks for the stable matching that is best for every proposer among those that meet the conditions and have a regret of at
    /// most a bound. True where there is one, and its closed set is held then. False exactly where there is none.
    ///
    /// The regret is the greatest of the ranks at which matched proposers stand. The conditions name proposers that there are.
    /// Takes no memory, and time as [`Least::least`] (Gusfield 1987).
    pub fn least_below(&mut self, conditions: &Conditions, ranks: &StayRanks, bound: u32) -> bool
        requires ranks { AreStayRanks self.old.poset.lists self.old.levels self.old.course.board
            ranks.now }
        requires forced { AreInRange (length self.old.poset.lists.proposers)
            conditions.now.forced.items }
        requires forbidden { AreInRange (length self.old.poset.lists.proposers)
            conditions.now.forbidden.items }
        ensures same { IsSame self.old self.new }
        ensures found { result ≡ true → IsBestBelow self.new.poset.lists self.new.levels
            (rows_of ranks.now.places.now) bound
            conditions.now.forced.items conditions.now.forbidden.items
            (matching_of self.new.poset.lists self.new.poset.first.places self.new.poset.rotations
            self.new.held.set) }
        ensures none { result ≡ false → (m : Places) → IsStable self.new.poset.lists m
            → IsAllowed self.new.levels conditions.now.forced.items conditions.now.forbidden.items m
            → bound < regret_of self.new.poset.lists (rows_of ranks.now.places.now) m }
    {
        let board = self.parts.course.board();
        self.parts.gates.set_unbounded(board, conditions);
        self.parts.gates.shut_above(board, &ranks.stays, bound);
        find(&self.parts.course, &self.parts.gates, &mut self.parts.held)
    }

    /// The regret of the matching of what is held: the greatest rank at which a matched proposer stands, and 0 where nobody is
    /// matched.
    ///
    /// Takes no memory, and for each proposer the logarithm of its places.
    pub fn greatest(&self, ranks: &StayRanks) -> u32
        requires { AreStayRanks self.now.poset.lists self.now.levels self.now.course.board ranks.now }
        ensures { result ≡ regret_of self.now.poset.lists (rows_of ranks.now.places.now)
            (matching_of self.now.poset.lists self.now.poset.first.places self.now.poset.rotations
            self.now.held.set) }
    {
        greatest_rank(
            self.parts.course.board(),
            &self.parts.levels,
            ranks.places,
            self.parts.held.levels(),
        )
    }

    /// Looks for the stable matching that is best for every proposer among those that meet the conditions, and takes an order of
    /// the proposers, which has each of them once: positions are those of this order from now on. True where there is such a
    /// matching, and its closed set is held then. False exactly where there is none, and then nothing is held.
    ///
    /// The conditions name proposers that there are. Takes no memory, and time as [`Least::least`].
    pub fn begin(&mut self, order: &[u32], conditions: &Conditions) -> bool
        requires order { IsOrder (length self.old.poset.lists.proposers) order.now }
        requires forced { AreInRange (length self.old.poset.lists.proposers)
            conditions.now.forced.items }
        requires forbidden { AreInRange (length self.old.poset.lists.proposers)
            conditions.now.forbidden.items }
        ensures same { IsInOrder order.now self.old self.new }
        ensures gates { AreUnbounded self.new.course.board conditions.now.forced.items
            conditions.now.forbidden.items self.new.gates }
        ensures found { result ≡ true → IsBestAllowed self.new.poset.lists self.new.levels
            conditions.now.forced.items conditions.now.forbidden.items
            (matching_of self.new.poset.lists self.new.poset.first.places self.new.poset.rotations
            self.new.held.set) }
        ensures not_allowed { result ≡ false → (m : Places) → IsStable self.new.poset.lists m
            → ¬ IsAllowed self.new.levels conditions.now.forced.items conditions.now.forbidden.items
            m }
        ensures least { result ≡ true → IsLeast (Fits self.new.course.board self.new.gates)
            self.new.held.set }
        ensures none { result ≡ false → (D : List Bool)
            → ¬ Fits self.new.course.board self.new.gates D }
        ensures nothing { result ≡ false → self.new.held.log ≡ [] }
    {
        self.parts.course.set_order(order);
        self.parts
            .gates
            .set_unbounded(self.parts.course.board(), conditions);
        find(&self.parts.course, &self.parts.gates, &mut self.parts.held)
    }

    /// Writes the levels of all proposers in the matching of a closed set. The slice has an item for each proposer. Takes no
    /// memory, and time in proportion to the stays.
    pub fn levels_of(&self, set: &ClosedSet, into: &mut [u32])
        requires closed { IsClosed self.now.poset.lists self.now.poset.rotations
            set.now.members.items }
        requires level_each { length into.old ≡ length self.now.poset.lists.proposers }
        ensures { into.new ≡ level_vector_of self.now.poset.lists self.now.levels
            (matching_of self.now.poset.lists self.now.poset.first.places self.now.poset.rotations
            set.now.members.items) }
    {
        let _ = &self.parts.market;
        write_levels(self.parts.course.board(), &set.members, into);
    }

    /// The closed set that is held: after a call of [`Least::least`] that answered true the one that it found. Takes
    /// constant time.
    pub fn held(&self) -> &ClosedSet
        ensures set { result.now.members.items ≡ self.now.held.set }
        ensures closed { IsClosed self.now.poset.lists self.now.poset.rotations
            result.now.members.items }
    {
        self.parts.held.set()
    }

    /// What it is made of, for a walk that steps on from what is held. Takes constant time.
    pub fn into_parts(self) -> SearchParts
        ensures parts { search_of result ≡ self }
        ensures search { IsSearch self }
    {
        self.parts
    }
}

/// The greatest rank of the levels at which matched proposers stand, and 0 where nobody is matched.
fn greatest_rank(board: &Board, levels: &[Vec<u32>], ranks: &[Vec<u32>], now: &[u32]) -> u32
    requires board { IsBoard board.now }
    requires few { length board.now.leaves < 2 ^ 32 }
    requires ranked { IsRanked board.now (rows_of levels.now) (rows_of ranks.now) }
    requires now { AreAtStays board.now now.now }
    ensures { result ≡ greatest_of (rank_now board.now (rows_of levels.now) (rows_of ranks.now)
        now.now) (length board.now.leaves) }
{
    let mut greatest = 0;
    for p in 0..board.proposers() {
        if board.matched()[p] {
            greatest = greatest.max(rank_of(&levels[p], &ranks[p], now[p]));
        }
    }
    greatest
}

/// Writes the levels of all proposers in the matching of a set.
fn write_levels(board: &Board, members: &[bool], into: &mut [u32])
    requires board { IsBoard board.now }
    requires one_each { length members.now ≡ length board.now.needs }
    requires few { length board.now.leaves < 2 ^ 32 }
    requires level_each { length into.old ≡ length board.now.leaves }
    ensures level_each { length into.new ≡ length into.old }
    ensures levels { (p : ℕ) → p < length board.now.leaves → slice_index into.new p
        ≡ level board.now members.now p }
{
    for p in 0..into.len() {
        let p = p as u32;
        let stay = count_members(members, board.moves(p));
        into[p as usize] = board.level(p, stay);
    }
}

/// How many rotations of these moves are members.
fn count_members(members: &[bool], moves: &[(u32, u32)]) -> usize
    requires { (a : ℕ) → a < length moves.now → rotation_of moves.now a < length members.now }
    ensures { result ≡ members_in members.now (firsts moves.now) }
{
    let mut count = 0;
    for &(x, _) in moves {
        if members[x as usize] {
            count += 1;
        }
    }
    count
}

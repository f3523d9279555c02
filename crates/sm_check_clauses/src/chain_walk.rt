//! Rotations that an answer writes, eliminated one after another.

ghost use Rattle.std.specs.Prelude.{◌≡◌, ℕ, ◌+◌, ◌-◌, ◌<◌, ◌++◌, ◌∷◌, [], ◌↔◌, List, length, map, pred, true, false, IsTrue, IfOk};
ghost use Rattle.std.specs.List.{sum_by};
ghost use Rattle.sm_market.specs.Lists.{Lists, IsMarket};
ghost use Rattle.sm_market.specs.Matching.{Places};
ghost use Rattle.sm_market.specs.Pairing.{IsPairingOf};
ghost use Rattle.sm_market.specs.Stable.{IsProposersBest};
ghost use Rattle.sm_theory.specs.Rotations.{IsNothingExposed};
ghost use Rattle.sm_theory.specs.Chains.{AreNeedsOf};
ghost use Rattle.sm_check_decide.specs.Noting.{AreNoted};
ghost use Rattle.sm_seats.specs.SeatMarket.{seat_market};
ghost use Rattle.sm_seats.specs.Counted.{first_seats_of};
ghost use Rattle.sm_report.specs.Heads.{HeadData};
ghost use Rattle.sm_report.specs.Lines.{LineData, line_of};
ghost use Rattle.sm_check_clauses.specs.Chain.{RotationsHold};
ghost use Rattle.sm_check_clauses.specs.Judges.{IsKnown, IsOwnLine};
ghost use Rattle.sm_check_clauses.specs.Judging.{answer};
ghost use Rattle.sm_check_clauses.specs.Said.{is_up_to_rotations};
ghost use Rattle.sm_check_clauses.specs.Walking.{FindsOrKeeps};
ghost use Rattle.sm_check_clauses.specs.Walks.{IsChainWalk, IsWalkOf};
ghost use Rattle.sm_check_clauses.specs.WalksKept.{StepsAlong, HasWalked};

use crate::verdicts::Reason;
use sm_check_decide::{Notes, Search};
use sm_check_forms::rotation_of;
use sm_check_net::{Move, moves_of};
use sm_instance::Instance;
use sm_market::{Market, Pairing};
use sm_report::Line;
use sm_theory::{Rotation, eliminate};
use std::alloc::{AllocError, Global};

/// What is kept of rotations that are eliminated one after another from the first matching: how each moves its proposers, the
/// matching that is reached, and whether it is known that nothing is exposed there.
#[derive(Drop)]
pub struct ChainWalk {
    /// The first matching.
    pub first: Pairing,
    /// How each rotation moves its proposers.
    pub moves: Vec<Vec<Move>>,
    /// The matching that is reached.
    pub matching: Pairing,
    /// What it takes to look for rotations that are exposed there.
    pub search: Search,
    /// What is noted of the rotations, to tell what each needs.
    pub notes: Notes,
    /// Whether it is known that nothing is exposed there.
    pub is_whole: bool,
}

impl ChainWalk {
    /// No rotation is eliminated yet. Takes time and memory in proportion to the agents and entries of the market.
    ///
    /// # Errors
    ///
    /// `AllocError` where memory ran out, and only then.
    pub fn of(alloc: Global, market: &Market, first: Pairing) -> Result<ChainWalk, AllocError>
        requires made { IsPairingOf market.now first }
        requires best { IsProposersBest market.now first.places }
        ensures walk { IfOk result (λ walk. IsChainWalk market.now first.places [] walk) }
        ensures going { IfOk result (λ walk. walk.is_whole ≡ false) }
    {
        let search = Search::of(alloc, market)?;
        let notes = Notes::of(alloc, market, entry_count(market))?;
        let kept = first.copy(alloc)?;
        let moves = Vec::new(alloc);
        Ok(ChainWalk {
            first: kept,
            moves,
            matching: first,
            search,
            notes,
            is_whole: false,
        })
    }

    /// The first clause of a chain that fails at a line. Where none does, the line is kept too. Takes the time of
    /// [`Search::is_lowest_exposed`] and [`Notes::note`] for a rotation, and otherwise time in proportion to the line.
    ///
    /// # Errors
    ///
    /// `AllocError` where memory ran out, and only then; nothing is said of what is kept then.
    pub fn find_fault(
        &mut self,
        alloc: Global,
        instance: &Instance,
        market: &Market,
        firsts: &[u32],
        line: &Line,
    ) -> Result<Option<Reason>, AllocError>
        requires market { market.now ≡ seat_market instance.now }
        requires firsts { firsts.now ≡ first_seats_of instance.now }
        requires own { IsOwnLine (answer instance.now HeadData.Rotations) (line_of line.now) }
        requires known { IsKnown (λ above. IsWalkOf instance.now above self.old) }
        ensures { IfOk result (λ why. (above : List LineData) → IsWalkOf instance.now above self.old
            → FindsOrKeeps (RotationsHold instance.now above (line_of line.now))
            (IsWalkOf instance.now (above ++ line_of line.now ∷ []) self.new) why) }
    {
        if !is_up_to_rotations(line) {
            if !self.ends(market) {
                return Ok(Some(Reason::RotationMissing));
            }
            return Ok(None);
        }
        match line {
            Line::First(_, _) => Ok(Some(Reason::NotAMatching)),
            Line::Rotation(_, pairs) => {
                let rotation = rotation_of(alloc, instance, firsts, pairs)?;
                if !self.steps(alloc, market, &rotation)? {
                    return Ok(Some(Reason::NotExposed));
                }
                Ok(None)
            }
            Line::Needs(_, needed) => {
                if !self.are_needs(alloc, needed)? {
                    return Ok(Some(Reason::WrongNeeds));
                }
                Ok(None)
            }
            _ => Ok(None),
        }
    }

    /// Whether a rotation is the next one. It is eliminated then.
    fn steps(
        &mut self,
        alloc: Global,
        market: &Market,
        rotation: &Rotation,
    ) -> Result<bool, AllocError>
        requires { HasWalked market.now self.old }
        ensures { IfOk result (λ steps. (first : Places) (rotations : List (List (ℕ × ℕ)))
            → IsChainWalk market.now first rotations self.old
            → StepsAlong market.now first rotations rotation.now.pairs.items self.old self.new
            steps) }
    {
        if !self
            .search
            .is_lowest_exposed(market, &self.matching, rotation)
        {
            return Ok(false);
        }
        let moves = moves_of(alloc, market, &self.matching, rotation)?;
        self.moves.push(moves)?;
        self.notes.note(market, &self.matching, rotation)?;
        self.search.go_on(market, &self.matching, rotation);
        eliminate(market, &mut self.matching, rotation);
        Ok(true)
    }

    /// Whether no rotation is exposed any more.
    fn ends(&mut self, market: &Market) -> bool
        requires walk { HasWalked market.now self.old }
        requires whole { self.old.is_whole ≡ true
            → IsNothingExposed market.now self.old.matching.places }
        ensures walk { (first : Places) (rotations : List (List (ℕ × ℕ)))
            → IsChainWalk market.now first rotations self.old
            → IsChainWalk market.now first rotations self.new }
        ensures ended { IsTrue result ↔ IsNothingExposed market.now self.new.matching.places }
        ensures whole { self.new.is_whole ≡ result }
    {
        if self.is_whole {
            return true;
        }
        self.is_whole = self.search.is_nothing_exposed(market, &self.matching);
        self.is_whole
    }

    /// Whether these are the numbers, from 1, of what the newest rotation needs.
    fn are_needs(&self, alloc: Global, needed: &[u32]) -> Result<bool, AllocError>
        ensures { IfOk result (λ right. (l : Lists) (first : Places) (rotations : List (List (ℕ
            × ℕ)))
            → AreNoted l first rotations self.now.notes
            → IsTrue right ↔ AreNeedsOf l rotations (length rotations - 1) (map pred needed.now)) }
    {
        let numbers = from_zero(alloc, needed)?;
        Ok(self.notes.are_needs(&numbers))
    }
}

/// Whether a line is one of the rotations, with what they need and add, or one above them. Takes constant time.
pub fn is_up_to_rotations(line: &Line) -> bool
    ensures { result ≡ is_up_to_rotations (line_of line.now) }
{
    match line {
        Line::Answer(_) => true,
        Line::First(_, _) => true,
        Line::Rotation(_, _) => true,
        Line::Needs(_, _) => true,
        Line::Gain(_, _) => true,
        Line::SecondGain(_, _) => true,
        _ => false,
    }
}

/// Numbers that count from 1, as they count from 0. Takes time and memory in proportion to them.
///
/// # Errors
///
/// `AllocError` where memory ran out, and only then.
pub fn from_zero(alloc: Global, numbers: &[u32]) -> Result<Vec<u32>, AllocError>
    ensures { IfOk result (λ less. less.items ≡ map pred numbers.now) }
{
    let mut less = Vec::with_capacity(alloc, numbers.len())?;
    for k in 0..numbers.len() {
        less.push(numbers[k].saturating_sub(1))?;
    }
    Ok(less)
}

/// How many entries the lists of the proposers have.
fn entry_count(market: &Market) -> u32
    ensures count { result ≡ sum_by (λ list. length list) market.now.proposers }
    ensures market { IsMarket market.now }
{
    let mut count = 0;
    for p in 0..market.proposers() {
        count += market.proposer_len(p);
    }
    count
}

//! Reduced lists of proposers and seats, as an answer writes them.

ghost use Rattle.std.specs.Prelude.{◌≡◌, ℕ, ◌<◌, ◌++◌, ◌∷◌, [], ◌↔◌, ◌+◌, List, length, min, IsTrue, IfOk};
ghost use Rattle.sm_market.specs.Pairing.{IsPairingOf};
ghost use Rattle.sm_seats.specs.SeatMarket.{seat_market};
ghost use Rattle.sm_seats.specs.Counted.{first_seats_of};
ghost use Rattle.sm_report.specs.Heads.{HeadData};
ghost use Rattle.sm_report.specs.Lines.{LineData, line_of};
ghost use Rattle.sm_check_clauses.specs.Chain.{HasOneEach, ListsHold};
ghost use Rattle.sm_check_clauses.specs.Judges.{IsOwnLine};
ghost use Rattle.sm_check_clauses.specs.Judging.{answer};
ghost use Rattle.sm_check_answers.specs.ListsKept.{AreTimes, AreLists, AreListsOf, AreListsBehind};
ghost use Rattle.sm_check_clauses.specs.Walking.{FindsOrKeeps};

use sm_check_clauses::Reason;
use sm_check_decide::{is_reduced_proposer_list, is_reduced_reviewer_list};
use sm_check_forms::{seat_number, seat_numbers};
use sm_instance::Instance;
use sm_market::{Market, Pairing};
use sm_report::Line;
use std::alloc::{AllocError, Global};

/// What is kept of reduced lists between two matchings: how often each proposer and each seat had its list so far, where all
/// times from the second on count alike.
#[derive(Drop)]
pub(crate) struct SeatLists {
    pub(crate) first: Pairing,
    pub(crate) last: Pairing,
    pub(crate) proposers: Vec<u8>,
    pub(crate) seats: Vec<u8>,
}

impl SeatLists {
    /// No list so far. Takes time and memory in proportion to the agents of the market.
    ///
    /// # Errors
    ///
    /// `AllocError` where memory ran out, and only then.
    pub(crate) fn none(
        alloc: Global,
        market: &Market,
        first: Pairing,
        last: Pairing,
    ) -> Result<SeatLists, AllocError>
        requires first { IsPairingOf market.now first }
        requires last { IsPairingOf market.now last }
        ensures { IfOk result (λ lists. AreLists market.now first.places last.places [] [] lists) }
    {
        Ok(SeatLists {
            first,
            last,
            proposers: never(alloc, market.proposers())?,
            seats: never(alloc, market.reviewers())?,
        })
    }

    /// The clause of reduced lists, where it fails at a line behind both matchings. Otherwise the line is kept too. Takes time
    /// in proportion to the agent's list in the market, and to the agents at the end.
    ///
    /// # Errors
    ///
    /// `AllocError` where memory ran out, and only then.
    pub(crate) fn find_fault(
        &mut self,
        alloc: Global,
        instance: &Instance,
        market: &Market,
        firsts: &[u32],
        line: &Line,
    ) -> Result<Option<Reason>, AllocError>
        requires market { market.now ≡ seat_market instance.now }
        requires firsts { firsts.now ≡ first_seats_of instance.now }
        requires own { IsOwnLine (answer instance.now HeadData.Reduced) (line_of line.now) }
        requires first { IsPairingOf market.now self.old.first }
        requires last { IsPairingOf market.now self.old.last }
        requires proposers { length self.old.proposers.items ≡ length market.now.proposers }
        requires seats { length self.old.seats.items ≡ length market.now.reviewers }
        ensures { IfOk result (λ why. (above : List LineData)
            → AreListsOf instance.now above self.old
            → FindsOrKeeps (ListsHold instance.now above (line_of line.now))
            (AreListsBehind instance.now above (line_of line.now) self.new) why) }
    {
        match line {
            Line::ProposerList(p, seats) => {
                let list = seat_numbers(alloc, instance, firsts, seats)?;
                if !is_reduced_proposer_list(market, &self.first, &self.last, *p, &list) {
                    return Ok(Some(Reason::WrongList));
                }
                once_more(&mut self.proposers, *p);
                Ok(None)
            }
            Line::ReviewerList(seat, proposers) => {
                let number = seat_number(instance, firsts, *seat);
                if !is_reduced_reviewer_list(market, &self.first, &self.last, number, proposers) {
                    return Ok(Some(Reason::WrongList));
                }
                once_more(&mut self.seats, number);
                Ok(None)
            }
            Line::End => {
                if !is_once_each(&self.proposers) {
                    return Ok(Some(Reason::WrongList));
                }
                if !is_once_each(&self.seats) {
                    return Ok(Some(Reason::WrongList));
                }
                Ok(None)
            }
            _ => Ok(None),
        }
    }
}

/// None of so many agents had a list.
fn never(alloc: Global, count: u32) -> Result<Vec<u8>, AllocError>
    ensures { IfOk result (λ times. AreTimes count [] times.items) }
{
    Ok(vec![in alloc; 0; count as usize]?)
}

/// An agent had a list once more.
fn once_more(times: &mut Vec<u8>, a: u32)
    requires { a < length times.old.items }
    ensures { (agents : List ℕ) → AreTimes (length times.old.items) agents times.old.items
        → AreTimes (length times.old.items) (agents ++ a ∷ []) times.new.items }
{
    times[a as usize] = more_than(times[a as usize]);
}

/// One more time, where all from the second on count alike.
fn more_than(times: u8) -> u8
    ensures { result ≡ min 2 (times + 1) }
{
    if times == 0 { 1 } else { 2 }
}

/// Whether each agent had its list once.
fn is_once_each(times: &[u8]) -> bool
    ensures { (agents : List ℕ) → AreTimes (length times.now) agents times.now
        → IsTrue result ↔ HasOneEach (length times.now) agents }
{
    for k in 0..times.len() {
        if times[k] != 1 {
            return false;
        }
    }
    true
}

//! Answers of `reduced`: the matchings of seats that are best for either side, and the reduced lists between them.

ghost use Rattle.std.specs.Prelude.{◌≡◌, ◌≢◌, ℕ, ◌+◌, ◌<◌, ◌^◌, ◌++◌, ◌∷◌, [], List, length, map, false, IfOk};
ghost use Rattle.std.specs.List.{All};
ghost use Rattle.sm_market.specs.PairingFaults.{AreHeld};
ghost use Rattle.sm_seats.specs.Seating.{seating_of};
ghost use Rattle.sm_seats.specs.Counted.{first_seats_of};
ghost use Rattle.sm_report.specs.Heads.{HeadData};
ghost use Rattle.sm_report.specs.Lines.{LineData, line_of};
ghost use Rattle.sm_check_clauses.specs.Chain.{ReducedHold};
ghost use Rattle.sm_check_clauses.specs.Judges.{IsKnown, IsOwnLine};
ghost use Rattle.sm_check_clauses.specs.Judging.{answer, Clauses};
ghost use Rattle.sm_check_answers.specs.ReducedKept.{IsTriedFirst, IsReducedOf, IsReducedKept};
ghost use Rattle.sm_check_answers.specs.declared.seat_lists.SeatLists.{SeatLists};
ghost use Rattle.sm_check_answers.specs.declared.reduced.Group.TheVariants.{Lists};
ghost use Rattle.sm_check_clauses.specs.Said.{is_up_to_lasts};
ghost use Rattle.sm_check_clauses.specs.SeatMatchings.{seat_places_in, AreSeatPairs};
ghost use Rattle.sm_check_clauses.specs.Verdicts.{AtLine, Finds, IsVerdict};
ghost use Rattle.sm_check_clauses.specs.Walking.{FindsOrKeeps};

use crate::seat_lists::SeatLists;
use sm_check_clauses::{Judge, Reason, SeatPairs, Verdict, is_unblocked, judge_lines};
use sm_check_decide::{is_proposers_best, is_reviewers_best};
use sm_check_forms::seat_number;
use sm_instance::Instance;
use sm_market::Market;
use sm_report::Line;
use sm_seats::Seats;
use std::alloc::{AllocError, Global};

/// What is kept of an answer of `reduced`: the pairs of both matchings, and which group of lines goes on.
#[derive(Drop)]
struct ReducedJudge<'a> {
    instance: &'a Instance,
    market: &'a Market,
    firsts: &'a [u32],
    first: SeatPairs,
    last: SeatPairs,
    group: Group,
}

/// A group of lines of an answer of `reduced`.
#[derive(Drop)]
enum Group {
    /// The proposers' best matching.
    First,
    /// The reviewers' best matching; the proposers' was tried.
    Last,
    /// The lists between them; both were tried.
    Lists(SeatLists),
}

/// The verdict on an answer of `reduced`, of which the first line has this number. The seats, and the first seats of the
/// reviewers, have to be those of the instance. Takes time in proportion to the agents, the entries of the seats and the lines,
/// and memory in proportion to the agents and the entries of the seats.
///
/// # Errors
///
/// `AllocError` where memory ran out, and only then.
pub fn reduced_verdict(
    alloc: Global,
    instance: &Instance,
    seats: &Seats,
    firsts: &[u32],
    lines: &[Line],
    first_line: u32,
) -> Result<Verdict, AllocError>
    requires few { first_line + length lines.now < 2 ^ 32 }
    requires seats { seats.now ≡ seating_of instance.now }
    requires firsts { firsts.now ≡ first_seats_of instance.now }
    requires own { All (IsOwnLine (answer instance.now HeadData.Reduced)) (map line_of lines.now) }
    ensures { IfOk result (λ v. IsVerdict
        (AtLine (Clauses (answer instance.now HeadData.Reduced)) (map line_of lines.now))
        first_line v) }
{
    let market = seats.market();
    prove!(market.proposers() < 1 << 24);
    let judge = ReducedJudge {
        instance,
        market,
        firsts,
        first: SeatPairs::none(alloc, market)?,
        last: SeatPairs::none(alloc, market)?,
        group: Group::First,
    };
    judge_lines(alloc, judge, lines, first_line)
}

impl<'a> Judge for ReducedJudge<'a> {
    ghost use Rattle.sm_report.specs.Heads.{HeadData};
    ghost use Rattle.sm_check_clauses.specs.Judging.{answer};
    ghost use Rattle.sm_check_answers.specs.ReducedKept.{IsReducedKept};

    ghost subject = { λ j. answer j.instance.now HeadData.Reduced };

    ghost knows = { λ j above. IsReducedKept j.instance.now j.market.now j.firsts.now above j.first
        j.last j.group };

    fn find_fault(&mut self, alloc: Global, line: &Line) -> Result<Option<Reason>, AllocError> {
        match line {
            Line::Answer(_) => Ok(None),
            Line::First(p, seat) => {
                let number = seat_number(self.instance, self.firsts, *seat);
                if !self.first.add(self.market, *p, number) {
                    return Ok(Some(Reason::NotAMatching));
                }
                Ok(None)
            }
            Line::Last(p, seat) => {
                let number = seat_number(self.instance, self.firsts, *seat);
                if !self.last.add(self.market, *p, number) {
                    return Ok(Some(Reason::NotAMatching));
                }
                match self.group {
                    Group::First => {
                        if let Some(why) = first_fault(alloc, self.market, &self.first)? {
                            return Ok(Some(why));
                        }
                        self.group = Group::Last;
                        Ok(None)
                    }
                    _ => Ok(None),
                }
            }
            _ => match &mut self.group {
                Group::Lists(lists) => {
                    lists.find_fault(alloc, self.instance, self.market, self.firsts, line)
                }
                _ => self.behind_fault(alloc, line),
            },
        }
    }
}

impl<'a> ReducedJudge<'a> {
    /// The same at the first line behind both matchings, which are tried there.
    fn behind_fault(&mut self, alloc: Global, line: &Line) -> Result<Option<Reason>, AllocError>
        requires own { IsOwnLine (answer self.old.instance.now HeadData.Reduced)
            (line_of line.now) }
        requires known { IsKnown (λ above. IsReducedKept self.old.instance.now self.old.market.now
            self.old.firsts.now above
            self.old.first self.old.last self.old.group) }
        requires behind { is_up_to_lasts (line_of line.now) ≡ false }
        requires going { (lists : SeatLists) → self.old.group ≢ Lists lists }
        ensures instance { self.new.instance ≡ self.old.instance }
        ensures market { self.new.market ≡ self.old.market }
        ensures firsts { self.new.firsts ≡ self.old.firsts }
        ensures found { IfOk result (λ why. (above : List LineData)
            → IsReducedOf self.old.instance.now above self.old.first self.old.last self.old.group
            → FindsOrKeeps (ReducedHold self.old.instance.now above (line_of line.now))
            (IsReducedOf self.old.instance.now (above ++ line_of line.now ∷ []) self.new.first
            self.new.last self.new.group)
            why) }
    {
        let first = self.first.pairing(alloc, self.market)?;
        let last = self.last.pairing(alloc, self.market)?;
        if !is_unblocked(self.market, &first) {
            return Ok(Some(Reason::Blocked));
        }
        if !is_unblocked(self.market, &last) {
            return Ok(Some(Reason::Blocked));
        }
        if !is_proposers_best(alloc, self.market, &first)? {
            return Ok(Some(Reason::NotBest));
        }
        if !is_reviewers_best(alloc, self.market, &last)? {
            return Ok(Some(Reason::NotBest));
        }
        let mut lists = SeatLists::none(alloc, self.market, first, last)?;
        let why = lists.find_fault(alloc, self.instance, self.market, self.firsts, line)?;
        self.group = Group::Lists(lists);
        Ok(why)
    }
}

/// The first clause that fails of a matching that has to be the proposers' best.
fn first_fault(
    alloc: Global,
    market: &Market,
    first: &SeatPairs,
) -> Result<Option<Reason>, AllocError>
    requires { AreHeld market.now first.now.places.items }
    ensures { IfOk result (λ why. (said : List (ℕ × ℕ)) → AreSeatPairs market.now said first.now
        → Finds (IsTriedFirst market.now (seat_places_in market.now said)) why) }
{
    let m = first.pairing(alloc, market)?;
    if !is_unblocked(market, &m) {
        return Ok(Some(Reason::Blocked));
    }
    if !is_proposers_best(alloc, market, &m)? {
        return Ok(Some(Reason::NotBest));
    }
    Ok(None)
}

//! Answers of `solve` over an instance with two sides.

ghost use Rattle.std.specs.Prelude.{◌≡◌, ℕ, ◌+◌, ◌<◌, ◌^◌, ◌↔◌, ◌∷◌, ◌++◌, [], List, All, Some, length, map, IsTrue, IfOk};
ghost use Rattle.sm_instance.specs.Stable.{IsStable, IsBestOf};
ghost use Rattle.sm_seats.specs.Seating.{seating_of};
ghost use Rattle.sm_holding.specs.Holding.{IsHolding};
ghost use Rattle.sm_instance.specs.declared.inputs.Input.TheVariants.{Two};
ghost use Rattle.sm_report.specs.Heads.{HeadData};
ghost use Rattle.sm_report.specs.Lines.{LineData, line_of};
ghost use Rattle.sm_report.specs.Sound.{IsLineOf};
ghost use Rattle.sm_check_clauses.specs.Judges.{IsOwnLine};
ghost use Rattle.sm_check_clauses.specs.Said.{pairs_in};
ghost use Rattle.sm_check_clauses.specs.Walking.{FindsOrKeeps};
ghost use Rattle.sm_check_clauses.specs.Judging.{answer, Clauses};
ghost use Rattle.sm_check_clauses.specs.Pairs.{SolveHolds};
ghost use Rattle.sm_holding.specs.PairsKept.{ArePairsHeld};
ghost use Rattle.sm_check_clauses.specs.Verdicts.{AtLine, Finds, IsVerdict};

use crate::pairs::joins;
use sm_check_clauses::{Judge, Reason, Verdict, judge_lines};
use sm_check_decide::{is_proposers_best, is_reviewers_best};
use sm_holding::Holding;
use sm_instance::{Assignment, Instance, Side};
use sm_report::Line;
use sm_seats::Seats;
use std::alloc::{AllocError, Global};

/// What is kept of an answer of `solve`: the matching of its pairs.
#[derive(Drop)]
struct SolveJudge<'a> {
    instance: &'a Instance,
    seats: &'a Seats,
    side: Side,
    pairs: Holding,
}

/// The verdict on an answer of `solve` with the best matching of a side, of which the first line has this number. The seats
/// have to be those of the instance. Takes time in proportion to the agents, the entries and the lines, and for each pair
/// to the logarithm of how many list its reviewer, and memory in proportion to the agents and the entries of the seats.
///
/// # Errors
///
/// `AllocError` where memory ran out, and only then.
pub fn solve_verdict(
    alloc: Global,
    instance: &Instance,
    seats: &Seats,
    side: Side,
    lines: &[Line],
    first_line: u32,
) -> Result<Verdict, AllocError>
    requires few { first_line + length lines.now < 2 ^ 32 }
    requires seats { seats.now ≡ seating_of instance.now }
    requires own { All (IsOwnLine (answer instance.now (HeadData.Solve (Some side))))
        (map line_of lines.now) }
    ensures { IfOk result (λ v. IsVerdict
        (AtLine (Clauses (answer instance.now (HeadData.Solve (Some side))))
        (map line_of lines.now)) first_line v) }
{
    let judge = SolveJudge {
        instance,
        seats,
        side,
        pairs: Holding::none(alloc, instance)?,
    };
    judge_lines(alloc, judge, lines, first_line)
}

impl<'a> Judge for SolveJudge<'a> {
    ghost use Rattle.std.specs.Prelude.{Some};
    ghost use Rattle.sm_report.specs.Heads.{HeadData};
    ghost use Rattle.sm_check_clauses.specs.Judging.{answer};
    ghost use Rattle.sm_check_answers.specs.Solving.{IsSolveKept};

    ghost subject = { λ j. answer j.instance.now (HeadData.Solve (Some j.side)) };

    ghost knows = { λ j above. IsSolveKept j.instance.now j.seats.now above j.pairs };

    fn find_fault(&mut self, alloc: Global, line: &Line) -> Result<Option<Reason>, AllocError> {
        line_fault(
            alloc,
            self.instance,
            self.seats,
            self.side,
            &mut self.pairs,
            line,
        )
    }
}

/// The first clause that fails at a line, behind these pairs. The pair of the line is held too.
fn line_fault(
    alloc: Global,
    instance: &Instance,
    seats: &Seats,
    side: Side,
    pairs: &mut Holding,
    line: &Line,
) -> Result<Option<Reason>, AllocError>
    requires seats { seats.now ≡ seating_of instance.now }
    requires own { IsLineOf (Two instance.now) (line_of line.now) }
    requires held { IsHolding instance.now pairs.old }
    ensures { IfOk result (λ why. (said : List (ℕ × ℕ)) → ArePairsHeld instance.now said pairs.old
        → FindsOrKeeps (SolveHolds instance.now side said (line_of line.now))
        (ArePairsHeld instance.now (said ++ pairs_in (line_of line.now ∷ [])) pairs.new) why) }
{
    match line {
        Line::Pair(p, r) => {
            if !joins(pairs, instance, *p, *r) {
                return Ok(Some(Reason::NotAMatching));
            }
            Ok(None)
        }
        Line::End => end_fault(alloc, instance, seats, side, pairs),
        _ => Ok(None),
    }
}

/// The first clause that fails at the end, behind these pairs.
fn end_fault(
    alloc: Global,
    instance: &Instance,
    seats: &Seats,
    side: Side,
    pairs: &Holding,
) -> Result<Option<Reason>, AllocError>
    requires seats { seats.now ≡ seating_of instance.now }
    requires held { IsHolding instance.now pairs.now }
    ensures { IfOk result (λ why. (said : List (ℕ × ℕ)) → ArePairsHeld instance.now said pairs.now
        → Finds (SolveHolds instance.now side said LineData.End) why) }
{
    if instance.first_blocking(&pairs.matching).is_some() {
        return Ok(Some(Reason::Blocked));
    }
    if !is_best(alloc, instance, seats, side, &pairs.matching)? {
        return Ok(Some(Reason::NotBest));
    }
    Ok(None)
}

/// Whether a stable matching is the best of a side.
fn is_best(
    alloc: Global,
    instance: &Instance,
    seats: &Seats,
    side: Side,
    matching: &Assignment,
) -> Result<bool, AllocError>
    requires seats { seats.now ≡ seating_of instance.now }
    requires stable { IsStable instance.now matching.now.places.items }
    ensures { IfOk result (λ best. IsTrue best ↔ IsBestOf side instance.now matching.now.places.items) }
{
    prove!(instance.proposer_count() < 1 << 24);
    let seated = seats.to_seats(alloc, matching)?;
    match side {
        Side::Proposers => is_proposers_best(alloc, seats.market(), &seated),
        Side::Reviewers => is_reviewers_best(alloc, seats.market(), &seated),
    }
}

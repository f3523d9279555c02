//! Answers of `regret`.

ghost use Rattle.std.specs.Prelude.{◌≡◌, ℕ, ◌+◌, ◌<◌, ◌^◌, ◌∷◌, ◌++◌, [], List, All, Option, None, unwrap_or, length, map, IfOk};
ghost use Rattle.sm_instance.specs.declared.inputs.Input.TheVariants.{Two};
ghost use Rattle.sm_holding.specs.Holding.{IsHolding};
ghost use Rattle.sm_report.specs.Lines.{LineData, line_of};
ghost use Rattle.sm_report.specs.Sound.{IsLineOf};
ghost use Rattle.sm_check_clauses.specs.Verdicts.{AtLine, Finds, IsVerdict};
ghost use Rattle.sm_check_clauses.specs.Said.{pairs_in, regret_in};
ghost use Rattle.sm_check_clauses.specs.Vectors.{RegretHolds};
ghost use Rattle.sm_report.specs.Heads.HeadData.{Regret};
ghost use Rattle.sm_check_clauses.specs.Judges.{IsOwnLine};
ghost use Rattle.sm_check_clauses.specs.Judging.{answer, Clauses};
ghost use Rattle.sm_check_answers.specs.Regrets.{EndOfRegret};
ghost use Rattle.sm_check_clauses.specs.Walking.{FindsOrKeeps};
ghost use Rattle.sm_instance.specs.Matching.{IsMatching};
ghost use Rattle.sm_holding.specs.PairsKept.{ArePairsHeld};

use crate::pairs::joins;
use sm_check_clauses::{Judge, Reason, Verdict, judge_lines};
use sm_holding::Holding;
use sm_instance::{Assignment, Instance};
use sm_report::Line;
use std::alloc::{AllocError, Global};

/// What is kept of an answer of `regret`: the matching that it writes, and the regret that it says.
#[derive(Drop)]
struct RegretJudge<'a> {
    instance: &'a Instance,
    holding: Holding,
    regret: Option<u32>,
}

/// The verdict on an answer of `regret`, of which the first line has this number. Takes time in proportion to the agents, the
/// entries and the lines, and for each pair to the logarithm of how many list its reviewer, and memory in proportion to the
/// agents.
///
/// # Errors
///
/// `AllocError` where memory ran out, and only then.
pub fn regret_verdict(
    alloc: Global,
    instance: &Instance,
    lines: &[Line],
    first_line: u32,
) -> Result<Verdict, AllocError>
    requires few { first_line + length lines.now < 2 ^ 32 }
    requires own { All (IsOwnLine (answer instance.now Regret)) (map line_of lines.now) }
    ensures { IfOk result (λ v. IsVerdict (AtLine (Clauses (answer instance.now Regret))
        (map line_of lines.now)) first_line v) }
{
    let judge = RegretJudge {
        instance,
        holding: Holding::none(alloc, instance)?,
        regret: None,
    };
    judge_lines(alloc, judge, lines, first_line)
}

impl<'a> Judge for RegretJudge<'a> {
    ghost use Rattle.sm_report.specs.Heads.HeadData.{Regret};
    ghost use Rattle.sm_check_clauses.specs.Judging.{answer};
    ghost use Rattle.sm_check_answers.specs.Regrets.{AreRegretsKept};

    ghost subject = { λ j. answer j.instance.now Regret };

    ghost knows = { λ j above. AreRegretsKept j.instance.now above j.holding j.regret };

    fn find_fault(&mut self, _alloc: Global, line: &Line) -> Result<Option<Reason>, AllocError> {
        let why = line_fault(self.instance, &mut self.holding, self.regret, line);
        self.regret = self.regret.or(regret_in(line));
        Ok(why)
    }
}

/// The regret that a line says.
fn regret_in(line: &Line) -> Option<u32>
    ensures { result ≡ regret_in (line_of line.now) }
{
    match line {
        Line::Regret(regret) => Some(*regret),
        _ => None,
    }
}

/// The first clause that fails at a line, behind these pairs and this regret. The pair of the line is held too.
fn line_fault(
    instance: &Instance,
    holding: &mut Holding,
    regret: Option<u32>,
    line: &Line,
) -> Option<Reason>
    requires line { IsLineOf (Two instance.now) (line_of line.now) }
    requires held { IsHolding instance.now holding.old }
    ensures { (pairs : List (ℕ × ℕ)) → ArePairsHeld instance.now pairs holding.old
        → FindsOrKeeps (RegretHolds instance.now (unwrap_or regret 0) pairs (line_of line.now))
        (ArePairsHeld instance.now (pairs ++ pairs_in (line_of line.now ∷ [])) holding.new) result }
{
    match line {
        Line::Pair(p, r) => {
            if !joins(holding, instance, *p, *r) {
                return Some(Reason::NotAMatching);
            }
            None
        }
        Line::End => end_fault(instance, holding, regret),
        _ => None,
    }
}

/// The first clause that fails at the end, behind these pairs and this regret.
fn end_fault(instance: &Instance, holding: &Holding, regret: Option<u32>) -> Option<Reason>
    requires { IsHolding instance.now holding.now }
    ensures { (pairs : List (ℕ × ℕ)) → ArePairsHeld instance.now pairs holding.now
        → Finds (RegretHolds instance.now (unwrap_or regret 0) pairs LineData.End) result }
{
    matching_fault(instance, &holding.matching, regret.unwrap_or(0))
}

/// The first clause that fails of the matching.
fn matching_fault(instance: &Instance, a: &Assignment, regret: u32) -> Option<Reason>
    requires { IsMatching instance.now a.now.places.items }
    ensures { Finds (EndOfRegret instance.now regret a.now.places.items) result }
{
    if instance.first_blocking(a).is_some() {
        return Some(Reason::Blocked);
    }
    if !instance.allowed(a) {
        return Some(Reason::NotAllowed);
    }
    if regret != instance.regret(a) {
        return Some(Reason::WrongRegret);
    }
    None
}

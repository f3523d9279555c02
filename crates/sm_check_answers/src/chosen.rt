//! Answers of `meet` and `join`.

ghost use Rattle.std.specs.Prelude.{◌≡◌, ◌+◌, ◌<◌, ◌^◌, All, IfOk, length, map};
ghost use Rattle.sm_instance.specs.Matching.{held};
ghost use Rattle.sm_theory.specs.Choices.{chosen};
ghost use Rattle.sm_holding.specs.Chosen.{head_for};
ghost use Rattle.sm_report.specs.Lines.{line_of};
ghost use Rattle.sm_check_clauses.specs.Verdicts.{AtLine, IsVerdict};
ghost use Rattle.sm_check_clauses.specs.Judges.{IsOwnLine};
ghost use Rattle.sm_check_clauses.specs.Judging.{answer, Clauses};

use crate::pairs::{is_unblocked, joins};
use crate::wanted::Stood;
use sm_check_clauses::{Judge, Reason, Verdict, judge_lines};
use sm_holding::Holding;
use sm_instance::Instance;
use sm_report::Line;
use sm_theory::{Choice, chosen_place};
use std::alloc::{AllocError, Global};

/// What is kept of an answer of `meet` or `join`: the two matchings, the one that is chosen of them, and who stands in its
/// pairs.
#[derive(Drop)]
struct ChosenJudge<'a> {
    instance: &'a Instance,
    choice: Choice,
    left: Holding,
    right: Holding,
    wanted: Vec<Option<u32>>,
    stood: Stood,
}

/// The verdict on an answer of `meet`, where the better is chosen, or of `join`, of which the first line has this number. It is
/// judged by the two matchings that the answer itself writes. Takes time in proportion to the agents, the entries and the
/// lines, and for each pair to the logarithm of how many list its reviewer, and memory in proportion to the agents.
///
/// # Errors
///
/// `AllocError` where memory ran out, and only then.
pub fn chosen_verdict(
    alloc: Global,
    instance: &Instance,
    choice: Choice,
    lines: &[Line],
    first_line: u32,
) -> Result<Verdict, AllocError>
    requires few { first_line + length lines.now < 2 ^ 32 }
    requires own { All (IsOwnLine (answer instance.now (head_for choice))) (map line_of lines.now) }
    ensures { IfOk result (λ v. IsVerdict
        (AtLine (Clauses (answer instance.now (head_for choice))) (map line_of lines.now))
        first_line v) }
{
    let judge = ChosenJudge {
        instance,
        choice,
        left: Holding::none(alloc, instance)?,
        right: Holding::none(alloc, instance)?,
        wanted: vec![in alloc; None; instance.proposer_count() as usize]?,
        stood: Stood::nobody(alloc, instance)?,
    };
    judge_lines(alloc, judge, lines, first_line)
}

impl<'a> Judge for ChosenJudge<'a> {
    ghost use Rattle.sm_holding.specs.Chosen.{head_for};
    ghost use Rattle.sm_check_clauses.specs.Judging.{answer};
    ghost use Rattle.sm_check_answers.specs.ChosenKept.{AreChosenKept};

    ghost subject = { λ j. answer j.instance.now (head_for j.choice) };

    ghost knows = { λ j above. AreChosenKept j.choice j.instance.now above j.left j.right
        j.wanted.items j.stood.stood.items };

    fn find_fault(&mut self, _alloc: Global, line: &Line) -> Result<Option<Reason>, AllocError> {
        match line {
            Line::LeftPair(p, r) => {
                if !joins(&mut self.left, self.instance, *p, *r) {
                    return Ok(Some(Reason::NotAMatching));
                }
                self.wanted[*p as usize] = chosen_at(self.choice, &self.left, &self.right, *p);
                Ok(None)
            }
            Line::RightPair(p, r) => {
                if !joins(&mut self.right, self.instance, *p, *r) {
                    return Ok(Some(Reason::NotAMatching));
                }
                self.wanted[*p as usize] = chosen_at(self.choice, &self.left, &self.right, *p);
                Ok(None)
            }
            Line::Pair(p, r) => {
                if !self.stood.add(self.instance, &self.wanted, *p, *r) {
                    return Ok(Some(Reason::WrongPair));
                }
                Ok(None)
            }
            Line::End => {
                if !is_unblocked(self.instance, &self.left) {
                    return Ok(Some(Reason::Blocked));
                }
                if !is_unblocked(self.instance, &self.right) {
                    return Ok(Some(Reason::Blocked));
                }
                if !self.stood.are_all_there(self.instance, &self.wanted) {
                    return Ok(Some(Reason::WrongPair));
                }
                Ok(None)
            }
            _ => Ok(None),
        }
    }
}

/// The chosen one of the two places that a proposer has.
fn chosen_at(choice: Choice, left: &Holding, right: &Holding, p: u32) -> Option<u32>
    requires in_left { p < length left.now.matching.places.items }
    requires in_right { p < length right.now.matching.places.items }
    ensures { result ≡ chosen choice (held left.now.matching.places.items p)
        (held right.now.matching.places.items p) }
{
    let p = p as usize;
    chosen_place(choice, left.matching.places[p], right.matching.places[p])
}

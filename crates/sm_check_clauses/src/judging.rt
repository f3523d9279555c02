//! Judging an answer line by line.

ghost use Rattle.std.specs.Prelude.{◌≡◌, ◌+◌, ◌<◌, ◌^◌, [], All, IfOk, length, map};
ghost use Rattle.sm_report.specs.Lines.{line_of};
ghost use Rattle.sm_check_clauses.specs.Judges.{IsOwnLine};
ghost use Rattle.sm_check_clauses.specs.Judging.{Clauses};
ghost use Rattle.sm_check_clauses.specs.Verdicts.{AtLine, IsVerdict};

use crate::verdicts::{Reason, Verdict};
use sm_report::Line;
use std::alloc::{AllocError, Global};

/// What judges the lines of an answer, one after another, by what it keeps of those above.
pub trait Judge {
    ghost use Rattle.std.specs.Prelude.{◌≡◌, List, IfOk};
    ghost use Rattle.sm_report.specs.Lines.{LineData, line_of};
    ghost use Rattle.sm_check_clauses.specs.Judging.{Subject};
    ghost use Rattle.sm_check_clauses.specs.Judges.{IsKnown, IsOwnLine, Judges};

    /// What is judged.
    ghost subject: { Self → Subject };

    /// These may be the lines above: no clause fails there, and what is kept is of them.
    ghost knows: { Self → List LineData → Type 0 };

    /// The first clause that fails at the next line. Where none does, what is kept is of this line too. What all lines of an answer
    /// take together is said at the verdict of its kind.
    ///
    /// # Errors
    ///
    /// `AllocError` where memory ran out, and only then; nothing is said of what is kept then.
    fn find_fault(&mut self, alloc: Global, line: &Line) -> Result<Option<Reason>, AllocError>
        requires own { IsOwnLine (subject self.old) (line_of line.now) }
        requires known { IsKnown (knows self.old) }
        ensures subject { subject self.new ≡ subject self.old }
        ensures found { IfOk result (λ why. Judges (subject self.old) (knows self.old)
            (knows self.new) (line_of line.now) why) };
}

/// The verdict on an answer of which the first line has this number. Takes the time and memory of
/// [`find_fault`](Judge::find_fault) for each line up to the first at which a clause fails.
///
/// # Errors
///
/// `AllocError` where memory ran out, and only then.
pub fn judge_lines<J: Judge + Drop>(
    alloc: Global,
    judge: J,
    lines: &[Line],
    first_line: u32,
) -> Result<Verdict, AllocError>
    requires few { first_line + length lines.now < 2 ^ 32 }
    requires own { All (IsOwnLine (J.subject judge)) (map line_of lines.now) }
    requires knows { J.knows judge [] }
    ensures { IfOk result (λ v. IsVerdict (AtLine (Clauses (J.subject judge))
        (map line_of lines.now)) first_line v) }
{
    let mut judge = judge;
    for k in 0..lines.len() {
        if let Some(why) = judge.find_fault(alloc, &lines[k])? {
            return Ok(Verdict::No(first_line + k as u32, why));
        }
    }
    Ok(Verdict::Yes)
}

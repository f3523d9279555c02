//! The steps of a route as lines.

ghost use Rattle.std.specs.Prelude.{◌≡◌, All};
ghost use Rattle.sm_report.specs.Lines.{line_of};
ghost use Rattle.sm_answer_route.specs.RouteAnswer.{step_line, IsStepNumbered};

use sm_answer::Answer;
use sm_report::Line;
use sm_theory::Step;
use std::alloc::{AllocError, Global};

/// The lines of steps that are left.
#[derive(Drop)]
pub struct StepLines<'a> {
    pub steps: &'a [Step],
    ghost numbered: { All IsStepNumbered steps.now },
}

impl Answer for StepLines<'_> {
    ghost use Rattle.std.specs.Prelude.{◌≡◌, map, length};

    ghost gives = { λ left rest. rest ≡ map step_line left.steps.now };

    ghost most = { λ left. length left.steps.now };

    fn next(&mut self, _alloc: Global) -> Result<Option<Line>, AllocError> {
        match self.steps.split_first() {
            Some((step, rest)) => {
                let line = line_for(*step);
                self.steps = rest;
                Ok(Some(line))
            }
            None => Ok(None),
        }
    }
}

/// The line of a step, in which rotations are numbered from 1.
fn line_for(step: Step) -> Line
    requires { IsStepNumbered step }
    ensures { line_of result ≡ step_line step }
{
    match step {
        Step::Back(rotation) => Line::Back(rotation + 1),
        Step::Forth(rotation) => Line::Forth(rotation + 1),
    }
}

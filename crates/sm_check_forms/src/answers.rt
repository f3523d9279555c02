//! An answer, as its lines come.

ghost use Rattle.std.specs.Prelude.{◌≡◌, [], IfOk};
ghost use Rattle.sm_instance.specs.declared.inputs.Input.{Input};
ghost use Rattle.sm_report.specs.Lines.{line_of};
ghost use Rattle.sm_report.specs.Sound.{IsLineOf};
ghost use Rattle.sm_check_forms.specs.Layouts.{is_whole};
ghost use Rattle.sm_check_forms.specs.Forms.{is_placed};
ghost use Rattle.sm_check_forms.specs.Taking.{IsSoFar, lines_in, TakesLine, Placed};
ghost use Rattle.sm_check_forms.specs.Seats.{AreFirsts};

use crate::forms::fits;
use crate::layouts::{Places, opening_of};
use sm_instance::Input;
use sm_report::Line;
use std::alloc::{AllocError, Global};

/// The lines of an answer so far, and what is left of its layouts behind them.
#[derive(Drop)]
pub(crate) struct Answer {
    pub(crate) lines: Vec<Line>,
    left: Places,
}

impl Answer {
    /// No lines yet.
    pub(crate) fn new(alloc: Global) -> Answer
        ensures none { lines_in result ≡ [] }
        ensures so_far { (input : Input) → IsSoFar input result }
    {
        Answer {
            lines: Vec::new(alloc),
            left: Places::none(alloc),
        }
    }

    /// Takes the next line, and answers `false` where it can't stand there.
    pub(crate) fn take(
        &mut self,
        alloc: Global,
        input: &Input,
        firsts: &[u32],
        line: Line,
    ) -> Result<bool, AllocError>
        requires firsts { AreFirsts input.now firsts.now }
        requires so_far { IsSoFar input.now self.old }
        requires line { IsLineOf input.now (line_of line) }
        ensures { IfOk result (λ taken. TakesLine input.now self.old self.new (line_of line) taken) }
    {
        if !fits(input, firsts, &line) {
            return Ok(false);
        }
        if !self.place(alloc, input, &line)? {
            return Ok(false);
        }
        self.lines.push(line)?;
        Ok(true)
    }

    /// Goes behind the next line, and tells whether it has a place there.
    fn place(&mut self, alloc: Global, input: &Input, line: &Line) -> Result<bool, AllocError>
        requires so_far { IsSoFar input.now self.old }
        requires line { IsLineOf input.now (line_of line.now) }
        ensures { IfOk result (λ placed. Placed input.now self.old self.new (line_of line.now)
            placed) }
    {
        if self.lines.is_empty() {
            return self.begin(alloc, input, line);
        }
        self.left.take(opening_of(line));
        Ok(self.left.are_begun())
    }

    /// Begins the layouts of a head, and tells whether the line is one and there are any.
    fn begin(&mut self, alloc: Global, input: &Input, line: &Line) -> Result<bool, AllocError>
        requires so_far { IsSoFar input.now self.old }
        requires none { self.old.lines.items ≡ [] }
        ensures { IfOk result (λ placed. Placed input.now self.old self.new (line_of line.now)
            placed) }
    {
        match line {
            Line::Answer(head) => {
                self.left = Places::of(alloc, input, head)?;
                Ok(self.left.are_begun())
            }
            _ => Ok(false),
        }
    }

    /// Whether the lines are a whole answer.
    pub(crate) fn is_whole(&self, input: &Input) -> bool
        requires { IsSoFar input.now self.now }
        ensures { result ≡ is_placed is_whole input.now (lines_in self.now) }
    {
        !self.lines.is_empty() && self.left.are_whole()
    }
}

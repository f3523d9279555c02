//! The pairs of two given matchings, as their lines come.

ghost use Rattle.std.specs.Prelude.{◌≡◌, [], IfOk};
ghost use Rattle.sm_report.specs.Lines.{line_of, LineData};
ghost use Rattle.sm_answer_given.specs.Taking.{lines_so_far, TakesLine, AreInTurn};

use sm_report::Line;
use std::alloc::{AllocFailed, Global};

/// Which lines may come next.
#[derive(Clone, Copy)]
pub(crate) enum Group {
    /// Lines of all three kinds.
    Left,
    /// `right` lines and `end`.
    Right,
    /// None.
    Ended,
}

/// The pairs that were given so far, each with the proposer first.
#[derive(Drop)]
pub(crate) struct GivenPairs {
    pub(crate) left: Vec<(u32, u32)>,
    pub(crate) right: Vec<(u32, u32)>,
    pub(crate) group: Group,
}

impl GivenPairs {
    /// No lines yet.
    pub(crate) fn new(alloc: Global) -> GivenPairs
        ensures none { lines_so_far result ≡ [] }
        ensures in_turn { AreInTurn result }
    {
        GivenPairs {
            left: Vec::new(alloc),
            right: Vec::new(alloc),
            group: Group::Left,
        }
    }

    /// Takes the next line, and answers `false` where it can't stand there.
    pub(crate) fn take(&mut self, line: &Line) -> Result<bool, AllocFailed<(u32, u32)>>
        requires { AreInTurn self.old }
        ensures { IfOk result (λ fits. TakesLine self.old self.new (line_of line.now) fits) }
    {
        match line {
            Line::LeftPair(p, r) => self.take_left(*p, *r),
            Line::RightPair(p, r) => self.take_right(*p, *r),
            Line::End => Ok(self.take_end()),
            _ => Ok(false),
        }
    }

    /// Takes a pair of the left matching.
    fn take_left(&mut self, p: u32, r: u32) -> Result<bool, AllocFailed<(u32, u32)>>
        requires { AreInTurn self.old }
        ensures { IfOk result (λ fits. TakesLine self.old self.new (LineData.LeftPair p r) fits) }
    {
        match self.group {
            Group::Left => {
                self.left.push((p, r))?;
                Ok(true)
            }
            Group::Right | Group::Ended => Ok(false),
        }
    }

    /// Takes a pair of the right matching.
    fn take_right(&mut self, p: u32, r: u32) -> Result<bool, AllocFailed<(u32, u32)>>
        requires { AreInTurn self.old }
        ensures { IfOk result (λ fits. TakesLine self.old self.new (LineData.RightPair p r) fits) }
    {
        match self.group {
            Group::Left | Group::Right => {
                self.right.push((p, r))?;
                self.group = Group::Right;
                Ok(true)
            }
            Group::Ended => Ok(false),
        }
    }

    /// Takes the closing line.
    fn take_end(&mut self) -> bool
        requires { AreInTurn self.old }
        ensures { TakesLine self.old self.new LineData.End result }
    {
        match self.group {
            Group::Left | Group::Right => {
                self.group = Group::Ended;
                true
            }
            Group::Ended => false,
        }
    }
}

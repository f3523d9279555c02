//! The lines of an answer, which name agents by number.

use sm_report::Line;
use std::alloc::{AllocError, Global};

/// Lines of an answer that are given one after another.
pub trait Answer {
    ghost use Rattle.std.specs.Prelude.{ℕ, List};
    ghost use Rattle.sm_report.specs.Lines.{LineData};
    ghost use Rattle.sm_answer.specs.Giving.{HasRest, GivesNext};

    /// These may be the lines that are left.
    ghost gives: { Self → List LineData → Type 0 };

    /// At most so many are left.
    ghost most: { Self → ℕ };

    /// The next line, and `None` where no line is left, and from then on always. There have to be lines that may be left.
    ///
    /// # Errors
    ///
    /// `AllocError` where memory ran out, and only then. Nothing is said then of what is left.
    fn next(&mut self, alloc: Global) -> Result<Option<Line>, AllocError>
        requires { HasRest (gives self.old) }
        ensures { GivesNext (gives self.old) (gives self.new) (most self.old) (most self.new)
            result };
}

/// One line, until it is given.
#[derive(Drop)]
pub struct One(pub Option<Line>);

impl Answer for One {
    ghost use Rattle.std.specs.Prelude.{◌≡◌, length};
    ghost use Rattle.sm_answer.specs.Lines.{line_left};

    ghost gives = { λ one rest. rest ≡ line_left one.0 };

    ghost most = { λ one. length (line_left one.0) };

    #[tactic(auto, using(crate::proofs::AnswerLemmas::one_given))]
    fn next(&mut self, _alloc: Global) -> Result<Option<Line>, AllocError> {
        Ok(self.0.take())
    }
}

/// Lines, and others behind them.
#[derive(Drop)]
pub struct Then<A: Answer, B: Answer> {
    pub first: A,
    pub second: B,
}

impl<A: Answer, B: Answer> Answer for Then<A, B> {
    ghost use Rattle.std.specs.Prelude.{◌+◌};
    ghost use Rattle.sm_answer.specs.Giving.{AreJoined};

    ghost gives = { λ both rest. AreJoined (A.gives both.first) (B.gives both.second) rest };

    ghost most = { λ both. A.most both.first + B.most both.second };

    fn next(&mut self, alloc: Global) -> Result<Option<Line>, AllocError> {
        match self.first.next(alloc)? {
            Some(line) => Ok(Some(line)),
            None => self.second.next(alloc),
        }
    }
}

/// Items by number, each of which has a line or none.
pub trait Numbered {
    ghost use Rattle.std.specs.Prelude.{◌≡◌, ◌<◌, ℕ, Option, IfOk};
    ghost use Rattle.std.specs.Option.{option_map};
    ghost use Rattle.sm_report.specs.Lines.{LineData, line_of};

    /// The line of the item of this number, counted from 0, if it has one.
    ghost line: { Self → ℕ → Option LineData };

    /// How many items there are.
    ghost count: { Self → ℕ };

    /// How many items there are.
    fn count(&self) -> u32
        ensures { result ≡ count self.now };

    /// The line of an item, if it has one.
    ///
    /// # Errors
    ///
    /// `AllocError` where memory ran out, and only then.
    fn line(&self, alloc: Global, at: u32) -> Result<Option<Line>, AllocError>
        requires { at < count self.now }
        ensures { IfOk result (λ found. option_map line_of found ≡ line self.now at) };
}

/// The lines of items from the one with the number `next` on, counted from 0.
#[derive(Drop)]
pub struct Each<T: Numbered> {
    pub items: T,
    pub next: u32,
}

impl<T: Numbered> Answer for Each<T> {
    ghost use Rattle.std.specs.Prelude.{◌≡◌, ◌-◌};
    ghost use Rattle.sm_answer.specs.Lines.{lines_from};

    ghost gives = { λ each rest. rest
        ≡ lines_from (T.line each.items) each.next (T.count each.items - each.next) };

    ghost most = { λ each. T.count each.items - each.next };

    fn next(&mut self, alloc: Global) -> Result<Option<Line>, AllocError> {
        'items: while self.next < self.items.count() {
            let line = self.items.line(alloc, self.next)?;
            self.next += 1;
            if line.is_some() {
                return Ok(line);
            }
        }
        Ok(None)
    }
}

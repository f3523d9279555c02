//! The pairs of a matching as lines.

ghost use Rattle.std.specs.Prelude.{◌≡◌};
ghost use Rattle.sm_instance.specs.Matching.{IsAssignment};
ghost use Rattle.sm_report.specs.Lines.{line_of};
ghost use Rattle.sm_answer.specs.MatchingLines.{pair_data};

use crate::answer::Numbered;
use sm_instance::{Assignment, Instance};
use sm_report::Line;
use std::alloc::{AllocError, Global};

/// The word with which the line of a pair begins.
#[derive(Clone, Copy, Debug, PartialEq, Eq)]
pub enum PairWord {
    Pair,
    Left,
    Right,
}

/// The pairs of a matching, in the order of the proposers.
#[derive(Drop)]
pub struct MatchingLines<'a> {
    pub word: PairWord,
    pub instance: &'a Instance,
    pub matching: &'a Assignment,
    ghost assigned: { IsAssignment instance.now matching.now.places.items },
}

impl Numbered for MatchingLines<'_> {
    ghost use Rattle.std.specs.Prelude.{length};
    ghost use Rattle.sm_answer.specs.MatchingLines.{matching_line};

    ghost line = { λ lines p. matching_line lines.word lines.instance.now
        lines.matching.now.places.items p };

    ghost count = { λ lines. length lines.instance.now.proposers };

    fn count(&self) -> u32 {
        self.instance.proposer_count()
    }

    fn line(&self, _alloc: Global, p: u32) -> Result<Option<Line>, AllocError> {
        match self.matching.places[p as usize] {
            Some(place) => {
                let r = self.instance.reviewer_at(p, place);
                Ok(Some(pair_line(self.word, p, r)))
            }
            None => Ok(None),
        }
    }
}

/// The line of a pair.
fn pair_line(word: PairWord, p: u32, r: u32) -> Line
    ensures { line_of result ≡ pair_data word p r }
{
    match word {
        PairWord::Pair => Line::Pair(p, r),
        PairWord::Left => Line::LeftPair(p, r),
        PairWord::Right => Line::RightPair(p, r),
    }
}

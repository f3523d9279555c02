//! The lines of tallies.

ghost use Rattle.std.specs.Prelude.{◌≡◌, map, IfOk, All};
ghost use Rattle.sm_tally.specs.Fold.{shown_as};
ghost use Rattle.sm_report.specs.Lines.{LineData, line_of};
ghost use Rattle.sm_report.specs.Sound.{AreNumbers};
ghost use Rattle.sm_answer_survey.specs.SurveyAnswer.{tally_line};

use sm_answer::Answer;
use sm_report::Line;
use sm_tally::{Tally, read_out};
use std::alloc::{AllocError, Global};
use std::vec::IntoIter;

/// The lines of tallies that are left.
#[derive(Drop)]
pub struct TallyLines(pub(crate) IntoIter<Line>);

impl Answer for TallyLines {
    ghost use Rattle.std.specs.Prelude.{length};
    ghost use Rattle.std.specs.Vec.Iter.{into_iter_items};
    ghost use Rattle.sm_answer_survey.specs.Given.{AreLeft};

    ghost gives = { λ left rest. AreLeft left.0 rest };

    ghost most = { λ left. length (into_iter_items left.0) };

    fn next(&mut self, _alloc: Global) -> Result<Option<Line>, AllocError> {
        Ok(self.0.next())
    }
}

/// The lines of what tallies show, in their order.
pub(crate) fn lines_of_tallies(
    alloc: Global,
    tallies: &[Box<dyn Tally>],
) -> Result<Vec<Line>, AllocError>
    ensures shown { IfOk result (λ lines. map line_of lines.items
        ≡ map tally_line (map (λ t. shown_as (kind t) (shown t)) tallies.now)) }
    ensures numbered { IfOk result (λ lines. All AreNumbers (map line_of lines.items)) }
{
    let mut lines = Vec::with_capacity(alloc, tallies.len())?;
    for tally in tallies {
        lines.push(line_of_tally(alloc, tally)?)?;
    }
    Ok(lines)
}

/// The line of what a tally shows.
fn line_of_tally(alloc: Global, tally: &Box<dyn Tally>) -> Result<Line, AllocError>
    ensures shown { IfOk result (λ line. line_of line
        ≡ tally_line (shown_as (kind tally.now) (shown tally.now))) }
    ensures numbers { IfOk result (λ line. AreNumbers (line_of line)) }
{
    let (tag, figures) = read_out(alloc, tally)?;
    fit_their_types(tag, &figures);
    Ok(Line::TallyLine(tag, figures))
}

/// A tag has 32 bits, and figures have 64. Nothing is done.
fn fit_their_types(_tag: u32, _figures: &[u64])
    ensures { AreNumbers (LineData.TallyLine _tag _figures.now) }
{}

//! The answer of `survey`.

ghost use Rattle.std.specs.Prelude.{◌≡◌, ◌≤◌, ℕ, true, List, map, IfOk};
ghost use Rattle.sm_text.specs.Limits.{most_limit};
ghost use Rattle.sm_tally.specs.Fold.{shown_as};
ghost use Rattle.sm_answer.specs.Giving.{HasRest};
ghost use Rattle.sm_answer.specs.Printing.{IsShown};
ghost use Rattle.sm_instance.specs.declared.inputs.Input.TheVariants.{Two};
ghost use Rattle.sm_report.specs.Lines.{LineData, line_of};
ghost use Rattle.sm_report.specs.Sound.{AreNumbers};
ghost use Rattle.sm_seats.specs.Seating.{seating_of};
ghost use Rattle.sm_seats.specs.Correspondence.{IsSeating};
ghost use Rattle.sm_answer_list.specs.ListAnswer.{last_line};
ghost use Rattle.sm_answer_list.specs.Started.{cursor_in};
ghost use Rattle.sm_answer_survey.specs.SurveyAnswer.{IsSurveyAnswer};

use crate::feeding::take_survey;
use crate::tally_lines::{TallyLines, lines_of_tallies};
use sm_answer::{Lines, One, Printed, Then};
use sm_instance::{Input, Instance};
use sm_report::{Head, Line};
use sm_seats::Seats;
use sm_tally::Tally;
use std::alloc::{AllocError, Global};

/// The lines of the answer of `survey`.
pub type SurveyLines<'a> = Printed<'a, Then<One, Then<One, Then<TallyLines, One>>>>;

/// The head, how many matchings were listed, what each tally shows then, and `more` with the rank vector of the last matching
/// where more follow it, else `end`.
///
/// Takes the time and the memory of [`take_survey`], and memory for the figures of the tallies.
///
/// # Errors
///
/// `AllocError` where memory ran out, and only then. Nothing is said then of what the tallies show.
pub fn survey_lines<'a>(
    alloc: Global,
    input: &'a Input,
    instance: &Instance,
    seats: &Seats,
    limit: u32,
    tallies: &mut Vec<Box<dyn Tally>>,
) -> Result<SurveyLines<'a>, AllocError>
    requires input { input.now ≡ Two instance.now }
    requires seats { seats.now ≡ seating_of instance.now }
    requires seating { IsSeating instance.now seats.now }
    requires least { 1 ≤ limit }
    requires greatest { limit ≤ most_limit }
    ensures right { IfOk result (λ made. (lines : List (List ℕ))
        → ⟦<SurveyLines<'a> as Lines>⟧.gives made lines
        → IsShown input.now (IsSurveyAnswer (map (λ t. shown_as (kind t) (shown t))
        tallies.old.items) limit instance.now) lines) }
    ensures some { IfOk result (λ made. HasRest (⟦<SurveyLines<'a> as Lines>⟧.gives made)) }
{
    let survey = take_survey(alloc, instance, seats, limit, tallies)?;
    let lines = lines_of_tallies(alloc, tallies)?;
    Ok(Printed {
        input,
        answer: Then {
            first: One(Some(Line::Answer(Head::Survey(limit)))),
            second: Then {
                first: One(Some(Line::Listed(survey.listed))),
                second: Then {
                    first: TallyLines(lines.into_iter()),
                    second: One(Some(more_or_end(survey.last))),
                },
            },
        },
    })
}

/// The last line: `more` with a vector, else `end`.
fn more_or_end(last: Option<Vec<u32>>) -> Line
    ensures line { line_of result ≡ last_line (cursor_in last) true }
    ensures numbers { AreNumbers (line_of result) }
{
    match last {
        Some(vector) => {
            fits_its_type(&vector);
            Line::More(vector)
        }
        None => Line::End,
    }
}

/// The numbers of a vector have 32 bits. Nothing is done.
fn fits_its_type(_vector: &[u32])
    ensures { AreNumbers (LineData.More _vector.now) }
{}

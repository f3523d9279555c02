//! The answer of `survey`: what tallies show of the allowed stable matchings.
//!
//! [`take_survey`] lists them and tells each tally of each one, by its rank vector and its regret. [`survey_lines`] does the
//! same, and lends what the tallies show then as lines. No matching is held but the one that is listed and the one before it.
#![tactic(auto)]

mod answer;
mod feeding;
mod regrets;
mod survey;
mod tally_lines;

pub use answer::{SurveyLines, survey_lines};
pub use feeding::take_survey;
pub use survey::Survey;
pub use tally_lines::TallyLines;

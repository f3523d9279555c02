//! What the commands show: their answers, as values that give lines.
//!
//! For each command a function finds what its answer is read from, and another one lends that as lines
//! ([`sm_answer::Lines`]): [`find_reduction`] and [`reduction_lines`], [`find_rotations`] and [`rotation_answer_lines`].
//! Other commands stand on [`find_poset`] and [`conditions_of`] too, and say by [`none_lines`] that nothing is allowed.
//! Marriages and hospitals are alike here: both are known by their seats ([`sm_seats::Seats`]).
#![tactic(auto)]

mod conditions;
mod finding;
mod list_lines;
mod none_answer;
mod pair_lines;
mod reduction;
mod rotation_answer;
mod rotation_lines;
mod seat_lines;

pub use conditions::conditions_of;
pub use finding::{find_poset, find_rotations};
pub use list_lines::{ProposerLists, ReviewerLists};
pub use none_answer::{NoneLines, none_lines};
pub use pair_lines::PairLines;
pub use reduction::{Reduction, ReductionLines, find_reduction, reduction_lines};
pub use rotation_answer::{RotationAnswerLines, rotation_answer_lines};
pub use rotation_lines::{RotationLines, Rotations, needs_line, rotation_line};
pub use seat_lines::SeatLines;

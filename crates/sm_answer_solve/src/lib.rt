//! The best stable matching of a side, and the answer of `solve`.
//!
//! [`find_solution`] finds the matching, and [`solution_lines`] lends it as lines. Both sides' best is found by
//! deferred acceptance over the lists as they were written, in which the proposers propose or the reviewers offer their places:
//! neither the lists of the market of seats are made for it nor their cross places, most of which would never be looked at.
#![tactic(auto)]

mod admitting;
mod ending;
mod offering;
mod proposals;
mod seat_holders;
mod solution;

pub use solution::{Solution, SolutionLines, find_solution, solution_lines};

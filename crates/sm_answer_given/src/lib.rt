//! Two matchings given behind `end`, and the answers of `meet` and `join`.
//!
//! [`find_given`] reads them, and refuses what is no text of two matchings, or a matching that isn't stable. [`chosen_lines`]
//! lends them as lines, with the matching in which each proposer has the better or the worse of its two partners.
#![tactic(auto)]

mod chosen;
mod faults;
mod given;
mod holding;
mod pairs;
mod reading;

pub use chosen::{ChosenLines, chosen_lines};
pub use faults::{Flaw, GivenFault, Unstable, Which};
pub use given::{Given, find_given};

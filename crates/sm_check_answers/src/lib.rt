//! Which clause an answer breaks: the verdict on the lines of an answer, one judge for each head.
//!
//! The clauses, and what they say, are those of `sm_check_clauses`.
#![tactic(auto)]

mod chosen;
mod listing;
mod pairs;
mod reduced;
mod regret;
mod rotations;
mod seat_lists;
mod solving;
mod tried;
mod wanted;

pub use chosen::chosen_verdict;
pub use listing::list_verdict;
pub use reduced::reduced_verdict;
pub use regret::regret_verdict;
pub use rotations::{RotationsJudge, rotations_verdict};
pub use solving::solve_verdict;
pub use wanted::Stood;

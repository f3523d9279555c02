//! Verdicts on answers of `solve` for roommates: those that write a matching, and those that write parties.
//!
//! A judge for each, for the frame of `sm_check_clauses`. What the clauses say stands there, by the definitions of the field alone.
#![tactic(auto)]

mod couples;
mod parties;
mod persons;

pub use couples::couples_verdict;
pub use parties::parties_verdict;

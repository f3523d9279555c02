//! The successors of the proposers, looked for at pairings of a market that come one from another by elimination.
//!
//! [`next_proposer`] goes along a proposer's list from where it was looked for before, and [`first_taker`] from any place.
//! Both finders and verdicts stand on it. [`laws`] says that such a search begins at the fronts of the lists, and goes on once
//! a rotation is eliminated (Gusfield and Irving 1989, section 3.2).
#![tactic(auto)]

pub mod laws;
mod search;
pub mod witnesses;

pub use search::{first_taker, next_proposer};

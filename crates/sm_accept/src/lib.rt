//! Deferred acceptance from both sides, sets of linked pairs, and the reduced lists.
//!
//! [`proposer_best`] and [`reviewer_best`] give the two extreme stable matchings of a market (Gale and Shapley 1962;
//! Gusfield and Irving 1989, section 1.2). [`Linked`] holds a front of each reviewer's list and cuts it further back.
//! [`reduced_lists`] gives what is left of the lists once nobody looks beyond the best and the worst that it can have.
#![tactic(auto)]

mod accept;
mod lengths;
mod linked;
mod reduced;

pub use accept::{proposer_best, reviewer_best};
pub use linked::Linked;
pub use reduced::{Reduced, reduced_between, reduced_lists};

//! The order of rotations.
//!
//! [`laws`] says that the reflexive and transitive closure of the two kinds of predecessor is the usual order of the rotations:
//! one precedes another if it has to be eliminated first.
#![tactic(auto)]

pub mod laws;
pub mod witnesses;

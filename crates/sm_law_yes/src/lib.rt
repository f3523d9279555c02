//! Answers that get a yes are right ones.
//!
//! [`laws`] says of the answers of a command that get a yes that they are right by the command's own relation, but for the order
//! of lines of one keyword that stand side by side; and that this order says nothing.
#![tactic(auto)]

pub mod laws;
pub mod witnesses;

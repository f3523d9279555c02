//! Right answers get a yes.
//!
//! [`laws`] says of the right answers of a command that their texts are judged with yes, over the definitions alone.
#![tactic(auto)]

pub mod laws;
pub mod witnesses;

//! What the program writes, put behind its instance, gets a yes from `check`.
#![tactic(auto)]

pub mod laws;
pub mod witnesses;

//! Verdicts on the texts of answers, by hand.
//!
//! A contract can't say that a call succeeds where there is memory, so it is tried here, with each reason once.
#![tactic(auto)]

#[cfg(test)]
mod checks;

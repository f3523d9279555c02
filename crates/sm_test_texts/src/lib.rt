//! Each public call of the crates of texts and instances, once with memory and with each fault once; the crates of markets have
//! theirs in `sm_test_markets`, those that find answers in `sm_test_finders`, and words and whole runs in `sm_test_runs`.
//!
//! A contract can't say that a call succeeds where there is memory, so it is tried here. Each subject has a file. That
//! definitions mean what they should is computed by the checker beside them, in the witnesses of the crates below.
#![tactic(auto)]

#[cfg(test)]
mod instances;
#[cfg(test)]
mod json;
#[cfg(test)]
mod keys;
#[cfg(test)]
mod lines;
#[cfg(test)]
mod made;
#[cfg(test)]
mod names;
#[cfg(test)]
mod pieces;
#[cfg(test)]
mod reading;
#[cfg(test)]
mod tallies;
#[cfg(test)]
mod texts;

//! Each public call of the crates that find answers, once with memory and with each fault once; the crates of markets have theirs
//! in `sm_test_markets`, those of texts in `sm_test_texts`, and words and whole runs in `sm_test_runs`.
//!
//! A contract can't say that a call succeeds where there is memory, so it is tried here. A file stands for one crate. That
//! definitions mean what they should is computed by the checker beside them, in the witnesses of the crates below.
#![tactic(auto)]

#[cfg(test)]
mod cuts;
#[cfg(test)]
mod flows;
#[cfg(test)]
mod listings;
#[cfg(test)]
mod made;
#[cfg(test)]
mod room_listers;
#[cfg(test)]
mod rooms;
#[cfg(test)]
mod seats;
#[cfg(test)]
mod solutions;
#[cfg(test)]
mod trims;

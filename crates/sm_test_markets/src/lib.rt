//! Markets that were made by hand, over all crates of markets: what no contract says is tested here.
//!
//! A contract can't say that a call succeeds where there is memory, so each call is made once with memory. Two bodies that
//! find the same rotations are run against each other on made markets. That definitions mean what they should is computed
//! by the checker beside them, in the witnesses of the crates below.
#![tactic(auto)]

#[cfg(test)]
mod lattice;
#[cfg(test)]
mod made;
#[cfg(test)]
mod tests;
#[cfg(test)]
mod texts;

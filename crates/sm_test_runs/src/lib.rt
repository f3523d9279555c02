//! Words of the command line, printed instances, and a run of the program over a source and a sink that never fail.
//!
//! A contract can't say that a call succeeds where there is memory, so it is tried here, with each fault once.
#![tactic(auto)]

#[cfg(test)]
mod made;
#[cfg(test)]
mod printing;
#[cfg(test)]
mod steady;
#[cfg(test)]
mod words;

//! Rotations of a market: the complete chain of them from the proposers' best stable matching, and what each one needs.
//!
//! [`chain`] gives the chain (Gusfield and Irving 1989, section 2.5), [`needs`] the predecessors of its rotations, and
//! [`chain_with_needs`] both at once.
//! [`exposed`] and [`eliminate`] go one step by the plain definitions.
#![tactic(auto)]

mod chains;
mod exposure;
mod footings;
mod graph;
mod notes;
mod order;
mod predecessors;
mod walk;

pub use chains::{chain, chain_with_needs};
pub use exposure::exposed;
pub use order::ChainWithNeeds;
pub use predecessors::needs;
pub use sm_theory::eliminate;

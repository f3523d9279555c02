//! The stable matchings of roommates, one after the other in the order of their rank vectors.
//!
//! [`RoomLister`] steps from one vector to the next one. It fixes the ranks of the first persons and tests whether a stable
//! matching is left: lists are cut, and [`sm_room::stable_partition`] decides. The laws of such cuts stand in [`laws`]. Persons
//! and places are numbered from 0, ranks from 1.
#![tactic(auto)]

mod choices;
mod finding;
pub mod laws;
mod lister;
mod search;
mod tops;

pub use lister::RoomLister;

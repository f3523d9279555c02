//! Instances that are made from a shape, a size and a seed, for teaching and for trials.
//!
//! [`make`] gives the same instance for the same three, on any machine.
#![tactic(auto)]

mod building;
mod lists;
mod making;
mod names;
mod shape;
mod shuffle;
mod sides;
pub mod witnesses;

pub use making::make;
pub use shape::Shape;

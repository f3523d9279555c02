//! The board of a chain of rotations: what they change for each proposer, and what is held of them.
//!
//! [`board`] makes it of a poset with levels. [`Course`] is a board with an order of the proposers, and [`Held`] a set of rotations
//! on it, with the stay and the level that it gives each proposer. The laws stand in [`laws`]: of the sets of a board and of what
//! they mean for matchings, of growing the least set, and of walking the sets in the order of their vectors.
#![tactic(auto)]

mod board;
mod course;
mod held;
pub mod laws;
mod make;
pub mod witnesses;

pub use board::Board;
pub use course::Course;
pub use held::Held;
pub use make::make_board;

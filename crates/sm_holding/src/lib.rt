//! Matchings that are given by pairs, and the better and the worse of two matchings.
//!
//! A [`Holding`] grows by one pair after another, and says of the first that can't be held and of the first pair that blocks.
//! [`choose_places`] gives each proposer the better or the worse of its partners in two matchings.
#![tactic(auto)]

mod blocking;
mod choosing;
mod holding;

pub use choosing::choose_places;
pub use holding::Holding;

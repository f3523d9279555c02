//! The answers of `pairs` and `regret`.
//!
//! [`find_pairs`] finds the stable pairs of an instance by the levels of its seats, and [`pairs_lines`] lends them as lines.
//! [`find_regret`] finds the allowed stable matching of the least regret, which [`regret_lines`] lends.
#![tactic(auto)]

mod least_regret;
mod pairs;
mod regret;

pub use least_regret::LeastRegret;
pub use pairs::{PairsLeft, PairsLines, StablePair, find_pairs, pairs_lines};
pub use regret::{RegretLines, find_regret, regret_lines};

//! One-to-one markets with mutual lists, and matchings of them.
//!
//! A market has two sides, proposers and reviewers. Each agent lists agents of the other side, best first, and is
//! listed by each of them (Gale and Shapley 1962; Gusfield and Irving 1989, section 1.1; Manlove 2013, section 2.2).
//! Agents are numbered from 0 on each side, and places on a list from 0.
//!
//! [`Market::build`] makes a market of lists, or names the first entry that stands in the way. [`Pairing::of`] makes
//! a matching of a market, of the place that each proposer holds. [`Market::first_blocking`] tells whether a matching
//! is stable, and which pair blocks it where it isn't. [`laws`] states what holds of all stable matchings.
#![tactic(auto)]

mod blocking;
mod entries;
mod faults;
mod footing;
pub mod laws;
mod market;
mod pairing;
mod reduced;
pub mod witnesses;

pub use faults::{MarketFault, PairingFault, Side};
pub use footing::Footing;
pub use market::Market;
pub use pairing::{Pairing, next_in, place_from};
pub use reduced::is_between;

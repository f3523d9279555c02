//! Hospitals by seats: the one-to-one market whose stable matchings are those of an instance with two sides.
//!
//! A reviewer becomes as many seats as it has places, but no more than acceptable proposers. [`Seats::of`] makes the market
//! of the seats, and [`Seats::to_hospitals`] and [`Seats::to_seats`] go from its matchings to those of the instance and
//! back (Gusfield and Irving 1989, section 1.6.1; Manlove 2013, section 3.2). [`weights_of_places`] and
//! [`seconds_of_places`] weigh the places of the seats, and [`leveled`] turns conditions into levels.
#![tactic(auto)]

mod counts;
mod crossed_instance;
mod entry_counts;
mod faults;
pub mod laws;
mod leveling;
mod levels;
mod place_weights;
mod places;
mod plain;
mod proposer_rows;
mod reviewer_rows;
mod seats;
mod taking;
mod two_levels;
pub mod witnesses;
mod written_lists;

pub use counts::{SeatCounts, seat_counts};
pub use faults::SeatsFault;
pub use leveling::leveled;
pub use place_weights::{seconds_of_places, weights_of_places};
pub use seats::Seats;
pub use two_levels::has_two_levels;

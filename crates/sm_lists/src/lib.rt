//! Lists of numbers, by owner and place, and counting: what the markets and the instances stand on.
//!
//! The agents of a side are numbered from 0, each has a list of agents, best first, and places on a list are counted from 0.
//! Definitions are in `specs`: lists by row and place, the limits of a side, cross places, who names whom, orders that have each
//! agent once, and the order of vectors. Lemmas are in `proofs`: places on a list, what one changed item changes, decisions and the
//! pigeonhole.
#![tactic(auto)]

mod cells;
mod compact_naming;
mod cross;
mod crosses;
mod naming;
mod notes;
mod numbers;
mod order;
mod packed;
mod place;
mod places;
mod raised_rows;
mod rows;
mod rows_writer;
mod span;
mod vectors;
pub mod witnesses;

pub use compact_naming::{CompactNaming, place_by};
pub use cross::Cross;
pub use crosses::{CrossPlaces, cross_places, namings};
pub use naming::{KeptNaming, Naming};
pub use numbers::earlier;
pub use order::{first_numbers, is_each_once};
pub use packed::Packed;
pub use place::KeptPlace;
pub use places::first_place;
pub use raised_rows::RaisedRows;
pub use rows::Rows;
pub use rows_writer::RowsWriter;
pub use vectors::{entry_at, lent, list_at};

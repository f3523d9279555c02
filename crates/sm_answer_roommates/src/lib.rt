//! The answers of `solve`, `list` and `rest` for roommates: the couples of a stable matching, or `none` and the parties of a stable
//! partition that has an odd one of three or more; the rank vectors of all stable matchings; and who is left out of such parties,
//! with a matching of the others.
//!
//! [`find_roommates`] finds a matching or parties, and [`couple_lines`] and [`party_lines`] lend them as lines
//! ([`sm_answer::Lines`]); [`find_rest`] and [`rest_lines`] do so for `rest`. [`room_list_lines`] lends rank vectors, each of which
//! is found when its line is asked for.
#![tactic(auto)]

mod lines;
mod list;
mod numbered;
mod parties;
mod rest;
mod room_listed;
mod solution;
pub mod witnesses;

pub use lines::{RoomLines, couple_lines, party_lines};
pub use list::room_list_lines;
pub use numbered::{CoupleLines, OutLines, PartyLines};
pub use rest::{Rest, RestLines, find_rest, rest_lines};
pub use room_listed::RoomListed;
pub use solution::{RoomSolution, find_roommates};

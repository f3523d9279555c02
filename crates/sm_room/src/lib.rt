//! Stable roommates: one kind of persons, each of whom ranks some of the others (Irving 1985, with lists that needn't be
//! complete; Tan 1991).
//!
//! [`RoomMarket::build`] takes the lists, or names the first faulty entry. [`phase_one`] cuts them down to a table, and
//! [`phase_two`] cuts any such table down to a stable partition, whose parties are paired. [`Partition::odd_party`] tells
//! whether there is a stable matching; where there is one, [`Partition::mate`] gives it. Persons and places are numbered
//! from 0.
//!
//! A table is one number for each person: the place on its list behind which all are cut. So a pair is left where both
//! stand before these bounds, and to cut a list is to lower its number.
#![tactic(auto)]

mod cycle_walk;
mod entries;
mod faults;
mod hints;
pub mod laws;
mod market;
mod pairing;
mod parties;
mod proposing;
mod rotating;
mod tables;

pub use faults::RoomFault;
pub use market::RoomMarket;
pub use parties::{Partition, phase_two, stable_partition};
pub use tables::{Table, phase_one};

//! The text of an instance, and the instance that it means.
//!
//! A text has a header, lines that declare agents, lines that weigh, force or forbid pairs, and a line `end`. In format 2 it
//! may also have master lists, an order of the proposers, and second weights. [`read_instance`] gives the instance, or the
//! first thing that stands in its way with its line. The law of [`laws`] says that what a text means is sound.
#![tactic(auto)]

mod draft;
mod faults;
mod header;
mod judging;
pub mod laws;
mod listed;
mod masters;
mod numbering;
mod ordering;
mod reading;
pub mod witnesses;

pub use faults::TextFault;
pub use reading::{Read, read_instance};

//! Answers as values that give lines, and the one function that writes them.
//!
//! [`Lines`] are lines of bytes that are given one after another, and an [`Answer`] the same of lines that name agents by
//! number. [`Printed`] is the texts of an answer, and [`One`], [`Then`] and [`Each`] make an answer of parts, as
//! [`MatchingLines`], the pairs of a matching. [`write`] writes lines to a sink, each with its end and with one put.
//!
//! What may be given is a relation: there may be more lines than memory holds, and several right ones. So a writer that
//! was cut off has still written a front of right lines, whatever they would have been.
#![tactic(auto)]

mod answer;
mod lines;
mod matching_lines;
mod printed;
mod writing;

pub use answer::{Answer, Each, Numbered, One, Then};
pub use lines::Lines;
pub use matching_lines::{MatchingLines, PairWord};
pub use printed::Printed;
pub use writing::{Unwritten, write};

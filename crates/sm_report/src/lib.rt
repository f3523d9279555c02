//! The lines of answers, and what is written for each.
//!
//! A line is a [`Line`] over an instance: it names agents, seats and rotations by number. Agents are numbered from 0,
//! as in the instance, and seats of a reviewer and rotations from 1. [`put_line`] puts a line's text and its end behind
//! what a writer holds, and [`put_text`] the text alone. Nothing here looks at what the lines say of the instance:
//! whether an answer is right is shown elsewhere.
#![tactic(auto)]

mod faults;
mod field_readers;
mod fields;
mod fields_of;
mod head_reader;
mod heads;
mod items;
mod keywords;
pub mod laws;
mod line_readers;
mod lines;
mod list_readers;
mod printing;
mod reading;
mod reasons;
mod values;
mod vectors;
pub mod witnesses;

pub use faults::LineFault;
pub use field_readers::number_within;
pub use heads::Head;
pub use keywords::{Keyword, keyword_of};
pub use lines::{Line, Seat};
pub use printing::{put_line, put_text};
pub use reading::read_line;
pub use values::{limit_named, measure_named, side_named};
pub use vectors::vector;

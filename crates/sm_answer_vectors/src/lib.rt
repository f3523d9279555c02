//! Answers that list vectors of numbers: a head, vectors that come one after another, and the last line, which says whether more
//! follow.
//!
//! What they come from is a [`Vectors`], which steps from one to the next. [`list_vectors`] lends what it finds as lines, one
//! vector for each step. Nothing is held but the text of one vector, so that a list may be longer than memory holds.
#![tactic(auto)]

mod answer;
mod cursors;
mod vector_lines;
mod vector_text;
mod vectors;

pub use answer::{ListLines, list_vectors};
pub use cursors::{copy_of_cursor, small_copy};
pub use vectors::Vectors;

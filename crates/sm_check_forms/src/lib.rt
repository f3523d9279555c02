//! The form of an answer: which lines stand in it, in which order, and how its text is read.
//!
//! An answer has the layout of its head: groups of lines, each with its keyword. [`read_answer`] reads the lines of a text as long
//! as they fit, and names the first that doesn't. Nothing here says whether an answer is right.
#![tactic(auto)]

mod answer_fault;
mod answers;
mod forms;
pub mod laws;
mod layouts;
mod numbering;
mod reading;

pub use answer_fault::AnswerFault;
pub use layouts::{BlockTurn, LayoutPart, Opening};
pub use numbering::{rotation_of, seat_number, seat_numbers};
pub use reading::read_answer;

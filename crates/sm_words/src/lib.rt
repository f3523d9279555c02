//! The words of the command line: what they ask for, or which of them is faulty.
//!
//! [`read_words`] reads them. The first word is a command, and each later one `name=value`, an operand of the command.
//! Commands, operands and values are rows of tables: `commands`, `operands` and the readers of values in `operands.rt`,
//! with their definitions in `specs/Tables.antt`.
#![tactic(auto)]

mod jobs;
mod operands;
mod reading;
mod taking;

pub use jobs::{Form, Job, WordsFault};
pub use reading::{USUAL_LIMIT, read_words};
pub use taking::{judges_answer, takes_rooms_alone, takes_text};

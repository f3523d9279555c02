//! The top call of the stable matching workbench: [`run`] does all that the program does.
//!
//! The words are read by [`read_words`]. For each job a crate `sm_answer_..` makes its answer, a value that gives lines
//! ([`sm_answer::Lines`]), and this crate writes it or says why there is none; for `check` it is the verdict of `sm_cert`, and
//! for `export` a text of `sm_json`. How a command is added is told in the document `ADDING.md` of this repository.
#![tactic(auto)]

mod behind;
mod checking;
mod choosing;
mod counted;
mod exporting;
mod giving;
mod making;
mod performing;
mod refusing;
mod running;

pub use running::run;
pub use sm_check_clauses::Reason;
pub use sm_serve::Status;
pub use sm_words::{Form, Job, WordsFault, read_words};

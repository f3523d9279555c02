//! The answer of `list`: the rank vectors of the allowed stable matchings.
//!
//! [`start_list`] makes a lister of them, and [`list_lines`] lends what it finds as lines ([`sm_answer_vectors::ListLines`]), one
//! vector for each step.
#![tactic(auto)]

mod answer;
mod listed;
mod start;

pub use answer::list_lines;
pub use listed::Listed;
pub use start::start_list;

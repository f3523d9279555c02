//! Whether the text of a finished answer is right, and what a yes means.
//!
//! [`check`] reads the text in the form of an answer and tries the clauses of its head line by line. It stands on nothing that
//! looks for an answer. [`laws`] says what follows of an answer that gets a yes.
#![tactic(auto)]

mod checking;
mod faults;
pub mod laws;
pub mod witnesses;

pub use checking::check;
pub use faults::CertFault;
pub use sm_check_clauses::{Reason, Verdict};

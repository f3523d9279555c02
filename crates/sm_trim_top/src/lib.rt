//! The top call of `matchtrim`: [`run`] reads an instance with two sides, and writes it with lists that are cut at their ends,
//! where nothing depends on them.
#![tactic(auto)]

mod running;
mod trimming;

pub use running::run;
pub use sm_serve::Status;

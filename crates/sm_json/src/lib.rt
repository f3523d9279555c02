//! Instances in JSON.
//!
//! [`to_text`] gives the instance text that a JSON value stands for, and [`to_json`] the JSON text of an instance. [`wrap`] puts
//! a line of an answer behind what a writer holds, as an item of an array of strings, and [`write_wrapped`] writes such an array
//! to a sink.
#![tactic(auto)]

mod adding;
mod agents;
mod faults;
pub mod laws;
mod looking;
mod making;
mod reading;
mod weights;
pub mod witnesses;
mod wrapping;
mod writing;

pub use faults::JsonFault;
pub use making::to_json;
pub use reading::to_text;
pub use wrapping::wrap;
pub use writing::write_wrapped;

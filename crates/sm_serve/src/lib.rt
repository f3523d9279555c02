//! What the programs of the workbench share: reading all of a source, statuses, why there is no answer and the lines that say so,
//! and writing lines to a sink.
//!
//! A call that works towards an answer gives `Ok` with a status once lines are written, or `Err` with a [`Stop`] where nothing
//! is; [`say_stop`] then says why.
#![tactic(auto)]

mod behind;
mod input;
mod saying;
mod seats;
mod status;
mod stop;
mod writing;

pub use behind::text_behind;
pub use input::read_all;
pub use saying::say_stop;
pub use seats::counts_of;
pub use status::Status;
pub use stop::Stop;
pub use writing::{put_line, write};

//! The answer of `weight`.
//!
//! [`find_lightest`] finds the lightest stable matching that the conditions of an instance allow, with a flow that shows that
//! none is lighter, and with a second flow where there are second weights; [`lightest_lines`] lends them as lines.
#![tactic(auto)]

mod answer;
mod figures;
mod finding;
mod gained_lines;
mod lightest_parts;
pub mod witnesses;

pub use answer::{LightestLines, lightest_lines};
pub use figures::{Figures, FlowLines};
pub use finding::find_lightest;
pub use gained_lines::{GainedLines, RotationPart};
pub use lightest_parts::Lightest;

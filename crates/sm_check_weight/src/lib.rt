//! Which clause an answer of `weight` breaks: the judge of gains, flows, cuts and lightest matchings.
//!
//! The lines are judged one after another, as `sm_check_answers` judges those of other answers. Nothing here looks for a flow or a
//! matching: what an answer claims of the net of its rotations is decided over values by `sm_check_net`.
#![tactic(auto)]

mod claims;
mod flow_lines;
mod gains;
mod judging;
mod said;
mod taken;

pub use judging::{Weighed, weight_verdict};

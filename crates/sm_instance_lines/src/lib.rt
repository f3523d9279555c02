//! Instances as texts: the lines that are printed for one.
//!
//! A printed instance has the header, a line for each proposer or person, one for each reviewer, the weights, the forced and
//! the forbidden pairs, each part in the order of the instance, all proposers in their order where it isn't that of their
//! lines, and `end`. It is of format 2 where it has that order or a second weight, and else of format 1.
//! [`put_instance_line`] puts any one of them behind what a writer holds, in time in proportion to its length, and
//! [`instance_lines`] gives all of them, one after another.
#![tactic(auto)]

mod finding;
mod formats;
mod giving;
mod naming;
mod printing;
pub mod witnesses;

pub use formats::has_own_order;
pub use giving::{InstanceLines, instance_lines};
pub use printing::{put_header, put_instance_line};

//! The answer of `median`: the stable matching in the middle of all that an instance allows.
//!
//! [`find_median`] lists these matchings, counts for each proposer how many of them give it each rank, and reads from the counts
//! which partner stands in the middle. [`median_lines`] lends the median as lines.
#![tactic(auto)]

mod answer;
mod counting;
mod faults;
mod median;
mod walking;

pub use answer::{MedianLines, find_median, median_lines};
pub use faults::MedianFault;
pub use median::Median;
pub use walking::MOST_LISTED;

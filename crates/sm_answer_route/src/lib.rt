//! The answer of `route`: the fewest steps from one stable matching to another.
//!
//! [`find_route`] finds the rotations of an instance and the steps between two matchings that were given, and [`route_lines`]
//! lends them as lines.
#![tactic(auto)]

mod answer;
mod found;
mod seated;
mod step_lines;

pub use answer::{RouteLines, find_route, route_lines};
pub use found::FoundRoute;
pub use step_lines::StepLines;

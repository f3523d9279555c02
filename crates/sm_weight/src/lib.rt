//! The lightest allowed stable matching, with the flow that shows that none is lighter.
//!
//! [`lightest`] makes a net of the gains of the rotations, of what they need and of the conditions. The cuts of the net are the
//! closed sets whose matchings are allowed, and a least cut is one of a lightest matching (Irving, Leather and Gusfield 1987;
//! Gusfield and Irving 1989, chapter 3). The set that a maximum flow reaches lies inside all least cuts, so its matching is the
//! best for all proposers among the lightest ones (Ford and Fulkerson 1956; Picard 1976).
//!
//! [`least_cuts`] weighs the least cuts of a net once more, by second gains: they are the cuts of the second net of a maximum flow,
//! whose edges without a bound are the residual steps of the flow, so a flow in that net finds the least of them (Picard and
//! Queyranne 1980).
#![tactic(auto)]

mod edges;
mod flows;
mod gains;
mod net;
mod second;
mod spans;
mod weighing;

pub use edges::Edge;
pub use second::{TwoCuts, least_cuts};
pub use sm_theory::FlowLine;
pub use weighing::{LightestFound, lightest, lightest_by_one_sum};

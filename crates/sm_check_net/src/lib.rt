//! What an answer claims of the net of its rotations, decided by the plain definitions.
//!
//! Nothing here looks for an answer. Each function is given one, as values, and tells whether it is what it should be
//! (McConnell, Mehlhorn, Näher and Schweitzer 2011).
//!
//! [`moves_of`] gives how a rotation moves its proposers. From that come [`gain`], [`bonds`], the edges that conditions ask for,
//! and [`set_places`], the matching of a set. A [`CheckedNet`] of gains, needs and bonds tells of the lines of a flow whether they
//! are on its edges and within their rooms, and what the cut of a set is. [`is_conserved`] and [`amount_from_source`] tell of all
//! lines together, [`is_closed`] whether a set is closed, and [`is_residual_reach`] whether it is what the flow reaches.
//! [`second_net`] is the net whose edges without a bound are the residual steps of a flow, so that all of these tell of a flow
//! there too.
#![tactic(auto)]

mod closed;
mod flow_sums;
pub mod laws;
mod moves;
mod net;
mod pairs;
mod reaching;
mod repeats;
mod residual;
mod second;
mod set_matching;
mod spans;
pub mod witnesses;

pub use closed::is_closed;
pub use flow_sums::{amount_from_source, is_conserved};
pub use moves::{Move, gain, moves_of};
pub use net::CheckedNet;
pub use repeats::repeated_lines;
pub use residual::is_residual_reach;
pub use second::second_net;
pub use set_matching::set_places;
pub use spans::{bonds, moves_at};

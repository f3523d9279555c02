//! The lattice of the stable matchings of a market: meet and join, the levels that a proposer has in them, the least regret, the
//! median, and shortest routes.
//!
//! [`meet`] and [`join`] give each proposer the better and the worse of its partners in two stable pairings, and refuse a pairing
//! that isn't stable. [`stable_levels`] tells at which levels each proposer stands in stable pairings. [`min_regret`] looks for a
//! stable pairing of least regret among those that conditions allow. [`median_of`] gives each proposer the partner in the middle of
//! those that it has in some stable pairings, and [`route`] the fewest steps from one stable pairing to another.
//! [`number_at_place`] finds the number in the middle among numbers that are counted by [`count_number`].
#![tactic(auto)]

mod counts;
mod faults;
mod lattice;
mod levels;
mod median;
mod members;
mod regret;
mod routes;
mod stepping;

pub use counts::{count_number, number_at_place};
pub use faults::LatticeFault;
pub use lattice::{join, meet};
pub use levels::stable_levels;
pub use median::median_of;
pub use members::count_members;
pub use regret::min_regret;
pub use routes::route;
pub use sm_theory::Step;

//! What is known of a matching, a chain or a partition that others made, decided by the plain definitions.
//!
//! Nothing here looks for an answer. Each function is given one, as values, and tells whether it is what it should be
//! (McConnell, Mehlhorn, Näher and Schweitzer 2011).
//!
//! [`Search`] tells of a stable pairing which rotations are exposed at it, and [`is_proposers_best`] and [`is_reviewers_best`]
//! whether it is the best of a side. [`is_reduced_proposer_list`] and [`is_reduced_reviewer_list`] tell of a list whether it is
//! one of the reduced lists, and [`Notes`] what each rotation of a chain needs. [`is_room_stable`] and [`is_stable_partition`]
//! tell of a matching and of a partition of roommates whether they are stable.
#![tactic(auto)]

mod best;
mod couples;
mod exposure;
mod needs;
mod partitions;
mod reduced;
mod room_lists;
mod trail;
pub mod witnesses;

pub use best::{is_proposers_best, is_reviewers_best};
pub use couples::is_room_stable;
pub use exposure::Search;
pub use needs::{Notes, place_behind};
pub use partitions::is_stable_partition;
pub use reduced::{is_reduced_proposer_list, is_reduced_reviewer_list};
pub use room_lists::RoomLists;
pub use trail::Trail;

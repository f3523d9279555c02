//! The median of the allowed stable matchings.

use sm_instance::Assignment;

/// The median of the stable matchings that an instance allows.
#[derive(Drop)]
pub struct Median {
    /// How many stable matchings are allowed.
    pub listed: u32,
    /// The one that gives each proposer the partner in the middle.
    pub matching: Assignment,
}

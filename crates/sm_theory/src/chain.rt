//! Chains of rotations, as values.

use crate::rotations::Rotation;
use sm_market::Pairing;

/// The rotations of a chain of stable matchings, from the proposers' best on: each is exposed once those before it are
/// eliminated (Gusfield and Irving 1989, section 2.5).
#[derive(Debug, Drop)]
pub struct Chain {
    /// The proposers' best stable matching.
    pub first: Pairing,
    /// The rotations in the order in which they are eliminated, numbered from 0.
    pub rotations: Vec<Rotation>,
}

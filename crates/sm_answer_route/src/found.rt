//! The rotations of an instance, and a route between two of its stable matchings.

use sm_poset::Poset;
use sm_theory::Step;

/// The rotations of an instance, and a shortest route between two of its stable matchings.
#[derive(Drop)]
pub struct FoundRoute {
    /// The rotations, with what each of them needs.
    pub poset: Poset,
    /// The steps of the route. Rotations are numbered from 0.
    pub steps: Vec<Step>,
}

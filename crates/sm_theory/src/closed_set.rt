//! Closed sets of rotations, as values.

/// A set of the rotations of a chain that has, with each member, all predecessors of it.
#[derive(Debug, Drop)]
pub struct ClosedSet {
    /// For each rotation whether it is a member.
    pub members: Vec<bool>,
}

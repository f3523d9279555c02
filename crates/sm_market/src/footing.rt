//! How two agents stand who are or become partners in turn.

/// How the proposer of a pair of a cycle stands on its list, and the reviewer of the next pair on its own: the places of their
/// partners, numbered from 0, or the lengths of the lists where they are unmatched. A turn along the cycle makes the two
/// partners.
#[derive(Clone, Copy, Debug)]
pub struct Footing {
    /// The place of the proposer's partner on the proposer's list.
    pub proposer: u32,
    /// The place of the reviewer's partner on the reviewer's list.
    pub reviewer: u32,
}

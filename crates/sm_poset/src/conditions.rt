//! Conditions on the levels of matchings.

/// Pairs of a proposer and a level. Proposers are numbered from 0, and levels are those that a caller gives per place.
///
/// A matching meets the conditions that holds each forced pair, by a proposer that is matched at a place of this level, and
/// none of the forbidden ones. A level that no place of the proposer has meets no matching.
#[derive(Debug, Drop)]
pub struct Conditions {
    /// The pairs that a matching has to hold.
    pub forced: Vec<(u32, u32)>,
    /// The pairs that it may not hold.
    pub forbidden: Vec<(u32, u32)>,
}

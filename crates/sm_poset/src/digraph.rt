//! What a poset tells of the rotations of its chain.

/// The predecessors of each rotation, and whom the rotations move where (Gusfield and Irving 1989, section 3.2).
#[derive(Debug, Drop)]
pub struct Digraph {
    /// For each rotation its predecessors, rising.
    pub needs: Vec<Vec<u32>>,
    /// For each proposer the rotations that move it, rising, with the places to which they move it.
    pub moves: Vec<Vec<(u32, u32)>>,
}

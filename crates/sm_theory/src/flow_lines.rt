//! Flows by their lines.

/// A positive amount on an edge of a net.
#[derive(Debug, Clone, Copy, PartialEq, Eq)]
pub struct FlowLine {
    /// The node from which the edge leads: 0 is the source, and rotations are numbered from 1.
    pub from: u32,
    /// The node to which it leads: the number of the rotations plus one is the sink.
    pub to: u32,
    /// The amount, in the unit of the weights.
    pub amount: u64,
}

/// One of two flows: the second lies in the net of the residual steps of the first.
#[derive(Debug, Clone, Copy, PartialEq, Eq)]
pub enum FlowLevel {
    /// The first weights' flow.
    First,
    /// The second weights' flow.
    Second,
}

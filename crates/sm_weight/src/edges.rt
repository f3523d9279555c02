//! Lists of the edges of a net: in order, each once.

ghost use Rattle.std.specs.Prelude.{◌≡◌, ◌↔◌, ◌<◌, ◌≤◌, ◌^◌, ◌++◌, length, IfOk, IsTrue};
ghost use Rattle.sm_weight.specs.Edges.{loose, room_total, HaveSameEnds, AreEdgesInOrder, AreMerged, AreOnNodes, room_in, graph_of};

use sm_flow::{Net, Room};
use std::alloc::{AllocError, Global};

/// An edge of a net: the nodes from which and to which it leads, and its room, `None` where it has no bound. An edge without
/// a bound comes before the others with its ends.
#[derive(Debug, Clone, Copy, PartialEq, Eq, PartialOrd, Ord)]
pub struct Edge {
    /// The node from which the edge leads.
    pub from: u32,
    /// The node to which it leads.
    pub to: u32,
    /// How much may flow on it, `None` where it has no bound.
    pub room: Option<u64>,
}

/// Adds an edge without a bound, unless it would be a loop.
pub(crate) fn add_unbounded(edges: &mut Vec<Edge>, from: u32, to: u32) -> Result<(), AllocError>
    ensures { IfOk result (λ _. edges.new.items ≡ edges.old.items ++ loose from to) }
{
    if from != to {
        let room = None;
        edges.push(Edge { from, to, room })?;
    }
    Ok(())
}

/// The edges in the order of their ends, where those with the same ends are one: without a bound, where one of them is.
///
/// Takes time in proportion to the edges and the logarithm of their number, and memory for one more list of them.
pub(crate) fn merged(alloc: Global, mut edges: Vec<Edge>) -> Result<Vec<Edge>, AllocError>
    ensures { IfOk result (λ once. AreMerged edges.items once.items) }
{
    edges.sort_unstable();
    each_once(alloc, &edges)
}

/// Of edges in order the first one with each two ends.
fn each_once(alloc: Global, edges: &[Edge]) -> Result<Vec<Edge>, AllocError>
    requires { AreEdgesInOrder edges.now }
    ensures { IfOk result (λ once. AreMerged edges.now once.items) }
{
    let mut once = Vec::with_capacity(alloc, edges.len())?;
    for i in 0..edges.len() {
        if i == 0 || !have_same_ends(edges[i - 1], edges[i]) {
            once.push(edges[i])?;
        }
    }
    Ok(once)
}

/// Whether two edges lead from the same node to the same node.
fn have_same_ends(edge: Edge, other: Edge) -> bool
    ensures { IsTrue result ↔ HaveSameEnds edge other }
{
    edge.from == other.from && edge.to == other.to
}

/// A net of these edges, with their numbers.
pub(crate) fn net(alloc: Global, nodes: u32, edges: &[Edge]) -> Result<Net, AllocError>
    requires nodes { AreOnNodes nodes edges.now }
    requires few { length edges.now ≤ 2 ^ 30 }
    requires small { room_total edges.now ≤ 2 ^ 62 }
    ensures { IfOk result (λ net. net ≡ graph_of nodes edges.now) }
{
    let mut net = Net::new(alloc, nodes)?;
    for edge in edges {
        net.add_edge(edge.from, edge.to, room_in(edge.room))?;
    }
    Ok(net)
}

/// A room as nets have it.
fn room_in(room: Option<u64>) -> Room
    ensures { result ≡ room_in room }
{
    match room {
        Some(bound) => Room::Bounded(bound),
        None => Room::Unbounded,
    }
}

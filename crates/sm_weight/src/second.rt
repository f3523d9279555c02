//! The second net of a flow: its residual steps, and the edges of second gains.

ghost use Rattle.std.specs.Prelude.{◌≡◌, ℕ, ◌+◌, ◌*◌, ◌<◌, ◌≤◌, ◌^◌, ◌++◌, ◌↔◌, [], length, pos, sum_by, unsigned_abs, IfOk, IsTrue, MatchOption};
ghost use Rattle.sm_flow.specs.Flowing.{amount};
ghost use Rattle.sm_theory.specs.Net.{Net, sink_of, IsUnbounded, IsReachable};
ghost use Rattle.sm_theory.specs.FlowLines.{amount_on};
ghost use Rattle.sm_theory.specs.SecondNets.{second_net};
ghost use Rattle.sm_weight.specs.Net.{joined};
ghost use Rattle.sm_weight.specs.Edges.{room_total, AreOnNodes, AreEdges};
ghost use Rattle.sm_weight.specs.Lines.{lines_to};
ghost use Rattle.sm_weight.specs.Second.{gain_at, has_left, inner, where_holds, steps_of, step_edges, AreCutsFound};

use crate::edges::{Edge, merged};
use crate::flows::{LeastCut, least_cut};
use crate::net::add_gains;
use sm_flow::Flow;
use sm_theory::FlowLine;
use std::alloc::{AllocError, Global};

/// A maximum flow and one in its second net, with what the second one reaches.
#[derive(Debug, Drop)]
pub struct TwoCuts {
    /// For each inner node whether residual steps of the second flow lead there from the source.
    pub members: Vec<bool>,
    /// The first flow, ordered by the nodes from which the edges lead and then by those to which they lead.
    pub lines: Vec<FlowLine>,
    /// The value of the first flow.
    pub value: u64,
    /// The flow in the second net, in the same order.
    pub second_lines: Vec<FlowLine>,
    /// The value of the second flow.
    pub second_value: u64,
}

/// A maximum flow in the net with so many inner nodes and these edges, one in its second net, and what that one reaches. `None`
/// where a path of edges without a bound leads from the source to the sink.
///
/// Node 0 is the source, the inner nodes follow, and the last node is the sink. The edges are those of a net in the order of their
/// ends, each once, where they are to mean something. The second net has the residual steps of the first flow that neither begin at
/// the sink nor end at the source for its edges without a bound, and the bounded ones go by the gains: from the source to the inner
/// nodes with negative ones, and from those with positive ones to the sink. So its cuts are the least cuts of the first net, and
/// what the second flow reaches is the smallest of those whose cut is least in both nets (Picard and Queyranne 1980). Where all
/// gains are 0 no second flow is looked for: nothing flows, and the members are what the first flow reaches.
///
/// Takes what two maximum flows take, of which the second has at most twice the edges and one more for each gain, and for making
/// its net time in proportion to these and the logarithm of their number, and memory in proportion to them.
///
/// # Errors
///
/// `AllocError` where memory ran out, and only then.
pub fn least_cuts(
    alloc: Global,
    size: u32,
    edges: &[Edge],
    gains: &[i64],
) -> Result<Option<TwoCuts>, AllocError>
    requires inner { size < 2 ^ 24 }
    requires nodes { AreOnNodes (size + 2) edges.now }
    requires few { length edges.now ≤ 2 ^ 28 }
    requires small { room_total edges.now ≤ 2 ^ 62 }
    requires each { length gains.now ≡ size }
    requires light { sum_by unsigned_abs gains.now ≤ 2 ^ 55 }
    ensures { IfOk result (λ found. (net : Net) → net.size ≡ size → AreEdges net edges.now
        → MatchOption found
        (IsReachable (IsUnbounded net) 0 (sink_of net))
        (λ f. AreCutsFound net gains.now f)) }
{
    let Some(first) = least_cut(alloc, size, edges)? else {
        return Ok(None);
    };
    if are_zero(gains) {
        return Ok(Some(without_second(alloc, first)));
    }
    let steps = second_edges(alloc, size, edges, &first.flow, gains)?;
    match least_cut(alloc, size, &steps)? {
        None => Ok(None),
        Some(second) => Ok(Some(TwoCuts {
            members: second.members,
            lines: first.lines,
            value: first.value,
            second_lines: second.lines,
            second_value: second.value,
        })),
    }
}

/// Nothing flows in the second net.
fn without_second(alloc: Global, first: LeastCut) -> TwoCuts
    ensures members { result.members ≡ first.members }
    ensures lines { result.lines ≡ first.lines }
    ensures value { result.value ≡ first.value }
    ensures none { result.second_lines.items ≡ [] }
    ensures zero { result.second_value ≡ 0 }
{
    TwoCuts {
        members: first.members,
        lines: first.lines,
        value: first.value,
        second_lines: Vec::new(alloc),
        second_value: 0,
    }
}

/// Whether all of these gains are 0.
fn are_zero(gains: &[i64]) -> bool
    ensures { IsTrue result ↔ ((k : ℕ) → gain_at gains.now k ≡ pos 0) }
{
    for k in 0..gains.len() {
        if gains[k] != 0 {
            return false;
        }
    }
    true
}

/// The edges of the second net of a flow on these edges, with the edges of these gains.
///
/// Takes time in proportion to the edges and the logarithm of their number.
fn second_edges(
    alloc: Global,
    size: u32,
    edges: &[Edge],
    flow: &Flow,
    gains: &[i64],
) -> Result<Vec<Edge>, AllocError>
    requires inner { size < 2 ^ 24 }
    requires nodes { AreOnNodes (size + 2) edges.now }
    requires few { length edges.now ≤ 2 ^ 28 }
    requires amounts { length flow.now.amounts ≡ length edges.now }
    requires each { length gains.now ≡ size }
    requires light { sum_by unsigned_abs gains.now ≤ 2 ^ 55 }
    ensures edges { IfOk result (λ steps. (net : Net) → net.size ≡ size → AreEdges net edges.now
        → AreEdges (second_net net
        (amount_on (lines_to edges.now flow.now.amounts (length edges.now))) (gain_at gains.now))
        steps.items) }
    ensures nodes { IfOk result (λ steps. AreOnNodes (size + 2) steps.items) }
    ensures few { IfOk result (λ steps. length steps.items ≤ 2 ^ 30) }
    ensures small { IfOk result (λ steps. room_total steps.items ≤ 2 ^ 62) }
{
    let sink = size + 1;
    let mut steps = Vec::with_capacity(alloc, 2 * edges.len() + gains.len())?;
    add_steps(sink, edges, flow, &mut steps)?;
    add_gains(gains, sink, &mut steps)?;
    merged(alloc, steps)
}

/// Adds the residual steps of a flow on these edges.
fn add_steps(
    sink: u32,
    edges: &[Edge],
    flow: &Flow,
    steps: &mut Vec<Edge>,
) -> Result<(), AllocError>
    requires few { length edges.now ≤ 2 ^ 28 }
    requires amounts { length flow.now.amounts ≡ length edges.now }
    ensures { IfOk result (λ _. steps.new.items ≡ steps.old.items
        ++ joined (step_edges sink edges.now flow.now.amounts) (length edges.now)) }
{
    for e in 0..edges.len() {
        add_steps_of(sink, edges[e], flow.on(e as u32), steps)?;
    }
    Ok(())
}

/// Adds the residual steps on an edge that carries this amount.
fn add_steps_of(sink: u32, edge: Edge, amount: u64, steps: &mut Vec<Edge>) -> Result<(), AllocError>
    ensures { IfOk result (λ _. steps.new.items ≡ steps.old.items ++ steps_of sink edge amount) }
{
    add_inner_if(has_left(edge.room, amount), sink, edge.from, edge.to, steps)?;
    add_inner_if(amount > 0, sink, edge.to, edge.from, steps)
}

/// Whether an edge has room left beside an amount.
fn has_left(room: Option<u64>, amount: u64) -> bool
    ensures { result ≡ has_left room amount }
{
    match room {
        Some(bound) => amount < bound,
        None => true,
    }
}

/// Adds an edge without a bound where a test holds, unless it would begin at the sink or end at the source.
fn add_inner_if(
    holds: bool,
    sink: u32,
    from: u32,
    to: u32,
    steps: &mut Vec<Edge>,
) -> Result<(), AllocError>
    ensures { IfOk result (λ _. steps.new.items ≡ steps.old.items
        ++ where_holds holds (inner sink from to)) }
{
    if holds && from != sink && to != 0 {
        let room = None;
        steps.push(Edge { from, to, room })?;
    }
    Ok(())
}

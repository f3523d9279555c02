//! The flows that an answer writes, on the nodes of their nets.

ghost use Rattle.std.specs.Prelude.{◌≡◌, ◌+◌, ◌<◌, ◌≤◌, ◌^◌, length, map, take, IfOk};
ghost use Rattle.std.specs.Option.{option_map};
ghost use Rattle.sm_theory.specs.FlowLines.{line_at};
ghost use Rattle.sm_check_net.specs.CheckedNets.{net_of_parts};
ghost use Rattle.sm_check_net.specs.Repeats.{AreRepeats};
ghost use Rattle.sm_report.specs.Lines.{line_of};
ghost use Rattle.sm_check_clauses.specs.Flows.{node_of, on_nodes};
ghost use Rattle.sm_check_clauses.specs.Walking.{FindsOrKeeps};
ghost use Rattle.sm_check_weight.specs.FlowClauses.{NextHolds, flow_line, amount_in, flows_of};

use sm_check_clauses::Reason;
use sm_check_net::{CheckedNet, repeated_lines};
use sm_report::Line;
use sm_theory::{FlowLevel, FlowLine};
use std::alloc::{AllocError, Global};

/// All lines of a flow of an answer on the nodes of its net, whether each has the ends of an earlier one, and how many of them
/// were judged.
#[derive(Drop)]
pub(crate) struct Flow {
    pub(crate) lines: Vec<FlowLine>,
    pub(crate) repeats: Vec<bool>,
    pub(crate) count: usize,
}

impl Flow {
    /// The lines of a flow among those of an answer with so many rotations.
    pub(crate) fn of(
        alloc: Global,
        size: u32,
        level: FlowLevel,
        lines: &[Line],
    ) -> Result<Flow, AllocError>
        requires few { size + 2 < 2 ^ 32 }
        ensures lines { IfOk result (λ flow. flow.lines.items
            ≡ map (on_nodes size) (flows_of level (map line_of lines.now))) }
        ensures repeats { IfOk result (λ flow. AreRepeats flow.lines.items flow.repeats.items) }
        ensures none { IfOk result (λ flow. flow.count ≡ 0) }
    {
        let lines = flow_lines(alloc, size, level, lines)?;
        let repeats = repeated_lines(alloc, &lines)?;
        Ok(Flow {
            lines,
            repeats,
            count: 0,
        })
    }

    /// Those that were judged.
    pub(crate) fn said(&self) -> &[FlowLine]
        requires { self.now.count ≤ length self.now.lines.items }
        ensures { result.now ≡ take self.now.count self.now.lines.items }
    {
        &self.lines[..self.count]
    }

    /// The first clause that fails at the next of them. It is judged then.
    pub(crate) fn next_fault(&mut self, net: &CheckedNet) -> Option<Reason>
        requires next { self.old.count < length self.old.lines.items }
        requires repeats { AreRepeats self.old.lines.items self.old.repeats.items }
        ensures lines { self.new.lines ≡ self.old.lines }
        ensures repeats { self.new.repeats ≡ self.old.repeats }
        ensures found { FindsOrKeeps (NextHolds (net_of_parts net.now) (take self.old.count
            self.old.lines.items)
            (line_at self.old.lines.items self.old.count)) (self.new.count ≡ self.old.count
            + 1) result }
    {
        let a = self.count;
        if !net.is_new_edge(&self.lines, &self.repeats, a) {
            return Some(Reason::NoEdge);
        }
        if !net.is_within_room(self.lines[a]) {
            return Some(Reason::OverRoom);
        }
        self.count = a + 1;
        None
    }
}

/// The lines of a flow on the nodes of a net of so many rotations.
fn flow_lines(
    alloc: Global,
    size: u32,
    level: FlowLevel,
    lines: &[Line],
) -> Result<Vec<FlowLine>, AllocError>
    requires { size + 2 < 2 ^ 32 }
    ensures { IfOk result (λ flow. flow.items
        ≡ map (on_nodes size) (flows_of level (map line_of lines.now))) }
{
    let mut flow = Vec::new(alloc);
    for line in lines {
        if let Some((from, to, amount)) = amount_in(level, line) {
            flow.push(on_nodes(size, from, to, amount))?;
        }
    }
    Ok(flow)
}

/// The ends and the amount of a line of a flow.
fn amount_in(level: FlowLevel, line: &Line) -> Option<(u32, u32, u64)>
    ensures { option_map (λ x. flow_line x.0 x.1 x.2) result
        ≡ amount_in level (line_of line.now) }
{
    match (level, line) {
        (FlowLevel::First, Line::Flow(from, to, amount)) => Some((*from, *to, *amount)),
        (FlowLevel::Second, Line::SecondFlow(from, to, amount)) => Some((*from, *to, *amount)),
        _ => None,
    }
}

/// A line of the flow on the nodes.
fn on_nodes(size: u32, from: u32, to: u32, amount: u64) -> FlowLine
    requires { size + 2 < 2 ^ 32 }
    ensures { result ≡ on_nodes size (flow_line from to amount) }
{
    FlowLine {
        from: node_of(size, from),
        to: node_of(size, to),
        amount,
    }
}

/// The node of an end: the number of a rotation, or the sink; no node where there is no such rotation.
fn node_of(size: u32, end: u32) -> u32
    requires { size + 2 < 2 ^ 32 }
    ensures { result ≡ node_of size end }
{
    if end == u32::MAX {
        size + 1
    } else if end <= size {
        end
    } else {
        size + 2
    }
}

//! Flows, and what is said of the set that is taken, as lines.

ghost use Rattle.std.specs.Prelude.{◌≡◌, ◌<◌, ◌^◌, length, IfOk};
ghost use Rattle.sm_report.specs.Lines.{line_of};
ghost use Rattle.sm_answer_weight.specs.WeightAnswer.{shown_node, member_numbers};
ghost use Rattle.sm_answer_weight.specs.Given.{edge_line, flow_in};

use crate::lightest_parts::Lightest;
use sm_answer::{Answer, Numbered};
use sm_report::Line;
use sm_theory::{FlowLevel, FlowLine};
use std::alloc::{AllocError, Global};

/// The lines of a flow from the one with the number `next` on, counted from 0.
#[derive(Drop)]
pub struct FlowLines<'a> {
    pub found: &'a Lightest,
    pub level: FlowLevel,
    /// The node of the sink.
    pub sink: u32,
    pub next: usize,
}

impl Answer for FlowLines<'_> {
    ghost use Rattle.std.specs.Prelude.{◌≡◌, ◌-◌, drop, length, map};
    ghost use Rattle.sm_answer_weight.specs.Given.{edge_line, flow_in};

    ghost gives = { λ s rest. rest ≡ map (edge_line s.level s.sink) (drop s.next (flow_in s.level s.found.now)) };

    ghost most = { λ s. length (flow_in s.level s.found.now) - s.next };

    fn next(&mut self, _alloc: Global) -> Result<Option<Line>, AllocError> {
        let flow = flow_in(self.found, self.level);
        if self.next >= flow.len() {
            return Ok(None);
        }
        let line = edge_line(self.level, self.sink, flow[self.next]);
        self.next += 1;
        Ok(Some(line))
    }
}

/// The amounts of the first flow or of the second.
fn flow_in(found: &Lightest, level: FlowLevel) -> &[FlowLine]
    ensures { result.now ≡ flow_in level found.now }
{
    match level {
        FlowLevel::First => &found.in_market.flow,
        FlowLevel::Second => &found.in_market.flow2,
    }
}

/// The line of an amount on an edge, with the nodes as lines name them.
fn edge_line(level: FlowLevel, sink: u32, edge: FlowLine) -> Line
    ensures { line_of result ≡ edge_line level sink edge }
{
    let from = shown_node(sink, edge.from);
    let to = shown_node(sink, edge.to);
    match level {
        FlowLevel::First => Line::Flow(from, to, edge.amount),
        FlowLevel::Second => Line::SecondFlow(from, to, edge.amount),
    }
}

/// The number by which a line names a node.
fn shown_node(sink: u32, node: u32) -> u32
    ensures { result ≡ shown_node sink node }
{
    if node == sink { u32::MAX } else { node }
}

/// The set that is taken, the value of the flow, the cut of the set, and the weight of its matching; in two levels then the value
/// of the second flow, the second cut and the second sum.
#[derive(Drop)]
pub struct Figures<'a> {
    pub found: &'a Lightest,
    ghost few: { length found.now.in_market.set.members.items < 2 ^ 24 },
}

impl Numbered for Figures<'_> {
    ghost use Rattle.std.specs.Prelude.{Some};
    ghost use Rattle.sm_answer_weight.specs.Given.{figure_line, figure_count};

    ghost line = { λ figures i. Some (figure_line figures.found.now i) };

    ghost count = { λ figures. figure_count figures.found.now };

    fn count(&self) -> u32 {
        if self.found.two_levels { 7 } else { 4 }
    }

    fn line(&self, alloc: Global, i: u32) -> Result<Option<Line>, AllocError> {
        if i == 0 {
            let taken = member_numbers(alloc, &self.found.in_market.set.members)?;
            Ok(Some(Line::Taken(taken)))
        } else if i == 1 {
            Ok(Some(Line::Value(self.found.in_market.cut)))
        } else if i == 2 {
            Ok(Some(Line::Cut(self.found.in_market.cut)))
        } else if i == 3 {
            Ok(Some(Line::Total(self.found.total)))
        } else if i == 4 {
            Ok(Some(Line::SecondValue(self.found.in_market.cut2)))
        } else if i == 5 {
            Ok(Some(Line::SecondCut(self.found.in_market.cut2)))
        } else {
            Ok(Some(Line::SecondTotal(self.found.second_total)))
        }
    }
}

/// The numbers of the members of a set, from 1.
fn member_numbers(alloc: Global, members: &[bool]) -> Result<Vec<u32>, AllocError>
    requires { length members.now < 2 ^ 24 }
    ensures { IfOk result (λ numbers. numbers.items
        ≡ member_numbers members.now (length members.now)) }
{
    let mut numbers = Vec::new(alloc);
    for k in 0..members.len() {
        if members[k] {
            numbers.push(k as u32 + 1)?;
        }
    }
    Ok(numbers)
}

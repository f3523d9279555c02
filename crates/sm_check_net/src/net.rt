//! The net of gains, needs and conditions, as it is looked up in.

ghost use Rattle.std.specs.Prelude.{◌≡◌, ◌+◌, ◌<◌, ◌^◌, ◌↔◌, ◌==◌, ◌&&◌, ℕ, length, slice_index, take, IsTrue, if◌then◌else◌};
ghost use Rattle.std.specs.List.{list_any};
ghost use Rattle.sm_lists.specs.Rows.{row, rows_of};
ghost use Rattle.sm_theory.specs.Conditions.{rise_of, fall_of, leads_to_need};
ghost use Rattle.sm_theory.specs.Net.{sink_of, room_of, is_unbounded, HasEdge, cut_of};
ghost use Rattle.sm_theory.specs.FlowLines.{line_at, IsNewEdge, IsWithinRoom};
ghost use Rattle.sm_check_net.specs.CheckedNets.{net_of_parts, HasParts, AreRowsRising, AreNumbersBelow, IsOnEdge};
ghost use Rattle.sm_check_net.specs.Repeats.{AreRepeats};
ghost use Rattle.sm_check_net.specs.Residual.{may_lead};

use crate::pairs::Pairs;
use sm_lists::list_at;
use sm_theory::FlowLine;
use std::marker::Model;

/// The net of the gains of rotations, of what they need and of conditions. Node 0 is the source, rotations are numbered from 1,
/// and the last node is the sink (Irving, Leather and Gusfield 1987).
#[derive(Debug, Drop)]
pub struct CheckedNet {
    gains: Vec<i64>,
    needs: Vec<Vec<u32>>,
    bonds: Pairs,
}

impl Model for CheckedNet {
    ghost use Rattle.sm_lists.specs.Rows.{rows_of};
    ghost use Rattle.sm_check_net.specs.CheckedNets.{NetParts};
    ghost use Rattle.sm_check_net.specs.Kept.{IsKeptNet};

    ghost Value = { NetParts };

    ghost view = { λ n. record { gains = n.gains.items; needs = rows_of n.needs.items; bonds = n.bonds } };

    ghost invariant = { λ n. IsKeptNet (record { gains = n.gains.items; needs = rows_of n.needs.items; bonds = n.bonds }) };
}

impl CheckedNet {
    /// The net of these gains, of the numbers of the rotations that each rotation needs, rising, and of further unbounded edges,
    /// the bonds. Rotations are counted from 0 in the needs, and a bond leads from one node to another. Loops and edges from the
    /// source to the sink count for nothing.
    ///
    /// Takes time in proportion to the bonds and the logarithm of their number.
    pub fn of(gains: Vec<i64>, needs: Vec<Vec<u32>>, bonds: Vec<(u32, u32)>) -> CheckedNet
        requires few { length gains.items + 2 < 2 ^ 32 }
        requires each { length needs.items ≡ length gains.items }
        requires rising { AreRowsRising (rows_of needs.items) }
        requires numbers { AreNumbersBelow (length gains.items) (rows_of needs.items) }
        ensures { HasParts result gains.items (rows_of needs.items) bonds.items }
    {
        CheckedNet {
            gains,
            needs,
            bonds: Pairs::of(bonds),
        }
    }

    /// How many rotations there are. Takes constant time.
    pub fn size(&self) -> u32
        ensures size { result ≡ (net_of_parts self.now).size }
        ensures few { (net_of_parts self.now).size + 2 < 2 ^ 32 }
        ensures each { length self.now.needs ≡ length self.now.gains }
    {
        self.gains.len() as u32
    }

    /// How many nodes there are: the rotations, the source and the sink.
    pub(crate) fn nodes(&self) -> u32
        ensures { result ≡ (net_of_parts self.now).size + 2 }
    {
        self.size() + 2
    }

    /// The numbers of the rotations that a rotation needs, rising. Rotations are numbered from 0 here. Takes constant time.
    pub(crate) fn needs(&self, k: u32) -> &[u32]
        requires { k < (net_of_parts self.now).size }
        ensures needs { result.now ≡ row self.now.needs k }
        ensures numbers { (a : ℕ) → a < length result.now → slice_index result.now a
            < (net_of_parts self.now).size }
    {
        list_at(&self.needs, k)
    }

    /// The bonds in order.
    pub(crate) fn bonds(&self) -> &[(u32, u32)]
        ensures { result.now ≡ self.now.bonds }
    {
        self.bonds.all()
    }

    /// Whether an unbounded edge may lead from one node to another.
    pub(crate) fn may_lead(&self, from: u32, to: u32) -> bool
        ensures { result ≡ may_lead (net_of_parts self.now) from to }
    {
        to != 0 && to < self.nodes() && from != to && !self.is_through(from, to)
    }

    /// Whether an unbounded edge leads from one node to another. Takes time in proportion to the logarithm of the numbers of
    /// needs and of bonds.
    fn is_unbounded(&self, from: u32, to: u32) -> bool
        ensures { result ≡ is_unbounded (net_of_parts self.now) from to }
    {
        if to == 0 || from == to || self.is_through(from, to) {
            return false;
        }
        leads_to_need(&self.needs, from, to) || self.bonds.has(from, to)
    }

    /// Whether the first of two nodes is the source and the second one the sink.
    fn is_through(&self, from: u32, to: u32) -> bool
        ensures { result ≡ (from == 0 && to == sink_of (net_of_parts self.now)) }
    {
        from == 0 && to as usize == self.gains.len() + 1
    }

    /// The room of the bounded edge from one node to another, and 0 where there is none. Takes constant time.
    fn room(&self, from: u32, to: u32) -> u64
        ensures { result ≡ room_of (net_of_parts self.now) from to }
    {
        if to == 0 {
            0
        } else if from == 0 {
            self.supply(to as usize - 1)
        } else if to as usize == self.gains.len() + 1 {
            self.drain(from as usize - 1)
        } else {
            0
        }
    }

    /// The room from the source to a rotation, where there is such a rotation.
    pub(crate) fn supply(&self, k: usize) -> u64
        ensures { result ≡ (net_of_parts self.now).supply k }
    {
        if k < self.gains.len() {
            fall_of(self.gains[k])
        } else {
            0
        }
    }

    /// The room from a rotation to the sink.
    pub(crate) fn drain(&self, k: usize) -> u64
        ensures { result ≡ (net_of_parts self.now).drain k }
    {
        if k < self.gains.len() {
            rise_of(self.gains[k])
        } else {
            0
        }
    }

    /// Whether an edge leads from one node to another. Takes time in proportion to the logarithm of the numbers of needs and of
    /// bonds.
    fn has_edge(&self, from: u32, to: u32) -> bool
        ensures { IsTrue result ↔ HasEdge (net_of_parts self.now) from to }
    {
        self.is_unbounded(from, to) || self.room(from, to) > 0
    }

    /// Whether a line is on an edge that leads not from the source to the sink.
    fn is_on_edge(&self, line: FlowLine) -> bool
        ensures { IsTrue result ↔ IsOnEdge (net_of_parts self.now) line }
    {
        !self.is_through(line.from, line.to) && self.has_edge(line.from, line.to)
    }

    /// Whether the line of this number, counted from 0, is on an edge of the net that no line before it is on, where of each line
    /// it is known whether an earlier one leads from the same node to the same node. Takes time
    /// in proportion to the logarithm of the numbers of needs and of bonds.
    pub fn is_new_edge(&self, lines: &[FlowLine], repeats: &[bool], a: usize) -> bool
        requires in_range { a < length lines.now }
        requires repeats { AreRepeats lines.now repeats.now }
        ensures { IsTrue result ↔ IsNewEdge (net_of_parts self.now) (take a lines.now)
            (line_at lines.now a) }
    {
        !repeats[a] && self.is_on_edge(lines[a])
    }

    /// Whether the amount of a line is positive and within the room of its edge. Takes time in proportion to the logarithm of the
    /// numbers of needs and of bonds.
    pub fn is_within_room(&self, line: FlowLine) -> bool
        ensures { IsTrue result ↔ IsWithinRoom (net_of_parts self.now) line }
    {
        line.amount > 0
            && (self.is_unbounded(line.from, line.to)
                || line.amount <= self.room(line.from, line.to))
    }

    /// The room of the edges that leave a set of rotations: from its members to the sink, and from the source to the others.
    /// Takes time in proportion to the rotations.
    pub fn cut(&self, set: &[bool]) -> u128
        requires { length set.now ≡ (net_of_parts self.now).size }
        ensures { result ≡ cut_of (net_of_parts self.now) set.now }
    {
        let mut cut = 0;
        for k in 0..set.len() {
            cut += u128::from(self.room_out(k, set[k]));
        }
        cut
    }

    /// The room of the bounded edge by which a rotation is left out of a cut: the one to the sink where the rotation is in the
    /// set, and else the one from the source.
    fn room_out(&self, k: usize, is_member: bool) -> u64
        ensures { result ≡ (if is_member then (net_of_parts self.now).drain k else
            (net_of_parts self.now).supply k) }
    {
        if is_member {
            self.drain(k)
        } else {
            self.supply(k)
        }
    }
}

/// The size of a negative number, and 0 for others.
fn fall_of(gain: i64) -> u64
    ensures { result ≡ fall_of gain }
{
    if gain < 0 { gain.unsigned_abs() } else { 0 }
}

/// The size of a positive number, and 0 for others.
fn rise_of(gain: i64) -> u64
    ensures { result ≡ rise_of gain }
{
    if gain > 0 { gain.unsigned_abs() } else { 0 }
}

/// Whether a rotation needs another, by their nodes, of which the second one is not the source.
fn leads_to_need(needs: &[Vec<u32>], from: u32, to: u32) -> bool
    requires rising { AreRowsRising (rows_of needs.now) }
    requires to { 0 < to }
    ensures { result ≡ leads_to_need (rows_of needs.now) from to }
{
    if from == 0 || from as usize > needs.len() {
        return false;
    }
    has_number(list_at(needs, from - 1), to - 1)
}

/// Whether a number is one of these, which rise.
fn has_number(numbers: &[u32], j: u32) -> bool
    requires { (a b : ℕ) → a < b → b < length numbers.now → slice_index numbers.now a
        < slice_index numbers.now b }
    ensures { result ≡ list_any (λ i. i == j) numbers.now }
{
    numbers.binary_search(&j).is_ok()
}

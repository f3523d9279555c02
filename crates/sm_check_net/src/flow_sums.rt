//! What the lines of a flow carry from the nodes and to them.

ghost use Rattle.std.specs.Prelude.{◌≡◌, ℕ, ◌+◌, ◌<◌, ◌^◌, ◌↔◌, length, slice_index, IfOk, IsTrue};
ghost use Rattle.sm_theory.specs.FlowLines.{amount_on, amount_from, amount_to, AreOnNodes, IsConserved};
ghost use Rattle.sm_check_net.specs.FlowSums.{AreSums, carried_from, carried_to};

use sm_theory::FlowLine;
use std::alloc::{AllocError, Global};

/// What leaves the source: the value of the flow that these lines give. Takes time in proportion to the lines, and its sums
/// have 128 bits, so that no amounts make one wrap.
pub fn amount_from_source(lines: &[FlowLine]) -> u128
    ensures { result ≡ amount_from lines.now 0 }
{
    let mut amount = 0;
    for line in lines {
        if line.from == 0 {
            amount += u128::from(line.amount);
        }
    }
    amount
}

/// Whether as much comes to each of so many inner nodes as leaves it. The inner nodes are counted from 1, between node 0, the
/// source, and the sink, and the ends of the lines are nodes.
///
/// Takes time and memory in proportion to the nodes and lines.
///
/// # Errors
///
/// `AllocError` where memory ran out, and only then.
pub fn is_conserved(alloc: Global, size: u32, lines: &[FlowLine]) -> Result<bool, AllocError>
    requires few { size + 2 < 2 ^ 32 }
    requires nodes { AreOnNodes (size + 2) lines.now }
    ensures { IfOk result (λ answer. IsTrue answer ↔ IsConserved size lines.now) }
{
    let come = amounts_to(alloc, size + 2, lines)?;
    let left = amounts_from(alloc, size + 2, lines)?;
    Ok(are_equal_inside(size, &come, &left))
}

/// Whether two amounts are equal at each of so many inner nodes.
fn are_equal_inside(size: u32, come: &[u128], left: &[u128]) -> bool
    requires come { length come.now ≡ size + 2 }
    requires left { length left.now ≡ size + 2 }
    ensures { IsTrue result ↔ ((k : ℕ) → k < size → slice_index come.now (k + 1)
        ≡ slice_index left.now (k + 1)) }
{
    for k in 0..size as usize {
        if come[k + 1] != left[k + 1] {
            return false;
        }
    }
    true
}

/// What comes to each node.
fn amounts_to(alloc: Global, nodes: u32, lines: &[FlowLine]) -> Result<Vec<u128>, AllocError>
    requires nodes { AreOnNodes nodes lines.now }
    ensures { IfOk result (λ sums. AreSums nodes (amount_to lines.now) sums.items) }
{
    let mut sums = vec![in alloc; 0; nodes as usize]?;
    for line in lines {
        sums[line.to as usize] += u128::from(line.amount);
    }
    Ok(sums)
}

/// What leaves each node.
fn amounts_from(alloc: Global, nodes: u32, lines: &[FlowLine]) -> Result<Vec<u128>, AllocError>
    requires nodes { AreOnNodes nodes lines.now }
    ensures { IfOk result (λ sums. AreSums nodes (amount_from lines.now) sums.items) }
{
    let mut sums = vec![in alloc; 0; nodes as usize]?;
    for line in lines {
        sums[line.from as usize] += u128::from(line.amount);
    }
    Ok(sums)
}

/// What goes to each node from this one.
pub(crate) fn amounts_from_node(
    alloc: Global,
    nodes: u32,
    lines: &[FlowLine],
    from: u32,
) -> Result<Vec<u128>, AllocError>
    requires nodes { AreOnNodes nodes lines.now }
    ensures { IfOk result (λ sums. AreSums nodes (amount_on lines.now from) sums.items) }
{
    let mut sums = vec![in alloc; 0; nodes as usize]?;
    for line in lines {
        sums[line.to as usize] += u128::from(carried_from(*line, from));
    }
    Ok(sums)
}

/// What comes from each node to this one.
pub(crate) fn amounts_to_node(
    alloc: Global,
    nodes: u32,
    lines: &[FlowLine],
    to: u32,
) -> Result<Vec<u128>, AllocError>
    requires nodes { AreOnNodes nodes lines.now }
    ensures { IfOk result (λ sums. AreSums nodes (λ from. amount_on lines.now from to) sums.items) }
{
    let mut sums = vec![in alloc; 0; nodes as usize]?;
    for line in lines {
        sums[line.from as usize] += u128::from(carried_to(*line, to));
    }
    Ok(sums)
}

/// What a line carries from a node.
#[tactic(auto, unfolding(crate::specs::FlowSums::carried_from))]
fn carried_from(line: FlowLine, from: u32) -> u64
    ensures { result ≡ carried_from from line }
{
    if line.from == from { line.amount } else { 0 }
}

/// What a line carries to a node.
#[tactic(auto, unfolding(crate::specs::FlowSums::carried_to))]
fn carried_to(line: FlowLine, to: u32) -> u64
    ensures { result ≡ carried_to to line }
{
    if line.to == to { line.amount } else { 0 }
}

//! What the residual steps of a flow reach.

ghost use Rattle.std.specs.Prelude.{◌≡◌, ℕ, ◌+◌, ◌<◌, ◌^◌, ◌++◌, ◌↔◌, length, slice_index, IfOk, IsTrue};
ghost use Rattle.std.specs.List.{Contains};
ghost use Rattle.sm_lists.specs.Rows.{row};
ghost use Rattle.sm_theory.specs.ClosedSets.{IsMember};
ghost use Rattle.sm_theory.specs.FlowLines.{amount_on, AreOnNodes};
ghost use Rattle.sm_theory.specs.Flows.{IsResidualReach};
ghost use Rattle.sm_check_net.specs.Pairs.{has_pair};
ghost use Rattle.sm_check_net.specs.CheckedNets.{net_of_parts};
ghost use Rattle.sm_check_net.specs.Residual.{pair_if, joined, may_lead, need_steps, need_steps_of, bond_steps, back_steps, supply_steps, drain_steps, residual_steps};

use crate::flow_sums::{amounts_from_node, amounts_to_node};
use crate::net::CheckedNet;
use crate::pairs::Pairs;
use crate::reaching::reached;
use sm_check_decide::Trail;
use sm_theory::FlowLine;
use std::alloc::{AllocError, Global};

/// Whether a set is that of the rotations to which the residual steps of a flow lead from the source: steps along edges with room
/// left and against edges with positive amounts (Ford and Fulkerson 1956).
///
/// The flow is given by its lines, whose ends are nodes. Takes time in proportion to the edges of the net and the lines, and the
/// logarithm of their number, and memory in proportion to them.
///
/// # Errors
///
/// `AllocError` where memory ran out, and only then.
pub fn is_residual_reach(
    alloc: Global,
    net: &CheckedNet,
    lines: &[FlowLine],
    set: &[bool],
) -> Result<bool, AllocError>
    requires few { (net_of_parts net.now).size + 2 < 2 ^ 32 }
    requires nodes { AreOnNodes ((net_of_parts net.now).size + 2) lines.now }
    requires set { length set.now ≡ (net_of_parts net.now).size }
    ensures { IfOk result (λ answer. IsTrue answer
        ↔ IsResidualReach (net_of_parts net.now) (amount_on lines.now) set.now) }
{
    let steps = Pairs::of(residual_steps(alloc, net, lines)?);
    let trail = reached(alloc, net.nodes(), &steps)?;
    Ok(has_members(&trail, set))
}

/// Whether the inner nodes of a trail are those of a set.
fn has_members(trail: &Trail, set: &[bool]) -> bool
    requires few { length set.now + 2 < 2 ^ 32 }
    requires nodes { trail.now.bound ≡ length set.now + 2 }
    ensures { IsTrue result ↔ ((k : ℕ) → k < length set.now → IsMember set.now k
        ↔ Contains trail.now.items (k + 1)) }
{
    for k in 0..set.len() {
        if set[k] != trail.has(k as u32 + 1) {
            return false;
        }
    }
    true
}

/// The residual steps of a flow.
pub(crate) fn residual_steps(
    alloc: Global,
    net: &CheckedNet,
    lines: &[FlowLine],
) -> Result<Vec<(u32, u32)>, AllocError>
    requires few { (net_of_parts net.now).size + 2 < 2 ^ 32 }
    requires nodes { AreOnNodes ((net_of_parts net.now).size + 2) lines.now }
    ensures { IfOk result (λ steps. steps.items ≡ residual_steps net.now lines.now) }
{
    let mut steps = Vec::new(alloc);
    add_needs(net, &mut steps)?;
    add_bonds(net, &mut steps)?;
    add_back(lines, &mut steps)?;
    add_supplies(alloc, net, lines, &mut steps)?;
    add_drains(alloc, net, lines, &mut steps)?;
    Ok(steps)
}

/// Adds a step, if a test holds.
pub(crate) fn add_if(
    holds: bool,
    from: u32,
    to: u32,
    steps: &mut Vec<(u32, u32)>,
) -> Result<(), AllocError>
    ensures { IfOk result (λ _. steps.new.items ≡ steps.old.items ++ pair_if holds from to) }
{
    if holds {
        steps.push((from, to))?;
    }
    Ok(())
}

/// Adds the steps from rotations to what they need.
fn add_needs(net: &CheckedNet, steps: &mut Vec<(u32, u32)>) -> Result<(), AllocError>
    requires few { (net_of_parts net.now).size + 2 < 2 ^ 32 }
    ensures { IfOk result (λ _. steps.new.items ≡ steps.old.items
        ++ joined (need_steps (net_of_parts net.now) net.now.needs) (length net.now.needs)) }
{
    for k in 0..net.size() {
        add_needs_of(net, k, net.needs(k), steps)?;
    }
    Ok(())
}

/// Adds the steps from a rotation to what it needs.
fn add_needs_of(
    net: &CheckedNet,
    k: u32,
    needs: &[u32],
    steps: &mut Vec<(u32, u32)>,
) -> Result<(), AllocError>
    requires few { (net_of_parts net.now).size + 2 < 2 ^ 32 }
    requires number { k + 1 < 2 ^ 32 }
    requires numbers { (a : ℕ) → a < length needs.now → slice_index needs.now a + 1 < 2 ^ 32 }
    ensures { IfOk result (λ _. steps.new.items ≡ steps.old.items
        ++ need_steps_of (net_of_parts net.now) k needs.now) }
{
    for &i in needs {
        add_if(net.may_lead(k + 1, i + 1), k + 1, i + 1, steps)?;
    }
    Ok(())
}

/// Adds the steps along bonds.
fn add_bonds(net: &CheckedNet, steps: &mut Vec<(u32, u32)>) -> Result<(), AllocError>
    ensures { IfOk result (λ _. steps.new.items ≡ steps.old.items
        ++ bond_steps (net_of_parts net.now) net.now.bonds) }
{
    let bonds = net.bonds();
    for &(from, to) in bonds {
        add_if(net.may_lead(from, to), from, to, steps)?;
    }
    Ok(())
}

/// Adds the steps against edges with positive amounts.
fn add_back(lines: &[FlowLine], steps: &mut Vec<(u32, u32)>) -> Result<(), AllocError>
    ensures { IfOk result (λ _. steps.new.items ≡ steps.old.items ++ back_steps lines.now) }
{
    for line in lines {
        add_if(line.amount > 0, line.to, line.from, steps)?;
    }
    Ok(())
}

/// Adds the steps from the source along bounded edges with room left.
fn add_supplies(
    alloc: Global,
    net: &CheckedNet,
    lines: &[FlowLine],
    steps: &mut Vec<(u32, u32)>,
) -> Result<(), AllocError>
    requires few { (net_of_parts net.now).size + 2 < 2 ^ 32 }
    requires nodes { AreOnNodes ((net_of_parts net.now).size + 2) lines.now }
    ensures { IfOk result (λ _. steps.new.items ≡ steps.old.items
        ++ joined (supply_steps (net_of_parts net.now) lines.now) (length net.now.gains)) }
{
    let amounts = amounts_from_node(alloc, net.nodes(), lines, 0)?;
    for k in 0..net.size() {
        let is_open = amounts[k as usize + 1] < u128::from(net.supply(k as usize));
        add_if(is_open, 0, k + 1, steps)?;
    }
    Ok(())
}

/// Adds the steps to the sink along bounded edges with room left.
fn add_drains(
    alloc: Global,
    net: &CheckedNet,
    lines: &[FlowLine],
    steps: &mut Vec<(u32, u32)>,
) -> Result<(), AllocError>
    requires few { (net_of_parts net.now).size + 2 < 2 ^ 32 }
    requires nodes { AreOnNodes ((net_of_parts net.now).size + 2) lines.now }
    ensures { IfOk result (λ _. steps.new.items ≡ steps.old.items
        ++ joined (drain_steps (net_of_parts net.now) lines.now) (length net.now.gains)) }
{
    let sink = net.size() + 1;
    let amounts = amounts_to_node(alloc, net.nodes(), lines, sink)?;
    for k in 0..net.size() {
        let is_open = amounts[k as usize + 1] < u128::from(net.drain(k as usize));
        add_if(is_open, k + 1, sink, steps)?;
    }
    Ok(())
}

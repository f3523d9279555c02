//! The second net of a flow.

ghost use Rattle.std.specs.Prelude.{◌≡◌, ◌+◌, ◌<◌, ◌^◌, ◌++◌, [], length, replicate, IfOk};
ghost use Rattle.std.specs.List.{flat_map};
ghost use Rattle.sm_lists.specs.Rows.{rows_of};
ghost use Rattle.sm_theory.specs.FlowLines.{amount_on, AreOnNodes};
ghost use Rattle.sm_theory.specs.SecondNets.{second_net};
ghost use Rattle.sm_check_net.specs.CheckedNets.{net_of_parts, gain_at};
ghost use Rattle.sm_check_net.specs.Second.{AreOnEdges, inner_step, inner_steps};

use crate::net::CheckedNet;
use crate::residual::{add_if, residual_steps};
use sm_theory::FlowLine;
use std::alloc::{AllocError, Global};

/// The second net of a flow, which is given by its lines: the residual steps of the flow that neither begin at the sink nor end at
/// the source are its edges without a bound, and the bounded ones go by these gains (Picard and Queyranne 1980).
///
/// The lines are on edges of the first net. They need be neither within the rooms nor conserved. Takes time in proportion to the
/// edges of the net and the lines, and the logarithm of their number, and memory in proportion to them.
///
/// # Errors
///
/// `AllocError` where memory ran out, and only then.
pub fn second_net(
    alloc: Global,
    net: &CheckedNet,
    lines: &[FlowLine],
    gains: Vec<i64>,
) -> Result<CheckedNet, AllocError>
    requires few { (net_of_parts net.now).size + 2 < 2 ^ 32 }
    requires each { length gains.items ≡ (net_of_parts net.now).size }
    requires nodes { AreOnNodes ((net_of_parts net.now).size + 2) lines.now }
    requires edges { AreOnEdges (net_of_parts net.now) lines.now }
    ensures { IfOk result (λ second. net_of_parts second
        ≡ second_net (net_of_parts net.now) (amount_on lines.now) (gain_at gains.items)) }
{
    let needs = no_needs(alloc, net.size())?;
    let bonds = inner_steps(alloc, net, lines)?;
    Ok(CheckedNet::of(gains, needs, bonds))
}

/// A rotation that needs none, so many times.
fn no_needs(alloc: Global, size: u32) -> Result<Vec<Vec<u32>>, AllocError>
    ensures { IfOk result (λ needs. rows_of needs.items ≡ replicate size []) }
{
    let mut needs = Vec::with_capacity(alloc, size as usize)?;
    for k in 0..size {
        needs.push(Vec::new(alloc))?;
    }
    Ok(needs)
}

/// The residual steps of a flow that neither begin at the sink nor end at the source.
fn inner_steps(
    alloc: Global,
    net: &CheckedNet,
    lines: &[FlowLine],
) -> Result<Vec<(u32, u32)>, AllocError>
    requires few { (net_of_parts net.now).size + 2 < 2 ^ 32 }
    requires nodes { AreOnNodes ((net_of_parts net.now).size + 2) lines.now }
    ensures { IfOk result (λ steps. steps.items ≡ inner_steps net.now lines.now) }
{
    let steps = residual_steps(alloc, net, lines)?;
    let mut inner = Vec::with_capacity(alloc, steps.len())?;
    add_inner(net, &steps, &mut inner)?;
    Ok(inner)
}

/// Adds those of these steps that neither begin at the sink nor end at the source.
fn add_inner(
    net: &CheckedNet,
    steps: &[(u32, u32)],
    inner: &mut Vec<(u32, u32)>,
) -> Result<(), AllocError>
    ensures { IfOk result (λ _. inner.new.items ≡ inner.old.items
        ++ flat_map (inner_step (net_of_parts net.now)) steps.now) }
{
    let sink = net.nodes() - 1;
    for &(from, to) in steps {
        add_if(from != sink && to != 0, from, to, inner)?;
    }
    Ok(())
}

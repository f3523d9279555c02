//! The edges of the net of gains, needs and conditions.

ghost use Rattle.std.specs.Prelude.{◌≡◌, ℕ, suc, ◌+◌, ◌*◌, ◌<◌, ◌≤◌, ◌^◌, ◌++◌, false, length, sum_by, slice_index, unsigned_abs, IfOk};
ghost use Rattle.std.specs.List.{flat_map, list_any};
ghost use Rattle.sm_lists.specs.Sums.{sum_to};
ghost use Rattle.sm_market.specs.Lists.{row};
ghost use Rattle.sm_market.specs.Vectors.{rows_of};
ghost use Rattle.sm_theory.specs.Vectors.{AreLevels, AreInRange};
ghost use Rattle.sm_theory.specs.Conditions.{forces, forbids};
ghost use Rattle.sm_theory.specs.Chains.{AreNeeds};
ghost use Rattle.sm_poset.specs.Posets.{IsPoset};
ghost use Rattle.sm_weight.specs.Edges.{room_total};
ghost use Rattle.sm_weight.specs.Net.{is_barred, AreNetEdges, joined, need_edges, need_edges_of, gain_edge, gain_edges, forced_edges, forbidden_edges};

use crate::edges::{Edge, add_unbounded, merged};
use crate::spans::span_of;
use sm_poset::{Conditions, Poset};
use std::alloc::{AllocError, Global};

/// Whether a pair allows nothing by itself: a forced one that no stable pairing holds, or a forbidden one that all hold.
pub(crate) fn allows_nothing(poset: &Poset, levels: &[Vec<u32>], conditions: &Conditions) -> bool
    requires levels { AreLevels poset.now.lists (rows_of levels.now) }
    requires forced { AreInRange (length poset.now.lists.proposers) conditions.now.forced.items }
    requires forbidden { AreInRange (length poset.now.lists.proposers)
        conditions.now.forbidden.items }
    ensures { result ≡ is_barred poset.now (rows_of levels.now) conditions.now.forced.items
        conditions.now.forbidden.items }
{
    any_in_none(poset, levels, &conditions.forced)
        || any_in_all(poset, levels, &conditions.forbidden)
}

/// Whether one of these pairs is in no stable pairing.
fn any_in_none(poset: &Poset, levels: &[Vec<u32>], pairs: &[(u32, u32)]) -> bool
    requires levels { AreLevels poset.now.lists (rows_of levels.now) }
    requires pairs { AreInRange (length poset.now.lists.proposers) pairs.now }
    ensures { result ≡ list_any (λ c. forces poset.now.lists (rows_of levels.now)
        poset.now.first.places poset.now.rotations c
        0 (suc (length poset.now.rotations))) pairs.now }
{
    let sink = sink(poset);
    for &(p, level) in pairs {
        if span_of(poset, levels, p, level).entry == sink {
            return true;
        }
    }
    false
}

/// Whether one of these pairs is in all stable pairings.
fn any_in_all(poset: &Poset, levels: &[Vec<u32>], pairs: &[(u32, u32)]) -> bool
    requires levels { AreLevels poset.now.lists (rows_of levels.now) }
    requires pairs { AreInRange (length poset.now.lists.proposers) pairs.now }
    ensures { result ≡ list_any (λ c. forbids poset.now.lists (rows_of levels.now)
        poset.now.first.places poset.now.rotations c
        0 (suc (length poset.now.rotations))) pairs.now }
{
    let sink = sink(poset);
    for &(p, level) in pairs {
        let span = span_of(poset, levels, p, level);
        if span.entry == 0 && span.exit == sink {
            return true;
        }
    }
    false
}

/// The number of the sink.
fn sink(poset: &Poset) -> u32
    ensures sink { result ≡ suc (length poset.now.rotations) }
    ensures poset { IsPoset poset.now }
{
    poset.chain().rotations.len() as u32 + 1
}

/// The edges of the net of gains, needs and conditions, where no pair allows nothing by itself.
///
/// Takes time in proportion to the needs and the conditions, and for each of them to the logarithm of their number.
pub(crate) fn net_edges(
    alloc: Global,
    poset: &Poset,
    levels: &[Vec<u32>],
    needs: &[Vec<u32>],
    gains: &[i64],
    conditions: &Conditions,
) -> Result<Vec<Edge>, AllocError>
    requires levels { AreLevels poset.now.lists (rows_of levels.now) }
    requires needs { AreNeeds poset.now.lists poset.now.rotations (rows_of needs.now) }
    requires gains { length gains.now ≡ length poset.now.rotations }
    requires small { sum_by unsigned_abs gains.now ≤ 2 ^ 55 }
    requires forced { AreInRange (length poset.now.lists.proposers) conditions.now.forced.items }
    requires forbidden { AreInRange (length poset.now.lists.proposers)
        conditions.now.forbidden.items }
    requires few { length conditions.now.forced.items + length conditions.now.forbidden.items
        < 2 ^ 24 }
    ensures edges { IfOk result (λ edges. AreNetEdges poset.now (rows_of levels.now) gains.now
        conditions.now.forced.items conditions.now.forbidden.items edges.items) }
    ensures few { IfOk result (λ edges. length edges.items ≤ 2 ^ 28) }
    ensures small { IfOk result (λ edges. room_total edges.items ≤ 2 ^ 62) }
{
    let sink = sink(poset);
    let mut edges = Vec::with_capacity(alloc, most_edges(needs, gains, conditions))?;
    add_needs(needs, &mut edges)?;
    add_gains(gains, sink, &mut edges)?;
    add_forced(poset, levels, &conditions.forced, &mut edges)?;
    add_forbidden(poset, levels, &conditions.forbidden, &mut edges)?;
    merged(alloc, edges)
}

/// How many edges there are at most.
fn most_edges(needs: &[Vec<u32>], gains: &[i64], conditions: &Conditions) -> usize
    requires needs { sum_to (λ k. length (row (rows_of needs.now) k)) (length needs.now) < 2 ^ 24 }
    requires gains { length gains.now < 2 ^ 24 }
    requires few { length conditions.now.forced.items + length conditions.now.forbidden.items
        < 2 ^ 24 }
    ensures { result ≡ sum_to (λ k. length (row (rows_of needs.now) k)) (length needs.now)
        + length gains.now
        + 2 * length conditions.now.forced.items + length conditions.now.forbidden.items }
{
    count(needs) + gains.len() + 2 * conditions.forced.len() + conditions.forbidden.len()
}

/// How many numbers these lists have.
fn count(lists: &[Vec<u32>]) -> usize
    requires { sum_to (λ k. length (row (rows_of lists.now) k)) (length lists.now) < 2 ^ 24 }
    ensures { result ≡ sum_to (λ k. length (row (rows_of lists.now) k)) (length lists.now) }
{
    let mut count = 0;
    for k in 0..lists.len() {
        count += lists[k].len();
    }
    count
}

/// Adds the edges from each rotation to those that it needs.
fn add_needs(needs: &[Vec<u32>], edges: &mut Vec<Edge>) -> Result<(), AllocError>
    requires few { length needs.now < 2 ^ 24 }
    requires numbers { (k a : ℕ) → a < length (row (rows_of needs.now) k)
        → slice_index (row (rows_of needs.now) k) a < 2 ^ 24 }
    ensures { IfOk result (λ _. edges.new.items ≡ edges.old.items
        ++ joined (need_edges (rows_of needs.now)) (length needs.now)) }
{
    for k in 0..needs.len() {
        add_needs_of(k as u32, &needs[k], edges)?;
    }
    Ok(())
}

/// Adds the edges from a rotation to those that it needs.
fn add_needs_of(k: u32, needs: &[u32], edges: &mut Vec<Edge>) -> Result<(), AllocError>
    requires number { k < 2 ^ 24 }
    requires numbers { (a : ℕ) → a < length needs.now → slice_index needs.now a < 2 ^ 24 }
    ensures { IfOk result (λ _. edges.new.items ≡ edges.old.items ++ need_edges_of k needs.now) }
{
    for &i in needs {
        add_unbounded(edges, k + 1, i + 1)?;
    }
    Ok(())
}

/// Adds the edges from the source to the rotations with negative gains, and from those with positive ones to the sink.
pub(crate) fn add_gains(gains: &[i64], sink: u32, edges: &mut Vec<Edge>) -> Result<(), AllocError>
    requires few { length gains.now < 2 ^ 24 }
    requires small { sum_by unsigned_abs gains.now ≤ 2 ^ 55 }
    ensures { IfOk result (λ _. edges.new.items ≡ edges.old.items
        ++ joined (gain_edges sink gains.now) (length gains.now)) }
{
    for k in 0..gains.len() {
        add_gain(k as u32, gains[k], sink, edges)?;
    }
    Ok(())
}

/// Adds the edge of a gain, unless that is 0.
fn add_gain(k: u32, gain: i64, sink: u32, edges: &mut Vec<Edge>) -> Result<(), AllocError>
    requires number { k < 2 ^ 24 }
    requires small { unsigned_abs gain ≤ 2 ^ 55 }
    ensures { IfOk result (λ _. edges.new.items ≡ edges.old.items ++ gain_edge sink k gain) }
{
    let room = Some(gain.unsigned_abs());
    if gain < 0 {
        let (from, to) = (0, k + 1);
        edges.push(Edge { from, to, room })?;
    } else if gain > 0 {
        let (from, to) = (k + 1, sink);
        edges.push(Edge { from, to, room })?;
    }
    Ok(())
}

/// Adds the edges of forced pairs: from the source to the entry, and from the exit to the sink.
fn add_forced(
    poset: &Poset,
    levels: &[Vec<u32>],
    pairs: &[(u32, u32)],
    edges: &mut Vec<Edge>,
) -> Result<(), AllocError>
    requires levels { AreLevels poset.now.lists (rows_of levels.now) }
    requires pairs { AreInRange (length poset.now.lists.proposers) pairs.now }
    ensures { IfOk result (λ _. edges.new.items ≡ edges.old.items
        ++ flat_map (forced_edges poset.now.lists (rows_of levels.now) poset.now.first.places
        poset.now.rotations) pairs.now) }
{
    let sink = sink(poset);
    for &(p, level) in pairs {
        let span = span_of(poset, levels, p, level);
        add_unbounded(edges, 0, span.entry)?;
        add_unbounded(edges, span.exit, sink)?;
    }
    Ok(())
}

/// Adds the edges of forbidden pairs: from the entry to the exit.
fn add_forbidden(
    poset: &Poset,
    levels: &[Vec<u32>],
    pairs: &[(u32, u32)],
    edges: &mut Vec<Edge>,
) -> Result<(), AllocError>
    requires levels { AreLevels poset.now.lists (rows_of levels.now) }
    requires pairs { AreInRange (length poset.now.lists.proposers) pairs.now }
    ensures { IfOk result (λ _. edges.new.items ≡ edges.old.items
        ++ flat_map (forbidden_edges poset.now.lists (rows_of levels.now) poset.now.first.places
        poset.now.rotations) pairs.now) }
{
    for &(p, level) in pairs {
        let span = span_of(poset, levels, p, level);
        add_unbounded(edges, span.entry, span.exit)?;
    }
    Ok(())
}

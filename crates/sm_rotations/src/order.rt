//! A chain of rotations put into the stated order.

ghost use Rattle.std.specs.Prelude.{◌≡◌, ℕ, ◌<◌, ◌≤◌, ◌^◌, length, slice_index_or, IfOk, OnOk};
ghost use Rattle.std.specs.BinaryHeap.{IsHeap, heap_items};
ghost use Rattle.sm_market.specs.Lists.{row};
ghost use Rattle.sm_market.specs.Vectors.{rows_of};
ghost use Rattle.sm_market.specs.Pairing.{IsPairingOf};
ghost use Rattle.sm_theory.specs.Chains.{rotation_at, IsCompleteChain, IsPrintedChain, AreNeeds};
ghost use Rattle.sm_theory.specs.Values.{rotations_of};
ghost use Rattle.sm_rotations.specs.Graph.{times, AreFollowers};
ghost use Rattle.sm_rotations.specs.Ordering.{later_first, IsLowestPair, IsLead, AreLeads, IsTurned, AreTurned, IsOneMore, AreReadyAtFirst, IsReleased};

use crate::graph::{add_once, counts, lists_with_room};
use sm_market::{Market, Pairing};
use sm_theory::{Chain, Rotation};
use std::alloc::{AllocError, Global};
use std::cmp::Reverse;
use std::collections::BinaryHeap;
use std::mem;

/// A chain of rotations with what each one needs.
#[derive(Debug, Drop)]
pub struct ChainWithNeeds {
    /// The chain.
    pub chain: Chain,
    /// For each rotation the numbers of its predecessors, rising, as [`needs`](crate::needs) gives them. Rotations are
    /// numbered from 0, in the order of the chain.
    pub needs: Vec<Vec<u32>>,
}

/// Rotations in the stated order, and the numbers of those that each one needs.
struct Written {
    rotations: Vec<Rotation>,
    needs: Vec<Vec<u32>>,
}

/// The chain with its rotations in the stated order, and what each one needs: at each turn the exposed rotation that has the
/// lowest-numbered proposer comes first, and each rotation begins with its lowest-numbered proposer.
///
/// Any complete chain from the first matching will do, with those that need each rotation. At each turn the exposed rotations
/// are those that are left over and whose predecessors have all been written; they wait in a heap, by their lowest proposers.
/// Whatever is written is noted at once, by its new number, with those that need it, so that what each one needs comes out
/// rising. Takes time in proportion to the pairs of the rotations and to their predecessors, and to the rotations times a
/// logarithm, and memory in proportion to the agents, the rotations and the predecessors: each rotation is turned where it is,
/// and moved (Gusfield and Irving 1989, section 2.5 and chapter 3).
///
/// # Errors
///
/// `AllocError` where memory ran out, and only then.
pub(crate) fn in_order(
    alloc: Global,
    market: &Market,
    first: &Pairing,
    mut rotations: Vec<Rotation>,
    followers: &[Vec<u32>],
) -> Result<ChainWithNeeds, AllocError>
    requires made { IsPairingOf market.now first.now }
    requires complete { IsCompleteChain market.now first.now.places (rotations_of rotations.items) }
    requires followers { AreFollowers market.now (rotations_of rotations.items)
        (length rotations.items) (rows_of followers.now) }
    ensures made { IfOk result (λ c. IsPairingOf market.now c.chain.first) }
    ensures first { IfOk result (λ c. c.chain.first.places ≡ first.now.places) }
    ensures chain { IfOk result (λ c. IsPrintedChain market.now first.now.places
        (rotations_of c.chain.rotations.items)) }
    ensures needs { IfOk result (λ c. AreNeeds market.now (rotations_of c.chain.rotations.items)
        (rows_of c.needs.items)) }
{
    let Written { rotations, needs } = ordered(alloc, market, first, &mut rotations, followers)?;
    let first = first.copy(alloc)?;
    let chain = Chain { first, rotations };
    Ok(ChainWithNeeds { chain, needs })
}

/// The rotations of a chain in the stated order, and what each one needs. They are moved out of those that are given.
fn ordered(
    alloc: Global,
    market: &Market,
    first: &Pairing,
    rotations: &mut [Rotation],
    followers: &[Vec<u32>],
) -> Result<Written, AllocError>
    requires made { IsPairingOf market.now first.now }
    requires complete { IsCompleteChain market.now first.now.places (rotations_of rotations.old) }
    requires followers { AreFollowers market.now (rotations_of rotations.old) (length rotations.old)
        (rows_of followers.now) }
    ensures chain { IfOk result (λ o. IsPrintedChain market.now first.now.places
        (rotations_of o.rotations.items)) }
    ensures needs { IfOk result (λ o. AreNeeds market.now (rotations_of o.rotations.items)
        (rows_of o.needs.items)) }
{
    prove!(market.proposers() < 1 << 24);
    let mut unmet = counts(alloc, followers)?;
    let unmet = unmet.as_mut_slice();
    let mut noted = lists_with_room(alloc, unmet)?;
    let noted = noted.as_mut_slice();
    let leads = turn_each(alloc, rotations)?;
    let leads = leads.as_slice();
    let mut ready = ready_at_first(alloc, leads, unmet)?;
    let mut written = Vec::with_capacity(alloc, rotations.len())?;
    let mut needs = Vec::with_capacity(alloc, rotations.len())?;
    'steps: while let Some(Reverse((_, k))) = ready.pop() {
        let number = written.len() as u32;
        let pairs = mem::replace(&mut rotations[k as usize].pairs, Vec::new(alloc));
        written.push(Rotation { pairs })?;
        needs.push(mem::replace(&mut noted[k as usize], Vec::new(alloc)))?;
        let those = followers[k as usize].as_slice();
        add_once(number, those, noted)?;
        release(leads, those, unmet, &mut ready)?;
    }
    Ok(Written {
        rotations: written,
        needs,
    })
}

/// Turns each rotation so that it begins at its lowest-numbered proposer, and gives these proposers.
fn turn_each(alloc: Global, rotations: &mut [Rotation]) -> Result<Vec<u32>, AllocError>
    requires { (k : ℕ) → k < length rotations.old → 0
        < length (rotation_at (rotations_of rotations.old) k) }
    ensures turned { OnOk result (AreTurned (rotations_of rotations.old) (length rotations.old)
        (rotations_of rotations.new)) }
    ensures leads { IfOk result (λ leads. AreLeads (rotations_of rotations.old)
        (length rotations.old) leads.items) }
{
    let mut leads = Vec::with_capacity(alloc, rotations.len())?;
    for k in 0..rotations.len() {
        leads.push(turn(&mut rotations[k]))?;
    }
    Ok(leads)
}

/// Turns a rotation so that it begins at its lowest-numbered proposer, and gives this proposer.
fn turn(rotation: &mut Rotation) -> u32
    requires { 0 < length rotation.old.pairs.items }
    ensures turned { IsTurned rotation.old.pairs.items rotation.new.pairs.items }
    ensures lead { IsLead rotation.old.pairs.items result }
{
    let low = lowest(&rotation.pairs);
    let lead = rotation.pairs[low].0;
    rotation.pairs.rotate_left(low);
    lead
}

/// The number of the pair that has the lowest-numbered proposer.
fn lowest(pairs: &[(u32, u32)]) -> usize
    requires { 0 < length pairs.now }
    ensures { IsLowestPair pairs.now result }
{
    let mut best = 0;
    for i in 1..pairs.len() {
        if pairs[i].0 < pairs[best].0 {
            best = i;
        }
    }
    best
}

/// The rotations that need no other, by their lowest proposers.
fn ready_at_first(
    alloc: Global,
    leads: &[u32],
    unmet: &[u32],
) -> Result<BinaryHeap<Reverse<(u32, u32)>>, AllocError>
    requires few { length leads.now < 2 ^ 32 }
    requires one_each { length unmet.now ≡ length leads.now }
    ensures order { IfOk result (λ h. IsHeap later_first (heap_items h)) }
    ensures ready { IfOk result (λ h. AreReadyAtFirst leads.now unmet.now (length leads.now)
        (heap_items h)) }
{
    let mut ready = BinaryHeap::new(alloc);
    for k in 0..leads.len() as u32 {
        if unmet[k as usize] == 0 {
            add_ready(leads[k as usize], k, &mut ready)?;
        }
    }
    Ok(ready)
}

/// Adds a rotation with its lowest proposer to those that are ready.
fn add_ready(
    lead: u32,
    k: u32,
    ready: &mut BinaryHeap<Reverse<(u32, u32)>>,
) -> Result<(), AllocError>
    requires { IsHeap later_first (heap_items ready.old) }
    ensures order { OnOk result (IsHeap later_first (heap_items ready.new)) }
    ensures added { OnOk result (IsOneMore lead k (heap_items ready.old) (heap_items ready.new)) }
{
    ready.push(Reverse((lead, k)))?;
    Ok(())
}

/// One need less for each of these rotations. Those that have no other become ready.
fn release(
    leads: &[u32],
    followers: &[u32],
    unmet: &mut [u32],
    ready: &mut BinaryHeap<Reverse<(u32, u32)>>,
) -> Result<(), AllocError>
    requires one_each { length unmet.old ≡ length leads.now }
    requires in_range { (a : ℕ) → a < length followers.now → slice_index_or followers.now a 0
        < length leads.now }
    requires enough { (j : ℕ) → times followers.now j ≤ slice_index_or unmet.old j 0 }
    requires order { IsHeap later_first (heap_items ready.old) }
    ensures one_each { OnOk result (length unmet.new ≡ length unmet.old) }
    ensures order { OnOk result (IsHeap later_first (heap_items ready.new)) }
    ensures released { OnOk result (IsReleased leads.now followers.now unmet.old
        (heap_items ready.old) unmet.new (heap_items ready.new)) }
{
    for &j in followers {
        unmet[j as usize] -= 1;
        if unmet[j as usize] == 0 {
            add_ready(leads[j as usize], j, ready)?;
        }
    }
    Ok(())
}

//! Checks of agents, of entries and of pairs.

ghost use Rattle.std.specs.Prelude.{◌≡◌, ◌≢◌, ℕ, ◌+◌, ◌<◌, ◌≤◌, ◌^◌, ◌↔◌, length, map, slice_index, pos, true, IsTrue, IfOk, IfErr, OnOk, MatchOption};
ghost use Rattle.std.specs.List.{range_with_len};
ghost use Rattle.sm_text.specs.Limits.{most_agents, most_entries};
ghost use Rattle.sm_agents.specs.Written.{row, names_of, weighed};
ghost use Rattle.sm_agents.specs.Sound.{is_single as is_single_kind, IsInstance, entries_of, IsWithinLimits, AreSoundAgents, AreSoundEntries, IsSoundEntry, IsPairOf, IsSoundItem, items_of};
ghost use Rattle.sm_lists.specs.Pairs.{pair_at};
ghost use Rattle.sm_agents.specs.Checks.{IsAgentFault, IsEntryFault, IsFirstBadPlace, IsFirstBadPair, IsItemFault, AreAgentsFaulty, AreEntriesFaulty};
ghost use Rattle.sm_agents.specs.Faults.{IsInstanceFault};
ghost use Rattle.sm_agents.specs.Vectors.{agents_of, written_in};

use crate::agents::{Agent, capacity_at, list_at, name_at};
use crate::faults::InstanceFault;
use crate::kinds::{Kind, Side};
use crate::names::Names;
use crate::pairs::Pairs;
use crate::parts::Parts;
use sm_text::{Digest, MOST_AGENTS, MOST_CAPACITY, MOST_ENTRIES, MOST_WEIGHT, TextHash, is_name};
use std::alloc::Global;

/// Are there few enough agents on each side, and few enough entries on all lists? Takes time in proportion to the agents.
pub fn are_within_limits(left: &[Agent], right: &[Agent]) -> bool
    ensures { IsTrue result ↔ IsWithinLimits (agents_of left.now) (agents_of right.now) }
{
    if left.len() > MOST_AGENTS || right.len() > MOST_AGENTS {
        return false;
    }
    match entries_left(left, MOST_ENTRIES) {
        Some(room) => entries_left(right, room).is_some(),
        None => false,
    }
}

/// How many of so many entries these agents leave; `None` where they have more.
fn entries_left(agents: &[Agent], most: usize) -> Option<usize>
    ensures { MatchOption result
        (most < entries_of (agents_of agents.now))
        (λ left. left + entries_of (agents_of agents.now) ≡ most) }
{
    let mut left = most;
    for agent in agents {
        let entries = agent.entries.len();
        if entries > left {
            return None;
        }
        left -= entries;
    }
    Some(left)
}

/// The names of a side. Takes time and memory in proportion to the agents.
///
/// # Errors
///
/// `BadAgent` names the first agent that isn't sound. Else `OutOfMemory` alone.
pub fn checked_names(
    alloc: Global,
    side: Side,
    agents: &[Agent],
    single: bool,
) -> Result<Names, InstanceFault>
    requires { length agents.now ≤ most_agents }
    ensures sound { OnOk result (AreSoundAgents (agents_of agents.now) single) }
    ensures names { IfOk result (λ names. names ≡ names_of (agents_of agents.now)) }
    ensures fault { IfErr result (λ f. IsAgentFault side (agents_of agents.now) single f) }
{
    let mut names = Names::with_room(alloc, hash_of_names(agents), agents.len())?;
    for a in 0..agents.len() as u32 {
        let name = name_at(agents, a);
        let capacity = capacity_at(agents, a);
        if !is_name(name) || capacity > MOST_CAPACITY || (single && capacity != 1) {
            return Err(InstanceFault::BadAgent(side, a));
        }
        let is_new = names.add(alloc, name)?;
        if !is_new {
            return Err(InstanceFault::BadAgent(side, a));
        }
    }
    Ok(names)
}

/// Hashes for the names of a side, which no name can choose.
fn hash_of_names(agents: &[Agent]) -> TextHash {
    let mut digest = Digest::new();
    for agent in agents {
        digest.take(&agent.name);
    }
    digest.hash()
}

/// Whether all entries of a side are sound. Takes time in proportion to the agents and entries, and memory in proportion to the
/// agents of the other side.
///
/// # Errors
///
/// `BadEntry` names the first entry that isn't sound. Else `OutOfMemory` alone.
pub fn check_entries(
    alloc: Global,
    side: Side,
    agents: &[Agent],
    others: u32,
) -> Result<(), InstanceFault>
    requires agents { length agents.now ≤ most_agents }
    requires entries { entries_of (agents_of agents.now) ≤ most_entries }
    ensures sound { OnOk result (AreSoundEntries (agents_of agents.now) others) }
    ensures fault { IfErr result (λ f. IsEntryFault side (agents_of agents.now) others f) }
{
    let mut met = vec![in alloc; 0; others as usize]?;
    let met = met.as_mut_slice();
    for a in 0..agents.len() as u32 {
        if let Some(i) = first_bad_place(agents, a, met) {
            return Err(InstanceFault::BadEntry(side, a, i));
        }
    }
    Ok(())
}

/// The place of the first entry of a list that isn't sound. Agents that were met on the list get its stamp, one more than
/// the number of its owner.
fn first_bad_place(agents: &[Agent], a: u32, met: &mut [u32]) -> Option<u32>
    requires in_range { a < length agents.now }
    requires agents { length agents.now ≤ most_agents }
    requires entries { entries_of (agents_of agents.now) ≤ most_entries }
    requires met { (b : ℕ) → slice_index met.old b ≤ a }
    ensures met { (b : ℕ) → slice_index met.new b ≤ a + 1 }
    ensures first { MatchOption result
        ((i : ℕ) → i < length (row (agents_of agents.now) a)
        → IsSoundEntry (agents_of agents.now) (length met.old) a i)
        (λ i. IsFirstBadPlace (agents_of agents.now) (length met.old) a i) }
{
    let stamp = a + 1;
    let list = list_at(agents, a);
    for i in 0..list.len() as u32 {
        let b = list[i as usize] as usize;
        if b >= met.len() || met[b] == stamp {
            return Some(i);
        }
        met[b] = stamp;
    }
    None
}

/// The first pair that names a proposer or a reviewer that isn't there.
fn first_bad_pair(pairs: &[(u32, u32)], proposers: u32, reviewers: u32) -> Option<u32>
    requires { length pairs.now < 2 ^ 24 }
    ensures { MatchOption result
        ((n : ℕ) → n < length pairs.now → IsPairOf proposers reviewers (pair_at pairs.now n))
        (λ n. IsFirstBadPair proposers reviewers pairs.now n) }
{
    for n in 0..pairs.len() as u32 {
        let (p, r) = pairs[n as usize];
        if p >= proposers || r >= reviewers {
            return Some(n);
        }
    }
    None
}

/// Hashes for the pairs that are weighed, which no pair can choose.
fn hash_of_weights(weights: &[(u32, u32, i64)]) -> TextHash {
    let mut digest = Digest::new();
    for (p, r, _) in weights {
        digest.take(&p.to_le_bytes());
        digest.take(&r.to_le_bytes());
    }
    digest.hash()
}

/// The pairs that are weighed, or the first weight that isn't sound.
fn checked_weights(
    alloc: Global,
    proposers: u32,
    reviewers: u32,
    weights: &[(u32, u32, i64)],
) -> Result<Pairs, InstanceFault>
    requires { length weights.now < 2 ^ 24 }
    ensures pairs { IfOk result (λ pairs. pairs ≡ map weighed weights.now) }
    ensures sound { OnOk result ((n : ℕ) → n < length weights.now
        → IsSoundItem proposers reviewers weights.now (map weighed weights.now) n) }
    ensures fault { IfErr result
        (λ f. IsItemFault proposers reviewers weights.now (map weighed weights.now) f) }
{
    let mut pairs = Pairs::with_room(alloc, hash_of_weights(weights), weights.len())?;
    for n in 0..weights.len() as u32 {
        let (p, r, weight) = weights[n as usize];
        if p >= proposers || r >= reviewers || weight.unsigned_abs() > MOST_WEIGHT.unsigned_abs() {
            return Err(InstanceFault::BadPair(n));
        }
        let is_new = pairs.add((p, r))?;
        if !is_new {
            return Err(InstanceFault::BadPair(n));
        }
    }
    Ok(pairs)
}

/// The pairs that are weighed, or the first weight, forced or forbidden pair that isn't sound.
fn checked_items(
    alloc: Global,
    proposers: u32,
    reviewers: u32,
    weights: &[(u32, u32, i64)],
    forced: &[(u32, u32)],
    forbidden: &[(u32, u32)],
) -> Result<Pairs, InstanceFault>
    requires { length weights.now + length forced.now + length forbidden.now < 2 ^ 24 }
    ensures pairs { IfOk result (λ pairs. pairs ≡ map weighed weights.now) }
    ensures sound { OnOk result (let items = items_of weights.now forced.now forbidden.now in
        (n : ℕ) → n < length items → IsSoundItem proposers reviewers weights.now items n) }
    ensures fault { IfErr result (λ f. IsItemFault proposers reviewers weights.now
        (items_of weights.now forced.now forbidden.now) f) }
{
    let pairs = checked_weights(alloc, proposers, reviewers, weights)?;
    if let Some(n) = first_bad_pair(forced, proposers, reviewers) {
        return Err(InstanceFault::BadPair(weights.len() as u32 + n));
    }
    if let Some(n) = first_bad_pair(forbidden, proposers, reviewers) {
        return Err(InstanceFault::BadPair((weights.len() + forced.len()) as u32 + n));
    }
    Ok(pairs)
}

/// The names of both sides and the pairs that are weighed. Takes time and memory in proportion to the agents, the entries and the
/// items.
///
/// # Errors
///
/// The fault is the first thing that stands in the way of an instance.
pub fn checked(alloc: Global, parts: &Parts) -> Result<(Names, Names, Pairs), InstanceFault>
    requires two_sided { parts.now.kind ≢ Kind.Roommates }
    requires limits { IsWithinLimits (agents_of parts.now.proposers.items)
        (agents_of parts.now.reviewers.items) }
    requires seconds { parts.now.seconds.items ≡ map (λ _. pos 0) parts.now.weights.items }
    requires order { parts.now.order.items
        ≡ range_with_len 0 (length (agents_of parts.now.proposers.items)) }
    requires few { length parts.now.weights.items + length parts.now.forced.items
        + length parts.now.forbidden.items < 2 ^ 24 }
    ensures instance { OnOk result (IsInstance (written_in parts.now)) }
    ensures left { IfOk result (λ kept. kept.0 ≡ names_of (agents_of parts.now.proposers.items)) }
    ensures right { IfOk result (λ kept. kept.1 ≡ names_of (agents_of parts.now.reviewers.items)) }
    ensures weighed { IfOk result (λ kept. kept.2 ≡ map weighed parts.now.weights.items) }
    ensures fault { IfErr result (λ f. IsInstanceFault (written_in parts.now) f) }
{
    let proposers = parts.proposers.as_slice();
    let reviewers = parts.reviewers.as_slice();
    let (left, right) = checked_agents(alloc, parts.kind, proposers, reviewers)?;
    let lefts = proposers.len() as u32;
    let rights = reviewers.len() as u32;
    check_lists(alloc, proposers, reviewers)?;
    let weighed = checked_items(
        alloc,
        lefts,
        rights,
        &parts.weights,
        &parts.forced,
        &parts.forbidden,
    )?;
    Ok((left, right, weighed))
}

/// The names of both sides, or the first agent that isn't sound.
fn checked_agents(
    alloc: Global,
    kind: Kind,
    proposers: &[Agent],
    reviewers: &[Agent],
) -> Result<(Names, Names), InstanceFault>
    requires proposers { length proposers.now ≤ most_agents }
    requires reviewers { length reviewers.now ≤ most_agents }
    ensures proposers { OnOk result (AreSoundAgents (agents_of proposers.now) true) }
    ensures reviewers { OnOk result (AreSoundAgents (agents_of reviewers.now)
        (is_single_kind kind)) }
    ensures left { IfOk result (λ kept. kept.0 ≡ names_of (agents_of proposers.now)) }
    ensures right { IfOk result (λ kept. kept.1 ≡ names_of (agents_of reviewers.now)) }
    ensures fault { IfErr result
        (λ f. AreAgentsFaulty (agents_of proposers.now) (agents_of reviewers.now)
        (is_single_kind kind) f) }
{
    let left = checked_names(alloc, Side::Proposers, proposers, true)?;
    let right = checked_names(alloc, Side::Reviewers, reviewers, is_single(kind))?;
    Ok((left, right))
}

/// Whether all entries of both sides are sound; if not, the first that isn't.
fn check_lists(alloc: Global, proposers: &[Agent], reviewers: &[Agent]) -> Result<(), InstanceFault>
    requires { IsWithinLimits (agents_of proposers.now) (agents_of reviewers.now) }
    ensures proposers { OnOk result (AreSoundEntries (agents_of proposers.now)
        (length (agents_of reviewers.now))) }
    ensures reviewers { OnOk result (AreSoundEntries (agents_of reviewers.now)
        (length (agents_of proposers.now))) }
    ensures fault { IfErr result
        (λ f. AreEntriesFaulty (agents_of proposers.now) (agents_of reviewers.now) f) }
{
    check_entries(alloc, Side::Proposers, proposers, reviewers.len() as u32)?;
    check_entries(alloc, Side::Reviewers, reviewers, proposers.len() as u32)
}

/// Has every reviewer a single place, in an instance of this kind?
fn is_single(kind: Kind) -> bool
    ensures { result ≡ is_single_kind kind }
{
    match kind {
        Kind::Marriage | Kind::Roommates => true,
        Kind::Hospitals => false,
    }
}

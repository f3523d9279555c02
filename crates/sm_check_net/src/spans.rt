//! Where proposers come to levels and leave them, and the edges that conditions ask for.

ghost use Rattle.std.specs.Prelude.{◌≡◌, ℕ, ◌+◌, ◌<◌, ◌^◌, ◌==◌, ◌&&◌, ◌++◌, length, slice_index, replicate, true, if◌then◌else◌, IfOk};
ghost use Rattle.std.specs.List.{flat_map};
ghost use Rattle.sm_lists.specs.Rows.{row, rows_of};
ghost use Rattle.sm_market.specs.Matching.{held};
ghost use Rattle.sm_theory.specs.Conditions.{has_level};
ghost use Rattle.sm_check_net.specs.Pairs.{has_pair, IsFirstAt};
ghost use Rattle.sm_lists.specs.Pairs.{pair_at};
ghost use Rattle.sm_check_net.specs.Moves.{moves_in, row_of_moves};
ghost use Rattle.sm_check_net.specs.Spans.{passes, some_pass, entry_by, exit_by, forced_pairs, forbidden_pairs, bonds_of, AreNodesFor, marked, marks, HaveLevels, HaveFirstLevels, AreFirstBelow};

use crate::moves::Move;
use crate::pairs::Pairs;
use sm_lists::entry_at;
use sm_market::Pairing;
use std::alloc::{AllocError, Global};

/// The unbounded edges that conditions ask for, where the moves of the rotations of a chain are given, and its first matching.
/// Conditions are pairs of a proposer and a level, and the levels are one for each place of each proposer.
///
/// A forced pair asks for an edge from the source to its entry, and one from its exit to the sink, and a forbidden one for an edge
/// from its entry to its exit. The entry is the source where the proposer begins at the level, else the first rotation that moves
/// it there, else the sink. The exit is the first rotation that moves it from the level to another, else the sink.
///
/// Takes time in proportion to the moves and conditions and the logarithm of their number, and memory in proportion to the
/// conditions (Gusfield and Irving 1989, chapter 3).
///
/// # Errors
///
/// `AllocError` where memory ran out, and only then.
pub fn bonds(
    alloc: Global,
    levels: &[Vec<u32>],
    first: &Pairing,
    moves: &[Vec<Move>],
    forced: &[(u32, u32)],
    forbidden: &[(u32, u32)],
) -> Result<Vec<(u32, u32)>, AllocError>
    requires few { length moves.now + 2 < 2 ^ 32 }
    requires proposers { length first.now.places.proposers ≡ length levels.now }
    requires moves { (k : ℕ) → k < length moves.now
        → HaveLevels (rows_of levels.now) (row_of_moves (moves_in moves.now) k) }
    requires first { HaveFirstLevels (rows_of levels.now) first.now.places.proposers }
    requires forced { AreFirstBelow (length levels.now) forced.now }
    requires forbidden { AreFirstBelow (length levels.now) forbidden.now }
    ensures { IfOk result (λ bonds. bonds.items
        ≡ bonds_of (rows_of levels.now) first.now.places.proposers (moves_in moves.now) forced.now
        forbidden.now) }
{
    let keys = Pairs::of(both(alloc, forced, forbidden)?);
    let entries = entries(alloc, levels, first, moves, &keys)?;
    let exits = exits(alloc, levels, moves, &keys)?;
    let mut bonds = Vec::new(alloc);
    let sink = moves.len() as u32 + 1;
    add_forced(&keys, &entries, &exits, sink, forced, &mut bonds)?;
    add_forbidden(&keys, &entries, &exits, forbidden, &mut bonds)?;
    Ok(bonds)
}

/// Two lists of pairs as one.
fn both(
    alloc: Global,
    pairs: &[(u32, u32)],
    others: &[(u32, u32)],
) -> Result<Vec<(u32, u32)>, AllocError>
    ensures { IfOk result (λ both. both.items ≡ pairs.now ++ others.now) }
{
    let mut both = Vec::with_capacity(alloc, pairs.len())?;
    both.extend_from_slice(pairs)?;
    both.extend_from_slice(others)?;
    Ok(both)
}

/// Where each pair's proposer comes to its level.
fn entries(
    alloc: Global,
    levels: &[Vec<u32>],
    first: &Pairing,
    moves: &[Vec<Move>],
    keys: &Pairs,
) -> Result<Vec<u32>, AllocError>
    requires few { length moves.now + 2 < 2 ^ 32 }
    requires proposers { length first.now.places.proposers ≡ length levels.now }
    requires moves { (k : ℕ) → k < length moves.now
        → HaveLevels (rows_of levels.now) (row_of_moves (moves_in moves.now) k) }
    requires first { HaveFirstLevels (rows_of levels.now) first.now.places.proposers }
    requires keys { AreFirstBelow (length levels.now) keys.now }
    ensures { IfOk result (λ nodes. AreNodesFor keys.now
        (entry_by (rows_of levels.now) first.now.places.proposers (moves_in moves.now))
        nodes.items) }
{
    let sink = moves.len() as u32 + 1;
    let mut nodes = begun(alloc, levels, first, keys, sink)?;
    let passages = Passages {
        levels,
        passage: Passage::Entry,
    };
    mark_all(passages, moves, keys, sink, &mut nodes);
    Ok(nodes)
}

/// Where each pair's proposer leaves its level.
fn exits(
    alloc: Global,
    levels: &[Vec<u32>],
    moves: &[Vec<Move>],
    keys: &Pairs,
) -> Result<Vec<u32>, AllocError>
    requires few { length moves.now + 2 < 2 ^ 32 }
    requires moves { (k : ℕ) → k < length moves.now
        → HaveLevels (rows_of levels.now) (row_of_moves (moves_in moves.now) k) }
    ensures { IfOk result (λ nodes. AreNodesFor keys.now (exit_by (rows_of levels.now)
        (moves_in moves.now)) nodes.items) }
{
    let sink = moves.len() as u32 + 1;
    let mut nodes = all_at(alloc, keys.len(), sink)?;
    let passages = Passages {
        levels,
        passage: Passage::Exit,
    };
    mark_all(passages, moves, keys, sink, &mut nodes);
    Ok(nodes)
}

/// So many nodes that are this one.
fn all_at(alloc: Global, count: usize, node: u32) -> Result<Vec<u32>, AllocError>
    ensures { IfOk result (λ nodes. nodes.items ≡ replicate count node) }
{
    vec![in alloc; node; count]
}

/// The source for each pair whose proposer begins at its level, and the sink for all others.
fn begun(
    alloc: Global,
    levels: &[Vec<u32>],
    first: &Pairing,
    keys: &Pairs,
    sink: u32,
) -> Result<Vec<u32>, AllocError>
    requires proposers { length first.now.places.proposers ≡ length levels.now }
    requires first { HaveFirstLevels (rows_of levels.now) first.now.places.proposers }
    requires keys { AreFirstBelow (length levels.now) keys.now }
    ensures { IfOk result (λ nodes. AreNodesFor keys.now
        (λ p level. if has_level (rows_of levels.now) p level (held first.now.places.proposers p)
        then 0 else sink) nodes.items) }
{
    let mut nodes = Vec::with_capacity(alloc, keys.len())?;
    for x in 0..keys.len() {
        let (p, level) = keys.at(x);
        nodes.push(begin(levels, first, p, level, sink))?;
    }
    Ok(nodes)
}

/// The source where a proposer begins at a level, and else the sink.
fn begin(levels: &[Vec<u32>], first: &Pairing, p: u32, level: u32, sink: u32) -> u32
    requires in_range { p < length levels.now }
    requires proposers { length first.now.places.proposers ≡ length levels.now }
    requires first { HaveFirstLevels (rows_of levels.now) first.now.places.proposers }
    ensures { result ≡ (if has_level (rows_of levels.now) p level
        (held first.now.places.proposers p) then 0 else sink) }
{
    match first.place(p) {
        Some(place) => {
            if entry_at(levels, p, place) == level {
                0
            } else {
                sink
            }
        }
        None => sink,
    }
}

/// How a proposer passes a level.
#[derive(Clone, Copy)]
enum Passage {
    /// It comes to the level.
    Entry,
    /// It leaves the level.
    Exit,
}

/// The levels of proposers, and how they are passed.
#[derive(Clone, Copy)]
struct Passages<'a> {
    levels: &'a [Vec<u32>],
    passage: Passage,
}

/// Marks, for all rotations in order, where proposers pass levels first.
fn mark_all(passages: Passages, moves: &[Vec<Move>], keys: &Pairs, sink: u32, nodes: &mut [u32])
    requires few { length moves.now + 2 < 2 ^ 32 }
    requires sink { sink ≡ length moves.now + 1 }
    requires moves { (k : ℕ) → k < length moves.now
        → HaveLevels (rows_of passages.levels.now) (row_of_moves (moves_in moves.now) k) }
    requires one_each { length nodes.old ≡ length keys.now }
    ensures one_each { length nodes.new ≡ length nodes.old }
    ensures marked { (x i j : ℕ) → IsFirstAt keys.now (i, j) x → slice_index nodes.new x
        ≡ marks (λ k. some_pass passages.entry.passage (rows_of passages.entry.levels.now) i j
        (row_of_moves (moves_in moves.now) k)) (length moves.now) sink (slice_index nodes.old x) }
{
    for k in 0..moves.len() {
        mark_moves(
            passages,
            moves_at(moves, k),
            keys,
            k as u32 + 1,
            sink,
            nodes,
        );
    }
}

/// The moves of a rotation. Rotations are numbered from 0. Takes constant time.
pub fn moves_at(moves: &[Vec<Move>], k: usize) -> &[Move]
    requires { k < length moves.now }
    ensures { result.now ≡ row_of_moves (moves_in moves.now) k }
{
    &moves[k]
}

/// Marks where proposers pass levels by these moves, and have not passed them before.
fn mark_moves(
    passages: Passages,
    moves: &[Move],
    keys: &Pairs,
    node: u32,
    sink: u32,
    nodes: &mut [u32],
)
    requires moves { HaveLevels (rows_of passages.levels.now) moves.now }
    requires one_each { length nodes.old ≡ length keys.now }
    requires node { node < sink }
    ensures one_each { length nodes.new ≡ length nodes.old }
    ensures marked { (x i j : ℕ) → IsFirstAt keys.now (i, j) x → slice_index nodes.new x
        ≡ marked (some_pass passages.entry.passage (rows_of passages.entry.levels.now) i j moves.now) node sink
        (slice_index nodes.old x) }
{
    for n in 0..moves.len() {
        mark_move(passages, moves[n], keys, node, sink, nodes);
    }
}

/// Marks the level that a proposer passes by a move.
fn mark_move(passages: Passages, step: Move, keys: &Pairs, node: u32, sink: u32, nodes: &mut [u32])
    requires proposer { step.proposer < length passages.levels.now }
    requires from { step.from < length (row (rows_of passages.levels.now) step.proposer) }
    requires to { step.to < length (row (rows_of passages.levels.now) step.proposer) }
    requires one_each { length nodes.old ≡ length keys.now }
    ensures one_each { length nodes.new ≡ length nodes.old }
    ensures marked { (x i j : ℕ) → IsFirstAt keys.now (i, j) x → slice_index nodes.new x
        ≡ marked (passes passages.entry.passage (rows_of passages.entry.levels.now) i j step) node sink
        (slice_index nodes.old x) }
{
    let to = entry_at(passages.levels, step.proposer, step.to);
    match passages.passage {
        Passage::Entry => mark(keys, (step.proposer, to), node, sink, nodes),
        Passage::Exit => {
            let from = entry_at(passages.levels, step.proposer, step.from);
            if from != to {
                mark(keys, (step.proposer, from), node, sink, nodes);
            }
        }
    }
}

/// Marks a pair of a proposer and a level with a node, where it has none yet.
fn mark(keys: &Pairs, key: (u32, u32), node: u32, sink: u32, nodes: &mut [u32])
    requires one_each { length nodes.old ≡ length keys.now }
    ensures one_each { length nodes.new ≡ length nodes.old }
    ensures marked { (x i j : ℕ) → IsFirstAt keys.now (i, j) x → slice_index nodes.new x
        ≡ marked (key.0 == i && key.1 == j) node sink (slice_index nodes.old x) }
{
    if let Some(x) = keys.place(key.0, key.1) {
        if nodes[x] == sink {
            nodes[x] = node;
        }
    }
}

/// Adds the bonds of forced pairs.
fn add_forced(
    keys: &Pairs,
    entries: &[u32],
    exits: &[u32],
    sink: u32,
    forced: &[(u32, u32)],
    bonds: &mut Vec<(u32, u32)>,
) -> Result<(), AllocError>
    requires keys { (c : ℕ) → c < length forced.now
        → has_pair keys.now (pair_at forced.now c).0 (pair_at forced.now c).1 ≡ true }
    requires entries { length entries.now ≡ length keys.now }
    requires exits { length exits.now ≡ length keys.now }
    ensures { IfOk result (λ _. (entry exit : ℕ → ℕ → ℕ)
        → AreNodesFor keys.now entry entries.now → AreNodesFor keys.now exit exits.now
        → bonds.new.items ≡ bonds.old.items ++ flat_map (forced_pairs entry exit sink) forced.now) }
{
    for &(p, level) in forced {
        bonds.push((0, node_at(keys, entries, p, level)))?;
        bonds.push((node_at(keys, exits, p, level), sink))?;
    }
    Ok(())
}

/// Adds the bonds of forbidden pairs.
fn add_forbidden(
    keys: &Pairs,
    entries: &[u32],
    exits: &[u32],
    forbidden: &[(u32, u32)],
    bonds: &mut Vec<(u32, u32)>,
) -> Result<(), AllocError>
    requires keys { (c : ℕ) → c < length forbidden.now
        → has_pair keys.now (pair_at forbidden.now c).0 (pair_at forbidden.now c).1 ≡ true }
    requires entries { length entries.now ≡ length keys.now }
    requires exits { length exits.now ≡ length keys.now }
    ensures { IfOk result (λ _. (entry exit : ℕ → ℕ → ℕ)
        → AreNodesFor keys.now entry entries.now → AreNodesFor keys.now exit exits.now
        → bonds.new.items ≡ bonds.old.items
        ++ flat_map (forbidden_pairs entry exit) forbidden.now) }
{
    for &(p, level) in forbidden {
        bonds.push((
            node_at(keys, entries, p, level),
            node_at(keys, exits, p, level),
        ))?;
    }
    Ok(())
}

/// The node of a pair of a proposer and a level.
fn node_at(keys: &Pairs, nodes: &[u32], p: u32, level: u32) -> u32
    requires key { has_pair keys.now p level ≡ true }
    requires nodes { length nodes.now ≡ length keys.now }
    ensures { (node : ℕ → ℕ → ℕ) → AreNodesFor keys.now node nodes.now → result ≡ node p level }
{
    nodes[keys.place_of(p, level)]
}

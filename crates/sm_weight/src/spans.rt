//! Where proposers come to a level along the chain, and where they leave it.

ghost use Rattle.std.specs.Prelude.{◌≡◌, ◌+◌, ◌<◌, ◌≤◌, Option, length, slice_index, IfSome, IsTrue, ◌↔◌};
ghost use Rattle.sm_market.specs.Vectors.{rows_of};
ghost use Rattle.sm_theory.specs.Vectors.{AreLevels};
ghost use Rattle.sm_theory.specs.Conditions.{entry_node, exit_node};
ghost use Rattle.sm_weight.specs.Spans.{AreAlong, HaveNodes, level_to, place_before, BeginsAt, IsDivided, IsEntryNode, IsExit};

use sm_poset::Poset;

/// The nodes at which a proposer comes to a level and leaves it: the source, where it begins there, and the sink, where it
/// never comes there or never leaves. Rotations are numbered from 1.
#[derive(Clone, Copy, Debug)]
pub(crate) struct Span {
    pub(crate) entry: u32,
    pub(crate) exit: u32,
}

/// Where a proposer comes to a level along the chain, and where it leaves it. Takes time in proportion to the logarithm of its
/// moves, since its levels never fall from move to move.
pub(crate) fn span_of(poset: &Poset, levels: &[Vec<u32>], p: u32, level: u32) -> Span
    requires proposer { p < length poset.now.lists.proposers }
    requires levels { AreLevels poset.now.lists (rows_of levels.now) }
    ensures entry { result.entry ≡ entry_node poset.now.lists (rows_of levels.now)
        poset.now.first.places poset.now.rotations p level }
    ensures exit { result.exit ≡ exit_node poset.now.lists (rows_of levels.now) poset.now.rotations
        p level }
{
    let chain = poset.chain();
    let sink = chain.rotations.len() as u32 + 1;
    let first = chain.first.place(p);
    let stands = poset.market().proposer_standing(&chain.first, p);
    let moves = poset.moves(p);
    let levels = &levels[p as usize];
    Span {
        entry: entry(levels, first, moves, level, sink),
        exit: exit(levels, stands, moves, level, sink),
    }
}

/// The node at which a proposer with this first place and these moves comes to a level.
fn entry(levels: &[u32], first: Option<u32>, moves: &[(u32, u32)], level: u32, sink: u32) -> u32
    requires along { AreAlong levels.now moves.now }
    requires first { IfSome first (λ i. i < length levels.now) }
    requires numbers { HaveNodes moves.now sink }
    ensures { IsEntryNode levels.now first moves.now level sink result }
{
    if begins_at(levels, first, level) {
        return 0;
    }
    let a = moves_below(levels, moves, u64::from(level));
    if a == moves.len() {
        return sink;
    }
    let (rotation, place) = moves[a];
    if levels[place as usize] == level {
        rotation + 1
    } else {
        sink
    }
}

/// Whether a first place has a level.
fn begins_at(levels: &[u32], first: Option<u32>, level: u32) -> bool
    requires { IfSome first (λ i. i < length levels.now) }
    ensures { IsTrue result ↔ BeginsAt levels.now first level }
{
    match first {
        Some(i) => levels[i as usize] == level,
        None => false,
    }
}

/// The node at which a proposer that stands at this place at first leaves a level.
fn exit(levels: &[u32], stands: u32, moves: &[(u32, u32)], level: u32, sink: u32) -> u32
    requires along { AreAlong levels.now moves.now }
    requires stands { stands < length levels.now }
    requires rises { 0 < length moves.now → slice_index levels.now stands
        ≤ level_to levels.now moves.now 0 }
    requires numbers { HaveNodes moves.now sink }
    ensures { IsExit levels.now stands moves.now level sink result }
{
    let a = moves_below(levels, moves, u64::from(level) + 1);
    if a == moves.len() {
        return sink;
    }
    let before = place_before(stands, moves, a);
    if levels[before as usize] == level {
        moves[a].0 + 1
    } else {
        sink
    }
}

/// The place at which a proposer stands before a move.
fn place_before(stands: u32, moves: &[(u32, u32)], a: usize) -> u32
    requires { a < length moves.now }
    ensures { result ≡ place_before stands moves.now a }
{
    if a == 0 { stands } else { moves[a - 1].1 }
}

/// How many of a proposer's moves lead to levels below this one, found by bisection.
fn moves_below(levels: &[u32], moves: &[(u32, u32)], level: u64) -> usize
    requires { AreAlong levels.now moves.now }
    ensures { IsDivided levels.now moves.now level result }
{
    let mut low = 0;
    let mut high = moves.len();
    'halves: while low < high {
        let middle = low + (high - low) / 2;
        if u64::from(levels[moves[middle].1 as usize]) < level {
            low = middle + 1;
        } else {
            high = middle;
        }
    }
    low
}

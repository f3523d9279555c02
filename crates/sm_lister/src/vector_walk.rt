//! The walk from vector to vector.

ghost use Rattle.std.specs.Prelude.{◌≡◌, ℕ, ◌+◌, ◌<◌, ◌≤◌, true, false, Some, length, slice_index};
ghost use Rattle.sm_board.specs.Board.{Fits, IsLeast, IsInside};
ghost use Rattle.sm_lists.specs.Orders.{AreAlikeBelow};
ghost use Rattle.sm_lister.specs.Walking.{cursor_of, IsMadeFor, IsUnderWay, IsHeldUp, IsBroughtTo, IsVectorReached, IsMarkedAlong, IsKeptWalk, NoneLeft};
ghost use Rattle.sm_lister.specs.Barred.{AreBars};

use crate::bars::Bars;
use sm_board::{Course, Held};
use sm_least::{Gates, raise};

/// Where a walk over the sets that fit stands.
#[derive(Debug, Drop)]
pub struct VectorWalk {
    /// The level vector that the walk came to last, or the one that it goes on behind.
    pub(crate) vector: Vec<u32>,
    /// Whether the vector was given or reached.
    pub(crate) given: bool,
    /// For each position how much of the log the positions up to it ask for.
    pub(crate) marks: Vec<usize>,
    /// For each depth the one behind the last position before it that is the first whose level some rotation changes.
    pub(crate) skip: Vec<u32>,
    /// For each position the least of the proposers at it and behind it.
    pub(crate) least: Vec<u32>,
    /// The proposer below which the last step left the vector as it was.
    pub(crate) changed_from: u32,
    /// What the step has learnt of rotations that can't enter.
    pub(crate) bars: Bars,
    /// The position before which a set may still go up.
    pub(crate) depth: u32,
    /// Whether no step was made yet.
    pub(crate) fresh: bool,
}

/// What is met along a vector at a position.
enum Met {
    /// The least set that agrees with it up to there.
    Level,
    /// The first one above it.
    Above,
    /// Nothing from there on.
    Nothing,
}

/// What going along a vector comes to.
enum Followed {
    /// The first set above the vector, which is above it at this position first.
    Above(u32),
    /// None is above it from this position on.
    Nothing(u32),
}

/// Goes to the first set behind the vector, or to the first of all where there is none. False where there is none, and then
/// always. Takes no memory.
pub(crate) fn advance(
    course: &Course,
    gates: &Gates,
    held: &mut Held,
    walk: &mut VectorWalk,
) -> bool
    requires walking { IsKeptWalk course.now gates.now held.old walk.old }
    ensures walking { IsKeptWalk course.now gates.now held.new walk.new }
    ensures reached { result ≡ true → IsVectorReached course.now gates.now (cursor_of walk.old) held.new
        walk.new }
    ensures given { result ≡ true → walk.new.given ≡ true }
    ensures none { result ≡ false → NoneLeft course.now gates.now (cursor_of walk.old) }
    ensures same { result ≡ false → cursor_of walk.new ≡ cursor_of walk.old }
    ensures over { walk.new.fresh ≡ false }
{
    if walk.fresh && first_step(course, gates, held, walk) {
        return true;
    }
    next_step(course, gates, held, walk)
}

/// The first step: to the least set, or along the vector that was given. True where it meets the first set behind it.
fn first_step(course: &Course, gates: &Gates, held: &mut Held, walk: &mut VectorWalk) -> bool
    requires walking { IsKeptWalk course.now gates.now held.old walk.old }
    requires fresh { walk.old.fresh ≡ true }
    ensures walking { IsKeptWalk course.now gates.now held.new walk.new }
    ensures over { walk.new.fresh ≡ false }
    ensures reached { result ≡ true → IsVectorReached course.now gates.now (cursor_of walk.old) held.new
        walk.new }
    ensures given { walk.new.given ≡ true }
    ensures same { result ≡ false → cursor_of walk.new ≡ cursor_of walk.old }
{
    let _board = course.board();
    walk.fresh = false;
    if !walk.given {
        walk.given = true;
        keep(course, held, walk, 0, 0);
        return true;
    }
    match follow(course, gates, held, &walk.vector, &mut walk.marks) {
        Followed::Above(i) => {
            let from = walk.least[i as usize];
            keep(course, held, walk, i, from);
            return true;
        }
        Followed::Nothing(depth) => walk.depth = depth,
    }
    false
}

/// A later step: from the depth down, goes to the first set above the vector.
fn next_step(course: &Course, gates: &Gates, held: &mut Held, walk: &mut VectorWalk) -> bool
    requires walking { IsKeptWalk course.now gates.now held.old walk.old }
    requires over { walk.old.fresh ≡ false }
    ensures walking { IsKeptWalk course.now gates.now held.new walk.new }
    ensures over { walk.new.fresh ≡ false }
    ensures reached { result ≡ true → IsVectorReached course.now gates.now (cursor_of walk.old) held.new
        walk.new }
    ensures given { walk.new.given ≡ walk.old.given }
    ensures some { result ≡ true → walk.new.given ≡ true }
    ensures none { result ≡ false → NoneLeft course.now gates.now (cursor_of walk.old) }
    ensures same { result ≡ false → cursor_of walk.new ≡ cursor_of walk.old }
{
    walk.bars.forget();
    'depths: while walk.depth > 0 {
        if try_last(course, gates, held, walk) {
            return true;
        }
    }
    false
}

/// Tries the last position before the depth at which some rotation changes a level first. The depth falls where no set can go up
/// there.
fn try_last(course: &Course, gates: &Gates, held: &mut Held, walk: &mut VectorWalk) -> bool
    requires walking { IsKeptWalk course.now gates.now held.old walk.old }
    requires over { walk.old.fresh ≡ false }
    requires bars { AreBars course.now held.old.set walk.old.bars }
    requires some { 0 < walk.old.depth }
    ensures walking { IsKeptWalk course.now gates.now held.new walk.new }
    ensures over { walk.new.fresh ≡ false }
    ensures bars { result ≡ false → AreBars course.now held.new.set walk.new.bars }
    ensures reached { result ≡ true → IsVectorReached course.now gates.now
        (Some walk.old.vector.items) held.new walk.new }
    ensures given { walk.new.given ≡ walk.old.given }
    ensures lower { result ≡ false → walk.new.depth < walk.old.depth }
    ensures same { result ≡ false → walk.new.vector.items ≡ walk.old.vector.items }
{
    let _board = course.board();
    let below = walk.skip[walk.depth as usize];
    if below == 0 {
        walk.depth = 0;
        return false;
    }
    let i = below - 1;
    walk.depth = i;
    if walk.bars.is_barred(course, held, i) {
        return false;
    }
    if !go_up(course, gates, held, &walk.vector, &walk.marks, i) {
        return false;
    }
    let from = walk.least[i as usize];
    keep(course, held, walk, i, from);
    true
}

/// What is held becomes where the walk stands, with its mark for each position from one on. Below the proposer `from` the vector
/// has the levels that are held. Takes time in proportion to the proposers from there on, and to those positions.
fn keep(course: &Course, held: &Held, walk: &mut VectorWalk, i: u32, from: u32)
    requires level_each { length walk.old.vector.items ≡ length held.now.levels }
    requires position { i ≤ length walk.old.marks.items }
    requires alike { AreAlikeBelow from walk.old.vector.items held.now.levels }
    ensures { IsBroughtTo course.now held.now i from walk.old walk.new }
{
    copy_from(&mut walk.vector, held.levels(), from as usize);
    fill_from(&mut walk.marks, i as usize, held.count());
    walk.changed_from = from;
    walk.depth = course.proposers();
}

/// Makes a list the same as another one that is alike before a place.
fn copy_from(numbers: &mut [u32], others: &[u32], from: usize)
    requires long { length numbers.old ≡ length others.now }
    requires alike { AreAlikeBelow from numbers.old others.now }
    ensures { numbers.new ≡ others.now }
{
    for p in from..numbers.len() {
        numbers[p] = others[p];
    }
}

/// Writes a number to all places from one on.
fn fill_from(marks: &mut [usize], from: usize, count: usize)
    requires { from ≤ length marks.old }
    ensures mark_each { length marks.new ≡ length marks.old }
    ensures before { (j : ℕ) → j < from → slice_index marks.new j ≡ slice_index marks.old j }
    ensures behind { (j : ℕ) → from ≤ j → j < length marks.old → slice_index marks.new j ≡ count }
{
    for j in from..marks.len() {
        marks[j] = count;
    }
}

/// Looks for the first set above the vector that agrees with it before a position, and is above it there. What positions behind
/// this one asked for is taken back first; what it asked for itself stays.
fn go_up(
    course: &Course,
    gates: &Gates,
    held: &mut Held,
    vector: &[u32],
    marks: &[usize],
    i: u32,
) -> bool
    requires under_way { IsUnderWay course.now gates.now held.old vector.now marks.now (i + 1) }
    ensures up { result ≡ true → IsHeldUp course.now gates.now held.new vector.now marks.now i }
    ensures under_way { result ≡ false → IsUnderWay course.now gates.now held.new vector.now
        marks.now i }
    ensures fewer { result ≡ false → IsInside held.new.set held.old.set }
{
    let _board = course.board();
    let p = course.proposer_at(i);
    course.back(held, marks[i as usize]);
    raise(course, gates, held, p, u64::from(vector[p as usize]) + 1, i)
}

/// Goes along a vector as far as sets agree with it.
fn follow(
    course: &Course,
    gates: &Gates,
    held: &mut Held,
    vector: &[u32],
    marks: &mut [usize],
) -> Followed
    requires made { IsMadeFor course.now gates.now held.old vector.now marks.old }
    requires least { IsLeast (Fits course.now.board gates.now) held.old.set }
    ensures mark_each { length marks.new ≡ length marks.old }
    ensures up { (i : ℕ) → result ≡ Followed.Above i
        → IsHeldUp course.now gates.now held.new vector.now marks.new i }
    ensures under_way { (d : ℕ) → result ≡ Followed.Nothing d
        → IsUnderWay course.now gates.now held.new vector.now marks.new d }
{
    for i in 0..course.proposers() {
        match meet(course, gates, held, vector, marks, i) {
            Met::Level => {}
            Met::Above => return Followed::Above(i),
            Met::Nothing => return Followed::Nothing(i),
        }
    }
    Followed::Nothing(course.proposers())
}

/// Goes along a vector by one position.
fn meet(
    course: &Course,
    gates: &Gates,
    held: &mut Held,
    vector: &[u32],
    marks: &mut [usize],
    i: u32,
) -> Met
    requires along { IsMarkedAlong course.now gates.now held.old vector.now marks.old i }
    requires position { i < length course.now.board.leaves }
    ensures mark_each { length marks.new ≡ length marks.old }
    ensures along { result ≡ Met.Level → IsMarkedAlong course.now gates.now held.new vector.now
        marks.new (i + 1) }
    ensures up { result ≡ Met.Above → IsHeldUp course.now gates.now held.new vector.now marks.new i }
    ensures under_way { result ≡ Met.Nothing → IsUnderWay course.now gates.now held.new vector.now
        marks.new i }
{
    let _board = course.board();
    let p = course.proposer_at(i);
    let wanted = vector[p as usize];
    if !raise(course, gates, held, p, u64::from(wanted), i) {
        return Met::Nothing;
    }
    if wanted < held.level(p) {
        return Met::Above;
    }
    marks[i as usize] = held.count();
    Met::Level
}

//! How a set grows: what it lacks enters, as far as no level before a bar changes.

ghost use Rattle.std.specs.Prelude.{◌≡◌, ℕ, ◌<◌, ◌≤◌, Bool, true, false, List, [], length, take, Contains};
ghost use Rattle.sm_market.specs.Lists.{row};
ghost use Rattle.sm_theory.specs.ClosedSets.{IsMember};
ghost use Rattle.sm_theory.specs.Vectors.{IsOrder};
ghost use Rattle.sm_board.specs.Board.{IsClosedIn, IsOpen, Fits, IsLeast, level, stay};
ghost use Rattle.sm_board.specs.Growing.{AreNeedsIn};
ghost use Rattle.sm_board.specs.Courses.{IsHeld, HoldsMore, Breaks};
ghost use Rattle.sm_least.specs.Steps.{IsInAll, HasRotation, IsHigh, AreOpened, AreSettled};
ghost use Rattle.sm_least.specs.Gates.{AreGatesOf};
ghost use Rattle.sm_board.specs.Walks.{IsRaised, IsNotRaised};

use crate::gates::Gates;
use sm_board::{Course, Held};

/// A rotation enters where it isn't held. False where it changes a level before the bar.
fn need(course: &Course, held: &mut Held, y: u32, bar: u32) -> bool
    requires held { IsHeld course.now.board held.old }
    requires positions { bar ≤ length course.now.order }
    requires number { y < length course.now.board.needs }
    ensures grows { HoldsMore course.now bar held.old held.new }
    ensures in_all { IsInAll (λ D. IsMember D y) held.old.set held.new.set }
    ensures member { result ≡ true → IsMember held.new.set y }
    ensures barred { result ≡ false → Breaks (λ D. IsMember D y) course.now bar held.old.set }
{
    if held.has(y) {
        return true;
    }
    course.enter(held, y, bar)
}

/// The predecessors of a held rotation enter that are missing. False where one of them changes a level before the bar.
fn enter_needs(course: &Course, held: &mut Held, x: u32, bar: u32) -> bool
    requires held { IsHeld course.now.board held.old }
    requires positions { bar ≤ length course.now.order }
    requires number { x < length course.now.board.needs }
    requires member { IsMember held.old.set x }
    ensures grows { HoldsMore course.now bar held.old held.new }
    ensures in_all { IsInAll (IsClosedIn course.now.board) held.old.set held.new.set }
    ensures entered { result ≡ true → (i : ℕ) → Contains (row course.now.board.needs x) i
        → IsMember held.new.set i }
    ensures barred { result ≡ false → Breaks (IsClosedIn course.now.board) course.now bar
        held.old.set }
{
    for &y in course.needs(x) {
        if !need(course, held, y, bar) {
            return false;
        }
    }
    true
}

/// All enters that the rotations held from a place of the log on need, and what that needs. False where something changes a
/// level before the bar.
fn close(course: &Course, held: &mut Held, start: usize, bar: u32) -> bool
    requires held { IsHeld course.now.board held.old }
    requires positions { bar ≤ length course.now.order }
    requires start { start ≤ length held.old.log }
    requires before { AreNeedsIn course.now.board held.old.set held.old.log start }
    ensures grows { HoldsMore course.now bar held.old held.new }
    ensures in_all { IsInAll (IsClosedIn course.now.board) held.old.set held.new.set }
    ensures closed { result ≡ true → IsClosedIn course.now.board held.new.set }
    ensures barred { result ≡ false → Breaks (IsClosedIn course.now.board) course.now bar
        held.old.set }
{
    let mut place = start;
    while place < held.count() {
        if !enter_needs(course, held, held.entered(place), bar) {
            return false;
        }
        place += 1;
    }
    true
}

/// A rotation enters with all that it needs. False where something changes a level before the bar.
fn bring(course: &Course, held: &mut Held, x: u32, bar: u32) -> bool
    requires held { IsHeld course.now.board held.old }
    requires closed { IsClosedIn course.now.board held.old.set }
    requires positions { bar ≤ length course.now.order }
    requires number { x < length course.now.board.needs }
    requires fresh { ¬ IsMember held.old.set x }
    ensures grows { HoldsMore course.now bar held.old held.new }
    ensures in_all { IsInAll (HasRotation course.now.board x) held.old.set held.new.set }
    ensures member { result ≡ true → IsMember held.new.set x }
    ensures closed { result ≡ true → IsClosedIn course.now.board held.new.set }
    ensures barred { result ≡ false → Breaks (HasRotation course.now.board x) course.now bar
        held.old.set }
{
    let start = held.count();
    course.enter(held, x, bar) && close(course, held, start, bar)
}

/// A proposer goes on to an open stay. False where it can't, or where something changes a level before the bar.
fn open(course: &Course, gates: &Gates, held: &mut Held, p: u32, bar: u32) -> bool
    requires held { IsHeld course.now.board held.old }
    requires closed { IsClosedIn course.now.board held.old.set }
    requires positions { bar ≤ length course.now.order }
    requires proposer { p < length course.now.board.leaves }
    requires gates { AreGatesOf course.now.board gates.now }
    ensures grows { HoldsMore course.now bar held.old held.new }
    ensures in_all { IsInAll (Fits course.now.board gates.now) held.old.set held.new.set }
    ensures closed { result ≡ true → IsClosedIn course.now.board held.new.set }
    ensures opened { result ≡ true → IsOpen gates.now p (stay course.now.board held.new.set p) }
    ensures barred { result ≡ false → Breaks (Fits course.now.board gates.now) course.now bar
        held.old.set }
{
    let _board = course.board();
    'stays: while held.stay(p) < gates.until(p) {
        let stay = held.stay(p);
        if !gates.is_shut(p, stay) {
            return true;
        }
        if gates.is_last(p, stay) {
            return false;
        }
        if !bring(course, held, course.leave(p, stay), bar) {
            return false;
        }
    }
    false
}

/// All go on to open stays whom rotations of the log move, from a place on. False where one can't, or where something changes a
/// level before the bar.
fn settle(course: &Course, gates: &Gates, held: &mut Held, start: usize, bar: u32) -> bool
    requires held { IsHeld course.now.board held.old }
    requires closed { IsClosedIn course.now.board held.old.set }
    requires positions { bar ≤ length course.now.order }
    requires gates { AreGatesOf course.now.board gates.now }
    requires start { start ≤ length held.old.log }
    requires settled { AreSettled course.now.board gates.now held.old start
        (length course.now.board.leaves) }
    ensures grows { HoldsMore course.now bar held.old held.new }
    ensures in_all { IsInAll (Fits course.now.board gates.now) held.old.set held.new.set }
    ensures fits { result ≡ true → Fits course.now.board gates.now held.new.set }
    ensures barred { result ≡ false → Breaks (Fits course.now.board gates.now) course.now bar
        held.old.set }
{
    let _board = course.board();
    let mut place = start;
    while place < held.count() {
        if !open_movers(course, gates, held, held.entered(place), bar) {
            return false;
        }
        place += 1;
    }
    true
}

/// All go on to open stays whom a rotation moves, but for those whom a rotation moves again that enters for them.
fn open_movers(course: &Course, gates: &Gates, held: &mut Held, x: u32, bar: u32) -> bool
    requires held { IsHeld course.now.board held.old }
    requires closed { IsClosedIn course.now.board held.old.set }
    requires positions { bar ≤ length course.now.order }
    requires gates { AreGatesOf course.now.board gates.now }
    requires number { x < length course.now.board.needs }
    ensures grows { HoldsMore course.now bar held.old held.new }
    ensures in_all { IsInAll (Fits course.now.board gates.now) held.old.set held.new.set }
    ensures closed { result ≡ true → IsClosedIn course.now.board held.new.set }
    ensures opened { result ≡ true → let movers = row course.now.board.movers x in
        AreOpened course.now.board gates.now held.new (length held.old.log) movers (length movers) }
    ensures barred { result ≡ false → Breaks (Fits course.now.board gates.now) course.now bar
        held.old.set }
{
    for &(p, _) in course.pairs(x) {
        if !open(course, gates, held, p, bar) {
            return false;
        }
    }
    true
}

/// A proposer goes on until it stands at a level or above. False where it can't, or where something changes a level before the
/// bar.
fn lift(course: &Course, gates: &Gates, held: &mut Held, p: u32, wanted: u64, bar: u32) -> bool
    requires held { IsHeld course.now.board held.old }
    requires closed { IsClosedIn course.now.board held.old.set }
    requires positions { bar ≤ length course.now.order }
    requires proposer { p < length course.now.board.leaves }
    requires gates { AreGatesOf course.now.board gates.now }
    ensures grows { HoldsMore course.now bar held.old held.new }
    ensures in_all { IsInAll (IsHigh course.now.board gates.now p wanted) held.old.set
        held.new.set }
    ensures closed { result ≡ true → IsClosedIn course.now.board held.new.set }
    ensures high { result ≡ true → wanted ≤ level course.now.board held.new.set p }
    ensures barred { result ≡ false → Breaks (IsHigh course.now.board gates.now p wanted) course.now
        bar held.old.set }
{
    let _board = course.board();
    'stays: while u64::from(held.level(p)) < wanted {
        let stay = held.stay(p);
        if gates.is_last(p, stay) {
            return false;
        }
        if !bring(course, held, course.leave(p, stay), bar) {
            return false;
        }
    }
    true
}

/// Looks for the least set that fits, from the empty one on. True where there is one, which is held then. Takes no memory, and
/// time in proportion to the stays and to what is held before and after.
pub(crate) fn find(course: &Course, gates: &Gates, held: &mut Held) -> bool
    requires held { IsHeld course.now.board held.old }
    requires gates { AreGatesOf course.now.board gates.now }
    ensures held { IsHeld course.now.board held.new }
    ensures least { result ≡ true → IsLeast (Fits course.now.board gates.now) held.new.set }
    ensures none { result ≡ false → (D : List Bool) → ¬ Fits course.now.board gates.now D }
    ensures nothing { result ≡ false → held.new.log ≡ [] }
{
    course.back(held, 0);
    if grow_all(course, gates, held) {
        return true;
    }
    course.back(held, 0);
    false
}

/// Moves everyone to an open stay; false if someone has none.
fn grow_all(course: &Course, gates: &Gates, held: &mut Held) -> bool
    requires held { IsHeld course.now.board held.old }
    requires gates { AreGatesOf course.now.board gates.now }
    requires nothing { held.old.log ≡ [] }
    ensures held { IsHeld course.now.board held.new }
    ensures least { result ≡ true → IsLeast (Fits course.now.board gates.now) held.new.set }
    ensures none { result ≡ false → (D : List Bool) → ¬ Fits course.now.board gates.now D }
{
    for p in 0..course.proposers() {
        if !open(course, gates, held, p, 0) {
            return false;
        }
    }
    settle(course, gates, held, 0, 0)
}

/// Looks for the least set that fits, has what is held and gives a proposer a level or a higher one. Where it changes no level
/// before the bar it is held now, and otherwise what was held. Proposers and positions of the order are numbered from 0.
///
/// Takes no memory, and time in proportion to what enters, its needs and the proposers that it moves.
pub fn raise(course: &Course, gates: &Gates, held: &mut Held, p: u32, wanted: u64, bar: u32) -> bool
    requires held { IsHeld course.now.board held.old }
    requires fits { Fits course.now.board gates.now held.old.set }
    requires order { IsOrder (length course.now.board.leaves) course.now.order }
    requires positions { bar ≤ length course.now.order }
    requires proposer { p < length course.now.board.leaves }
    requires gates { AreGatesOf course.now.board gates.now }
    ensures held { IsHeld course.now.board held.new }
    ensures front { take (length held.old.log) held.new.log ≡ held.old.log }
    ensures raised { result ≡ true → IsRaised course.now.board gates.now course.now.order
        held.old.set p wanted bar held.new.set }
    ensures nothing { result ≡ false → IsNotRaised course.now.board gates.now course.now.order
        held.old.set p wanted bar }
    ensures same { result ≡ false → held.new.log ≡ held.old.log }
{
    let start = held.count();
    if grow_to(course, gates, held, p, wanted, bar) {
        return true;
    }
    course.back(held, start);
    false
}

/// The same, but where it is false what has entered stays.
fn grow_to(course: &Course, gates: &Gates, held: &mut Held, p: u32, wanted: u64, bar: u32) -> bool
    requires held { IsHeld course.now.board held.old }
    requires fits { Fits course.now.board gates.now held.old.set }
    requires order { IsOrder (length course.now.board.leaves) course.now.order }
    requires positions { bar ≤ length course.now.order }
    requires proposer { p < length course.now.board.leaves }
    requires gates { AreGatesOf course.now.board gates.now }
    ensures grows { HoldsMore course.now bar held.old held.new }
    ensures raised { result ≡ true → IsRaised course.now.board gates.now course.now.order
        held.old.set p wanted bar held.new.set }
    ensures nothing { result ≡ false → IsNotRaised course.now.board gates.now course.now.order
        held.old.set p wanted bar }
{
    let _board = course.board();
    let start = held.count();
    if !lift(course, gates, held, p, wanted, bar) {
        return false;
    }
    settle(course, gates, held, start, bar)
}

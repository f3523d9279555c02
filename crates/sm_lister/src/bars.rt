//! What a step learns of rotations that can't enter.

ghost use Rattle.std.specs.Prelude.{◌≡◌, ℕ, ◌+◌, ◌<◌, ◌≤◌, true, Option, Some, length, slice_index, set, IfOk};
ghost use Rattle.sm_theory.specs.ClosedSets.{IsMember};
ghost use Rattle.sm_theory.specs.Vectors.{IsOrder};
ghost use Rattle.sm_board.specs.Board.{IsClosedIn};
ghost use Rattle.sm_board.specs.Courses.{IsHeld};
ghost use Rattle.sm_lister.specs.Barred.{HasRoom, AreBars, IsBarred, IsBarredAt, IsNoted, IsFollowed, IsMissing};

use sm_board::{Course, Held};
use std::alloc::{AllocError, Global};

/// The rotations that a step has looked at, each with a position whose level changes wherever it enters.
///
/// A rotation is one of them where the place that is kept for it has it, so that all are forgotten at once.
#[derive(Debug, Drop)]
pub struct Bars {
    /// For each rotation its place among those that were looked at, if it is one of them.
    pub(crate) places: Vec<usize>,
    /// The rotations that were looked at, and behind them room for all others.
    pub(crate) looked: Vec<u32>,
    /// For each of these a position whose level changes wherever it enters, or a number past all positions.
    pub(crate) positions: Vec<u32>,
    /// How many there are.
    pub(crate) count: usize,
}

impl Bars {
    /// No rotations, and room for all of a board. Takes time and memory in proportion to them.
    pub(crate) fn start(alloc: Global, course: &Course) -> Result<Bars, AllocError>
        ensures { IfOk result (λ bars. HasRoom course.now bars) }
    {
        let rotations = course.board().rotations();
        Ok(Bars {
            places: vec![in alloc; 0; rotations]?,
            looked: vec![in alloc; 0; rotations]?,
            positions: vec![in alloc; 0; rotations]?,
            count: 0,
        })
    }

    /// Forgets all of them. Takes constant time.
    pub(crate) fn forget(&mut self)
        ensures none { self.new.count ≡ 0 }
        ensures places { self.new.places ≡ self.old.places }
        ensures looked { self.new.looked ≡ self.old.looked }
        ensures positions { self.new.positions ≡ self.old.positions }
    {
        self.count = 0;
    }

    /// Whether each set that is above what is held at a position has another level before it, as far as the next rotation
    /// there tells. Takes time in proportion to the needs of those rotations that are looked at for the first time.
    pub(crate) fn is_barred(&mut self, course: &Course, held: &Held, i: u32) -> bool
        requires order { IsOrder (length course.now.board.leaves) course.now.order }
        requires held { IsHeld course.now.board held.now }
        requires closed { IsClosedIn course.now.board held.now.set }
        requires position { i < length course.now.board.leaves }
        requires bars { AreBars course.now held.now.set self.old }
        ensures bars { AreBars course.now held.now.set self.new }
        ensures barred { result ≡ true → IsBarredAt course.now held.now.set i }
    {
        let board = course.board();
        let p = course.proposer_at(i);
        let stay = held.stay(p);
        if stay >= board.moves(p).len() {
            return true;
        }
        let x = course.leave(p, stay);
        course.first_positions()[x as usize] < i || self.position(course, held, x) < i
    }

    /// A position whose level changes wherever a rotation enters, or a number past all positions.
    fn position(&mut self, course: &Course, held: &Held, x: u32) -> u32
        requires order { IsOrder (length course.now.board.leaves) course.now.order }
        requires held { IsHeld course.now.board held.now }
        requires number { x < length course.now.board.needs }
        requires fresh { ¬ IsMember held.now.set x }
        requires bars { AreBars course.now held.now.set self.old }
        ensures bars { AreBars course.now held.now.set self.new }
        ensures barred { result < length course.now.order → IsBarred course.now held.now.set x (result
            + 1) }
    {
        let start = self.count;
        let position = self.follow(course, held, x);
        fill_between(&mut self.positions, start, self.count, position);
        position
    }

    /// Goes from a rotation to one that it needs and that isn't held, as far as there is one that wasn't looked at. All of them
    /// are looked at now. Gives a position whose level changes wherever one of them enters, or a number past all positions.
    fn follow(&mut self, course: &Course, held: &Held, x: u32) -> u32
        requires order { IsOrder (length course.now.board.leaves) course.now.order }
        requires held { IsHeld course.now.board held.now }
        requires number { x < length course.now.board.needs }
        requires fresh { ¬ IsMember held.now.set x }
        requires bars { AreBars course.now held.now.set self.old }
        ensures followed { IsFollowed course.now held.now.set x result self.old self.new }
    {
        let _board = course.board();
        let start = self.count;
        let mut now = x;
        'needs: while self.count < self.looked.len() {
            if let Some(position) = self.noted(now, start) {
                return position;
            }
            self.look(now);
            match missing(course, held, now) {
                Some(need) => now = need,
                None => return course.first_positions()[now as usize],
            }
        }
        course.proposers()
    }

    /// What was noted for a rotation, if it is one of the first ones that were looked at.
    fn noted(&self, x: u32, count: usize) -> Option<u32>
        requires number { x < length self.now.places.items }
        requires looked { count ≤ length self.now.looked.items }
        requires positions { count ≤ length self.now.positions.items }
        ensures { (position : ℕ) → result ≡ Some position
            → IsNoted self.now.looked.items self.now.positions.items count x position }
    {
        let place = self.places[x as usize];
        if place < count && self.looked[place] == x {
            return Some(self.positions[place]);
        }
        None
    }

    /// A rotation is one of those that were looked at.
    fn look(&mut self, x: u32)
        requires number { x < length self.old.places.items }
        requires room { self.old.count < length self.old.looked.items }
        ensures count { self.new.count ≡ self.old.count + 1 }
        ensures place_each { length self.new.places.items ≡ length self.old.places.items }
        ensures looked { self.new.looked.items ≡ set self.old.looked.items self.old.count x }
        ensures positions { self.new.positions ≡ self.old.positions }
    {
        self.places[x as usize] = self.count;
        self.looked[self.count] = x;
        self.count += 1;
    }
}

/// Writes a number to the places from one on and before another one.
fn fill_between(numbers: &mut [u32], from: usize, until: usize, number: u32)
    requires { until ≤ length numbers.old }
    ensures one_each { length numbers.new ≡ length numbers.old }
    ensures before { (k : ℕ) → k < from → slice_index numbers.new k ≡ slice_index numbers.old k }
    ensures between { (k : ℕ) → from ≤ k → k < until → slice_index numbers.new k ≡ number }
{
    for k in from..until {
        numbers[k] = number;
    }
}

/// A rotation that another one needs and that isn't held, if there is one.
fn missing(course: &Course, held: &Held, x: u32) -> Option<u32>
    requires held { IsHeld course.now.board held.now }
    requires number { x < length course.now.board.needs }
    ensures { (y : ℕ) → result ≡ Some y → IsMissing course.now.board held.now.set x y }
{
    for &y in course.needs(x) {
        if !held.has(y) {
            return Some(y);
        }
    }
    None
}

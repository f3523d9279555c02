//! The order of a walk over a board.

ghost use Rattle.std.specs.Prelude.{◌≡◌, ℕ, ◌<◌, ◌≤◌, ◌^◌, ◌++◌, ◌∷◌, [], true, false, length, take, set, slice_index, IfOk};
ghost use Rattle.sm_market.specs.Lists.{row};
ghost use Rattle.sm_theory.specs.ClosedSets.{IsMember};
ghost use Rattle.sm_theory.specs.Vectors.{IsOrder};
ghost use Rattle.sm_board.specs.Board.{IsBoard, Changes, IsFirstChange, firsts, leave};
ghost use Rattle.sm_board.specs.Courses.{IsCourse, IsHeld, HoldsMore, Breaks};

use crate::board::Board;
use crate::held::Held;
use std::alloc::{AllocError, Global};
use std::marker::Model;

/// A board and an order of its proposers.
#[derive(Debug, Drop)]
pub struct Course {
    pub(crate) board: Board,
    /// The proposers, each once.
    pub(crate) order: Vec<u32>,
    /// How many of them there are: none before there is an order.
    pub(crate) positions: usize,
    /// For each rotation the first position in the order whose level it changes, or the number of proposers.
    pub(crate) first: Vec<u32>,
}

impl Model for Course {
    ghost use Rattle.std.specs.Prelude.{◌≡◌, length, take};
    ghost use Rattle.sm_board.specs.Courses.{Course as Plain, IsCourse};

    ghost Value = { Plain };

    ghost view = { λ s. record { board = s.board; order = take s.positions s.order.items; first = s.first.items } };

    ghost invariant = { λ s. IsCourse (record { board = s.board; order = take s.positions s.order.items; first = s.first.items })
        × (length s.order.items ≡ length s.board.leaves) };
}

impl Course {
    /// A board for which there is no order yet. Takes time and memory in proportion to the proposers and rotations.
    ///
    /// # Errors
    ///
    /// `AllocError` where memory ran out, and only then.
    pub fn new(alloc: Global, board: Board) -> Result<Course, AllocError>
        requires board { IsBoard board }
        requires few { length board.leaves < 2 ^ 32 }
        ensures board { IfOk result (λ course. course.board ≡ board) }
        ensures order { IfOk result (λ course. course.order ≡ []) }
        ensures course { IfOk result (λ course. IsCourse course) }
    {
        let order = vec![in alloc; 0; board.proposers()]?;
        let first = vec![in alloc; 0; board.rotations()]?;
        Ok(Course {
            board,
            order,
            positions: 0,
            first,
        })
    }

    /// Takes another order, which has each proposer once. Takes time in proportion to the stays.
    pub fn set_order(&mut self, order: &[u32])
        requires { IsOrder (length self.old.board.leaves) order.now }
        ensures board { self.new.board ≡ self.old.board }
        ensures order { self.new.order ≡ order.now }
        ensures course { IsCourse self.new }
    {
        self.order.copy_from_slice(order);
        self.positions = order.len();
        find_first(&self.board, order, &mut self.first);
    }

    /// The proposer at a position of the order. Positions and proposers are numbered from 0. Takes constant time.
    pub fn proposer_at(&self, position: u32) -> u32
        requires { position < length self.now.order }
        ensures proposer { result ≡ slice_index self.now.order position }
        ensures course { IsCourse self.now }
    {
        let _ = &self.board;
        let _ = &self.first;
        let _ = self.positions;
        self.order[position as usize]
    }

    /// The board on which this order stands. Takes constant time.
    pub fn board(&self) -> &Board
        ensures board { result.now ≡ self.now.board }
        ensures course { IsCourse self.now }
    {
        let _ = self.positions;
        let _ = &self.order;
        let _ = &self.first;
        &self.board
    }

    /// How many proposers there are. Takes constant time.
    pub fn proposers(&self) -> u32
        ensures proposers { result ≡ length self.now.board.leaves }
        ensures course { IsCourse self.now }
    {
        let board = self.board();
        board.proposers() as u32
    }

    /// The predecessors of a rotation. All are numbered from 0. Takes constant time.
    pub fn needs(&self, x: u32) -> &[u32]
        requires { x < length self.now.board.needs }
        ensures needs { result.now ≡ row self.now.board.needs x }
        ensures course { IsCourse self.now }
    {
        self.board().needs(x)
    }

    /// The proposers that a rotation moves, each with the reviewer that it leaves. All are numbered from 0. Takes constant time.
    pub fn pairs(&self, x: u32) -> &[(u32, u32)]
        requires { x < length self.now.board.needs }
        ensures movers { firsts result.now ≡ row self.now.board.movers x }
        ensures course { IsCourse self.now }
    {
        self.board().pairs(x)
    }

    /// The rotation that ends a stay of a proposer. All are numbered from 0. Takes constant time.
    pub fn leave(&self, p: u32, stay: usize) -> u32
        requires proposer { p < length self.now.board.leaves }
        requires stay { stay < length (row self.now.board.leaves p) }
        ensures rotation { result ≡ leave self.now.board p stay }
        ensures course { IsCourse self.now }
    {
        self.board().leave(p, stay)
    }

    /// Enters a rotation unless that changes the level at a position before `bar`. True if it entered; what is held is then one
    /// rotation more, and otherwise what it was. Positions and rotations are numbered from 0. Takes time in proportion to the
    /// proposers that the rotation moves, and constant time where it does not enter.
    pub fn enter(&self, held: &mut Held, x: u32, bar: u32) -> bool
        requires held { IsHeld self.now.board held.old }
        requires positions { bar ≤ length self.now.order }
        requires number { x < length self.now.board.needs }
        requires fresh { ¬ IsMember held.old.set x }
        ensures grows { HoldsMore self.now bar held.old held.new }
        ensures entered { result ≡ true → held.new.set ≡ set held.old.set x true }
        ensures logged { result ≡ true → held.new.log ≡ held.old.log ++ x ∷ [] }
        ensures barred { result ≡ false → Breaks (λ D. IsMember D x) self.now bar held.old.set }
        ensures same { result ≡ false → held.new.set ≡ held.old.set }
        ensures course { IsCourse self.now }
    {
        let board = self.board();
        if self.first[x as usize] < bar {
            return false;
        }
        held.enter(board, x);
        true
    }

    /// Undoes the latest entries until `count` rotations are held. Takes time in proportion to the proposers that these
    /// rotations move.
    pub fn back(&self, held: &mut Held, count: usize)
        requires held { IsHeld self.now.board held.old }
        requires some { count ≤ length held.old.log }
        ensures held { IsHeld self.now.board held.new }
        ensures logged { held.new.log ≡ take count held.old.log }
        ensures course { IsCourse self.now }
    {
        held.back(self.board(), count);
    }

    /// For each rotation the first position whose level it changes, or the end of the order where it changes none. Positions
    /// and rotations are numbered from 0. Takes constant time.
    pub fn first_positions(&self) -> &[u32]
        ensures positions { result.now ≡ self.now.first }
        ensures course { IsCourse self.now }
    {
        let _board = self.board();
        let _ = self.positions;
        &self.first
    }
}

/// Finds for each rotation the first position in an order whose level it changes.
fn find_first(board: &Board, order: &[u32], first: &mut [u32])
    requires board { IsBoard board.now }
    requires order { IsOrder (length board.now.leaves) order.now }
    requires few { length board.now.leaves < 2 ^ 32 }
    requires first_each { length first.old ≡ length board.now.needs }
    ensures first_each { length first.new ≡ length first.old }
    ensures first_are { (x : ℕ) → x < length board.now.needs → IsFirstChange board.now order.now x
        (slice_index first.new x) }
{
    let mut j = order.len();
    first.fill(j as u32);
    while j > 0 {
        j -= 1;
        mark_changes(board, order[j], j as u32, first);
    }
}

/// Writes a number for each rotation that changes the level of a proposer.
fn mark_changes(board: &Board, p: u32, number: u32, first: &mut [u32])
    requires board { IsBoard board.now }
    requires proposer { p < length board.now.leaves }
    requires first_each { length first.old ≡ length board.now.needs }
    ensures first_each { length first.new ≡ length first.old }
    ensures marked { (x : ℕ) → Changes board.now x p → slice_index first.new x ≡ number }
    ensures others { (x : ℕ) → ¬ Changes board.now x p → slice_index first.new x
        ≡ slice_index first.old x }
{
    for a in 1..board.stays(p) {
        if board.level(p, a - 1) < board.level(p, a) {
            first[board.leave(p, a - 1) as usize] = number;
        }
    }
}

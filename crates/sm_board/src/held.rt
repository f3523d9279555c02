//! What is held: a set of rotations and the list of its members in the order of their entering.

ghost use Rattle.std.specs.Prelude.{◌≡◌, ◌≢◌, ℕ, ◌+◌, ◌-◌, ◌<◌, ◌≤◌, ◌++◌, ◌∷◌, [], true, false, length, take, set, slice_index, IfOk};
ghost use Rattle.sm_market.specs.Lists.{row};
ghost use Rattle.sm_theory.specs.ClosedSets.{IsMember};
ghost use Rattle.sm_market.specs.Vectors.{rows_of};
ghost use Rattle.sm_board.specs.Board.{Board, IsBoard, stay_level};
ghost use Rattle.sm_board.specs.Growing.{IsLogOf};
ghost use Rattle.sm_board.specs.Courses.{Held, IsHeld, IsMovedOn, IsMovedBack};

use crate::board::Board;
use sm_theory::ClosedSet;
use std::alloc::{AllocError, Global};
use std::marker::Model;

/// A set of rotations with the stays that it gives to the proposers.
#[derive(Debug, Drop)]
pub struct Held {
    pub(crate) set: ClosedSet,
    /// The members in the order of their entering, and behind them room for all others.
    pub(crate) log: Vec<u32>,
    /// How many there are.
    pub(crate) count: usize,
    /// For each proposer its stay, numbered from 0.
    pub(crate) stays: Vec<usize>,
    /// For each proposer the level of its stay.
    pub(crate) levels: Vec<u32>,
}

impl Model for Held {
    ghost use Rattle.std.specs.Prelude.{◌≤◌, length, take};
    ghost use Rattle.sm_board.specs.Courses.{Held as Plain};

    ghost Value = { Plain };

    ghost view = { λ s. record {
      set = s.set.members.items;
      log = take s.count s.log.items;
      room = length s.log.items;
      stays = s.stays.items;
      levels = s.levels.items;
    } };

    ghost invariant = { λ s. s.count ≤ length s.log.items };
}

impl Held {
    /// No rotations of a board, and room for all of them. Takes time and memory in proportion to the proposers and rotations.
    ///
    /// # Errors
    ///
    /// `AllocError` where memory ran out, and only then.
    pub fn nothing(alloc: Global, board: &Board) -> Result<Held, AllocError>
        requires { IsBoard board.now }
        ensures held { IfOk result (λ held. IsHeld board.now held) }
        ensures nothing { IfOk result (λ held. held.log ≡ []) }
    {
        let rotations = board.rotations();
        let members = vec![in alloc; false; rotations]?;
        Ok(Held {
            set: ClosedSet { members },
            log: vec![in alloc; 0; rotations]?,
            count: 0,
            stays: vec![in alloc; 0; board.proposers()]?,
            levels: first_levels(alloc, board.all_levels())?,
        })
    }

    /// The set of the rotations that are held. Takes constant time.
    pub fn set(&self) -> &ClosedSet
        ensures { result.now.members.items ≡ self.now.set }
    {
        &self.set
    }

    /// How many rotations are held. Takes constant time.
    pub fn count(&self) -> usize
        ensures { result ≡ length self.now.log }
    {
        let _ = &self.log;
        self.count
    }

    /// Whether a rotation is held. Rotations are numbered from 0. Takes constant time.
    pub fn has(&self, x: u32) -> bool
        requires { x < length self.now.set }
        ensures yes { result ≡ true → IsMember self.now.set x }
        ensures no { result ≡ false → ¬ IsMember self.now.set x }
    {
        self.set.members[x as usize]
    }

    /// The rotation that entered at a place of the log. Places and rotations are numbered from 0. Takes constant time.
    pub fn entered(&self, place: usize) -> u32
        requires { place < length self.now.log }
        ensures { result ≡ slice_index self.now.log place }
    {
        self.log[place]
    }

    /// The stay of a proposer in the matching of what is held. Proposers and stays are numbered from 0. Takes constant time.
    pub fn stay(&self, p: u32) -> usize
        requires { p < length self.now.stays }
        ensures { result ≡ slice_index self.now.stays p }
    {
        self.stays[p as usize]
    }

    /// The levels of all proposers in the matching of what is held. Takes constant time.
    pub fn levels(&self) -> &[u32]
        ensures { result.now ≡ self.now.levels }
    {
        &self.levels
    }

    /// The level of a proposer in the matching of what is held. Takes constant time.
    pub fn level(&self, p: u32) -> u32
        requires { p < length self.now.levels }
        ensures { result ≡ slice_index self.now.levels p }
    {
        self.levels[p as usize]
    }

    /// A rotation enters. Takes time in proportion to the proposers that it moves.
    pub fn enter(&mut self, board: &Board, x: u32)
        requires board { IsBoard board.now }
        requires held { IsHeld board.now self.old }
        requires number { x < length board.now.needs }
        requires fresh { ¬ IsMember self.old.set x }
        ensures held { IsHeld board.now self.new }
        ensures member { self.new.set ≡ set self.old.set x true }
        ensures logged { self.new.log ≡ self.old.log ++ x ∷ [] }
    {
        enter(&mut self.set.members, &mut self.log, self.count, x);
        self.count += 1;
        move_on(board, x, &mut self.stays, &mut self.levels);
    }

    /// The rotations leave that entered last, until so many are held. Takes time in proportion to the proposers that they
    /// move.
    pub fn back(&mut self, board: &Board, count: usize)
        requires board { IsBoard board.now }
        requires held { IsHeld board.now self.old }
        requires some { count ≤ length self.old.log }
        ensures held { IsHeld board.now self.new }
        ensures logged { self.new.log ≡ take count self.old.log }
    {
        while self.count() > count {
            self.leave(board);
        }
    }

    /// Removes the last rotation added.
    fn leave(&mut self, board: &Board)
        requires board { IsBoard board.now }
        requires held { IsHeld board.now self.old }
        requires some { 0 < length self.old.log }
        ensures held { IsHeld board.now self.new }
        ensures logged { self.new.log ≡ take (length self.old.log - 1) self.old.log }
    {
        let count = self.count - 1;
        let x = self.log[count];
        leave(&mut self.set.members, &self.log, count);
        move_back(board, x, &mut self.stays, &mut self.levels);
        self.count = count;
    }
}

/// The first level of each proposer.
fn first_levels(alloc: Global, levels: &[Vec<u32>]) -> Result<Vec<u32>, AllocError>
    requires { (p : ℕ) → p < length levels.now → 0 < length (row (rows_of levels.now) p) }
    ensures level_each { IfOk result (λ first. length first.items ≡ length levels.now) }
    ensures levels { IfOk result (λ first. (p : ℕ) → p < length levels.now
        → slice_index first.items p ≡ slice_index (row (rows_of levels.now) p) 0) }
{
    let mut first = Vec::with_capacity(alloc, levels.len())?;
    for p in 0..levels.len() {
        first.push(levels[p][0])?;
    }
    Ok(first)
}

/// A rotation becomes a member, and stands in the log behind the first `count`.
fn enter(members: &mut [bool], log: &mut [u32], count: usize, x: u32)
    requires room { count < length log.now }
    requires number { x < length members.now }
    requires fresh { ¬ IsMember members.now x }
    ensures member { members.new ≡ set members.old x true }
    ensures logged { log.new ≡ set log.old count x }
    ensures held { (b : Board) → IsLogOf b (take count log.old) members.old → IsLogOf b (take (count
        + 1) log.new) members.new }
{
    members[x as usize] = true;
    log[count] = x;
}

/// The rotation behind the first `count` of the log is no member any more.
fn leave(members: &mut [bool], log: &[u32], count: usize)
    requires some { count < length log.now }
    requires number { slice_index log.now count < length members.now }
    ensures member { members.new ≡ set members.old (slice_index log.now count) false }
    ensures held { (b : Board) → IsLogOf b (take (count + 1) log.now) members.old
        → IsLogOf b (take count log.now) members.new }
{
    members[log[count] as usize] = false;
}

/// Those whom a rotation moves go on to their next stay.
fn move_on(board: &Board, x: u32, at: &mut [usize], now: &mut [u32])
    requires board { IsBoard board.now }
    requires number { x < length board.now.needs }
    requires at_each { length at.old ≡ length board.now.leaves }
    requires now_each { length now.old ≡ length board.now.leaves }
    requires room { (a : ℕ) → a < length (row board.now.movers x)
        → let p = slice_index (row board.now.movers x) a in
        slice_index at.old p < length (row board.now.leaves p) }
    ensures { let movers = row board.now.movers x in IsMovedOn board.now movers (length movers)
        at.old now.old at.new now.new }
{
    for &(p, _) in board.pairs(x) {
        let _few = board.stays(p);
        set_stay(board, p, at[p as usize] + 1, at, now);
    }
}

/// Those whom a rotation moves go back to the stay before.
fn move_back(board: &Board, x: u32, at: &mut [usize], now: &mut [u32])
    requires board { IsBoard board.now }
    requires number { x < length board.now.needs }
    requires at_each { length at.old ≡ length board.now.leaves }
    requires now_each { length now.old ≡ length board.now.leaves }
    requires some { (a : ℕ) → a < length (row board.now.movers x)
        → let p = slice_index (row board.now.movers x) a in
        (0 < slice_index at.old p) × (slice_index at.old p ≤ length (row board.now.leaves p)) }
    ensures { let movers = row board.now.movers x in IsMovedBack board.now movers (length movers)
        at.old now.old at.new now.new }
{
    for &(p, _) in board.pairs(x) {
        set_stay(board, p, at[p as usize] - 1, at, now);
    }
}

/// A proposer gets this stay, and its level.
fn set_stay(board: &Board, p: u32, stay: usize, at: &mut [usize], now: &mut [u32])
    requires board { IsBoard board.now }
    requires proposer { p < length board.now.leaves }
    requires stay { stay ≤ length (row board.now.leaves p) }
    requires at_each { length at.old ≡ length board.now.leaves }
    requires now_each { length now.old ≡ length board.now.leaves }
    ensures stay { at.new ≡ set at.old p stay }
    ensures level { now.new ≡ set now.old p (stay_level board.now p stay) }
{
    at[p as usize] = stay;
    now[p as usize] = board.level(p, stay);
}

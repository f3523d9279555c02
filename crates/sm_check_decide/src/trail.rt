//! Numbers that were come by, in order.

ghost use Rattle.std.specs.Prelude.{◌≡◌, ℕ, ◌<◌, ◌++◌, ◌∷◌, [], ◌↔◌, IsTrue, IfOk, length, slice_index};
ghost use Rattle.std.specs.List.{Contains};
ghost use Rattle.sm_check_decide.specs.Trails.{IsTrail};

use std::alloc::{AllocError, Global};
use std::marker::Model;

/// The numbers below a bound that were come by, in order, each once. Whether a number was come by takes the same time for
/// all, and so does forgetting all of them (Briggs and Torczon 1993).
#[derive(Debug, Drop)]
pub struct Trail {
    order: Vec<u32>,
    spots: Vec<u32>,
    count: u32,
}

impl Model for Trail {
    ghost use Rattle.std.specs.Prelude.{take, length};
    ghost use Rattle.sm_check_decide.specs.Trails.{Trail};
    ghost use Rattle.sm_check_decide.specs.TrailsKept.{IsKeptTrail};

    ghost Value = { Trail };

    ghost view = { λ t. record { bound = length t.order.items; items = take t.count t.order.items } };

    ghost invariant = { λ t. IsKeptTrail t.order.items t.spots.items t.count };
}

impl Trail {
    /// A trail on which nothing below the bound was come by. Takes time and memory in proportion to the bound.
    ///
    /// # Errors
    ///
    /// `AllocError` where memory ran out, and only then.
    pub fn new(alloc: Global, bound: u32) -> Result<Trail, AllocError>
        ensures { IfOk result (λ trail. trail ≡ record { bound = bound; items = [] }) }
    {
        Ok(Trail {
            order: vec![in alloc; 0; bound as usize]?,
            spots: vec![in alloc; 0; bound as usize]?,
            count: 0,
        })
    }

    /// Forgets all numbers, in constant time.
    pub(crate) fn clear(&mut self)
        ensures { self.new ≡ record { bound = self.old.bound; items = [] } }
    {
        self.count = 0;
    }

    /// Below which bound the numbers are. Takes constant time.
    pub(crate) fn bound(&self) -> u32
        ensures bound { result ≡ self.now.bound }
        ensures trail { IsTrail self.now }
    {
        self.order.len() as u32
    }

    /// How many numbers were come by. Takes constant time.
    pub fn len(&self) -> u32
        ensures count { result ≡ length self.now.items }
        ensures trail { IsTrail self.now }
    {
        self.count
    }

    /// The number that was come by in turn `k`, counted from 0. Takes constant time.
    pub fn at(&self, k: u32) -> u32
        requires { k < length self.now.items }
        ensures { result ≡ slice_index self.now.items k }
    {
        self.order[k as usize]
    }

    /// Whether a number was come by. Takes constant time.
    pub fn has(&self, p: u32) -> bool
        requires { p < self.now.bound }
        ensures { IsTrue result ↔ Contains self.now.items p }
    {
        let spot = self.spots[p as usize];
        spot < self.count && self.order[spot as usize] == p
    }

    /// In which turn a number was come by, counted from 0. Takes constant time.
    pub(crate) fn spot(&self, p: u32) -> u32
        requires below { p < self.now.bound }
        requires has { Contains self.now.items p }
        ensures in_trail { result < length self.now.items }
        ensures is { slice_index self.now.items result ≡ p }
        ensures trail { IsTrail self.now }
    {
        self.spots[p as usize]
    }

    /// Comes by a new number, in constant time.
    pub fn push(&mut self, p: u32)
        requires below { p < self.old.bound }
        requires new { ¬ Contains self.old.items p }
        ensures pushed { self.new ≡ record { bound = self.old.bound; items = self.old.items ++ p ∷ [] } }
        ensures room { length self.old.items < self.old.bound }
    {
        self.order[self.count as usize] = p;
        self.spots[p as usize] = self.count;
        self.count += 1;
    }

    /// Comes by a number, unless it was come by before. Takes constant time.
    pub(crate) fn put(&mut self, p: u32)
        requires { p < self.old.bound }
        ensures bound { self.new.bound ≡ self.old.bound }
        ensures kept { (q : ℕ) → Contains self.old.items q → Contains self.new.items q }
        ensures has { Contains self.new.items p }
    {
        if !self.has(p) {
            self.push(p);
        }
    }
}

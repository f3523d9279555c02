//! The board of a chain with levels, and the order of a walk on it.

ghost use Rattle.std.specs.Prelude.{◌≡◌, ◌<◌, length};
ghost use Rattle.sm_market.specs.Lists.{row};
ghost use Rattle.sm_market.specs.Vectors.{rows_of};
ghost use Rattle.sm_board.specs.Board.{firsts, leave, stay_level};

use sm_poset::Digraph;
use sm_theory::Chain;
use std::marker::Model;
use std::rc::Rc;

/// What the rotations of a chain change for each proposer. A stay of a proposer lies between two rotations that move it.
///
/// It keeps the chain and the digraph of its rotations with the poset: these aren't copied.
#[derive(Debug, Drop)]
pub struct Board {
    /// The rotations, whose pairs tell which proposers each moves.
    pub(crate) chain: Rc<Chain>,
    /// For each rotation its predecessors, and for each proposer the rotations that end its stays, but for the last one.
    pub(crate) digraph: Rc<Digraph>,
    /// For each proposer the levels of its stays.
    pub(crate) levels: Vec<Vec<u32>>,
    /// For each proposer whether it is matched.
    pub(crate) matched: Vec<bool>,
}

impl Model for Board {
    ghost use Rattle.std.specs.Prelude.{map};
    ghost use Rattle.sm_market.specs.Vectors.{rows_of};
    ghost use Rattle.sm_theory.specs.Values.{rotations_of};
    ghost use Rattle.sm_poset.specs.Moves.{moves_in};
    ghost use Rattle.sm_board.specs.Board.{Board as Plain, firsts};

    ghost Value = { Plain };

    ghost view = { λ s. record {
      needs = rows_of s.digraph.value.needs.items;
      movers = map (λ rotation. firsts rotation) (rotations_of s.chain.value.rotations.items);
      leaves = map (λ moves. firsts moves) (moves_in s.digraph.value.moves.items);
      levels = rows_of s.levels.items;
      matched = s.matched.items;
    } };
}

impl Board {
    /// For each proposer the levels of its stays, in the order of the stays. Takes constant time.
    pub fn all_levels(&self) -> &[Vec<u32>]
        ensures { rows_of result.now ≡ self.now.levels }
    {
        &self.levels
    }

    /// For each proposer whether it is matched. Takes constant time.
    pub fn matched(&self) -> &[bool]
        ensures { result.now ≡ self.now.matched }
    {
        &self.matched
    }

    /// How many proposers there are. Takes constant time.
    pub fn proposers(&self) -> usize
        ensures { result ≡ length self.now.leaves }
    {
        self.digraph.as_ref().moves.len()
    }

    /// How many rotations there are. Takes constant time.
    pub fn rotations(&self) -> usize
        ensures { result ≡ length self.now.needs }
    {
        self.digraph.as_ref().needs.len()
    }

    /// For each stay of a proposer but the last one the rotation that ends it, with the place to which that one moves it.
    /// Proposers, stays, rotations and places are numbered from 0. Takes constant time.
    pub fn moves(&self, p: u32) -> &[(u32, u32)]
        requires { p < length self.now.leaves }
        ensures { firsts result.now ≡ row self.now.leaves p }
    {
        &self.digraph.as_ref().moves[p as usize]
    }

    /// The predecessors of a rotation. All are numbered from 0. Takes constant time.
    pub fn needs(&self, x: u32) -> &[u32]
        requires { x < length self.now.needs }
        ensures { result.now ≡ row self.now.needs x }
    {
        &self.digraph.as_ref().needs[x as usize]
    }

    /// The proposers that a rotation moves, each with the reviewer that it leaves. All are numbered from 0. Takes constant time.
    pub fn pairs(&self, x: u32) -> &[(u32, u32)]
        requires { x < length self.now.movers }
        ensures { firsts result.now ≡ row self.now.movers x }
    {
        &self.chain.as_ref().rotations[x as usize].pairs
    }

    /// The rotation that ends a stay of a proposer. All are numbered from 0. Takes constant time.
    pub fn leave(&self, p: u32, stay: usize) -> u32
        requires proposer { p < length self.now.leaves }
        requires stay { stay < length (row self.now.leaves p) }
        ensures { result ≡ leave self.now p stay }
    {
        self.moves(p)[stay].0
    }

    /// How many stays a proposer has: one more than the rotations that move it. Takes constant time.
    pub fn stays(&self, p: u32) -> usize
        requires { p < length self.now.levels }
        ensures { result ≡ length (row self.now.levels p) }
    {
        self.levels[p as usize].len()
    }

    /// The level of a stay of a proposer, as the caller gave it for the place. Proposers and stays are numbered from 0. Takes
    /// constant time.
    pub fn level(&self, p: u32, stay: usize) -> u32
        requires proposer { p < length self.now.levels }
        requires stay { stay < length (row self.now.levels p) }
        ensures { result ≡ stay_level self.now p stay }
    {
        self.levels[p as usize][stay]
    }
}

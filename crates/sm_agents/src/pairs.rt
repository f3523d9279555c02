//! Pairs of a proposer and a reviewer, each with its number.

ghost use Rattle.std.specs.Prelude.{◌≡◌, ◌≢◌, ℕ, ◌<◌, ◌^◌, [], ◌++◌, ◌∷◌, map, length, not, position, if◌then◌else◌, IfOk, IfErr};
ghost use Rattle.std.specs.List.{list_any};
ghost use Rattle.sm_agents.specs.Written.{is_same_pair, weighed};
ghost use Rattle.sm_lists.specs.Pairs.{pair_at};

use indexmap::IndexSet;
use sm_text::TextHash;
use std::alloc::{AllocError, Global};
use std::marker::Model;

/// Pairs that differ, in the order in which they were added. They are found by their hash.
#[derive(Drop)]
pub struct Pairs {
    pairs: IndexSet<(u32, u32), TextHash>,
}

impl Model for Pairs {
    ghost use Rattle.std.specs.Prelude.{ℕ, List};
    ghost use Rattle.indexmap.specs.IndexSet.{keys};

    ghost Value = { List (ℕ × ℕ) };

    ghost view = { λ p. keys p.pairs };
}

impl Pairs {
    /// No pairs, which will be found by these hashes, with room for so many, so that nothing moves when they are added. Takes
    /// memory in proportion to the room.
    ///
    /// # Errors
    ///
    /// `AllocError` where memory ran out, and only then.
    pub fn with_room(alloc: Global, hash: TextHash, room: usize) -> Result<Pairs, AllocError>
        ensures { IfOk result (λ pairs. pairs ≡ []) }
    {
        let pairs = IndexSet::with_capacity_and_hasher(alloc, room, hash)?;
        Ok(Pairs { pairs })
    }

    /// The pairs of weights that are all given to different ones. They will be found by these hashes. Takes time and memory in
    /// proportion to the weights.
    ///
    /// # Errors
    ///
    /// `AllocError` where memory ran out, and only then.
    pub fn of(
        alloc: Global,
        hash: TextHash,
        weights: &[(u32, u32, i64)],
    ) -> Result<Pairs, AllocError>
        requires few { length weights.now < 2 ^ 24 }
        requires differ { (n k : ℕ) → k < n → n < length weights.now
            → pair_at (map weighed weights.now) k ≢ pair_at (map weighed weights.now) n }
        ensures { IfOk result (λ pairs. pairs ≡ map weighed weights.now) }
    {
        let mut pairs = Pairs::with_room(alloc, hash, weights.len())?;
        for n in 0..weights.len() as u32 {
            let (p, r, _) = weights[n as usize];
            pairs.add((p, r))?;
        }
        Ok(pairs)
    }

    /// Adds a pair behind the others, unless it is among them, and answers whether it was added. Takes constant time on average.
    ///
    /// # Errors
    ///
    /// `AllocError` where memory ran out, and only then. The pairs are then as they were.
    pub fn add(&mut self, pair: (u32, u32)) -> Result<bool, AllocError>
        ensures added { IfOk result (λ added. added ≡ not (list_any (is_same_pair pair) self.old)) }
        ensures pairs { IfOk result
            (λ added. self.new ≡ (if added then self.old ++ pair ∷ [] else self.old)) }
        ensures refused { IfErr result (λ _. self.new ≡ self.old) }
    {
        Ok(self.pairs.insert(pair)?)
    }

    /// The hashes by which pairs are found, as they were given. They decide nothing but how fast that is. Takes constant time.
    pub fn hash(&self) -> TextHash {
        *self.pairs.hasher()
    }

    /// How many pairs there are. Takes constant time.
    pub fn len(&self) -> usize
        ensures { result ≡ length self.now }
    {
        self.pairs.len()
    }

    /// The number of a pair, `None` where it isn't among them. Takes constant time on average.
    pub fn find(&self, pair: (u32, u32)) -> Option<usize>
        ensures { result ≡ position (is_same_pair pair) self.now }
    {
        self.pairs.get_index_of(&pair)
    }
}

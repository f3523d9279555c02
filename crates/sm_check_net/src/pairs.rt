//! Pairs of numbers in order.

ghost use Rattle.std.specs.Prelude.{◌≡◌, ℕ, ◌<◌, ◌↔◌, length, IsTrue, MatchOption, false, true};
ghost use Rattle.sm_check_net.specs.Pairs.{has_pair, AreOrdered, IsParted, IsFirstAt};
ghost use Rattle.sm_lists.specs.Pairs.{pair_at};

use std::marker::Model;

/// Pairs of numbers, in the order of their first numbers and then of their second ones. A pair may stand there more than once.
#[derive(Debug, Drop)]
pub(crate) struct Pairs {
    pairs: Vec<(u32, u32)>,
}

impl Model for Pairs {
    ghost use Rattle.std.specs.Prelude.{ℕ, List};
    ghost use Rattle.sm_check_net.specs.Pairs.{AreOrdered};

    ghost Value = { List (ℕ × ℕ) };

    ghost view = { λ p. p.pairs.items };

    ghost invariant = { λ p. AreOrdered p.pairs.items };
}

impl Pairs {
    /// The same pairs in order. Takes time in proportion to them and the logarithm of their number.
    pub(crate) fn of(mut pairs: Vec<(u32, u32)>) -> Pairs
        ensures same { (i j : ℕ) → has_pair result i j ≡ has_pair pairs.items i j }
        ensures len { length result ≡ length pairs.items }
    {
        pairs.sort_unstable();
        Pairs { pairs }
    }

    /// How many pairs there are.
    pub(crate) fn len(&self) -> usize
        ensures { result ≡ length self.now }
    {
        self.pairs.len()
    }

    /// All pairs in order.
    pub(crate) fn all(&self) -> &[(u32, u32)]
        ensures { result.now ≡ self.now }
    {
        &self.pairs
    }

    /// The pair at a place.
    pub(crate) fn at(&self, k: usize) -> (u32, u32)
        requires { k < length self.now }
        ensures { result ≡ pair_at self.now k }
    {
        self.pairs[k]
    }

    /// How many pairs come before this one, found by bisection.
    pub(crate) fn before(&self, from: u32, to: u32) -> usize
        ensures parted { IsParted self.now (from, to) result }
        ensures ordered { AreOrdered self.now }
    {
        self.pairs
            .partition_point(|pair| pair.0 < from || pair.0 == from && pair.1 < to)
    }

    /// The first place at which a pair stands.
    pub(crate) fn place(&self, from: u32, to: u32) -> Option<usize>
        ensures { MatchOption result (has_pair self.now from to ≡ false)
            (λ k. IsFirstAt self.now (from, to) k) }
    {
        let k = self.before(from, to);
        if self.stands_at(k, from, to) {
            Some(k)
        } else {
            None
        }
    }

    /// The first place at which a pair stands that is one of these.
    pub(crate) fn place_of(&self, from: u32, to: u32) -> usize
        requires { has_pair self.now from to ≡ true }
        ensures { IsFirstAt self.now (from, to) result }
    {
        self.before(from, to)
    }

    /// Whether a pair stands at a place.
    fn stands_at(&self, k: usize, from: u32, to: u32) -> bool
        ensures { IsTrue result ↔ ((k < length self.now) × ((pair_at self.now k).0 ≡ from)
            × ((pair_at self.now k).1 ≡ to)) }
    {
        if k >= self.len() {
            return false;
        }
        let pair = self.at(k);
        pair.0 == from && pair.1 == to
    }

    /// Whether a pair is one of these.
    pub(crate) fn has(&self, from: u32, to: u32) -> bool
        ensures { result ≡ has_pair self.now from to }
    {
        self.place(from, to).is_some()
    }
}

//! The gains of rotations.

ghost use Rattle.std.specs.Prelude.{◌≡◌, ℕ, ◌+◌, ◌*◌, ◌<◌, ◌≤◌, ◌^◌, length, map, sum_by, unsigned_abs, true, IfOk, IsSome};
ghost use Rattle.sm_market.specs.Lists.{IsMarket};
ghost use Rattle.sm_market.specs.Limits.{IsWithinLimits};
ghost use Rattle.sm_market.specs.Matching.{held};
ghost use Rattle.sm_market.specs.Pairing.{IsPairingOf};
ghost use Rattle.sm_market.specs.Stable.{IsStable};
ghost use Rattle.sm_theory.specs.Rotations.{proposer_at, IsExposed, eliminated};
ghost use Rattle.sm_theory.specs.Chains.{IsCompleteChain};
ghost use Rattle.sm_theory.specs.Values.{rotations_of};
ghost use Rattle.sm_theory.specs.Weights.{gain_of, weight_of_place};
ghost use Rattle.sm_weight.specs.Sizes.{weights_in, AreWeights, AreSmall, ArePlaces, weight_held};
ghost use Rattle.sm_weight.specs.Lightest.{AreGains};

use sm_market::{Market, Pairing};
use sm_poset::Poset;
use sm_rotations::eliminate;
use sm_theory::{Chain, Rotation};
use std::alloc::{AllocError, Global};

/// For each rotation of a poset the weight of its new pairs less that of its old ones.
///
/// Takes time in proportion to the places by which proposers move, and memory for one pairing and for the gains.
pub(crate) fn gains(
    alloc: Global,
    poset: &Poset,
    weights: &[Vec<i64>],
) -> Result<Vec<i64>, AllocError>
    requires weights { AreWeights poset.now.lists (weights_in weights.now) }
    ensures gains { IfOk result (λ gains. AreGains poset.now (weights_in weights.now) gains.items) }
    ensures small { IfOk result (λ gains. sum_by unsigned_abs gains.items ≤ 2 ^ 55) }
{
    gains_along(alloc, poset.market(), poset.chain(), weights)
}

/// For each rotation of a market's complete chain the weight of its new pairs less that of its old ones.
///
/// Goes down the chain once, in time in proportion to the places by which proposers move, and takes memory for one pairing and
/// for the gains.
fn gains_along(
    alloc: Global,
    market: &Market,
    chain: &Chain,
    weights: &[Vec<i64>],
) -> Result<Vec<i64>, AllocError>
    requires market { IsMarket market.now }
    requires limits { IsWithinLimits market.now }
    requires made { IsPairingOf market.now chain.now.first }
    requires complete { IsCompleteChain market.now chain.now.first.places
        (rotations_of chain.now.rotations.items) }
    requires weights { AreWeights market.now (weights_in weights.now) }
    ensures gains { IfOk result (λ gains. gains.items
        ≡ map (gain_of market.now (weights_in weights.now))
        (rotations_of chain.now.rotations.items)) }
    ensures small { IfOk result (λ gains. sum_by unsigned_abs gains.items ≤ 2 ^ 55) }
{
    let mut gains = Vec::with_capacity(alloc, chain.rotations.len())?;
    let mut m = chain.first.copy(alloc)?;
    for k in 0..chain.rotations.len() {
        gains.push(turn(market, &mut m, &chain.rotations[k], weights))?;
    }
    Ok(gains)
}

/// Eliminates a rotation and gives the weight of its new pairs less that of its old ones.
fn turn(market: &Market, m: &mut Pairing, rotation: &Rotation, weights: &[Vec<i64>]) -> i64
    requires market { IsMarket market.now }
    requires made { IsPairingOf market.now m.old }
    requires stable { IsStable market.now m.old.places }
    requires exposed { IsExposed market.now m.old.places rotation.now.pairs.items }
    requires few { length rotation.now.pairs.items < 2 ^ 24 }
    requires weights { AreWeights market.now (weights_in weights.now) }
    ensures made { IsPairingOf market.now m.new }
    ensures moved { m.new.places ≡ eliminated market.now m.old.places rotation.now.pairs.items }
    ensures gain { result ≡ gain_of market.now (weights_in weights.now) rotation.now.pairs.items }
    ensures small { unsigned_abs result ≤ 2 ^ 31 * length rotation.now.pairs.items }
{
    let before = weight_held(m, weights, &rotation.pairs);
    eliminate(market, m, rotation);
    weight_held(m, weights, &rotation.pairs) - before
}

/// The sum of the weights of the places that the proposers of these pairs hold.
fn weight_held(m: &Pairing, weights: &[Vec<i64>], pairs: &[(u32, u32)]) -> i64
    requires few { length pairs.now < 2 ^ 24 }
    requires each { length weights.now ≡ length m.now.places.proposers }
    requires matched { (i : ℕ) → i < length pairs.now
        → IsSome (held m.now.places.proposers (proposer_at pairs.now i)) }
    requires small { AreSmall (weights_in weights.now) }
    requires places { ArePlaces (weights_in weights.now) m.now.places.proposers }
    ensures weight { result ≡ weight_held (weights_in weights.now) m.now.places.proposers pairs.now
        (length pairs.now) }
    ensures small { unsigned_abs result ≤ 2 ^ 30 * length pairs.now }
{
    let mut weight = 0;
    for &(p, _) in pairs {
        weight += weight_of(m, weights, p);
    }
    weight
}

/// The weight of the place that a proposer holds.
fn weight_of(m: &Pairing, weights: &[Vec<i64>], p: u32) -> i64
    requires each { length weights.now ≡ length m.now.places.proposers }
    requires matched { IsSome (held m.now.places.proposers p) }
    requires small { AreSmall (weights_in weights.now) }
    requires places { ArePlaces (weights_in weights.now) m.now.places.proposers }
    ensures weight { result ≡ weight_of_place (weights_in weights.now) p
        (held m.now.places.proposers p) }
    ensures small { unsigned_abs result ≤ 2 ^ 30 }
{
    let place = m.place(p).unwrap();
    weights[p as usize][place as usize]
}

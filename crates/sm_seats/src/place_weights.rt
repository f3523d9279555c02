//! The weights of the places of an instance's seats.

ghost use Rattle.std.specs.Prelude.{◌≡◌, ◌<◌, All, length, pos, IfOk, IfSome, Some};
ghost use Rattle.sm_text.specs.Limits.{most_agents};
ghost use Rattle.sm_agents.specs.Written.{row as written_row, entry, IsAcceptable};
ghost use Rattle.sm_instance.specs.Ranks.{pair_weight};
ghost use Rattle.sm_instance.specs.Crosses.{AreCrossesOf};
ghost use Rattle.sm_market.specs.Lists.{row as market_row};
ghost use Rattle.sm_market.specs.Vectors.{rows_of};
ghost use Rattle.sm_seats.specs.Seating.{seating_of, levels_of, at_places};
ghost use Rattle.sm_seats.specs.Correspondence.{IsSeating, weights_by, weights_of};
ghost use Rattle.sm_theory.specs.Sizes.{weights_in};
ghost use Rattle.sm_seats.specs.Levels.{seconds_by};
ghost use Rattle.sm_seats.specs.PlaceWeights.{IsLight, AreLight, AreAcceptableAt, IsWeighingOf, rank_in, pair_given, weigh};

use crate::seats::Seats;
use crate::two_levels::has_two_levels;
use sm_instance::{Cross, Crosses, Instance, Measure};
use std::alloc::{AllocError, Global};

/// For each place of each proposer the weight of the proposer and the reviewer of the place's seat, by ranks or as it is given.
/// The seats have to be those of the instance, and these their levels. Takes time and memory in proportion to the places, and a
/// look-up for each where there are weights. Where ranks weigh, and the instance keeps no cross places, these are made on the way.
///
/// # Errors
///
/// `AllocError` where memory ran out, and only then.
pub fn weights_of_places(
    alloc: Global,
    instance: &Instance,
    seats: &Seats,
    by: Measure,
    levels: &[Vec<u32>],
) -> Result<Vec<Vec<i64>>, AllocError>
    requires seats { seats.now ≡ seating_of instance.now }
    requires seating { IsSeating instance.now seats.now }
    requires levels { rows_of levels.now ≡ levels_of seats.now }
    ensures weights { IfOk result (λ weights. weights_in weights.items
        ≡ weights_of by instance.now seats.now) }
    ensures light { IfOk result (λ weights. AreLight (weights_in weights.items)) }
{
    match by {
        Measure::Ranks => ranks_of_places(alloc, instance, seats, levels),
        Measure::Given => weigh_places(alloc, instance, seats, Weighing::Given, levels),
    }
}

/// For each place of each proposer the sum of both ranks, by the cross places of the instance.
fn ranks_of_places(
    alloc: Global,
    instance: &Instance,
    seats: &Seats,
    levels: &[Vec<u32>],
) -> Result<Vec<Vec<i64>>, AllocError>
    requires seats { seats.now ≡ seating_of instance.now }
    requires seating { IsSeating instance.now seats.now }
    requires levels { rows_of levels.now ≡ levels_of seats.now }
    ensures weights { IfOk result (λ weights. weights_in weights.items
        ≡ weights_of Measure.Ranks instance.now seats.now) }
    ensures light { IfOk result (λ weights. AreLight (weights_in weights.items)) }
{
    let crosses = instance.crosses(alloc)?;
    let weights = weigh_places(
        alloc,
        instance,
        seats,
        Weighing::Ranks(crosses.get()),
        levels,
    );
    drop(crosses);
    weights
}

/// The same by second weights, which are all 0 where places are weighed by ranks. Takes time and memory in proportion to the
/// places, and a look-up for each where [`has_two_levels`] says yes.
///
/// # Errors
///
/// `AllocError` where memory ran out, and only then.
pub fn seconds_of_places(
    alloc: Global,
    instance: &Instance,
    seats: &Seats,
    by: Measure,
    levels: &[Vec<u32>],
) -> Result<Vec<Vec<i64>>, AllocError>
    requires seats { seats.now ≡ seating_of instance.now }
    requires seating { IsSeating instance.now seats.now }
    requires levels { rows_of levels.now ≡ levels_of seats.now }
    ensures seconds { IfOk result (λ seconds. weights_in seconds.items
        ≡ seconds_by by instance.now seats.now) }
    ensures light { IfOk result (λ seconds. AreLight (weights_in seconds.items)) }
{
    if has_two_levels(instance, by) {
        weigh_places(alloc, instance, seats, Weighing::Seconds, levels)
    } else {
        weigh_places(alloc, instance, seats, Weighing::Nothing, levels)
    }
}

/// What places are weighed by.
#[derive(Clone, Copy)]
enum Weighing<'a> {
    /// Both ranks, by the cross places of the instance.
    Ranks(&'a Crosses),
    /// The given weights.
    Given,
    /// The second weights.
    Seconds,
    /// Nothing: each place weighs 0.
    Nothing,
}

/// For each place of each proposer what the proposer and the reviewer of the place's seat weigh.
fn weigh_places(
    alloc: Global,
    instance: &Instance,
    seats: &Seats,
    weighing: Weighing<'_>,
    levels: &[Vec<u32>],
) -> Result<Vec<Vec<i64>>, AllocError>
    requires weighing { IsWeighingOf instance.now weighing }
    requires seats { seats.now ≡ seating_of instance.now }
    requires seating { IsSeating instance.now seats.now }
    requires levels { rows_of levels.now ≡ levels_of seats.now }
    ensures weights { IfOk result (λ weights. weights_in weights.items
        ≡ weights_by (weigh weighing.entry instance.now) seats.now) }
    ensures light { IfOk result (λ weights. AreLight (weights_in weights.items)) }
{
    let mut weights = Vec::with_capacity(alloc, levels.len())?;
    for p in 0..instance.proposer_count() {
        weights.push(weights_at(alloc, instance, seats, weighing, p, &levels[p as usize])?)?;
    }
    Ok(weights)
}

/// The same for the places of one proposer, whose levels these are.
fn weights_at(
    alloc: Global,
    instance: &Instance,
    seats: &Seats,
    weighing: Weighing<'_>,
    p: u32,
    levels: &[u32],
) -> Result<Vec<i64>, AllocError>
    requires weighing { IsWeighingOf instance.now weighing }
    requires seating { IsSeating instance.now seats.now }
    requires in_range { p < length instance.now.proposers }
    requires levels { levels.now ≡ market_row (levels_of seats.now) p }
    requires acceptable { AreAcceptableAt instance.now seats.now p }
    ensures weights { IfOk result (λ weights. weights.items
        ≡ at_places seats.now (λ p i. weigh weighing.entry instance.now p (Some i)) p) }
    ensures light { IfOk result (λ weights. All IsLight weights.items) }
{
    match weighing {
        Weighing::Ranks(crosses) => ranks_at(alloc, instance, crosses, seats, p, levels),
        Weighing::Given => given_at(alloc, instance, seats, false, p, levels),
        Weighing::Seconds => given_at(alloc, instance, seats, true, p, levels),
        Weighing::Nothing => zeros_at(alloc, seats, p),
    }
}

/// 0 for each place of one proposer.
fn zeros_at(alloc: Global, seats: &Seats, p: u32) -> Result<Vec<i64>, AllocError>
    requires { p < length seats.now.market.proposers }
    ensures weights { IfOk result (λ weights. weights.items
        ≡ at_places seats.now (λ p i. pos 0) p) }
    ensures light { IfOk result (λ weights. All IsLight weights.items) }
{
    let places = seats.market().proposer_len(p);
    Ok(vec![in alloc; 0; places as usize]?)
}

/// For each place of one proposer the sum of the ranks that it and the reviewer of the place's seat give each other. These are
/// read from its cross places, one after another.
fn ranks_at(
    alloc: Global,
    instance: &Instance,
    crosses: &Crosses,
    seats: &Seats,
    p: u32,
    levels: &[u32],
) -> Result<Vec<i64>, AllocError>
    requires crosses { AreCrossesOf instance.now.proposers instance.now.reviewers crosses.now }
    requires seating { IsSeating instance.now seats.now }
    requires in_range { p < length instance.now.proposers }
    requires levels { levels.now ≡ market_row (levels_of seats.now) p }
    requires acceptable { AreAcceptableAt instance.now seats.now p }
    ensures weights { IfOk result (λ weights. weights.items
        ≡ at_places seats.now (λ p i. pair_weight Measure.Ranks instance.now p (Some i)) p) }
    ensures light { IfOk result (λ weights. All IsLight weights.items) }
{
    let places = seats.market().proposer_len(p);
    let written = instance.proposer_len(p);
    let crosses = crosses.of_proposer(p);
    let placed = &levels[..places as usize];
    let mut weights = Vec::with_capacity(alloc, places as usize)?;
    for i in 0..places {
        let level = placed[i as usize];
        let back = rank_in(crosses[level as usize - 1]);
        weights.push_reserved(i64::from(level + back));
    }
    Ok(weights)
}

/// The rank, from 1, that a cross place gives, 0 where there is none.
fn rank_in(cross: Cross) -> u32
    requires { IfSome cross (λ back. back < most_agents) }
    ensures { result ≡ rank_in cross }
{
    match cross.place() {
        Some(back) => back + 1,
        None => 0,
    }
}

/// For each place of one proposer the weight, or the second weight, that is given to it and the reviewer of the place's seat. Where
/// the instance has no weights, nothing is looked up.
fn given_at(
    alloc: Global,
    instance: &Instance,
    seats: &Seats,
    second: bool,
    p: u32,
    levels: &[u32],
) -> Result<Vec<i64>, AllocError>
    requires seating { IsSeating instance.now seats.now }
    requires in_range { p < length instance.now.proposers }
    requires levels { levels.now ≡ market_row (levels_of seats.now) p }
    requires acceptable { AreAcceptableAt instance.now seats.now p }
    ensures weights { IfOk result (λ weights. weights.items
        ≡ at_places seats.now (λ p i. pair_given second instance.now p (Some i)) p) }
    ensures light { IfOk result (λ weights. All IsLight weights.items) }
{
    let places = seats.market().proposer_len(p);
    if instance.seconds().is_empty() {
        return Ok(vec![in alloc; 0; places as usize]?);
    }
    let mut weights = Vec::with_capacity(alloc, places as usize)?;
    for i in 0..places {
        weights.push_reserved(given_to(instance, second, p, levels[i as usize] - 1));
    }
    Ok(weights)
}

/// The weight, or the second weight, that is given to a proposer and the reviewer at a place of its list.
fn given_to(instance: &Instance, second: bool, p: u32, place: u32) -> i64
    requires in_range { p < length instance.now.proposers }
    requires on_list { place < length (written_row instance.now.proposers p) }
    requires acceptable { IsAcceptable instance.now p (entry instance.now.proposers p place) }
    ensures weight { result ≡ pair_given second instance.now p (Some place) }
    ensures size { IsLight result }
{
    if second {
        instance.second(p, instance.reviewer_at(p, place))
    } else {
        instance.pair_weight(p, place, Measure::Given)
    }
}

//! The lightest matching that the conditions of an instance allow, with what its answer is read from.

ghost use Rattle.std.specs.Prelude.{◌≡◌, ℕ, All, List, Option, IfOk, MatchOption};
ghost use Rattle.sm_instance.specs.Stable.{IsStable};
ghost use Rattle.sm_instance.specs.Allowed.{IsAllowed};
ghost use Rattle.sm_instance.specs.Matching.{IsMatching};
ghost use Rattle.sm_instance.specs.Ranks.{second_of};
ghost use Rattle.sm_seats.specs.Seating.{seating_of, levels_of};
ghost use Rattle.sm_seats.specs.Correspondence.{IsSeating, leveled, weights_of};
ghost use Rattle.sm_weight.specs.Lightest.{IsLightestFound, IsNothingAllowed};
ghost use Rattle.sm_seats.specs.PlaceWeights.{AreLight};
ghost use Rattle.sm_seats.specs.Levels.{seconds_by};
ghost use Rattle.sm_answer_weight.specs.Found.{IsLightestOfSeats, IsFlowLine};

use crate::lightest_parts::Lightest;
use sm_answer_rotations::{conditions_of, find_poset};
use sm_instance::{Assignment, Instance, Measure};
use sm_poset::Poset;
use sm_seats::{Seats, has_two_levels, seconds_of_places, weights_of_places};
use sm_theory::FlowLine;
use sm_weight::{LightestFound, lightest, lightest_by_one_sum};
use std::alloc::{AllocError, Global};

/// The lightest stable matching among those that the conditions of an instance allow, of those of its weight one whose second sum
/// is least, and of these the one that is best for all proposers (Irving, Leather and Gusfield 1987). `None` exactly where no
/// stable matching is allowed. Second sums are those of the second weights, and all 0 by ranks.
///
/// Takes the time and the memory of [`find_poset`] and of [`sm_weight::lightest`].
///
/// # Errors
///
/// `AllocError` where memory ran out, and only then.
pub fn find_lightest(
    alloc: Global,
    instance: &Instance,
    seats: &Seats,
    by: Measure,
) -> Result<Option<Lightest>, AllocError>
    requires seats { seats.now ≡ seating_of instance.now }
    requires seating { IsSeating instance.now seats.now }
    ensures { IfOk result (λ found. MatchOption found
        ((places : List (Option ℕ)) → IsStable instance.now places
        → ¬ IsAllowed instance.now places)
        (λ f. (f.by ≡ by) × IsLightestOfSeats instance.now seats.now f)) }
{
    let poset = find_poset(alloc, seats)?;
    match find_set(alloc, instance, seats, by, &poset)? {
        Some(found) => Ok(Some(read_off(alloc, instance, seats, by, poset, found)?)),
        None => Ok(None),
    }
}

/// The same in the market of the seats, by its closed set and its flows. In one level no second weight is looked up.
fn find_set(
    alloc: Global,
    instance: &Instance,
    seats: &Seats,
    by: Measure,
    poset: &Poset,
) -> Result<Option<LightestFound>, AllocError>
    requires seats { seats.now ≡ seating_of instance.now }
    requires seating { IsSeating instance.now seats.now }
    requires market { poset.now.lists ≡ seats.now.market }
    ensures found { IfOk result (λ found. MatchOption found
        (IsNothingAllowed poset.now (levels_of seats.now)
        (leveled instance.now instance.now.forced) (leveled instance.now instance.now.forbidden))
        (λ f. IsLightestFound poset.now (levels_of seats.now)
        (weights_of by instance.now seats.now) (seconds_by by instance.now seats.now)
        (leveled instance.now instance.now.forced) (leveled instance.now instance.now.forbidden)
        f)) }
    ensures light { IfOk result (λ _. AreLight (weights_of by instance.now seats.now)) }
    ensures second_light { IfOk result (λ _. AreLight (seconds_by by instance.now seats.now)) }
{
    let levels = seats.levels(alloc)?;
    let weights = weights_of_places(alloc, instance, seats, by, &levels)?;
    let conditions = conditions_of(alloc, instance)?;
    if has_two_levels(instance, by) {
        let seconds = seconds_of_places(alloc, instance, seats, by, &levels)?;
        lightest(alloc, poset, &levels, &weights, &seconds, &conditions)
    } else {
        lightest_by_one_sum(alloc, poset, &levels, &weights, &conditions)
    }
}

/// What the answer is read from, of what is found in the market of the seats.
fn read_off(
    alloc: Global,
    instance: &Instance,
    seats: &Seats,
    by: Measure,
    poset: Poset,
    found: LightestFound,
) -> Result<Lightest, AllocError>
    requires seating { IsSeating instance.now seats.now }
    requires market { poset.lists ≡ seats.now.market }
    requires light { AreLight (weights_of by instance.now seats.now) }
    requires second_light { AreLight (seconds_by by instance.now seats.now) }
    requires lightest { IsLightestFound poset (levels_of seats.now)
        (weights_of by instance.now seats.now) (seconds_by by instance.now seats.now)
        (leveled instance.now instance.now.forced) (leveled instance.now instance.now.forbidden)
        found }
    ensures by { IfOk result (λ read. read.by ≡ by) }
    ensures found { IfOk result (λ read. IsLightestOfSeats instance.now seats.now read) }
{
    read_numbers(&found.flow);
    read_numbers(&found.flow2);
    let matching = poset.matching_of(alloc, &found.set)?;
    let assignment = seats.to_hospitals(alloc, &matching)?;
    let total = instance.weigh(&assignment, by);
    let second_total = second_of(instance, &assignment, by);
    Ok(Lightest {
        by,
        two_levels: has_two_levels(instance, by),
        poset,
        in_market: found,
        total,
        second_total,
        matching,
    })
}

/// The second sum of a matching, 0 by ranks.
fn second_of(instance: &Instance, assignment: &Assignment, by: Measure) -> i64
    requires matching { IsMatching instance.now assignment.now.places.items }
    ensures { result ≡ second_of by instance.now assignment.now.places.items }
{
    match by {
        Measure::Ranks => 0,
        Measure::Given => instance.weigh_second(assignment),
    }
}

/// Reads the lines of a flow, which tells the proof that their numbers have 32 and 64 bits.
fn read_numbers(flow: &[FlowLine])
    ensures { All IsFlowLine flow.now }
{
    for line in flow {
        has_numbers(*line);
    }
}

/// The numbers of a line have 32 and 64 bits.
fn has_numbers(_line: FlowLine)
    ensures { IsFlowLine _line }
{}

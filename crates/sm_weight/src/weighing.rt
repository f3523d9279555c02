//! The lightest allowed stable pairing.

ghost use Rattle.std.specs.Prelude.{◌≡◌, ℤ, ◌+◌, ◌<◌, ◌≤◌, ◌^◌, List, length, sum_by, unsigned_abs, IfOk, MatchOption};
ghost use Rattle.sm_market.specs.Vectors.{rows_of};
ghost use Rattle.sm_theory.specs.Vectors.{AreLevels, AreInRange};
ghost use Rattle.sm_weight.specs.Sizes.{weights_in, AreWeights};
ghost use Rattle.sm_weight.specs.Lightest.{AreGains, NoneGains, IsLightestFound, IsNothingAllowed};

use crate::gains::gains;
use crate::net::{allows_nothing, net_edges};
use crate::second::least_cuts;
use sm_poset::{Conditions, Poset};
use sm_theory::{ClosedSet, FlowLine};
use std::alloc::{AllocError, Global};

/// The closed set of an allowed stable pairing that is lightest by two sums, with two flows that show that none is lighter.
#[derive(Debug, Drop)]
pub struct LightestFound {
    /// The closed set of the lightest allowed stable pairing that is best for all proposers.
    pub set: ClosedSet,
    /// For each rotation the weight of its new pairs less that of its old ones.
    pub gains: Vec<i64>,
    /// A flow in the net of the gains, the needs and the conditions, ordered by the nodes from which the edges lead and then by
    /// those to which they lead.
    pub flow: Vec<FlowLine>,
    /// The value of the flow: the sum of the positive gains of members and of the sizes of the negative gains of the others.
    pub cut: u64,
    /// The gains by the second weights.
    pub gains2: Vec<i64>,
    /// A flow in the second net of the first flow, in the same order. Its residual steps reach exactly the members of the set.
    pub flow2: Vec<FlowLine>,
    /// The value of the second flow: the cut of the set by the second gains.
    pub cut2: u64,
}

/// The stable pairing that is best for all proposers among the lightest that meet the conditions, by its closed set, and two flows
/// whose values are the cuts of that set. Of two pairings the lighter has the smaller sum of weights, or an equal one and the
/// smaller sum of second weights. `None` exactly where no stable pairing meets the conditions.
///
/// `levels` has for each proposer one level per place and one more for being unmatched, never falling. `weights` and `seconds` have
/// one weight per place, of size at most 1,000,000,000. The conditions name proposers that there are, and are fewer than 2^24.
///
/// Where all second gains are 0 no second flow is looked for: nothing flows in the second net, its cut is 0, and the set is what
/// the first flow reaches. [`lightest_by_one_sum`] finds the same without second weights.
///
/// The net has a node for each rotation. Edges lead from the source to the rotations with negative gains, from those with positive
/// gains to the sink, from each rotation to its predecessors, and, for the conditions, between the rotations that bring a proposer
/// to a level and take it from there. Takes time in proportion to the chain, to the needs and conditions with the logarithm of
/// their number, and what two maximum flows take (Irving, Leather and Gusfield 1987; Gusfield and Irving 1989, chapter 3).
///
/// # Errors
///
/// `AllocError` where memory ran out, and only then.
pub fn lightest(
    alloc: Global,
    poset: &Poset,
    levels: &[Vec<u32>],
    weights: &[Vec<i64>],
    seconds: &[Vec<i64>],
    conditions: &Conditions,
) -> Result<Option<LightestFound>, AllocError>
    requires levels { AreLevels poset.now.lists (rows_of levels.now) }
    requires weights { AreWeights poset.now.lists (weights_in weights.now) }
    requires seconds { AreWeights poset.now.lists (weights_in seconds.now) }
    requires forced { AreInRange (length poset.now.lists.proposers) conditions.now.forced.items }
    requires forbidden { AreInRange (length poset.now.lists.proposers)
        conditions.now.forbidden.items }
    requires few { length conditions.now.forced.items + length conditions.now.forbidden.items
        < 2 ^ 24 }
    ensures { IfOk result (λ found. MatchOption found
        (IsNothingAllowed poset.now (rows_of levels.now) conditions.now.forced.items
        conditions.now.forbidden.items)
        (λ f. IsLightestFound poset.now (rows_of levels.now) (weights_in weights.now)
        (weights_in seconds.now) conditions.now.forced.items conditions.now.forbidden.items f)) }
{
    let second_gains = gains(alloc, poset, seconds)?;
    with_second_gains(alloc, poset, levels, weights, conditions, second_gains)
}

/// The stable pairing that is best for all proposers among the lightest that meet the conditions, by its closed set, and a flow
/// whose value is the cut of that set: what [`lightest`] gives with second weights that are all 0, without a table of them. The
/// second flow has no line. `None` exactly where no stable pairing meets the conditions.
///
/// `levels` has for each proposer one level per place and one more for being unmatched, never falling. `weights` has one weight per
/// place, of size at most 1,000,000,000. The conditions name proposers that there are, and are fewer than 2^24.
///
/// Takes the time and the memory of [`lightest`] with one maximum flow.
///
/// # Errors
///
/// `AllocError` where memory ran out, and only then.
pub fn lightest_by_one_sum(
    alloc: Global,
    poset: &Poset,
    levels: &[Vec<u32>],
    weights: &[Vec<i64>],
    conditions: &Conditions,
) -> Result<Option<LightestFound>, AllocError>
    requires levels { AreLevels poset.now.lists (rows_of levels.now) }
    requires weights { AreWeights poset.now.lists (weights_in weights.now) }
    requires forced { AreInRange (length poset.now.lists.proposers) conditions.now.forced.items }
    requires forbidden { AreInRange (length poset.now.lists.proposers)
        conditions.now.forbidden.items }
    requires few { length conditions.now.forced.items + length conditions.now.forbidden.items
        < 2 ^ 24 }
    ensures { (seconds : List (List ℤ)) → NoneGains poset.now.lists seconds
        → IfOk result (λ found. MatchOption found
        (IsNothingAllowed poset.now (rows_of levels.now) conditions.now.forced.items
        conditions.now.forbidden.items)
        (λ f. IsLightestFound poset.now (rows_of levels.now) (weights_in weights.now) seconds
        conditions.now.forced.items conditions.now.forbidden.items f)) }
{
    let no_gains = vec![in alloc; 0; poset.chain().rotations.len()]?;
    with_second_gains(alloc, poset, levels, weights, conditions, no_gains)
}

/// What [`lightest`] finds, where these are the gains by the second weights.
fn with_second_gains(
    alloc: Global,
    poset: &Poset,
    levels: &[Vec<u32>],
    weights: &[Vec<i64>],
    conditions: &Conditions,
    second_gains: Vec<i64>,
) -> Result<Option<LightestFound>, AllocError>
    requires levels { AreLevels poset.now.lists (rows_of levels.now) }
    requires weights { AreWeights poset.now.lists (weights_in weights.now) }
    requires forced { AreInRange (length poset.now.lists.proposers) conditions.now.forced.items }
    requires forbidden { AreInRange (length poset.now.lists.proposers)
        conditions.now.forbidden.items }
    requires few { length conditions.now.forced.items + length conditions.now.forbidden.items
        < 2 ^ 24 }
    requires each { length second_gains.items ≡ length poset.now.rotations }
    requires small { sum_by unsigned_abs second_gains.items ≤ 2 ^ 55 }
    ensures { (seconds : List (List ℤ)) → AreGains poset.now seconds second_gains.items
        → IfOk result (λ found. MatchOption found
        (IsNothingAllowed poset.now (rows_of levels.now) conditions.now.forced.items
        conditions.now.forbidden.items)
        (λ f. IsLightestFound poset.now (rows_of levels.now) (weights_in weights.now) seconds
        conditions.now.forced.items conditions.now.forbidden.items f)) }
{
    let needs = poset.all_needs();
    let size = poset.chain().rotations.len() as u32;
    if allows_nothing(poset, levels, conditions) {
        return Ok(None);
    }
    let first_gains = gains(alloc, poset, weights)?;
    let edges = net_edges(alloc, poset, levels, needs, &first_gains, conditions)?;
    match least_cuts(alloc, size, &edges, &second_gains)? {
        None => Ok(None),
        Some(found) => Ok(Some(LightestFound {
            set: ClosedSet {
                members: found.members,
            },
            gains: first_gains,
            flow: found.lines,
            cut: found.value,
            gains2: second_gains,
            flow2: found.second_lines,
            cut2: found.second_value,
        })),
    }
}

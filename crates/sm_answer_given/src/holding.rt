//! The matching that given pairs make, one pair after another.

ghost use Rattle.std.specs.Prelude.{◌≡◌, ◌+◌, ◌<◌, ◌^◌, length, IfOk, IfErr, OnOk};
ghost use Rattle.sm_instance.specs.declared.inputs.Input.TheVariants.{Two};
ghost use Rattle.sm_holding.specs.Held.{places_in, CanHold};
ghost use Rattle.sm_holding.specs.Holding.{IsHolding};
ghost use Rattle.sm_answer_given.specs.GivenText.{ArePairs};
ghost use Rattle.sm_answer_given.specs.Refusing.{IsHoldFault};

use crate::faults::{Flaw, GivenFault, Unstable, Which};
use sm_holding::Holding;
use sm_instance::Instance;
use std::alloc::Global;

/// The matching that pairs make, of which the first stands on this line, where all can be held, with the loads of the reviewers.
/// Takes time in proportion to the agents, and for each pair to the logarithm of how many list its reviewer.
pub(crate) fn hold(
    alloc: Global,
    instance: &Instance,
    pairs: &[(u32, u32)],
    which: Which,
    line: u32,
) -> Result<Holding, GivenFault>
    requires there { ArePairs (Two instance.now) pairs.now }
    requires few { line + length pairs.now < 2 ^ 32 }
    ensures held { IfOk result (λ holding. holding.matching.places.items
        ≡ places_in instance.now pairs.now) }
    ensures holding { IfOk result (λ holding. IsHolding instance.now holding) }
    ensures can_hold { OnOk result (CanHold instance.now pairs.now) }
    ensures fault { IfErr result (λ f. IsHoldFault instance.now pairs.now which line f) }
{
    let mut holding = Holding::none(alloc, instance)?;
    for at in 0..pairs.len() {
        let (proposer, reviewer) = pairs[at];
        if !holding.add(instance, proposer, reviewer) {
            return Err(GivenFault::NotStable(Unstable {
                line: line + at as u32,
                which,
                flaw: Flaw::Breach,
                proposer,
                reviewer,
            }));
        }
    }
    Ok(holding)
}

//! The first pair that blocks a matching whose loads are known.

ghost use Rattle.std.specs.Prelude.{◌<◌, ◌≤◌, length, MatchOption, IfOk};
ghost use Rattle.sm_instance.specs.Matching.{IsMatching};
ghost use Rattle.sm_instance.specs.Stable.{IsStable, IsFirstBlocking};
ghost use Rattle.sm_holding.specs.Holding.{IsHolding};
ghost use Rattle.sm_holding.specs.Gains.{AreWorst, AreGainLimits, BlocksNone, IsFirstWith};

use crate::holding::Holding;
use sm_instance::{Assignment, Instance};
use std::alloc::{AllocError, Global};

impl Holding {
    /// The first pair that blocks the matching, by proposer and then by place on its list, both counted from 0. `None`
    /// exactly where no pair blocks, so that the matching is stable.
    ///
    /// [`Instance::first_blocking`] says the same without memory, but it looks at every entry. This takes time in proportion to
    /// the agents and to the entries that proposers prefer to their partners, and four bytes of memory for each reviewer.
    ///
    /// # Errors
    ///
    /// `AllocError` where memory ran out, and only then.
    pub fn first_blocking(
        &self,
        alloc: Global,
        instance: &Instance,
    ) -> Result<Option<(u32, u32)>, AllocError>
        requires { IsHolding instance.now self.now }
        ensures { IfOk result (λ first. MatchOption first
            (IsStable instance.now self.now.matching.places.items)
            (λ b. IsFirstBlocking instance.now self.now.matching.places.items b.0 b.1)) }
    {
        let limits = gain_limits(alloc, instance, self)?;
        Ok(first_of_all(instance, &self.matching, &limits))
    }
}

/// Which proposers each reviewer would rather have than stay as it stands: those before this place of its list.
fn gain_limits(
    alloc: Global,
    instance: &Instance,
    holding: &Holding,
) -> Result<Vec<u32>, AllocError>
    requires { IsHolding instance.now holding.now }
    ensures { IfOk result (λ limits. AreGainLimits instance.now holding.now.matching.places.items
        limits.items) }
{
    let mut limits = worst_places(alloc, instance, &holding.matching)?;
    for r in 0..instance.reviewer_count() {
        if holding.loads[r as usize] < instance.capacity(r) {
            limits[r as usize] = instance.reviewer_len(r);
        }
    }
    Ok(limits)
}

/// The place, on each reviewer's list, of the one that it likes least of the proposers that it has; 0 where it has none.
fn worst_places(alloc: Global, instance: &Instance, a: &Assignment) -> Result<Vec<u32>, AllocError>
    requires { IsMatching instance.now a.now.places.items }
    ensures { IfOk result (λ worst. AreWorst instance.now a.now.places.items worst.items) }
{
    let mut worst = vec![in alloc; 0; instance.reviewer_count() as usize]?;
    for p in 0..instance.proposer_count() {
        if let Some(place) = a.places[p as usize] {
            if let Some(back) = instance.cross(p, place) {
                let r = instance.reviewer_at(p, place) as usize;
                worst[r] = back.max(worst[r]);
            }
        }
    }
    Ok(worst)
}

/// The first pair that blocks, where the reviewers gain before these places.
fn first_of_all(instance: &Instance, a: &Assignment, limits: &[u32]) -> Option<(u32, u32)>
    requires matching { IsMatching instance.now a.now.places.items }
    requires limits { AreGainLimits instance.now a.now.places.items limits.now }
    ensures { MatchOption result
        (IsStable instance.now a.now.places.items)
        (λ b. IsFirstBlocking instance.now a.now.places.items b.0 b.1) }
{
    for p in 0..instance.proposer_count() {
        if let Some(r) = first_with(instance, a, p, limits) {
            return Some((p, r));
        }
    }
    None
}

/// The first reviewer on the list of a proposer with which it blocks.
fn first_with(instance: &Instance, a: &Assignment, p: u32, limits: &[u32]) -> Option<u32>
    requires matching { IsMatching instance.now a.now.places.items }
    requires limits { AreGainLimits instance.now a.now.places.items limits.now }
    requires proposer { p < length instance.now.proposers }
    ensures { MatchOption result
        (BlocksNone instance.now a.now.places.items p)
        (λ r. IsFirstWith instance.now a.now.places.items p r) }
{
    for place in 0..instance.standing(a, p) {
        if let Some(back) = instance.cross(p, place) {
            let r = instance.reviewer_at(p, place);
            if back < limits[r as usize] {
                return Some(r);
            }
        }
    }
    None
}

//! Deferred acceptance with capacities, with reviewers offering their places.
//!
//! Each reviewer offers its places, one after another, to those on its written list. A proposer holds the best offer that it
//! has had, so a reviewer whose place it gives up goes on with that place down its own list (Gusfield and Irving 1989, section
//! 1.6.2; Manlove 2013, section 3.2).

ghost use Rattle.std.specs.Prelude.{◌≡◌, ℕ, ◌+◌, ◌<◌, Some, None, length, replicate, slice_index, slice_set, IfOk, OnOk};
ghost use Rattle.sm_agents.specs.Sound.{IsInstance};
ghost use Rattle.sm_agents.specs.Written.{row, capacity_of};
ghost use Rattle.sm_instance.specs.Stable.{IsReviewersBest};
ghost use Rattle.sm_answer_solve.specs.Offering.{IsOffering, IsOnItsWay, IsAnswer, begun_till, past_lists};

use crate::ending::ends;
use sm_instance::{Assignment, CrossSearch, Instance};
use std::alloc::{AllocError, Global};

/// The stable matching in which every reviewer has the best proposers that it has in any stable matching, and every proposer
/// stands as badly as in any (Gusfield and Irving 1989, section 1.6.2; Manlove 2013, section 3.2).
///
/// Takes time in proportion to the agents and entries of the instance, and memory in proportion to the agents, with that for the
/// cross places of the instance where looking for single ones would take longer.
///
/// # Errors
///
/// `AllocError` where memory ran out, and only then.
pub(crate) fn reviewers_best(alloc: Global, instance: &Instance) -> Result<Assignment, AllocError>
    ensures { IfOk result (λ a. IsReviewersBest instance.now a.places.items) }
{
    let mut nexts = vec![in alloc; 0; instance.reviewer_count() as usize]?;
    let mut places = without_offers(alloc, instance)?;
    let nexts = nexts.as_mut_slice();
    let places = places.as_mut_slice();
    let_all_offer(alloc, instance, nexts, places)?;
    Ok(Assignment {
        places: ends(alloc, instance, places)?,
    })
}

/// Where the proposers stand that hold no offer: one past their lists.
fn without_offers(alloc: Global, instance: &Instance) -> Result<Vec<u32>, AllocError>
    ensures { IfOk result (λ places. places.items ≡ past_lists instance.now) }
{
    let mut places = Vec::with_capacity(alloc, instance.proposer_count() as usize)?;
    for p in 0..instance.proposer_count() {
        places.push(instance.proposer_len(p))?;
    }
    Ok(places)
}

/// Lets the reviewers offer their places, one after another. Cross places are looked for one by one.
fn let_all_offer(
    alloc: Global,
    instance: &Instance,
    nexts: &mut [u32],
    places: &mut [u32],
) -> Result<(), AllocError>
    requires begun { nexts.old ≡ replicate (length instance.now.reviewers) 0 }
    requires none { places.old ≡ past_lists instance.now }
    ensures { OnOk result (IsOffering instance.now (capacity_of instance.now.reviewers) None
        nexts.new places.new) }
{
    let mut search = CrossSearch::new(instance);
    for r in 0..instance.reviewer_count() {
        let_offer(alloc, instance, &mut search, r, nexts, places)?;
    }
    Ok(())
}

/// Lets one more reviewer offer its places, until all have begun or it is at the end of its list.
fn let_offer(
    alloc: Global,
    instance: &Instance,
    search: &mut CrossSearch<'_>,
    r: u32,
    nexts: &mut [u32],
    places: &mut [u32],
) -> Result<(), AllocError>
    requires instance { IsInstance instance.now }
    requires search { search.old ≡ instance.now }
    requires in_range { r < length instance.now.reviewers }
    requires before { IsOffering instance.now (begun_till instance.now r 0) None
        nexts.old places.old }
    ensures same { search.new ≡ search.old }
    ensures way { OnOk result (IsOffering instance.now (begun_till instance.now (r + 1) 0) None
        nexts.new places.new) }
{
    let len = instance.reviewer_len(r);
    let capacity = instance.capacity(r);
    let mut begun = 0;
    'places: while begun < capacity && nexts[r as usize] < len {
        let_travel(alloc, instance, search, r, nexts, places)?;
        begun += 1;
    }
    Ok(())
}

/// Lets a free place of a reviewer travel down its list, and in turn each place that a proposer gives up, until one is at the
/// end of a list or a proposer takes one without giving up another.
fn let_travel(
    alloc: Global,
    instance: &Instance,
    search: &mut CrossSearch<'_>,
    r: u32,
    nexts: &mut [u32],
    places: &mut [u32],
) -> Result<(), AllocError>
    requires instance { IsInstance instance.now }
    requires search { search.old ≡ instance.now }
    requires in_range { r < length instance.now.reviewers }
    requires way { IsOnItsWay instance.now r nexts.old places.old }
    ensures same { search.new ≡ search.old }
    ensures way { (begun : ℕ → ℕ) → IsOffering instance.now begun (Some r) nexts.old places.old
        → OnOk result (IsOffering instance.now begun None nexts.new places.new) }
{
    let mut away = r;
    'offers: while nexts[away as usize] < instance.reviewer_len(away) {
        match offer(alloc, instance, search, away, nexts, places)? {
            Some(next) => away = next,
            None => return Ok(()),
        }
    }
    Ok(())
}

/// Lets a reviewer offer a free place to the next on its list. Tells whose place is free then: its own where the proposer
/// declines, else the one that the proposer gives up; `None` where the proposer held none.
fn offer(
    alloc: Global,
    instance: &Instance,
    search: &mut CrossSearch<'_>,
    r: u32,
    nexts: &mut [u32],
    places: &mut [u32],
) -> Result<Option<u32>, AllocError>
    requires instance { IsInstance instance.now }
    requires search { search.old ≡ instance.now }
    requires in_range { r < length instance.now.reviewers }
    requires on_list { slice_index nexts.old r < length (row instance.now.reviewers r) }
    requires way { IsOnItsWay instance.now r nexts.old places.old }
    ensures same { search.new ≡ search.old }
    ensures moved { OnOk result (nexts.new ≡ slice_set nexts.old r (slice_index nexts.old r + 1)) }
    ensures way { (begun : ℕ → ℕ) → IsOffering instance.now begun (Some r) nexts.old places.old
        → IfOk result (λ away. IsOffering instance.now begun away nexts.new places.new) }
{
    let place = nexts[r as usize];
    nexts[r as usize] = place + 1;
    let offered = match search.cross_back(alloc, r, place)? {
        Some(offered) => offered,
        None => return Ok(Some(r)),
    };
    let p = instance.reviewer_list(r)[place as usize];
    Ok(answer(instance, r, p, offered, places))
}

/// Lets a proposer answer an offer of a reviewer, which stands at a place of its list. Tells whose place is free then.
fn answer(instance: &Instance, r: u32, p: u32, offered: u32, places: &mut [u32]) -> Option<u32>
    requires in_range { p < length instance.now.proposers }
    requires one_each { length places.old ≡ length instance.now.proposers }
    ensures { IsAnswer instance.now r p offered places.old places.new result }
{
    let held = places[p as usize];
    if held <= offered {
        return Some(r);
    }
    places[p as usize] = offered;
    if held < instance.proposer_len(p) {
        Some(instance.reviewer_at(p, held))
    } else {
        None
    }
}

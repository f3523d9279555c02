//! Deferred acceptance with capacities, with proposers proposing.
//!
//! Each proposer goes down its written list. A reviewer holds as many as it has seats, in its order of preference from its
//! first seat on, so whoever comes takes the place of the first one that the reviewer likes less, who takes that of the
//! next, and the last one has to go on (Gale and Shapley 1962; Gusfield and Irving 1989, section 1.6.3; Manlove 2013, section
//! 3.2).

ghost use Rattle.std.specs.Prelude.{◌≡◌, ℕ, ◌+◌, ◌<◌, length, replicate, IfOk, OnOk, MatchOption};
ghost use Rattle.sm_agents.specs.Sound.{IsInstance};
ghost use Rattle.sm_instance.specs.Stable.{IsBestOf};
ghost use Rattle.sm_agents.specs.declared.kinds.Side.{Side};
ghost use Rattle.sm_seats.specs.Counted.{AreSeatCounts, first_seats_of};
ghost use Rattle.sm_answer_solve.specs.Admitting.{AreFreeSeats, IsUnderWay, IsProposed, IsProposing, IsTurnedAway};

use crate::ending::ends;
use crate::proposals::{Proposal, Proposals};
use crate::seat_holders::free_seats;
use sm_instance::{Assignment, Instance};
use sm_seats::SeatCounts;
use std::alloc::{AllocError, Global};

/// The stable matching in which every proposer has the best reviewer that it has in any stable matching (Gale and Shapley
/// 1962; Gusfield and Irving 1989, section 1.6.3). The counts have to be those of the instance.
///
/// Takes time in proportion to the entries of the instance and to the proposals to its seats, of which there are no more than
/// entries on the lists of the seats, and memory in proportion to the proposers and seats, with that for the cross places of the
/// instance where looking for single ones would take longer.
///
/// # Errors
///
/// `AllocError` where memory ran out, and only then.
pub(crate) fn proposers_best(
    alloc: Global,
    instance: &Instance,
    counts: &SeatCounts,
) -> Result<Assignment, AllocError>
    requires { AreSeatCounts instance.now counts.now }
    ensures { IfOk result (λ a. IsBestOf Side.Proposers instance.now a.places.items) }
{
    let firsts = counts.firsts.as_slice();
    let seats = firsts[instance.reviewer_count() as usize] as usize;
    let mut places = vec![in alloc; 0; instance.proposer_count() as usize]?;
    let mut standings = vec![in alloc; 0; seats]?;
    let places = places.as_mut_slice();
    let standings = standings.as_mut_slice();
    free_seats(instance, firsts, standings);
    let_all_propose(alloc, instance, firsts, places, standings)?;
    Ok(Assignment {
        places: ends(alloc, instance, places)?,
    })
}

/// Lets the proposers propose, one after another. Cross places are looked for one by one.
fn let_all_propose(
    alloc: Global,
    instance: &Instance,
    firsts: &[u32],
    places: &mut [u32],
    standings: &mut [u32],
) -> Result<(), AllocError>
    requires firsts { firsts.now ≡ first_seats_of instance.now }
    requires none { places.old ≡ replicate (length instance.now.proposers) 0 }
    requires free { AreFreeSeats instance.now standings.old }
    ensures { OnOk result (IsUnderWay instance.now (length instance.now.proposers)
        (length instance.now.proposers) places.new standings.new) }
{
    let mut proposals = Proposals::of(alloc, instance);
    for p in 0..instance.proposer_count() {
        let_propose(instance, &mut proposals, firsts, p, places, standings)?;
    }
    Ok(())
}

/// Lets one more proposer propose, and in turn each one that is turned away, until a free seat takes one or one is at the end
/// of its list.
fn let_propose(
    instance: &Instance,
    proposals: &mut Proposals<'_>,
    firsts: &[u32],
    p: u32,
    places: &mut [u32],
    standings: &mut [u32],
) -> Result<(), AllocError>
    requires instance { IsInstance instance.now }
    requires proposals { proposals.old ≡ instance.now }
    requires in_range { p < length instance.now.proposers }
    requires firsts { firsts.now ≡ first_seats_of instance.now }
    requires before { IsUnderWay instance.now p p places.old standings.old }
    ensures same { proposals.new ≡ proposals.old }
    ensures way { OnOk result
        (IsUnderWay instance.now (p + 1) (p + 1) places.new standings.new) }
{
    let mut away = p;
    'proposals: while places[away as usize] < instance.proposer_len(away) {
        let place = places[away as usize];
        let next = proposals.at(instance, away, place)?;
        match next {
            Some(proposal) => match propose(instance, firsts, proposal, places, standings) {
                Some(turned_away) => away = turned_away,
                None => return Ok(()),
            },
            None => places[away as usize] = place + 1,
        }
    }
    Ok(())
}

/// Lets a proposer propose to the seats of a reviewer in their order, and whoever loses a seat to it or to another one to those
/// behind. Tells whom the reviewer turns away, who is then one place further on its list; `None` where a free seat took one.
fn propose(
    instance: &Instance,
    firsts: &[u32],
    proposal: Proposal,
    places: &mut [u32],
    standings: &mut [u32],
) -> Option<u32>
    requires instance { IsInstance instance.now }
    requires firsts { firsts.now ≡ first_seats_of instance.now }
    requires proposed { IsProposed instance.now proposal.reviewer proposal.proposer proposal.place
        places.old standings.old }
    ensures { (begun : ℕ) → IsProposing instance.now begun proposal.reviewer 0 proposal.proposer
        proposal.place places.old standings.old
        → MatchOption result (IsUnderWay instance.now begun begun places.new standings.new)
        (λ q. IsTurnedAway instance.now begun q places.old places.new standings.new) }
{
    let list = instance.reviewer_list(proposal.reviewer);
    let from = firsts[proposal.reviewer as usize];
    let to = firsts[proposal.reviewer as usize + 1];
    let mut away = proposal.proposer;
    let mut offered = proposal.place;
    for seat in from..to {
        let standing = standings[seat as usize];
        if offered < standing {
            standings[seat as usize] = offered;
            if standing as usize == list.len() {
                return None;
            }
            away = list[standing as usize];
            offered = standing;
        }
    }
    places[away as usize] += 1;
    Some(away)
}

//! The closed set of a stable matching.

ghost use Rattle.std.specs.Prelude.{◌≡◌, IfOk};
ghost use Rattle.sm_instance.specs.Stable.{IsStable};
ghost use Rattle.sm_seats.specs.Seating.{seating_of};
ghost use Rattle.sm_seats.specs.Correspondence.{IsSeating};
ghost use Rattle.sm_answer_route.specs.RouteAnswer.{IsSetOf};

use sm_instance::{Assignment, Instance};
use sm_poset::Poset;
use sm_seats::Seats;
use sm_theory::ClosedSet;
use std::alloc::{AllocError, Global};

/// The closed set of the rotations of the seats that lead to a stable matching of the instance.
pub(crate) fn set_for(
    alloc: Global,
    instance: &Instance,
    seats: &Seats,
    poset: &Poset,
    matching: &Assignment,
) -> Result<ClosedSet, AllocError>
    requires seats { seats.now ≡ seating_of instance.now }
    requires seating { IsSeating instance.now seats.now }
    requires market { poset.now.lists ≡ seats.now.market }
    requires stable { IsStable instance.now matching.now.places.items }
    ensures { IfOk result (λ set. IsSetOf instance.now poset.now.first.places poset.now.rotations
        matching.now.places.items set.members.items) }
{
    let _count = instance.proposer_count();
    let seated = seats.to_seats(alloc, matching)?;
    poset.set_of(alloc, &seated)
}

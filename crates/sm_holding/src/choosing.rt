//! The better and the worse of two matchings, proposer by proposer.

ghost use Rattle.std.specs.Prelude.{◌≡◌, IfOk};
ghost use Rattle.sm_instance.specs.Matching.{IsAssignment};
ghost use Rattle.sm_holding.specs.Chosen.{chosen_places};

use sm_instance::{Assignment, Instance};
use sm_theory::{Choice, chosen_place};
use std::alloc::{AllocError, Global};

/// The matching in which each proposer has the better of its two partners, or the worse, where being unmatched is worse than
/// every partner (Gusfield and Irving 1989, section 1.3.1). Takes time and memory in proportion to the proposers.
///
/// # Errors
///
/// `AllocError` where memory ran out, and only then.
pub fn choose_places(
    alloc: Global,
    instance: &Instance,
    choice: Choice,
    left: &Assignment,
    right: &Assignment,
) -> Result<Assignment, AllocError>
    requires left { IsAssignment instance.now left.now.places.items }
    requires right { IsAssignment instance.now right.now.places.items }
    ensures { IfOk result (λ a. a.places.items
        ≡ chosen_places choice instance.now left.now.places.items right.now.places.items) }
{
    let proposers = instance.proposer_count() as usize;
    let mut places = Vec::with_capacity(alloc, proposers)?;
    for p in 0..proposers {
        places.push(chosen_place(choice, left.places[p], right.places[p]))?;
    }
    Ok(Assignment { places })
}

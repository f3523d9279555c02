//! What `solve` finds for roommates.

ghost use Rattle.std.specs.Prelude.{◌≡◌, IfOk};
ghost use Rattle.sm_lists.specs.Rows.{rows_of};
ghost use Rattle.sm_agents.specs.Written.{lists_of};
ghost use Rattle.sm_agents.specs.Vectors.{agents_of};
ghost use Rattle.sm_answer_roommates.specs.Found.{IsFoundIn};

use crate::parties::parties_of;
use sm_instance::{Agent, Persons};
use sm_room::{RoomMarket, stable_partition};
use std::alloc::{AllocError, Global};

/// What roommates come to.
#[derive(Debug, Drop)]
pub enum RoomSolution {
    /// The mate of each person in a stable matching, `None` for one who has none.
    Matching(Vec<Option<u32>>),
    /// The parties of a stable partition that has an odd one of three or more, so that there is no stable matching. Each
    /// begins with its lowest member and goes along successors; they stand in the order of these members.
    Parties(Vec<Vec<u32>>),
}

/// A stable matching of persons, or the parties that show that there is none (Irving 1985; Tan 1991).
///
/// Takes time and memory in proportion to the persons and entries.
///
/// # Errors
///
/// `AllocError` where memory ran out, and only then.
pub fn find_roommates(alloc: Global, persons: &Persons) -> Result<RoomSolution, AllocError>
    ensures { IfOk result (λ found. IsFoundIn (lists_of persons.now) found) }
{
    let market = market_of(alloc, persons)?;
    let partition = stable_partition(alloc, &market)?;
    match partition.odd_party() {
        None => Ok(RoomSolution::Matching(partition.rest_matching(alloc)?)),
        Some(_) => Ok(RoomSolution::Parties(parties_of(alloc, &market, &partition)?)),
    }
}

/// The lists of persons.
pub(crate) fn market_of(alloc: Global, persons: &Persons) -> Result<RoomMarket, AllocError>
    ensures { IfOk result (λ market. market ≡ lists_of persons.now) }
{
    let lists = lists_of(alloc, persons.persons())?;
    RoomMarket::held(alloc, lists)
}

/// Copies of the lists of persons.
fn lists_of(alloc: Global, persons: &[Agent]) -> Result<Vec<Vec<u32>>, AllocError>
    ensures { IfOk result (λ lists. rows_of lists.items ≡ lists_of (agents_of persons.now)) }
{
    let mut lists = Vec::with_capacity(alloc, persons.len())?;
    for person in persons {
        lists.push(Vec::from_slice(alloc, &person.entries)?)?;
    }
    Ok(lists)
}

//! Lists of which each has a vector of its own, read by agent and place.

ghost use Rattle.std.specs.Prelude.{◌≡◌, ℕ, ◌<◌, length, IfOk};
ghost use Rattle.sm_lists.specs.Rows.{rows_of, row, entry, lists_in};

use std::alloc::{AllocError, Global};

/// The lists, lent one by one. Takes time and memory in proportion to the agents.
///
/// # Errors
///
/// `AllocError` where memory ran out, and only then.
pub fn lent(alloc: Global, rows: &[Vec<u32>]) -> Result<Vec<&[u32]>, AllocError>
    ensures { IfOk result (λ lent. lists_in lent.items ≡ rows_of rows.now) }
{
    let mut lent = Vec::with_capacity(alloc, rows.len())?;
    for row in rows {
        lent.push(row.as_slice())?;
    }
    Ok(lent)
}

/// The list of the agent with a number. Agents and places are numbered from 0. Takes constant time.
pub fn list_at(rows: &[Vec<u32>], a: u32) -> &[u32]
    requires { a < length rows.now }
    ensures { result.now ≡ row (rows_of rows.now) a }
{
    &rows[a as usize]
}

/// Whom an agent's list names at a place. Agents and places are numbered from 0. Takes constant time.
pub fn entry_at(rows: &[Vec<u32>], a: u32, place: u32) -> u32
    requires in_range { a < length rows.now }
    requires on_list { place < length (row (rows_of rows.now) a) }
    ensures { result ≡ entry (rows_of rows.now) a place }
{
    list_at(rows, a)[place as usize]
}

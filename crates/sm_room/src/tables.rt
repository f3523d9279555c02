//! Tables: what is left of each list.

ghost use Rattle.std.specs.Prelude.{◌≡◌, ℕ, ◌<◌, length, IfOk};
ghost use Rattle.sm_lists.specs.Rows.{row, rows_of};
ghost use Rattle.sm_room.specs.Bounds.{bound_in};
ghost use Rattle.sm_room.specs.Tables.{IsTable, IsGood, ListsLeft, AreBoundsOf, IsBound};
ghost use Rattle.sm_room.specs.Proposing.{IsListLeft};

use crate::market::RoomMarket;
use crate::proposing::{is_left, proposed};
use std::alloc::{AllocError, Global};
use std::marker::Model;

/// For each person those who are left on its list, in order.
#[derive(Debug, Drop)]
pub struct Table {
    lists: Vec<Vec<u32>>,
}

impl Model for Table {
    ghost use Rattle.std.specs.Prelude.{ℕ, List};
    ghost use Rattle.sm_lists.specs.Rows.{rows_of};

    ghost Value = { List (List ℕ) };

    ghost view = { λ t. rows_of t.lists.items };
}

impl Table {
    /// Those who are left on a person's list, best first. Takes no memory.
    pub fn list(&self, person: u32) -> &[u32]
        requires { person < length self.now }
        ensures { result.now ≡ row self.now person }
    {
        &self.lists[person as usize]
    }
}

/// The place of the last on each person's list in a table, or the length of its own list where that is empty.
pub(crate) fn bounds_of(
    alloc: Global,
    market: &RoomMarket,
    table: &Table,
) -> Result<Vec<u32>, AllocError>
    requires { IsTable market.now table.now }
    ensures one_each { IfOk result (λ bounds. length bounds.items ≡ length market.now) }
    ensures bounds { IfOk result (λ bounds. AreBoundsOf market.now table.now
        (bound_in bounds.items)) }
{
    let mut bounds = Vec::with_capacity(alloc, market.persons() as usize)?;
    for x in 0..market.persons() {
        bounds.push(bound_of(market, table, x))?;
    }
    Ok(bounds)
}

/// The place of the last on a person's list in a table, or the length of its own list where that is empty.
fn bound_of(market: &RoomMarket, table: &Table, x: u32) -> u32
    requires in_range { x < length market.now }
    requires table { IsTable market.now table.now }
    ensures { IsBound market.now table.now x result }
{
    match table.list(x).last() {
        Some(last) => market.place(x, *last),
        None => market.len(x),
    }
}

/// A table in which y is first on x's list exactly when x is last on y's, and of each missing acceptable pair one of the two
/// prefers its last to the other (Irving 1985).
///
/// Takes time and memory in proportion to the persons and entries.
///
/// # Errors
///
/// `AllocError` where memory ran out, and only then.
pub fn phase_one(alloc: Global, market: &RoomMarket) -> Result<Table, AllocError>
    ensures { IfOk result (λ table. IsGood market.now table) }
{
    let bounds = proposed(alloc, market)?;
    let lists = lists_left(alloc, market, &bounds)?;
    Ok(Table { lists })
}

/// For each person those who are left on its list.
fn lists_left(
    alloc: Global,
    market: &RoomMarket,
    bounds: &[u32],
) -> Result<Vec<Vec<u32>>, AllocError>
    requires { length bounds.now ≡ length market.now }
    ensures { IfOk result (λ lists. ListsLeft market.now (bound_in bounds.now)
        (rows_of lists.items)) }
{
    let mut lists = Vec::with_capacity(alloc, market.persons() as usize)?;
    for x in 0..market.persons() {
        lists.push(list_left(alloc, market, bounds, x)?)?;
    }
    Ok(lists)
}

/// Those who are left on one person's list.
fn list_left(
    alloc: Global,
    market: &RoomMarket,
    bounds: &[u32],
    x: u32,
) -> Result<Vec<u32>, AllocError>
    requires in_range { x < length market.now }
    requires one_each { length bounds.now ≡ length market.now }
    ensures { IfOk result (λ list. IsListLeft market.now bounds.now x (length (row market.now x))
        list.items) }
{
    let mut list = Vec::new(alloc);
    for place in 0..market.len(x) {
        if !is_left(market, bounds, x, place) {
            continue;
        }
        list.push(market.at(x, place))?;
    }
    Ok(list)
}

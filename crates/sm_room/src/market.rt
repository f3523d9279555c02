//! Persons with a list each, and where each person stands on the lists of those whom it lists.

ghost use Rattle.std.specs.Prelude.{◌≡◌, ℕ, ◌<◌, ◌^◌, length, IfOk, IfErr, OnOk};
ghost use Rattle.sm_lists.specs.Rows.{row, entry, place_of, rows_of};
ghost use Rattle.sm_lists.specs.Limits.{AreWithinLimits};
ghost use Rattle.sm_lists.specs.Crosses.{AreCrossPlaces};
ghost use Rattle.sm_lists.specs.Held.{held_in, place_in};
ghost use Rattle.sm_theory.specs.Rooms.{AreRoomLists};

use crate::entries::check_entries;
use crate::faults::RoomFault;
use sm_lists::{
    CrossPlaces, KeptPlace, Naming, Packed, cross_places, entry_at, first_place, lent, list_at,
    namings,
};
use std::alloc::{AllocError, Global};
use std::marker::Model;

/// The lists of roommates. Entries that name their own writer or that aren't returned keep their place, and have no effect.
#[derive(Debug, Drop)]
pub struct RoomMarket {
    lists: Vec<Vec<u32>>,
    crosses: Packed<u32>,
}

impl Model for RoomMarket {
    ghost use Rattle.std.specs.Prelude.{ℕ, List};
    ghost use Rattle.sm_lists.specs.Rows.{rows_of};
    ghost use Rattle.sm_theory.specs.RoomsKept.{AreRoomsKept};

    ghost Value = { List (List ℕ) };

    ghost view = { λ m. rows_of m.lists.items };

    ghost invariant = { λ m. AreRoomsKept (rows_of m.lists.items) m.crosses };
}

impl RoomMarket {
    ghost use Rattle.sm_room.specs.Entries.{IsFirstFault};

    /// Makes roommates of lists, or names the first faulty entry.
    ///
    /// There have to be fewer than 2^24 persons, and fewer than 2^24 entries. Entries that name their own writer or that
    /// aren't returned are allowed. Takes time and memory in proportion to the persons and entries.
    ///
    /// # Errors
    ///
    /// An entry that names nobody (`OutOfRange`) or that stands earlier on its list (`Repeated`), tried at each entry in this
    /// order. The first entry with a fault is named. `OutOfMemory` where memory ran out.
    pub fn build(alloc: Global, lists: Vec<Vec<u32>>) -> Result<RoomMarket, RoomFault>
        requires { AreWithinLimits (rows_of lists.items) }
        ensures lists { IfOk result (λ m. m ≡ rows_of lists.items) }
        ensures sound { OnOk result (AreRoomLists (rows_of lists.items)) }
        ensures fault { IfErr result (λ f. IsFirstFault (rows_of lists.items) f) }
    {
        check_entries(alloc, &lists)?;
        Ok(RoomMarket::held(alloc, lists)?)
    }

    /// Roommates of lists that are known to be sound. Nothing is tried. Takes time and memory in proportion to the persons
    /// and entries.
    ///
    /// # Errors
    ///
    /// `AllocError` where memory ran out, and only then.
    pub fn held(alloc: Global, lists: Vec<Vec<u32>>) -> Result<RoomMarket, AllocError>
        requires limits { AreWithinLimits (rows_of lists.items) }
        requires sound { AreRoomLists (rows_of lists.items) }
        ensures { IfOk result (λ m. m ≡ rows_of lists.items) }
    {
        let crosses = crosses_of(alloc, &lists)?;
        Ok(RoomMarket { lists, crosses })
    }

    /// How many persons there are. Takes constant time.
    pub fn persons(&self) -> u32
        ensures count { result ≡ length self.now }
        ensures lists { AreRoomLists self.now }
        ensures limits { AreWithinLimits self.now }
    {
        self.lists.len() as u32
    }

    /// A person's list, best first. Takes constant time.
    #[tactic(auto, using(sm_lists::proofs::RowLemmas::row_fits))]
    pub fn list(&self, x: u32) -> &[u32]
        requires { x < length self.now }
        ensures list { result.now ≡ row self.now x }
        ensures fits { length result.now < 2 ^ 24 }
    {
        list_at(&self.lists, x)
    }

    /// How many entries a person's list has. Takes constant time.
    pub fn len(&self, x: u32) -> u32
        requires { x < length self.now }
        ensures count { result ≡ length (row self.now x) }
        ensures fits { result < 2 ^ 24 }
    {
        self.list(x).len() as u32
    }

    /// The person at a place of a person's list. Takes constant time.
    pub fn at(&self, x: u32, place: u32) -> u32
        requires in_range { x < length self.now }
        requires on_list { place < length (row self.now x) }
        ensures named { result ≡ entry self.now x place }
        ensures in_range { result < length self.now }
        ensures lists { AreRoomLists self.now }
    {
        entry_at(&self.lists, x, place)
    }

    /// The place of `x` on the list of the person at `place` of `x`'s list, or the length of that list where `x` isn't on
    /// it. Takes the same time for all.
    pub fn cross(&self, x: u32, place: u32) -> u32
        requires in_range { x < length self.now }
        requires on_list { place < length (row self.now x) }
        ensures { result ≡ place_of self.now (entry self.now x place) x }
    {
        match self.crosses.at(x)[place as usize].place() {
            Some(cross) => cross,
            None => self.len(self.at(x, place)),
        }
    }

    /// The place of `y` on `x`'s list, counted from 0, or the length of that list where `y` isn't on it. Persons are numbered
    /// from 0, and `y` needn't be one. Looks through the list, so it takes time in proportion to the entries up to that place,
    /// and no memory.
    pub fn place(&self, x: u32, y: u32) -> u32
        requires { x < length self.now }
        ensures place { result ≡ place_of self.now x y }
        ensures fits { result < 2 ^ 24 }
    {
        match first_place(self.list(x), y) {
            Some(place) => place,
            None => self.len(x),
        }
    }
}

/// The cross places of the lists, which are those of both sides.
fn crosses_of(alloc: Global, lists: &[Vec<u32>]) -> Result<Packed<u32>, AllocError>
    requires { AreWithinLimits (rows_of lists.now) }
    ensures { IfOk result (λ c. AreCrossPlaces (rows_of lists.now) (rows_of lists.now)
        (held_in place_in c)) }
{
    let lent = lent(alloc, lists)?;
    let namings: Packed<Naming> = namings(alloc, &lent, &lent)?;
    let crosses: CrossPlaces<u32> = cross_places(alloc, &lent, &lent, &namings)?;
    Ok(crosses.rows)
}

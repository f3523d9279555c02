//! Roommates' lists, and where each person stands on the lists of those whom it lists.

ghost use Rattle.std.specs.Prelude.{◌≡◌, ℕ, ◌<◌, ◌^◌, ◌↔◌, length, IsTrue, IfOk, MatchOption};
ghost use Rattle.sm_lists.specs.Rows.{row, entry, place_of, lists_in};
ghost use Rattle.sm_lists.specs.Limits.{AreWithinLimits};
ghost use Rattle.sm_theory.specs.Rooms.{AreRoomLists, IsAcceptable};
ghost use Rattle.sm_check_decide.specs.Rooms.{AreStandings, IsUnblockedAt, LikesMore};
ghost use Rattle.sm_check_decide.specs.Accepted.{IsAcceptedAt};

use sm_lists::{CrossPlaces, KeptPlace, Naming, Packed, cross_places, namings};
use std::alloc::{AllocError, Global};
use std::marker::Model;

/// The lists of roommates. Entries that name their own writer or that aren't returned keep their place, and have no effect.
#[derive(Drop)]
pub struct RoomLists<'a> {
    lists: Vec<&'a [u32]>,
    crosses: Packed<u32>,
}

impl<'a> Model for RoomLists<'a> {
    ghost use Rattle.std.specs.Prelude.{ℕ, List};
    ghost use Rattle.sm_lists.specs.Rows.{lists_in};
    ghost use Rattle.sm_theory.specs.RoomsKept.{AreRoomsKept};

    ghost Value = { List (List ℕ) };

    ghost view = { λ m. lists_in m.lists.items };

    ghost invariant = { λ m. AreRoomsKept (lists_in m.lists.items) m.crosses };
}

impl<'a> RoomLists<'a> {
    /// Roommates of lists that are known to be sound. Takes time and memory in proportion to the persons and entries.
    ///
    /// # Errors
    ///
    /// `AllocError` where memory ran out, and only then.
    pub fn new(alloc: Global, lists: Vec<&'a [u32]>) -> Result<RoomLists<'a>, AllocError>
        requires limits { AreWithinLimits (lists_in lists.items) }
        requires sound { AreRoomLists (lists_in lists.items) }
        ensures { IfOk result (λ m. m ≡ lists_in lists.entry.items) }
    {
        let namings: Packed<Naming> = namings(alloc, &lists, &lists)?;
        let crosses: CrossPlaces<u32> = cross_places(alloc, &lists, &lists, &namings)?;
        Ok(RoomLists {
            lists,
            crosses: crosses.rows,
        })
    }

    /// How many persons there are. Takes constant time.
    pub fn persons(&self) -> u32
        ensures count { result ≡ length self.now }
        ensures lists { AreRoomLists self.now }
        ensures limits { AreWithinLimits self.now }
    {
        let _crosses = &self.crosses;
        self.lists.len() as u32
    }

    /// A person's list, best first. Takes constant time.
    fn list(&self, x: u32) -> &[u32]
        requires { x < length self.now }
        ensures list { result.now ≡ row self.now x }
        ensures fits { length result.now < 2 ^ 24 }
    {
        let _crosses = &self.crosses;
        self.lists[x as usize]
    }

    /// How many entries a person's list has. Takes constant time.
    pub fn len(&self, x: u32) -> u32
        requires { x < length self.now }
        ensures count { result ≡ length (row self.now x) }
        ensures fits { result < 2 ^ 24 }
    {
        self.list(x).len() as u32
    }

    /// The person at a place of a person's list, places counted from 0. Takes constant time.
    pub fn at(&self, x: u32, place: u32) -> u32
        requires in_range { x < length self.now }
        requires on_list { place < length (row self.now x) }
        ensures named { result ≡ entry self.now x place }
        ensures in_range { result < length self.now }
        ensures lists { AreRoomLists self.now }
    {
        let _persons = self.persons();
        self.list(x)[place as usize]
    }

    /// The place of `x` on the list of whom it lists at `place`. `None` exactly where the entry has no effect. Takes the same
    /// time for all.
    pub fn cross(&self, x: u32, place: u32) -> Option<u32>
        requires in_range { x < length self.now }
        requires on_list { place < length (row self.now x) }
        ensures { MatchOption result
            (¬ IsAcceptable self.now x (entry self.now x place))
            (λ i. IsAcceptedAt self.now x (entry self.now x place) i) }
    {
        if self.at(x, place) == x {
            return None;
        }
        self.crosses.at(x)[place as usize].place()
    }

    /// The place of `y` on `x`'s list, or the length of that list where it isn't on it. Looks through the list, so it takes
    /// time in proportion to it.
    pub fn place(&self, x: u32, y: u32) -> u32
        requires { x < length self.now }
        ensures place { result ≡ place_of self.now x y }
    {
        for place in 0..self.len(x) {
            if self.at(x, place) == y {
                return place;
            }
        }
        self.len(x)
    }

    /// Whether two persons list each other. Looks through `x`'s list, so it takes time in proportion to it.
    pub fn is_acceptable(&self, x: u32, y: u32) -> bool
        requires { x < length self.now }
        ensures { IsTrue result ↔ IsAcceptable self.now x y }
    {
        let place = self.place(x, y);
        place < self.len(x) && self.cross(x, place).is_some()
    }
}

/// Whether no two persons like each other more than the places at which they stand. Takes time in proportion to the persons
/// and entries.
pub(crate) fn is_unblocked(lists: &RoomLists, standings: &[u32]) -> bool
    requires { AreStandings lists.now standings.now }
    ensures { IsTrue result ↔ IsUnblockedAt lists.now standings.now }
{
    for x in 0..lists.persons() {
        for place in 0..standings[x as usize] {
            if blocks(lists, standings, x, place) {
                return false;
            }
        }
    }
    true
}

/// Whether the person at `place` of `x`'s list likes `x` more than the place at which it stands.
fn blocks(lists: &RoomLists, standings: &[u32], x: u32, place: u32) -> bool
    requires in_range { x < length lists.now }
    requires on_list { place < length (row lists.now x) }
    requires standings { AreStandings lists.now standings.now }
    ensures { IsTrue result ↔ LikesMore lists.now standings.now x (entry lists.now x place) }
{
    match lists.cross(x, place) {
        Some(cross) => cross < standings[lists.at(x, place) as usize],
        None => false,
    }
}

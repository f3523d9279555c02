//! Listers of the stable matchings of roommates.

ghost use Rattle.std.specs.Prelude.{◌≡◌, ℕ, true, false, List, None, Some, length, option_map, IfOk, IfErr, MatchOption};
ghost use Rattle.sm_room_list.specs.RoomListers.{cursor_of, IsNextVector, IsNoneLeft, AreRoot, IsRoomStarted};

use crate::finding::vector_within;
use crate::search::{Found, find_above, least_within};
use crate::tops::Tops;
use sm_room::RoomMarket;
use std::alloc::{AllocError, Global};
use std::marker::Model;

/// Goes over the stable matchings of roommates, from one rank vector to the next one.
///
/// The rank vector has for each person the place of its mate on its list, counted from 1, or one more than the list is long. Two
/// are compared at the first person at which they differ.
#[derive(Debug, Drop)]
pub struct RoomLister {
    alloc: Global,
    market: RoomMarket,
    /// The tops that phase one leaves. All stable matchings are within them.
    root: Tops,
    /// The vector that was reached last, or the one behind which it goes on.
    vector: Vec<u32>,
    /// Whether the vector was given or reached.
    given: bool,
    /// Whether the last step found a vector.
    here: bool,
}

impl Model for RoomLister {
    ghost use Rattle.sm_room_list.specs.RoomListers.{cursor_of, RoomLister as Plain, IsRoomLister};

    ghost Value = { Plain };

    ghost view = { λ s. record {
      rows = s.market;
      cursor = cursor_of s.given s.vector.items;
      here = s.here;
    } };

    ghost invariant = { λ s. IsRoomLister s.market s.root.tops.items s.root.passed.items s.vector.items
        s.given
        s.here };
}

impl RoomLister {
    /// Makes ready to go over the stable matchings behind a vector, where one is given.
    ///
    /// `after` has an item for each person; it needn't be the vector of a matching. Takes time in proportion to the persons and
    /// entries, and memory in proportion to the persons.
    ///
    /// # Errors
    ///
    /// `AllocError` where memory ran out, and only then; the market is dropped.
    pub fn start(
        alloc: Global,
        market: RoomMarket,
        after: Option<Vec<u32>>,
    ) -> Result<RoomLister, AllocError>
        requires { MatchOption after (Unit {0}) (λ v. length v.items ≡ length market) }
        ensures { IfOk result (λ s. IsRoomStarted market (option_map (λ v. v.items) after) s) }
    {
        let root = Tops::start(alloc, &market)?;
        match after {
            Some(vector) => Ok(RoomLister {
                alloc,
                market,
                root,
                vector,
                given: true,
                here: false,
            }),
            None => Ok(RoomLister {
                alloc,
                market,
                root,
                vector: Vec::new(alloc),
                given: false,
                here: false,
            }),
        }
    }

    /// Goes to the first rank vector of a stable matching behind the last one, or behind the one after which it was started at the
    /// first call, or to the first of all. False exactly where there is none, and then always false. After a refusal the lister is
    /// as it was.
    ///
    /// A test looks for a stable matching in copies of the lists that are cut, in time and memory in proportion to the persons and
    /// entries. Before it the ranks are tried that persons have where some have the first that they could have, and those the last:
    /// one look through the lists, which finds a vector wherever the persons fall into two sides. A step makes at most three tests
    /// for each person that find nothing; each other one finds a vector, which is before the one that was found last.
    ///
    /// # Errors
    ///
    /// `AllocError` where memory ran out, and only then.
    pub fn advance(&mut self) -> Result<bool, AllocError>
        ensures rows { self.new.rows ≡ self.old.rows }
        ensures next { IfOk result (λ found. found ≡ true → (v : List ℕ)
            × (self.new.cursor ≡ Some v) × IsNextVector self.old.rows self.old.cursor v) }
        ensures none { IfOk result (λ found. found ≡ false
            → IsNoneLeft self.old.rows self.old.cursor × (self.new.cursor ≡ self.old.cursor)) }
        ensures here { IfOk result (λ found. self.new.here ≡ found) }
        ensures refused { IfErr result (λ _. self.new ≡ self.old) }
    {
        let found = next_vector(
            self.alloc,
            &self.market,
            &self.root,
            self.given,
            &self.vector,
        )?;
        match found {
            Some(vector) => {
                self.vector = vector;
                self.given = true;
                self.here = true;
                Ok(true)
            }
            None => {
                self.here = false;
                Ok(false)
            }
        }
    }

    /// The rank vector to which the last call of [`RoomLister::advance`] that wasn't refused came: that call has to have answered
    /// true. Takes no memory.
    pub fn current(&self) -> &[u32]
        requires { self.now.here ≡ true }
        ensures { self.now.cursor ≡ Some result.now }
    {
        let _ = self.here;
        &self.vector
    }
}

/// The first rank vector of a stable matching behind the given one, or of all.
fn next_vector(
    alloc: Global,
    market: &RoomMarket,
    root: &Tops,
    given: bool,
    last: &[u32],
) -> Result<Option<Vec<u32>>, AllocError>
    requires root { AreRoot market.now root.now.tops.items root.now.passed.items }
    requires long { given ≡ true → length last.now ≡ length market.now }
    ensures { IfOk result (λ found. MatchOption found
        (IsNoneLeft market.now (cursor_of given last.now))
        (λ v. IsNextVector market.now (cursor_of given last.now) v.items)) }
{
    if given {
        let found = next_behind(alloc, market, root, last)?;
        return Ok(found);
    }
    let found = first_vector(alloc, market, root)?;
    Ok(found)
}

/// The first rank vector of all.
fn first_vector(
    alloc: Global,
    market: &RoomMarket,
    root: &Tops,
) -> Result<Option<Vec<u32>>, AllocError>
    requires { AreRoot market.now root.now.tops.items root.now.passed.items }
    ensures { IfOk result (λ found. MatchOption found (IsNoneLeft market.now None)
        (λ v. IsNextVector market.now None v.items)) }
{
    let tops = root.copied(alloc)?;
    let Some(vector) = vector_within(alloc, market, &tops)? else {
        return Ok(None);
    };
    let found = Found {
        from: 0,
        tops,
        vector,
    };
    let least = least_within(alloc, market, found)?;
    Ok(Some(least))
}

/// The first rank vector behind one.
fn next_behind(
    alloc: Global,
    market: &RoomMarket,
    root: &Tops,
    last: &[u32],
) -> Result<Option<Vec<u32>>, AllocError>
    requires root { AreRoot market.now root.now.tops.items root.now.passed.items }
    requires long { length last.now ≡ length market.now }
    ensures { IfOk result (λ found. MatchOption found (IsNoneLeft market.now (Some last.now))
        (λ v. IsNextVector market.now (Some last.now) v.items)) }
{
    let Some(found) = find_above(alloc, market, root, last)? else {
        return Ok(None);
    };
    let least = least_within(alloc, market, found)?;
    Ok(Some(least))
}

//! Where each agent stands on the lists of those whom it names, and who names whom.
//!
//! The lists of one side are turned over first, into one vector for each agent of the other side of who names it and where.
//! Then each agent of the other side has a round, in which it is noted who stands where on its list. Whoever names it reads its
//! cross place from there, and is read there with the place of its own: so one pass over those who name an agent writes the
//! cross places of both sides.

ghost use Rattle.std.specs.Prelude.{◌≡◌, ◌≢◌, ℕ, ◌+◌, ◌<◌, ◌≤◌, ◌↔◌, [], ◌^◌, List, Option, Some, None, false, length, map, slice_index, slice_index_or, IfOk, IfSome, OnOk};
ghost use Rattle.sm_lists.specs.Rows.{row, lists_in};
ghost use Rattle.sm_lists.specs.Limits.{AreWithinLimits};
ghost use Rattle.sm_lists.specs.Crosses.{found_on, cross_place, AreCrossPlaces};
ghost use Rattle.sm_lists.specs.Namings.{naming_at, AreNamingsOf, AreNamings};
ghost use Rattle.sm_lists.specs.Held.{held_in, AreShort};
ghost use Rattle.sm_lists.specs.Kept.{noted_of, put_once, shared_from, ArePlacesBefore, AreKeptBut, HaveFirst, HaveAll};

use crate::naming::{KeptNaming, Naming};
use crate::notes::Notes;
use crate::packed::Packed;
use crate::place::KeptPlace;
use std::alloc::{AllocError, Global};

/// The cross places of both sides.
#[derive(Drop)]
pub struct CrossPlaces<C> {
    /// Beside each entry of the first side's lists.
    pub rows: Packed<C>,
    /// Beside each entry of the second side's lists.
    pub others: Packed<C>,
}

/// The cross places of any lists of two sides, by who of the first side names each agent of the second, as [`namings`] found.
///
/// An entry may name nobody, stand twice on its list, or not be returned. Agents and places are numbered from 0. Takes time
/// and memory in proportion to the agents and entries.
///
/// # Errors
///
/// `AllocError` where memory ran out, and only then.
pub fn cross_places<C: KeptPlace, N: KeptNaming>(
    alloc: Global,
    rows: &[&[u32]],
    others: &[&[u32]],
    namings: &Packed<N>,
) -> Result<CrossPlaces<C>, AllocError>
    requires rows { AreWithinLimits (lists_in rows.now) }
    requires others { AreWithinLimits (lists_in others.now) }
    requires short_rows { AreShort (lists_in rows.now) C.most }
    requires short_others { AreShort (lists_in others.now) C.most }
    requires namings { AreNamings (lists_in rows.now) (length (lists_in others.now))
        (length (lists_in rows.now)) 0 (held_in N.kept namings.now) }
    ensures rows { IfOk result (λ c. AreCrossPlaces (lists_in rows.now) (lists_in others.now)
        (held_in C.kept c.rows)) }
    ensures others { IfOk result (λ c. AreCrossPlaces (lists_in others.now) (lists_in rows.now)
        (held_in C.kept c.others)) }
{
    let mut of_rows: Packed<C> = Packed::filled(alloc, rows, C::of(None))?;
    let mut of_others: Packed<C> = Packed::filled(alloc, others, C::of(None))?;
    let mut listed = Notes::new(alloc, rows.len())?;
    for b in 0..others.len() as u32 {
        let list = lent_at(others, b);
        let repeats = note_list(list, &mut listed);
        write_namings(b, namings.at(b), &listed, &mut of_rows, &mut of_others);
        share_places(repeats, b, list, &listed, &mut of_others);
    }
    Ok(CrossPlaces {
        rows: of_rows,
        others: of_others,
    })
}

/// The list of an agent.
fn lent_at<'a>(rows: &[&'a [u32]], a: u32) -> &'a [u32]
    requires { a < length rows.now }
    ensures { result.now ≡ row (lists_in rows.now) a }
{
    rows[a as usize]
}

/// Who of one side names each agent of the other, by number and place, for any lists of two sides. Each agent has room for as
/// many as its list is long: whoever is named mostly names back.
///
/// Agents and places are numbered from 0. Takes time and memory in proportion to the agents and entries.
///
/// # Errors
///
/// `AllocError` where memory ran out, and only then.
pub fn namings<N: KeptNaming>(
    alloc: Global,
    rows: &[&[u32]],
    others: &[&[u32]],
) -> Result<Packed<N>, AllocError>
    requires limits { AreWithinLimits (lists_in rows.now) }
    requires others { AreWithinLimits (lists_in others.now) }
    requires few { AreShort (lists_in rows.now) N.most }
    ensures { IfOk result (λ n. AreNamings (lists_in rows.now) (length (lists_in others.now))
        (length (lists_in rows.now)) 0 (held_in N.kept n)) }
{
    let mut namings = Packed::with_room(alloc, others, N::blank())?;
    for by in 0..rows.len() as u32 {
        add_namings(&mut namings, by, rows)?;
    }
    Ok(namings)
}

/// Adds the namings of one list. As those of `note_list` and `write_namings`, its loop is never inlined, so that it has all
/// registers.
#[inline(never)]
fn add_namings<N: KeptNaming>(
    namings: &mut Packed<N>,
    by: u32,
    rows: &[&[u32]],
) -> Result<(), AllocError>
    requires limits { AreWithinLimits (lists_in rows.now) }
    requires few { AreShort (lists_in rows.now) N.most }
    requires in_range { by < length rows.now }
    requires before { AreNamings (lists_in rows.now) (length namings.old) by 0
        (held_in N.kept namings.old) }
    ensures after { OnOk result (AreNamings (lists_in rows.now) (length namings.old) (by + 1) 0
        (held_in N.kept namings.new)) }
{
    let list = lent_at(rows, by);
    for place in 0..list.len() as u32 {
        let named = list[place as usize];
        if (named as usize) < namings.len() {
            namings.push(named, N::of(Naming { by, place }))?;
        }
    }
    Ok(())
}

/// Notes, in a new round, each agent's first place on a list. Whether an agent who is noted stands on it twice. Never inlined, as
/// `add_namings`.
#[inline(never)]
fn note_list(list: &[u32], notes: &mut Notes) -> bool
    requires round { notes.old.rounds + 1 < 2 ^ 32 }
    requires short { length list.now < 2 ^ 24 }
    ensures round { notes.new.rounds ≡ notes.old.rounds + 1 }
    ensures one_each { length notes.new.places ≡ length notes.old.places }
    ensures found { (a : ℕ) → a < length notes.old.places → noted_of notes.new.places a
        ≡ found_on list.now a }
    ensures once { result ≡ false ↔ ((k : ℕ) → k < length list.now → slice_index list.now k
        < length notes.old.places
        → noted_of notes.new.places (slice_index list.now k) ≡ Some k) }
{
    notes.clear();
    let mut repeats = false;
    for place in 0..list.len() as u32 {
        repeats |= notes.note(list[place as usize], place);
    }
    repeats
}

/// Writes the cross places of the entries that make these namings of `b`, and beside the first place of each of those agents
/// on its own list where they first name it, where `listed` has the first place of each agent there. Never inlined, as
/// `add_namings`.
#[inline(never)]
fn write_namings<C: KeptPlace, N: KeptNaming>(
    b: u32,
    namings: &[N],
    listed: &Notes,
    of_rows: &mut Packed<C>,
    of_others: &mut Packed<C>,
)
    requires few { length of_rows.old < 2 ^ 24 }
    requires by { (e : ℕ) → e < length namings.now
        → (naming_at (map N.kept namings.now) e).by < length of_rows.old }
    requires on_list { (e : ℕ) → e < length namings.now
        → (naming_at (map N.kept namings.now) e).place
        < length (slice_index_or (held_in C.kept of_rows.old)
        (naming_at (map N.kept namings.now) e).by []) }
    requires places_fit { (e : ℕ) → e < length namings.now
        → (naming_at (map N.kept namings.now) e).place < C.most }
    requires fits { (a : ℕ) → IfSome (noted_of listed.now.places a) (λ place. place < C.most) }
    requires in_range { b < length of_others.old }
    requires noted { (a : ℕ) → IfSome (noted_of listed.now.places a) (λ place. place
        < length (slice_index_or (held_in C.kept of_others.old) b [])) }
    ensures written { (rows others : List (List ℕ)) → AreNamingsOf rows (length rows) 0 b
        (map N.kept namings.now)
        → ((a : ℕ) → a < length rows → noted_of listed.now.places a ≡ cross_place others b a)
        → ArePlacesBefore rows others b (held_in C.kept of_rows.old)
        → ArePlacesBefore rows others (b + 1) (held_in C.kept of_rows.new) }
    ensures kept { AreKeptBut b (held_in C.kept of_others.old) (held_in C.kept of_others.new) }
    ensures first { (rows others : List (List ℕ)) → AreNamingsOf rows (length rows) 0 b
        (map N.kept namings.now)
        → length listed.now.places ≡ length rows
        → ((a : ℕ) → a < length rows → noted_of listed.now.places a ≡ cross_place others b a)
        → length (slice_index_or (held_in C.kept of_others.old) b []) ≡ length (row others b)
        → ((k : ℕ) → slice_index_or (slice_index_or (held_in C.kept of_others.old) b []) k None ≡ None)
        → HaveFirst (λ a. cross_place rows a b) (row others b) listed.now.places
        (slice_index_or (held_in C.kept of_others.new) b []) }
{
    let mut last = u32::MAX;
    for naming in namings {
        let Naming { by, place } = naming.naming();
        let at = listed.place(by);
        of_rows.put(by, place, C::of(at));
        put_first(of_others, b, at, place, by == last);
        last = by;
    }
}

/// Puts the place of a naming beside the place `at` of `b`'s list, where there is one and its agent didn't name `b` before.
fn put_first<C: KeptPlace>(
    crosses: &mut Packed<C>,
    b: u32,
    at: Option<u32>,
    place: u32,
    again: bool,
)
    requires in_range { b < length crosses.old }
    requires on_list { IfSome at (λ k. k < length (slice_index_or (held_in C.kept crosses.old) b [])) }
    requires fits { place < C.most }
    ensures kept { AreKeptBut b (held_in C.kept crosses.old) (held_in C.kept crosses.new) }
    ensures put { slice_index_or (held_in C.kept crosses.new) b []
        ≡ put_once again at place (slice_index_or (held_in C.kept crosses.old) b []) }
{
    if again {
        return;
    }
    if let Some(k) = at {
        crosses.put(b, k, C::of(Some(place)));
    }
}

/// Where `b`'s list repeats somebody, each further place of an agent gets the cross place of its first, which `listed` has.
fn share_places<C: KeptPlace>(
    repeats: bool,
    b: u32,
    list: &[u32],
    listed: &Notes,
    crosses: &mut Packed<C>,
)
    requires in_range { b < length crosses.old }
    requires short { length list.now < 2 ^ 24 }
    requires as_long { length (slice_index_or (held_in C.kept crosses.old) b []) ≡ length list.now }
    requires found { (a : ℕ) → a < length listed.now.places → noted_of listed.now.places a
        ≡ found_on list.now a }
    requires once { repeats ≡ false → (k : ℕ) → k < length list.now → slice_index list.now k
        < length listed.now.places
        → noted_of listed.now.places (slice_index list.now k) ≡ Some k }
    ensures kept { AreKeptBut b (held_in C.kept crosses.old) (held_in C.kept crosses.new) }
    ensures all { (own : ℕ → Option ℕ) → HaveFirst own list.now listed.now.places
        (slice_index_or (held_in C.kept crosses.old) b [])
        → HaveAll own list.now (slice_index_or (held_in C.kept crosses.new) b []) }
{
    if !repeats {
        return;
    }
    for place in 0..list.len() as u32 {
        share_place(crosses, b, listed.place(list[place as usize]), place);
    }
}

/// Puts the cross place at `first` of an agent's list, where there is one, also at another place of that list.
fn share_place<C: KeptPlace>(crosses: &mut Packed<C>, b: u32, first: Option<u32>, place: u32)
    requires in_range { b < length crosses.old }
    requires first { IfSome first (λ k. k
        < length (slice_index_or (held_in C.kept crosses.old) b [])) }
    requires on_list { place < length (slice_index_or (held_in C.kept crosses.old) b []) }
    ensures kept { AreKeptBut b (held_in C.kept crosses.old) (held_in C.kept crosses.new) }
    ensures shared { slice_index_or (held_in C.kept crosses.new) b []
        ≡ shared_from first place (slice_index_or (held_in C.kept crosses.old) b []) }
{
    if let Some(first) = first {
        let shared = crosses.at(b)[first as usize];
        crosses.put(b, place, shared);
    }
}

//! Names, each with its number.

ghost use Rattle.std.specs.Prelude.{◌≡◌, ◌<◌, ◌^◌, [], ◌++◌, ◌∷◌, length, not, position, true, Some, if◌then◌else◌, IfOk, IfSome, OnErr};
ghost use Rattle.std.specs.List.{list_any};
ghost use Rattle.std.specs.Str.{bytes_eq};

use crate::name_key::{NameKey, Sought};
use indexmap::IndexSet;
use sm_text::TextHash;
use std::alloc::{AllocError, Global};
use std::marker::Model;

/// The greatest number of slots for guesses.
const MOST_SLOTS: usize = 1 << 14;

/// Names that differ, numbered from 0 in the order in which they were added. They are found by their hashes.
///
/// Before a name is looked for in the set, the name whose number was noted last in its slot is tried. Names that were chosen to
/// fall into one slot are looked for in the set, and no more.
#[derive(Drop)]
pub struct Names {
    names: IndexSet<NameKey, TextHash>,
    /// For each slot the number of the last name that fell into it, 0 where none did.
    guesses: Vec<u16>,
    ghost slots: { 0 < length guesses.items },
}

impl Model for Names {
    ghost use Rattle.std.specs.Prelude.{ℕ, List};
    ghost use Rattle.indexmap.specs.IndexSet.{keys};
    ghost use Rattle.sm_agents.specs.NameKeys.{texts_of};

    ghost Value = { List (List ℕ) };

    ghost view = { λ n. texts_of (keys n.names) };
}

impl Names {
    /// No names, which will be found by these hashes, with room for so many, so that nothing moves when they are added. Takes
    /// time and memory in proportion to the room.
    ///
    /// # Errors
    ///
    /// `AllocError` where memory ran out, and only then.
    pub fn with_room(alloc: Global, hash: TextHash, room: usize) -> Result<Names, AllocError>
        ensures { IfOk result (λ names. names ≡ []) }
    {
        let names = IndexSet::with_capacity_and_hasher(alloc, room, hash)?;
        let guesses = vec![in alloc; 0; 2 * room.clamp(1, MOST_SLOTS / 2)]?;
        Ok(Names { names, guesses })
    }

    /// Adds a name behind the others, unless it is among them, and answers whether it was added. Takes time in the length of the
    /// name, and memory of its own only for a name of more than 16 bytes.
    ///
    /// # Errors
    ///
    /// `AllocError` where memory ran out, and only then. The names are then as they were.
    pub fn add(&mut self, alloc: Global, name: &[u8]) -> Result<bool, AllocError>
        ensures added { IfOk result (λ added. added ≡ not (list_any (bytes_eq name.now) self.old)) }
        ensures names { IfOk result
            (λ added. self.new ≡ (if added then self.old ++ name.now ∷ [] else self.old)) }
        ensures kept { OnErr result (self.new ≡ self.old) }
    {
        let number = self.names.len();
        let added = self.names.insert(NameKey::of(alloc, name)?)?;
        if added {
            self.note(name, number);
        }
        Ok(added)
    }

    /// Notes the number of a name in its slot, if it fits two bytes, as nearly all do.
    fn note(&mut self, name: &[u8], number: usize)
        ensures { self.new ≡ self.old }
    {
        let slot = slot_for(name, self.guesses.len());
        if let Ok(number) = u16::try_from(number) {
            self.guesses[slot] = number;
        }
    }

    /// The number of a name, `None` where it isn't among them. Takes time in the length of the name.
    pub fn find(&self, name: &[u8]) -> Option<u32>
        requires { length self.now < 2 ^ 32 }
        ensures number { result ≡ position (bytes_eq name.now) self.now }
        ensures in_range { IfSome result (λ n. n < length self.now) }
    {
        let guess = self.guesses[slot_for(name, self.guesses.len())];
        if self.stands_at(name, usize::from(guess)) {
            return Some(u32::from(guess));
        }
        match self.names.get_index_of(Sought { name }) {
            Some(number) => Some(number as u32),
            None => None,
        }
    }

    /// Is this the name with this number?
    fn stands_at(&self, name: &[u8], number: usize) -> bool
        ensures position { result ≡ true → position (bytes_eq name.now) self.now ≡ Some number }
        ensures in_range { result ≡ true → number < length self.now }
    {
        match self.names.as_slice().get(number) {
            Some(key) => key.is(name),
            None => false,
        }
    }
}

/// One of so many slots for a name, by its bytes and its length.
fn slot_for(name: &[u8], slots: usize) -> usize
    requires { 0 < slots }
    ensures { result < slots }
{
    let mut mixed = name.len();
    for &byte in name {
        mixed = mixed.wrapping_mul(31).wrapping_add(usize::from(byte));
    }
    mixed % slots
}

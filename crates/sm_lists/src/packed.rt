//! Lists that stand in one vector, to each of which items can be added.

ghost use Rattle.std.specs.Prelude.{◌≡◌, ◌+◌, ◌<◌, ◌≤◌, ◌++◌, ◌∷◌, [], length, map, replicate, slice_set, slice_index_or, IfOk, OnOk, OnErr};
ghost use Rattle.sm_lists.specs.Rows.{lists_in};
ghost use Rattle.sm_lists.specs.Limits.{AreWithinLimits};
ghost use Rattle.sm_lists.specs.Packed.{AreFull, HasSpace, emptied, span_of};
ghost use Rattle.sm_lists.specs.Spans.{list_in, AreSpans};

use crate::span::Span;
use std::alloc::{AllocError, Global};
use std::marker::Model;

/// Where the items of a list stand, from one on up to another, and up to where it has room.
#[derive(Clone, Copy, Debug)]
struct Slot {
    start: u32,
    end: u32,
    limit: u32,
}

/// The lists of one side's agents in one vector, each in a slot of its own, so that items can be added to each of them.
///
/// A list whose slot is full moves behind all others, into a slot twice as large. Agents and places are numbered from 0.
#[derive(Debug, Drop)]
pub struct Packed<T> {
    items: Vec<T>,
    slots: Vec<Slot>,
}

impl<T> Model for Packed<T> {
    ghost use Rattle.std.specs.Prelude.{List, length};
    ghost use Rattle.sm_lists.specs.Packed.{packed_lists, AreSlots};

    ghost Value = { List (List T) };

    ghost view = { λ p. packed_lists p.items.items p.slots.items };

    ghost invariant = { λ p. AreSlots (length p.items.items) p.slots.items };
}

impl<T: Copy> Packed<T> {
    /// For each of these lists one without an item, with room for as many as that list has. `item` fills what is empty. Takes
    /// time and memory in proportion to the lists and their entries.
    ///
    /// # Errors
    ///
    /// `AllocError` where memory ran out, and only then.
    pub fn with_room(alloc: Global, lists: &[&[u32]], item: T) -> Result<Packed<T>, AllocError>
        requires { AreWithinLimits (lists_in lists.now) }
        ensures { IfOk result (λ packed. packed ≡ replicate (length lists.now) []) }
    {
        let mut packed = Packed::filled(alloc, lists, item)?;
        empty(&mut packed.slots);
        Ok(packed)
    }

    /// For each of these lists one as long, all of whose items are this one. Takes time and memory in proportion to the lists
    /// and their entries.
    ///
    /// # Errors
    ///
    /// `AllocError` where memory ran out, and only then.
    pub fn filled(alloc: Global, lists: &[&[u32]], item: T) -> Result<Packed<T>, AllocError>
        requires { AreWithinLimits (lists_in lists.now) }
        ensures { IfOk result (λ packed. packed
            ≡ map (λ list. replicate (length list) item) (lists_in lists.now)) }
    {
        let (slots, count) = slots_for(alloc, lists)?;
        let items = copies(alloc, item, count as usize)?;
        Ok(Packed { items, slots })
    }

    /// Adds an item to an agent's list. Takes constant time on average.
    ///
    /// # Errors
    ///
    /// `AllocError` where memory ran out, or where the vector would have more than 4,294,967,295 items. The lists are then
    /// what they were.
    pub fn push(&mut self, a: u32, item: T) -> Result<(), AllocError>
        requires { a < length self.old }
        ensures pushed { OnOk result (self.new
            ≡ slice_set self.old a (slice_index_or self.old a [] ++ item ∷ [])) }
        ensures kept { OnErr result (self.new ≡ self.old) }
    {
        let Slot { end, limit, .. } = self.slots[a as usize];
        if end < limit {
            self.items[end as usize] = item;
            self.slots[a as usize].end = end + 1;
            return Ok(());
        }
        self.push_moved(a, item)
    }

    /// Adds an item to an agent's list, which moves behind all others. Never inlined, so that a list with room pays nothing for it.
    #[inline(never)]
    fn push_moved(&mut self, a: u32, item: T) -> Result<(), AllocError>
        requires { a < length self.old }
        ensures pushed { OnOk result (self.new
            ≡ slice_set self.old a (slice_index_or self.old a [] ++ item ∷ [])) }
        ensures kept { OnErr result (self.new ≡ self.old) }
    {
        let slot = moved(&mut self.items, self.slots[a as usize], item)?;
        let Slot { start, end, limit } = slot;
        self.items[end as usize] = item;
        self.slots[a as usize] = Slot {
            start,
            end: end + 1,
            limit,
        };
        Ok(())
    }

    /// Puts an item at a place of an agent's list, in the place of the one there. Takes constant time.
    pub fn put(&mut self, a: u32, place: u32, item: T)
        requires in_range { a < length self.old }
        requires on_list { place < length (slice_index_or self.old a []) }
        ensures { self.new ≡ slice_set self.old a (slice_set (slice_index_or self.old a []) place item) }
    {
        let Slot { start, .. } = self.slots[a as usize];
        self.items[start as usize + place as usize] = item;
    }

    /// An agent's list. Takes constant time.
    pub fn at(&self, a: u32) -> &[T]
        requires { a < length self.now }
        ensures { result.now ≡ slice_index_or self.now a [] }
    {
        let Slot { start, end, .. } = self.slots[a as usize];
        &self.items[start as usize..end as usize]
    }

    /// How many lists there are. Takes constant time.
    pub fn len(&self) -> usize
        ensures { result ≡ length self.now }
    {
        self.slots.len()
    }

    /// The same lists. Takes time and memory in proportion to the lists and the room for their items.
    ///
    /// # Errors
    ///
    /// `AllocError` where memory ran out, and only then.
    pub fn copy(&self, alloc: Global) -> Result<Packed<T>, AllocError>
        ensures { IfOk result (λ copy. copy ≡ self.now) }
    {
        Ok(Packed {
            items: Vec::from_slice(alloc, &self.items)?,
            slots: Vec::from_slice(alloc, &self.slots)?,
        })
    }

    /// All items, and where the list of each agent stands among them. Takes time and memory in proportion to the lists.
    pub(crate) fn into_spans(self, alloc: Global) -> Result<(Vec<T>, Vec<Span>), AllocError>
        ensures spans { IfOk result (λ parts. AreSpans (length parts.0.items) parts.1.items) }
        ensures lists { IfOk result (λ parts. map (list_in parts.0.items) parts.1.items ≡ self) }
    {
        let Packed { items, slots } = self;
        let spans = spans_of(alloc, &slots)?;
        Ok((items, spans))
    }
}

/// Where the lists stand that have these slots.
fn spans_of(alloc: Global, slots: &[Slot]) -> Result<Vec<Span>, AllocError>
    ensures { IfOk result (λ spans. spans.items ≡ map span_of slots.now) }
{
    let mut spans = Vec::with_capacity(alloc, slots.len())?;
    for slot in slots {
        spans.push(Span {
            start: slot.start,
            end: slot.end,
        })?;
    }
    Ok(spans)
}

/// A slot for each of these lists, one behind another and all full, and how many items they have.
fn slots_for(alloc: Global, lists: &[&[u32]]) -> Result<(Vec<Slot>, u32), AllocError>
    requires { AreWithinLimits (lists_in lists.now) }
    ensures { IfOk result (λ made. AreFull (map (λ list. length list) (lists_in lists.now)) made.1
        made.0.items) }
{
    let mut slots = Vec::with_capacity(alloc, lists.len())?;
    let mut start = 0;
    for list in lists {
        let end = start + list.len() as u32;
        slots.push(Slot {
            start,
            end,
            limit: end,
        })?;
        start = end;
    }
    Ok((slots, start))
}

/// So many items, all of them this one.
fn copies<T: Copy>(alloc: Global, item: T, count: usize) -> Result<Vec<T>, AllocError>
    ensures { IfOk result (λ items. items.items ≡ replicate count item) }
{
    let mut items = Vec::with_capacity(alloc, count)?;
    items.resize(count, item)?;
    Ok(items)
}

/// Takes all items off each list, and leaves its slot.
fn empty(slots: &mut [Slot])
    ensures { slots.new ≡ map emptied slots.old }
{
    for slot in slots.iter_mut() {
        slot.end = slot.start;
    }
}

/// Room for the items of a list behind all others, twice as much and one more, with its items in it. `item` fills what is empty.
#[inline(never)]
fn moved<T: Copy>(items: &mut Vec<T>, slot: Slot, item: T) -> Result<Slot, AllocError>
    requires ordered { slot.start ≤ slot.end }
    requires within { slot.end ≤ length items.old.items }
    ensures space { IfOk result (λ after. HasSpace items.old.items items.new.items slot after) }
    ensures kept { OnErr result (items.new.items ≡ items.old.items) }
{
    let start = items.len();
    let count = (slot.end - slot.start) as usize;
    let limit = start + 2 * count + 1;
    if limit > u32::MAX as usize {
        return Err(AllocError);
    }
    items.resize(limit, item)?;
    items.copy_within(slot.start as usize..slot.end as usize, start);
    Ok(Slot {
        start: start as u32,
        end: (start + count) as u32,
        limit: limit as u32,
    })
}

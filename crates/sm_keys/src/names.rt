//! The names of one side.

ghost use Rattle.std.specs.Prelude.{◌≡◌, ℕ, [], ◌+◌, ◌-◌, ◌<◌, ◌≤◌, ◌^◌, not, true, None, Some, is_some, length, slice_index, slice_index_or, position, vec_len, vec_capacity, IfOk, IfSome};
ghost use Rattle.std.specs.List.{list_any, list_all};
ghost use Rattle.std.specs.Str.{bytes_eq};
ghost use Rattle.indexmap.specs.IndexSet.{keys};
ghost use Rattle.sm_keys.specs.Tables.{number_in, is_unknown, AreInOrder, Table, text_at, no_names, Interns, Declares, MeetsName, ListsNames, IsAt, IsListing, ListsFurther};
ghost use Rattle.sm_keys.specs.Lines.{IsListingLine, ListsLine, FindsLine};
ghost use Rattle.sm_keys.specs.Keys.{key_texts};
ghost use Rattle.sm_text.specs.Slices.{texts_of};
ghost use Rattle.sm_text.specs.Tokens.{tokens};

use crate::key::Key;
use crate::known::{Known, begins_short, list_known};
use crate::recent::Recent;
use crate::tokens::{behind_blank, token_from};
use indexmap::IndexSet;
use sm_text::{MOST_AGENTS, MOST_ENTRIES, TextHash};
use std::alloc::{AllocError, Global};
use std::marker::Model;
use std::mem::swap;

/// So many names of a side are looked for by the hashes of a short text. Were all their hashes chosen to be equal, they would be
/// compared some 33 million times, which takes less than a tenth of a second. Most texts need no digest so.
pub(crate) const FEW: u32 = 8_192;

/// The names of one side that stand in a text so far, declared or not, each by the index that it got where it stood
/// first. A name is looked for at the index that it is guessed to have, and else found by its hash.
#[derive(Drop)]
pub struct Names<'a> {
    /// The text.
    text: &'a [u8],
    /// The names, by index. They are found by the hashes of a short text at first, and then by those of the text.
    texts: IndexSet<Key<'a>, TextHash>,
    /// How many names have been looked for by their hashes.
    looked: u32,
    /// The indexes that names are guessed to have.
    recent: Recent,
    /// The number of the agent of each name, `None` while it isn't declared.
    numbers: Vec<Option<u32>>,
    /// For each name the line on whose list it stood last, 0 where it stood on none.
    stamps: Vec<u32>,
    /// The declared names, by the number of their agents.
    declared: Vec<&'a [u8]>,
}

impl<'a> Model for Names<'a> {
    ghost use Rattle.indexmap.specs.IndexSet.{keys};
    ghost use Rattle.sm_keys.specs.Tables.{Table, table_from, IsTable};

    ghost Value = { Table };

    ghost view = { λ n. table_from (keys n.texts) n.numbers.items n.stamps.items n.declared.items };

    ghost invariant = { λ n. IsTable (table_from (keys n.texts) n.numbers.items n.stamps.items
        n.declared.items) };
}

impl<'a> Names<'a> {
    /// No names of a text, with room for so many. Takes time and memory in proportion to the room.
    ///
    /// # Errors
    ///
    /// `AllocError` where memory ran out, and only then.
    pub fn new(alloc: Global, text: &'a [u8], room: usize) -> Result<Names<'a>, AllocError>
        ensures { IfOk result (λ n. n ≡ no_names) }
    {
        let texts = IndexSet::with_capacity_and_hasher(alloc, room, TextHash::of(&[]))?;
        Ok(Names {
            text,
            texts,
            looked: 0,
            recent: Recent::new(alloc),
            numbers: Vec::new(alloc),
            stamps: Vec::new(alloc),
            declared: Vec::new(alloc),
        })
    }

    /// The index of a name, from 0, which is added where it didn't stand before. Always inlined, so that a name whose index is
    /// guessed needs no call.
    #[inline(always)]
    fn intern(&mut self, name: &'a [u8]) -> Result<u32, AllocError>
        ensures { IfOk result (λ i. Interns self.old self.new name.now i) }
    {
        match self.recall(name) {
            Some(index) => Ok(index),
            None => self.insert(name),
        }
    }

    /// The index that a name is guessed to have, where the name has it. Always inlined, as `intern` is.
    #[inline(always)]
    fn recall(&self, name: &[u8]) -> Option<u32>
        ensures { IfSome result (λ i. Interns self.now self.now name.now i) }
    {
        guessed(&self.recent, self.texts.as_slice(), name)
    }

    /// The index that a name is guessed to have if not the first that was, where the name has it.
    fn recall_again(&self, name: Key<'a>) -> Option<u32>
        ensures { IfSome result (λ i. Interns self.now self.now name.entry.text.now i) }
    {
        let guess = self.recent.second_guess(name.word, name.text.len());
        if has_index(self.texts.as_slice(), name, guess) {
            Some(guess)
        } else {
            None
        }
    }

    /// The index of a name by a second guess, and else by its hash; a name that isn't found is added. Never inlined, so that a
    /// name whose index is guessed at first pays nothing for it.
    #[inline(never)]
    fn insert(&mut self, name: &'a [u8]) -> Result<u32, AllocError>
        ensures { IfOk result (λ i. Interns self.old self.new name.now i) }
    {
        let name = Key::of(name);
        if let Some(index) = self.recall_again(name) {
            return Ok(index);
        }
        self.make_ready()?;
        let index = self.place(name.tried())?;
        self.recent.note(name.word, name.text.len(), index)?;
        Ok(index)
    }

    /// Counts a name that is looked for by its hash, and puts the names anew once there were many: from then on they are found
    /// by hashes that the text can't choose.
    fn make_ready(&mut self) -> Result<(), AllocError>
        ensures { IfOk result (λ _. self.new ≡ self.old) }
    {
        if self.looked == FEW {
            put_anew(&mut self.texts, TextHash::of(self.text))?;
        }
        self.looked = self.looked.saturating_add(1);
        Ok(())
    }

    /// The index of a name by its hash; one that isn't found is added with its number and its stamp, for which there is room
    /// by then, so that each name has them.
    fn place(&mut self, name: Key<'a>) -> Result<u32, AllocError>
        ensures { IfOk result (λ i. Interns self.old self.new name.entry.text.now i) }
    {
        // An index fits, since a text has fewer names than bytes.
        if self.texts.len() >= u32::MAX as usize {
            return Err(AllocError);
        }
        self.numbers.reserve(1)?;
        self.stamps.reserve(1)?;
        let (place, is_new) = self.texts.insert_full(name)?;
        if is_new {
            self.numbers.push(None).unwrap();
            self.stamps.push(0).unwrap();
        }
        Ok(place as u32)
    }

    /// Declares a name under the next number, unless it is declared, and answers whether it did. Takes time in the length of the
    /// name; the text is digested once, when many names have been looked for.
    ///
    /// # Errors
    ///
    /// `AllocError` where memory ran out, and only then.
    pub fn declare(&mut self, name: &'a [u8]) -> Result<bool, AllocError>
        requires { length self.old.declared < 2 ^ 32 }
        ensures { IfOk result (λ added. Declares self.old self.new name.now added) }
    {
        let index = self.intern(name)?;
        if self.numbers[index as usize].is_some() {
            return Ok(false);
        }
        self.declared.reserve(1)?;
        self.numbers[index as usize] = Some(self.declared.len() as u32);
        self.declared.push(name).unwrap();
        Ok(true)
    }

    /// The index of a name on the list of a line, `None` where it stands there already. Takes the time of [`Names::declare`].
    ///
    /// # Errors
    ///
    /// `AllocError` where memory ran out, and only then.
    fn list_name(&mut self, name: &'a [u8], line: u32) -> Result<Option<u32>, AllocError>
        ensures { IfOk result (λ met. MeetsName self.old self.new name.now line met) }
    {
        let index = self.intern(name)?;
        if self.stamps[index as usize] == line {
            return Ok(None);
        }
        self.stamps[index as usize] = line;
        Ok(Some(index))
    }

    /// The number under which a name is declared, `None` where it isn't. The name is looked for at the index that it is guessed to
    /// have first. Takes time in the length of the name.
    pub fn find(&self, name: &[u8]) -> Option<u32>
        ensures { result ≡ position (bytes_eq name.now) self.now.declared }
    {
        match self.recall(name) {
            Some(index) => self.numbers[index as usize],
            None => self.look_up(name),
        }
    }

    /// The number under which a name is declared, by its hash. Never inlined, so that a name whose index is guessed pays nothing
    /// for it.
    #[inline(never)]
    fn look_up(&self, name: &[u8]) -> Option<u32>
        ensures { result ≡ position (bytes_eq name.now) self.now.declared }
    {
        match self.texts.get_index_of(&Key::of(name)) {
            Some(index) => self.numbers[index],
            None => None,
        }
    }

    /// Is a name declared? Takes the time of [`Names::find`].
    pub fn knows(&self, name: &[u8]) -> bool
        ensures { result ≡ list_any (bytes_eq name.now) self.now.declared }
    {
        self.find(name).is_some()
    }

    /// The number under which a name is declared, and how many are declared where it isn't. Takes the time of [`Names::find`].
    pub fn number_of(&self, name: &[u8]) -> u32
        requires { length self.now.declared < 2 ^ 32 }
        ensures { result ≡ number_in self.now.declared name.now }
    {
        match self.find(name) {
            Some(number) => number,
            None => self.declared.len() as u32,
        }
    }

    /// Is each name declared? Takes time in proportion to the names.
    pub fn are_declared(&self) -> bool
        ensures { result ≡ not (list_any (is_unknown self.now.declared) self.now.texts) }
    {
        are_numbers(&self.numbers)
    }

    /// `true` only where each name has its index for its number. Takes time in proportion to the names.
    pub fn are_in_order(&self) -> bool
        ensures { result ≡ true → AreInOrder self.now }
    {
        are_counted(&self.numbers)
    }

    /// Is the name of this index declared? Takes constant time.
    pub fn is_declared(&self, index: u32) -> bool
        requires { index < length self.now.texts }
        ensures { result ≡ list_any (bytes_eq (text_at self.now.texts index)) self.now.declared }
    {
        self.numbers[index as usize].is_some()
    }

    /// The number under which the name of this index is declared, and how many are declared where it isn't. Takes constant time.
    pub fn number(&self, index: u32) -> u32
        requires in_range { index < length self.now.texts }
        requires few { length self.now.declared < 2 ^ 32 }
        ensures { result ≡ number_in self.now.declared (text_at self.now.texts index) }
    {
        match self.numbers[index as usize] {
            Some(number) => number,
            None => self.declared.len() as u32,
        }
    }

    /// The indexes of the names on the list of a line, `None` where one stands on it twice. Takes the time of [`Names::declare`]
    /// for each name, and memory in proportion to the list.
    ///
    /// # Errors
    ///
    /// `AllocError` where memory ran out, and only then.
    pub fn list(
        &mut self,
        alloc: Global,
        entries: &[&'a [u8]],
        line: u32,
    ) -> Result<Option<Vec<u32>>, AllocError>
        requires { (k : ℕ) → slice_index self.old.stamps k < line }
        ensures { IfOk result (λ list. ListsNames self.old self.new (texts_of entries.now) line list) }
    {
        let mut indexes = Vec::with_capacity(alloc, entries.len())?;
        'entries: while indexes.len() < entries.len() {
            let Some(index) = self.list_name(entries[indexes.len()], line)? else {
                return Ok(None);
            };
            indexes.push_reserved(index);
            self.list_guessed(entries, line, &mut indexes);
        }
        Ok(Some(indexes))
    }

    /// Lists the names on a list as it stands on the line of a number: their indexes, instead of what the vector holds. `false`
    /// where something else stands on it, or a name twice; names may have been added then, and none has this number. Takes the time
    /// of [`Names::declare`] for each name, and memory in proportion to the line.
    ///
    /// # Errors
    ///
    /// `AllocError` where memory ran out, and only then.
    pub fn list_line(
        &mut self,
        line: &'a [u8],
        stamp: u32,
        indexes: &mut Vec<u32>,
    ) -> Result<bool, AllocError>
        requires { (k : ℕ) → slice_index self.old.stamps k < stamp }
        ensures { IfOk result (λ all. ListsLine self.old self.new (tokens line.now) stamp all
            indexes.new.items) }
    {
        indexes.clear();
        if !begins_short(line) {
            return Ok(false);
        }
        indexes.reserve(line.len())?;
        let all = self.list_tokens(line, stamp, indexes)?;
        if !all && !indexes.is_empty() {
            self.forget();
        }
        Ok(all)
    }

    /// Lists the names on a line, up to something else or a name that stands on it already, and answers whether none does.
    fn list_tokens(
        &mut self,
        line: &'a [u8],
        stamp: u32,
        indexes: &mut Vec<u32>,
    ) -> Result<bool, AllocError>
        requires fresh { (k : ℕ) → slice_index self.old.stamps k < stamp }
        requires none { indexes.old.items ≡ [] }
        requires room { length line.now ≤ vec_capacity indexes.old }
        ensures { IfOk result (λ all. FindsLine self.old self.new (tokens line.now) stamp all
            indexes.new.items) }
    {
        let mut at = self.list_known(line, behind_blank(line, 0), stamp, indexes);
        'tokens: while let Some(token) = token_from(line, at) {
            if !token.name {
                return Ok(false);
            }
            let Some(index) = self.list_name(&line[token.start..token.stop], stamp)? else {
                return Ok(false);
            };
            indexes.push_reserved(index);
            at = self.list_known(line, behind_blank(line, token.stop), stamp, indexes);
        }
        Ok(true)
    }

    /// Lists the next names on a line, up to one that isn't where it is guessed or stands on the line already, and answers the
    /// place behind them.
    fn list_known(&mut self, line: &[u8], from: usize, stamp: u32, indexes: &mut Vec<u32>) -> usize
        requires some { 0 < stamp }
        requires room { vec_len indexes.old + (length line.now - from) ≤ vec_capacity indexes.old }
        ensures further { (first : Table) → IsListingLine first self.old line.now from stamp
            (vec_len indexes.old) indexes.old.items
            → IsListingLine first self.new line.now result stamp
            (vec_len indexes.new) indexes.new.items }
        ensures behind { from ≤ result }
        ensures room { vec_len indexes.new + (length line.now - result) ≤ vec_capacity indexes.new }
    {
        let Some(guesses) = self.recent.guesses() else {
            return from;
        };
        let known = Known {
            guesses,
            names: self.texts.as_slice(),
        };
        list_known(known, &mut self.stamps, line, from, stamp, indexes)
    }

    /// Forgets on which line each name stood last.
    fn forget(&mut self)
        ensures texts { self.new.texts ≡ self.old.texts }
        ensures declared { self.new.declared ≡ self.old.declared }
        ensures stamps { (k : ℕ) → slice_index self.new.stamps k ≡ 0 }
    {
        self.stamps.fill(0);
    }

    /// Lists the next names on the list of a line, up to one that isn't where it is guessed or stands on the list already.
    #[inline(always)]
    fn list_guessed(&mut self, entries: &[&'a [u8]], line: u32, indexes: &mut Vec<u32>)
        requires some { 0 < line }
        requires within { vec_len indexes.old ≤ length entries.now }
        requires room { length entries.now ≤ vec_capacity indexes.old }
        ensures further { (first : Table) → IsListing first self.old (texts_of entries.now) line
            (vec_len indexes.old) indexes.old.items
            → IsListing first self.new (texts_of entries.now) line
            (vec_len indexes.new) indexes.new.items }
        ensures later { vec_len indexes.old ≤ vec_len indexes.new }
        ensures within { vec_len indexes.new ≤ length entries.now }
        ensures room { length entries.now ≤ vec_capacity indexes.new }
    {
        let names = self.texts.as_slice();
        list_next(
            &self.recent,
            names,
            &mut self.stamps,
            entries,
            line,
            indexes,
        );
    }
}

/// Lists the next names on the list of a line, up to one that isn't where it is guessed or stands on the list already. No
/// call stands in the loop, so that what it reads stays in registers.
#[inline(always)]
fn list_next(
    recent: &Recent,
    names: &[Key<'_>],
    stamps: &mut [u32],
    entries: &[&[u8]],
    line: u32,
    indexes: &mut Vec<u32>,
)
    requires each { length stamps.old ≡ length names.now }
    requires some { 0 < line }
    requires within { vec_len indexes.old ≤ length entries.now }
    requires room { length entries.now ≤ vec_capacity indexes.old }
    ensures further { ListsFurther (key_texts names.now) stamps.old stamps.new
        (texts_of entries.now) line (vec_len indexes.old) (vec_len indexes.new)
        indexes.old.items indexes.new.items }
    ensures later { vec_len indexes.old ≤ vec_len indexes.new }
    ensures within { vec_len indexes.new ≤ length entries.now }
    ensures room { length entries.now ≤ vec_capacity indexes.new }
{
    'entries: for place in indexes.len()..entries.len() {
        let Some(index) = guessed(recent, names, entries[place]) else {
            return;
        };
        if stamps[index as usize] == line {
            return;
        }
        stamps[index as usize] = line;
        indexes.push_reserved(index);
    }
}

/// The index that a name is guessed to have, where the name has it.
#[inline(always)]
fn guessed(recent: &Recent, names: &[Key<'_>], name: &[u8]) -> Option<u32>
    ensures { IfSome result (IsAt (key_texts names.now) name.now) }
{
    let name = Key::of(name);
    let guess = recent.guess(name.word, name.text.len());
    if has_index(names, name, guess) {
        Some(guess)
    } else {
        None
    }
}

/// Has a name this index?
#[inline(always)]
fn has_index(names: &[Key<'_>], name: Key<'_>, index: u32) -> bool
    ensures { result ≡ true → IsAt (key_texts names.now) name.entry.text.now index }
{
    match names.get(index as usize) {
        Some(known) => *known == name,
        None => false,
    }
}

/// The room for the names of a side of which there are so many. Where they are more than a side has agents, the text will be
/// refused, and may go on with names up to the limit of entries.
fn room_for(names: usize) -> usize {
    if names > MOST_AGENTS {
        MOST_ENTRIES
    } else {
        2 * names
    }
}

/// Puts names anew, in their order, so that they are found by these hashes.
fn put_anew(texts: &mut IndexSet<Key<'_>, TextHash>, hash: TextHash) -> Result<(), AllocError>
    ensures { keys texts.new ≡ keys texts.old }
{
    let room = room_for(texts.len());
    let mut anew = IndexSet::with_capacity_and_hasher(*texts.allocator(), room, hash)?;
    anew.append(texts)?;
    swap(texts, &mut anew);
    Ok(())
}

/// Is each of these a number?
fn are_numbers(numbers: &[Option<u32>]) -> bool
    ensures { result ≡ list_all is_some numbers.now }
{
    numbers.iter().all(|number| number.is_some())
}

/// Does each of these hold its place?
fn are_counted(numbers: &[Option<u32>]) -> bool
    ensures { result ≡ true → (i : ℕ) → i < length numbers.now
        → slice_index_or numbers.now i None ≡ Some i }
{
    'places: for place in 0..numbers.len() {
        if !is_number(numbers[place], place) {
            return false;
        }
    }
    true
}

/// Is it this number?
fn is_number(number: Option<u32>, place: usize) -> bool
    ensures { result ≡ true → number ≡ Some place }
{
    match number {
        Some(number) => number as usize == place,
        None => false,
    }
}

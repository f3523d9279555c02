//! Names that stand twice among others.

ghost use Rattle.std.specs.Prelude.{◌≡◌, ◌≢◌, ℕ, List, [], ◌≤◌, ◌<◌, length, map, slice_index, IfOk};
ghost use Rattle.indexmap.specs.IndexSet.{keys};
ghost use Rattle.sm_text.specs.Slices.{texts_of};
ghost use Rattle.sm_keys.specs.Tables.{has_repeated};
ghost use Rattle.sm_keys.specs.Repeats.{class_in, of_class, HaveClasses};

use crate::names::FEW;
use crate::text_key::TextKey;
use indexmap::IndexSet;
use memchr::memchr;
use sm_text::TextHash;
use std::alloc::{AllocError, Global};
use std::hash::{BuildHasher, DefaultHasher, Hasher};

/// So many names fall into one class on average, or fewer.
const CLASS: usize = 65_536;

/// There are so many classes at most, so that a class takes one byte. No text that is read has names for more.
const CLASSES: usize = 256;

/// Does a name stand twice among names of this text? Takes time in proportion to the names and their bytes; the text is digested
/// where they are many. They fall into classes by their hashes, and a set holds those of one class at a time: so it takes memory
/// for some 65,536 names, and one byte for each name where there are more.
///
/// # Errors
///
/// `AllocError` where memory ran out, and only then.
#[inline(never)]
pub fn has_repeated(alloc: Global, text: &[u8], names: &[&[u8]]) -> Result<bool, AllocError>
    ensures { IfOk result (λ r. r ≡ has_repeated (texts_of names.now)) }
{
    let hash = hash_for(text, names.len());
    let count = class_count(names.len());
    let room = names.len().min(CLASS);
    let mut seen = IndexSet::with_capacity_and_hasher(alloc, room, hash)?;
    if count == 1 {
        return is_repeated(&mut seen, names);
    }
    let classes = classes_of(alloc, hash.build_hasher(), names, count)?;
    is_repeated_by_class(&mut seen, names, &classes, count)
}

/// The hashes by which so many names of a text are told apart. A text can't choose those of many.
fn hash_for(text: &[u8], names: usize) -> TextHash {
    if names > FEW as usize {
        TextHash::of(text)
    } else {
        TextHash::of(&[])
    }
}

/// The number of classes for so many names.
fn class_count(names: usize) -> usize
    ensures some { 1 ≤ result }
    ensures few { result ≤ 256 }
{
    (names / CLASS + 1).min(CLASSES)
}

/// The class of each of these names, one of so many.
fn classes_of(
    alloc: Global,
    start: DefaultHasher,
    names: &[&[u8]],
    count: usize,
) -> Result<Vec<u8>, AllocError>
    requires some { 1 ≤ count }
    requires few { count ≤ 256 }
    ensures { IfOk result (λ classes. HaveClasses (texts_of names.now) classes.items count) }
{
    let mut classes = Vec::with_capacity(alloc, names.len())?;
    'names: for place in 0..names.len() {
        classes.push_reserved(class_of(start, names[place], count));
    }
    Ok(classes)
}

/// The class of a name, by its hash.
fn class_of(start: DefaultHasher, name: &[u8], count: usize) -> u8
    requires some { 1 ≤ count }
    requires few { count ≤ 256 }
    ensures { result ≡ class_in start count name.now }
{
    let mut hasher = start;
    hasher.write(name);
    (hasher.finish() % count as u64) as u8
}

/// Does a name stand twice among these? The set holds no name yet.
fn is_repeated<'a>(
    seen: &mut IndexSet<TextKey<'a>, TextHash>,
    names: &[&'a [u8]],
) -> Result<bool, AllocError>
    requires { keys seen.old ≡ [] }
    ensures { IfOk result (λ r. r ≡ has_repeated (texts_of names.now)) }
{
    'names: for place in 0..names.len() {
        if !seen.insert(TextKey { text: names[place] })? {
            return Ok(true);
        }
    }
    Ok(false)
}

/// Does a name stand twice among those of one class, whichever that is?
fn is_repeated_by_class<'a>(
    seen: &mut IndexSet<TextKey<'a>, TextHash>,
    names: &[&'a [u8]],
    classes: &[u8],
    count: usize,
) -> Result<bool, AllocError>
    requires few { count ≤ 256 }
    requires classes { HaveClasses (texts_of names.now) classes.now count }
    ensures { IfOk result (λ r. r ≡ has_repeated (texts_of names.now)) }
{
    'classes: for class in 0..count {
        if is_repeated_in(seen, names, classes, class as u8)? {
            return Ok(true);
        }
    }
    Ok(false)
}

/// Does a name stand twice among those of this class? The set loses what it holds, and keeps its memory.
fn is_repeated_in<'a>(
    seen: &mut IndexSet<TextKey<'a>, TextHash>,
    names: &[&'a [u8]],
    classes: &[u8],
    class: u8,
) -> Result<bool, AllocError>
    requires { length classes.now ≡ length names.now }
    ensures { IfOk result (λ r. (class_of : List ℕ → ℕ) → classes.now ≡ map class_of (texts_of names.now)
        → r ≡ has_repeated (of_class class_of class (texts_of names.now))) }
{
    seen.clear();
    let mut place = place_from(classes, class, 0);
    'names: while place < names.len() {
        if !seen.insert(TextKey { text: names[place] })? {
            return Ok(true);
        }
        place = place_from(classes, class, place + 1);
    }
    Ok(false)
}

/// The first place from one on at which this class stands, and the number of places where it stands at none.
fn place_from(classes: &[u8], class: u8, from: usize) -> usize
    requires { from ≤ length classes.now }
    ensures later { from ≤ result }
    ensures within { result ≤ length classes.now }
    ensures before { (i : ℕ) → from ≤ i → i < result → slice_index classes.now i ≢ class }
    ensures there { result < length classes.now → slice_index classes.now result ≡ class }
{
    match memchr(class, &classes[from..]) {
        Some(step) => from + step,
        None => classes.len(),
    }
}

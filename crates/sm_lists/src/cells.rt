//! Numbers that are kept in two bytes where they fit.

ghost use Rattle.std.specs.Prelude.{◌≡◌, ℕ, ◌-◌, ◌<◌, ◌^◌, ◌↔◌, ◌++◌, [], length, replicate, slice_index, IfOk, OnOk, OnErr, IsTrue};
ghost use Rattle.sm_lists.specs.Places.{places_in};

use crate::cross::Cross;
use crate::place::KeptPlace;
use std::alloc::{AllocError, Global};
use std::marker::Model;

/// The least number that doesn't fit 15 bits, and so not two bytes as a place.
const TOO_GREAT: u32 = 32_768;

/// Numbers in order: in two bytes each, and in four from the first list on that was added with one that doesn't fit.
#[derive(Debug, Drop)]
pub(crate) struct Cells {
    narrow: Vec<Cross>,
    wide: Vec<u32>,
}

impl Model for Cells {
    ghost use Rattle.std.specs.Prelude.{ℕ, List, ◌++◌};
    ghost use Rattle.sm_lists.specs.Places.{places_in};

    ghost Value = { List ℕ };

    ghost view = { λ c. places_in c.narrow.items ++ c.wide.items };
}

impl Cells {
    /// No number yet, with room for so many that fit two bytes.
    ///
    /// # Errors
    ///
    /// `AllocError` where memory ran out, and only then.
    pub(crate) fn with_capacity(alloc: Global, numbers: usize) -> Result<Cells, AllocError>
        ensures { IfOk result (λ cells. cells ≡ []) }
    {
        Ok(Cells {
            narrow: Vec::with_capacity(alloc, numbers)?,
            wide: Vec::new(alloc),
        })
    }

    /// These numbers, in four bytes each. Takes constant time.
    pub(crate) fn wide(alloc: Global, numbers: Vec<u32>) -> Cells
        ensures { result ≡ numbers.items }
    {
        Cells {
            narrow: Vec::new(alloc),
            wide: numbers,
        }
    }

    /// These places, in two bytes each, and 0 where there is none. Takes constant time.
    pub(crate) fn of_crosses(alloc: Global, places: Vec<Cross>) -> Cells
        ensures { result ≡ places_in places.items }
    {
        Cells {
            narrow: places,
            wide: Vec::new(alloc),
        }
    }

    /// How many numbers there are.
    pub(crate) fn len(&self) -> usize
        ensures { result ≡ length self.now }
    {
        self.narrow.len() + self.wide.len()
    }

    /// The number at a place.
    pub(crate) fn at(&self, place: usize) -> u32
        requires { place < length self.now }
        ensures { result ≡ slice_index self.now place }
    {
        let narrow = self.narrow.len();
        if place < narrow {
            self.narrow[place].place().unwrap_or(0)
        } else {
            self.wide[place - narrow]
        }
    }

    /// Adds a list of numbers. Takes time in proportion to it.
    ///
    /// # Errors
    ///
    /// `AllocError` where memory ran out, and only then. The numbers are then what they were.
    pub(crate) fn extend(&mut self, list: &[u32]) -> Result<(), AllocError>
        ensures added { OnOk result (self.new ≡ self.old ++ list.now) }
        ensures kept { OnErr result (self.new ≡ self.old) }
    {
        if self.wide.is_empty() && all_fit(list) {
            return add_narrow(&mut self.narrow, list);
        }
        self.widen()?;
        self.wide.extend_from_slice(list)
    }

    /// Adds so many equal numbers. Takes time in proportion to their count.
    ///
    /// # Errors
    ///
    /// `AllocError` where memory ran out, and only then. The numbers are then what they were.
    pub(crate) fn extend_equal(&mut self, number: u32, count: usize) -> Result<(), AllocError>
        requires { count < 2 ^ 63 }
        ensures added { OnOk result (self.new ≡ self.old ++ replicate count number) }
        ensures kept { OnErr result (self.new ≡ self.old) }
    {
        if self.wide.is_empty() && number < TOO_GREAT {
            return add_equal(&mut self.narrow, number, count);
        }
        self.widen()?;
        self.wide.resize(self.wide.len() + count, number)
    }

    /// Makes room in four bytes for what there is room for in two, where none is kept in four yet.
    fn widen(&mut self) -> Result<(), AllocError>
        ensures { self.new ≡ self.old }
    {
        if self.wide.is_empty() {
            let room = self.narrow.capacity() - self.narrow.len();
            self.wide.reserve(room)?;
        }
        Ok(())
    }

    /// The same numbers. Takes time and memory in proportion to them.
    ///
    /// # Errors
    ///
    /// `AllocError` where memory ran out, and only then.
    pub(crate) fn copy(&self, alloc: Global) -> Result<Cells, AllocError>
        ensures { IfOk result (λ copy. copy ≡ self.now) }
    {
        Ok(Cells {
            narrow: Vec::from_slice(alloc, &self.narrow)?,
            wide: Vec::from_slice(alloc, &self.wide)?,
        })
    }
}

/// Does each number of a list fit 15 bits, and so two bytes as a place?
fn all_fit(list: &[u32]) -> bool
    ensures { IsTrue result ↔ ((i : ℕ) → i < length list.now → slice_index list.now i < 2 ^ 15) }
{
    let mut bits = 0;
    for number in list {
        bits |= *number;
    }
    bits < TOO_GREAT
}

/// Adds numbers that fit two bytes.
fn add_narrow(cells: &mut Vec<Cross>, list: &[u32]) -> Result<(), AllocError>
    requires { (i : ℕ) → i < length list.now → slice_index list.now i < 2 ^ 15 }
    ensures added { OnOk result (places_in cells.new.items ≡ places_in cells.old.items ++ list.now) }
    ensures kept { OnErr result (places_in cells.new.items ≡ places_in cells.old.items) }
{
    let before = cells.len();
    cells.resize(before + list.len(), Cross::of(None))?;
    write_narrow(&mut cells[before..], list);
    Ok(())
}

/// Adds so many equal numbers that fit two bytes.
fn add_equal(cells: &mut Vec<Cross>, number: u32, count: usize) -> Result<(), AllocError>
    requires fits { number < 2 ^ 15 }
    requires few { count < 2 ^ 63 }
    ensures added { OnOk result (places_in cells.new.items
        ≡ places_in cells.old.items ++ replicate count number) }
    ensures kept { OnErr result (places_in cells.new.items ≡ places_in cells.old.items) }
{
    let before = cells.len();
    cells.resize(before + count, Cross::of(Some(number)))?;
    Ok(())
}

/// Writes numbers that fit two bytes.
fn write_narrow(cells: &mut [Cross], list: &[u32])
    requires as_many { length cells.old ≡ length list.now }
    requires fit { (i : ℕ) → i < length list.now → slice_index list.now i < 2 ^ 15 }
    ensures { places_in cells.new ≡ list.now }
{
    for at in 0..list.len() {
        cells[at] = Cross::of(Some(list[at]));
    }
}

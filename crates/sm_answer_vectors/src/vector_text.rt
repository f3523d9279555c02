//! The text of a vector, kept from one vector to the next.

ghost use Rattle.std.specs.Prelude.{◌≡◌, ℕ, ◌+◌, ◌<◌, ◌≤◌, ◌++◌, ◌∷◌, [], true, false, length, take, drop, set, slice_index, decimal, IfOk, OnOk};
ghost use Rattle.sm_report.specs.Texts.{vector_text};
ghost use Rattle.sm_answer_vectors.specs.Spelled.{IsKept};

use sm_text::LineWriter;
use std::alloc::{AllocError, Global};

/// The text of a vector. Where another vector is shown only the numbers that differ are written anew, and all behind the first
/// one whose text has another length.
#[derive(Drop)]
pub struct VectorText {
    /// The numbers that are shown.
    pub(crate) shown: Vec<u32>,
    /// Each of them in decimal with a comma behind it.
    pub(crate) text: Vec<u8>,
    /// Where the text of each number begins, and where that of the last one ends.
    pub(crate) starts: Vec<usize>,
    /// A number in decimal.
    pub(crate) digits: LineWriter,
}

/// Room for the digits of a number.
const DIGITS: usize = 10;

/// How many numbers are compared before the first look at the outcome.
const BLOCK: usize = 64;

impl VectorText {
    /// The text of the vector without numbers.
    pub(crate) fn new(alloc: Global) -> Result<VectorText, AllocError>
        ensures kept { IfOk result (λ text. IsKept text) }
        ensures shown { IfOk result (λ text. text.shown.items ≡ []) }
    {
        let mut starts = Vec::new(alloc);
        starts.push(0)?;
        Ok(VectorText {
            shown: Vec::new(alloc),
            text: Vec::new(alloc),
            starts,
            digits: LineWriter::new(alloc, DIGITS)?,
        })
    }

    /// Shows a vector. Takes time in proportion to its numbers: a comparison for each, and more for what is written anew.
    ///
    /// # Errors
    ///
    /// `AllocError` where memory ran out, and only then; nothing is said of the text then.
    pub(crate) fn show(&mut self, vector: &[u32]) -> Result<(), AllocError>
        requires { IsKept self.old }
        ensures kept { OnOk result (IsKept self.new) }
        ensures shown { OnOk result (self.new.shown.items ≡ vector.now) }
    {
        let agreed = self.write_over(vector)?;
        self.keep(agreed);
        for i in agreed..vector.len() {
            self.add(vector[i])?;
        }
        Ok(())
    }

    /// Writes numbers over those shown that differ, as long as their texts are as long. Answers how many at the front agree then.
    fn write_over(&mut self, vector: &[u32]) -> Result<usize, AllocError>
        requires { IsKept self.old }
        ensures kept { OnOk result (IsKept self.new) }
        ensures within { IfOk result (λ n. (n ≤ length self.new.shown.items)
            × (n ≤ length vector.now)) }
        ensures agreed { IfOk result (λ n. take n self.new.shown.items ≡ take n vector.now) }
    {
        let mut i = first_change(&self.shown, vector, 0);
        'changes: while i < self.shown.len() && i < vector.len() {
            if !self.write(i, vector[i])? {
                return Ok(i);
            }
            i = first_change(&self.shown, vector, i + 1);
        }
        Ok(i)
    }

    /// Writes a number over the one shown at a place. False where its text is longer or shorter, and then nothing changes.
    fn write(&mut self, i: usize, number: u32) -> Result<bool, AllocError>
        requires kept { IsKept self.old }
        requires place { i < length self.old.shown.items }
        ensures kept { OnOk result (IsKept self.new) }
        ensures written { IfOk result (λ done. done ≡ true → self.new.shown.items
            ≡ set self.old.shown.items i number) }
        ensures same { IfOk result (λ done. done ≡ false → self.new.shown.items
            ≡ self.old.shown.items) }
    {
        self.digits.clear();
        self.digits.put_number(u64::from(number))?;
        let start = self.starts[i];
        let end = self.starts[i + 1];
        let digits = self.digits.bytes();
        if end - start != digits.len() + 1 {
            return Ok(false);
        }
        write_at(&mut self.text, start, digits);
        self.shown[i] = number;
        Ok(true)
    }

    /// Only so many numbers at the front are shown.
    fn keep(&mut self, count: usize)
        requires kept { IsKept self.old }
        requires few { count ≤ length self.old.shown.items }
        ensures kept { IsKept self.new }
        ensures shown { self.new.shown.items ≡ take count self.old.shown.items }
    {
        self.text.truncate(self.starts[count]);
        self.shown.truncate(count);
        self.starts.truncate(count + 1);
    }

    /// Shows one more number.
    fn add(&mut self, number: u32) -> Result<(), AllocError>
        requires { IsKept self.old }
        ensures kept { OnOk result (IsKept self.new) }
        ensures shown { OnOk result (self.new.shown.items ≡ self.old.shown.items ++ number ∷ []) }
    {
        put_digits(&mut self.text, &mut self.digits, number)?;
        self.text.push(b',')?;
        self.starts.push(self.text.len())?;
        self.shown.push(number)?;
        Ok(())
    }

    /// Puts the text of the vector: its numbers with commas between them, and `-` where there are none.
    pub(crate) fn put(&self, into: &mut LineWriter) -> Result<(), AllocError>
        requires { IsKept self.now }
        ensures { OnOk result (into.new.bytes ≡ into.old.bytes
            ++ vector_text self.now.shown.items) }
    {
        let [text @ .., _comma] = self.text.as_slice() else {
            return into.put_bytes(b"-");
        };
        into.put_bytes(text)
    }
}

/// Puts a number in decimal behind a text.
fn put_digits(text: &mut Vec<u8>, digits: &mut LineWriter, number: u32) -> Result<(), AllocError>
    ensures { OnOk result (text.new.items ≡ text.old.items ++ decimal number) }
{
    if number < 10 {
        text.push(b'0' + number as u8)?;
        return Ok(());
    }
    if number < 100 {
        text.push(b'0' + (number / 10) as u8)?;
        text.push(b'0' + (number % 10) as u8)?;
        return Ok(());
    }
    digits.clear();
    digits.put_number(u64::from(number))?;
    text.extend_from_slice(digits.bytes())
}

/// The first place from one on at which two vectors differ, or where the shorter one ends.
fn first_change(shown: &[u32], vector: &[u32], from: usize) -> usize
    requires shown_long { from ≤ length shown.now }
    requires vector_long { from ≤ length vector.now }
    ensures behind { from ≤ result }
    ensures shown_long { result ≤ length shown.now }
    ensures vector_long { result ≤ length vector.now }
    ensures same { (j : ℕ) → from ≤ j → j < result → slice_index shown.now j
        ≡ slice_index vector.now j }
{
    let mut i = from;
    'blocks: while i + BLOCK <= shown.len()
        && i + BLOCK <= vector.len()
        && are_same(shown, vector, i, i + BLOCK)
    {
        i += BLOCK;
    }
    'numbers: while i < shown.len() && i < vector.len() && shown[i] == vector[i] {
        i += 1;
    }
    i
}

/// Whether two vectors agree from one place up to another. It goes over all of these places, with no jump out, so that the
/// machine compares several at once.
fn are_same(shown: &[u32], vector: &[u32], from: usize, to: usize) -> bool
    requires shown_long { to ≤ length shown.now }
    requires vector_long { to ≤ length vector.now }
    ensures { result ≡ true → (j : ℕ) → from ≤ j → j < to → slice_index shown.now j
        ≡ slice_index vector.now j }
{
    let mut same = true;
    for j in from..to {
        if shown[j] != vector[j] {
            same = false;
        }
    }
    same
}

/// Writes bytes over those of a text from a place on.
fn write_at(text: &mut [u8], at: usize, bytes: &[u8])
    requires { at + length bytes.now ≤ length text.old }
    ensures long { length text.new ≡ length text.old }
    ensures written { text.new ≡ take at text.old ++ bytes.now
        ++ drop (at + length bytes.now) text.old }
{
    text[at..at + bytes.len()].copy_from_slice(bytes);
}

//! A writer of lines.

ghost use Rattle.std.specs.Prelude.{◌≡◌, ◌≤◌, ◌<◌, ◌+◌, ◌^◌, ◌++◌, ◌∷◌, [], length, take, drop, decimal, vec_len, vec_capacity, IfOk, OnOk, IsOk};

use crate::spaced_name::{SpacedName, WIDTH};
use std::alloc::{AllocError, Global};
use std::marker::Model;

/// Holds the bytes of a line while it is put together.
///
/// Its room is how many bytes it can hold without asking for more memory.
#[derive(Drop)]
pub struct LineWriter {
    /// What it holds, and behind it bytes that mean nothing and are written over.
    bytes: Vec<u8>,
    /// How many bytes it holds.
    len: usize,
    ghost within: { len ≤ length bytes.items },
}

impl Model for LineWriter {
    ghost use Rattle.std.specs.Prelude.{take, vec_capacity};
    ghost use Rattle.sm_text.specs.Writer.{WriterData};

    ghost Value = { WriterData };

    ghost view = { λ w. record { bytes = take w.len w.bytes.items; room = vec_capacity w.bytes } };
}

impl LineWriter {
    ghost use Rattle.std.specs.Prelude.{take, vec_len, vec_capacity};
    ghost use Rattle.std.specs.Fmt.{signed_decimal};
    ghost use Rattle.sm_text.specs.Writer.{PutsPiece, IsSpacedName};

    /// An empty writer with room for `room` bytes. Takes constant time, and memory for that room.
    ///
    /// # Errors
    ///
    /// `AllocError` where memory ran out, and only then.
    pub fn new(alloc: Global, room: usize) -> Result<LineWriter, AllocError>
        ensures empty { IfOk result (λ w. w.bytes ≡ []) }
        ensures room { IfOk result (λ w. room ≤ w.room) }
    {
        Ok(LineWriter {
            bytes: Vec::with_capacity(alloc, room)?,
            len: 0,
        })
    }

    /// What it holds. Takes constant time.
    pub fn bytes(&self) -> &[u8]
        ensures { result.now ≡ self.now.bytes }
    {
        &self.bytes[..self.len]
    }

    /// What it holds, as a vector with the writer's room. Nothing is copied: it takes constant time, and no memory.
    pub fn into_bytes(self) -> Vec<u8>
        ensures bytes { result.items ≡ self.bytes }
        ensures room { vec_capacity result ≡ self.room }
    {
        let LineWriter { mut bytes, len } = self;
        bytes.truncate(len);
        bytes
    }

    /// Empties it. It keeps its room. Takes constant time.
    pub fn clear(&mut self)
        ensures empty { self.new.bytes ≡ [] }
        ensures room { self.new.room ≡ self.old.room }
    {
        self.len = 0;
    }

    /// Puts bytes behind what it holds. Takes time in proportion to them; where the room has to grow, memory and time in
    /// proportion to what it holds.
    ///
    /// # Errors
    ///
    /// `AllocError` where memory ran out, and only then; never where the bytes fit the room that is left. It then holds what
    /// it held, and its room is no smaller.
    pub fn put_bytes(&mut self, piece: &[u8]) -> Result<(), AllocError>
        ensures { PutsPiece self.old self.new piece.now result }
    {
        let to = make_ready(&mut self.bytes, self.len, piece.len())?;
        self.bytes[self.len..to].copy_from_slice(piece);
        self.len = to;
        Ok(())
    }

    /// Puts one byte behind what it holds. Takes constant time; where the room has to grow, what [`LineWriter::put_bytes`]
    /// takes.
    ///
    /// # Errors
    ///
    /// As [`LineWriter::put_bytes`] for the byte.
    pub fn put_byte(&mut self, byte: u8) -> Result<(), AllocError>
        ensures { PutsPiece self.old self.new (byte ∷ []) result }
    {
        let to = make_ready(&mut self.bytes, self.len, 1)?;
        self.bytes[self.len] = byte;
        self.len = to;
        Ok(())
    }

    /// Puts a space and a name behind it. Takes constant time for a name of at most fifteen bytes, and what
    /// [`LineWriter::put_bytes`] takes for any other, and where the room has to grow.
    ///
    /// # Errors
    ///
    /// As [`LineWriter::put_bytes`] for the space and the name.
    #[inline(always)]
    pub fn put_name(&mut self, spaced: &SpacedName, name: &[u8]) -> Result<(), AllocError>
        requires { IsSpacedName spaced.now.bytes spaced.now.len name.now }
        ensures { PutsPiece self.old self.new (32 ∷ name.now) result }
    {
        let from = self.len;
        let len = spaced.len as usize;
        if len > 0 && self.bytes.len() - from >= WIDTH {
            write_over(&mut self.bytes, from, &spaced.bytes);
            self.len = from + len;
            return Ok(());
        }
        self.put_behind_space(name)
    }

    /// Puts a space and bytes behind it. Takes what [`LineWriter::put_bytes`] takes.
    ///
    /// # Errors
    ///
    /// As [`LineWriter::put_bytes`] for the space and the bytes.
    #[inline(never)]
    pub fn put_behind_space(&mut self, piece: &[u8]) -> Result<(), AllocError>
        ensures { PutsPiece self.old self.new (32 ∷ piece.now) result }
    {
        make_ready(&mut self.bytes, self.len, piece.len() + 1)?;
        self.put_byte(b' ').unwrap();
        self.put_bytes(piece)
    }

    /// Puts a number in decimal behind what it holds. Takes what [`LineWriter::put_bytes`] takes.
    ///
    /// # Errors
    ///
    /// As [`LineWriter::put_bytes`] for the digits.
    pub fn put_number(&mut self, value: u64) -> Result<(), AllocError>
        ensures { PutsPiece self.old self.new (decimal value) result }
    {
        if value < 10 {
            return self.put_byte(b'0' + value as u8);
        }
        let mut digits = [0u8; MOST_DIGITS];
        let start = write_digits(value, &mut digits);
        self.put_bytes(&digits[start..])
    }

    /// Puts a signed number in decimal behind what it holds, with `-` before it where it is below 0. Takes what
    /// [`LineWriter::put_bytes`] takes.
    ///
    /// # Errors
    ///
    /// As [`LineWriter::put_bytes`] for the sign and the digits.
    pub fn put_signed(&mut self, value: i64) -> Result<(), AllocError>
        ensures { PutsPiece self.old self.new (signed_decimal value) result }
    {
        let mut text = [0u8; MOST_DIGITS + 1];
        let start = write_digits(value.unsigned_abs(), &mut text[1..]);
        if value >= 0 {
            return self.put_bytes(&text[start + 1..]);
        }
        text[start] = b'-';
        self.put_bytes(&text[start..])
    }
}

/// Writes these bytes over those from a place on.
#[inline(always)]
fn write_over(bytes: &mut Vec<u8>, from: usize, new: &[u8; WIDTH])
    requires inside { from + 16 ≤ vec_len bytes.old }
    ensures written { take (from + 16) bytes.new.items ≡ take from bytes.old.items ++ new.now }
    ensures len { vec_len bytes.new ≡ vec_len bytes.old }
    ensures room { vec_capacity bytes.new ≡ vec_capacity bytes.old }
{
    bytes[from..from + WIDTH].copy_from_slice(new);
}

/// Ensures `more` writable bytes behind the first `len`, and answers where they end.
#[inline(always)]
fn make_ready(bytes: &mut Vec<u8>, len: usize, more: usize) -> Result<usize, AllocError>
    requires within { len ≤ vec_len bytes.old }
    requires few { more ≤ 2 ^ 63 }
    ensures end { IfOk result (λ to. to ≡ len + more) }
    ensures there { IfOk result (λ to. to ≤ vec_len bytes.new) }
    ensures within { len ≤ vec_len bytes.new }
    ensures held { take len bytes.new.items ≡ take len bytes.old.items }
    ensures fits { len + more ≤ vec_capacity bytes.old → IsOk result }
    ensures room { vec_capacity bytes.old ≤ vec_capacity bytes.new }
{
    let to = len + more;
    if bytes.len() < to {
        fill_up(bytes, to)?;
    }
    Ok(to)
}

/// Most lines have fewer bytes, even with a name of sixteen put behind them.
const USUAL: usize = 128;

/// Adds bytes to write over, up to a place at least: as many as there are, so that the time is in proportion to what is put, and
/// enough for most lines, but no more than there is room for.
#[inline(never)]
fn fill_up(bytes: &mut Vec<u8>, to: usize) -> Result<(), AllocError>
    requires further { vec_len bytes.old < to }
    ensures there { OnOk result (to ≤ vec_len bytes.new) }
    ensures held { take (vec_len bytes.old) bytes.new.items ≡ bytes.old.items }
    ensures fits { to ≤ vec_capacity bytes.old → IsOk result }
    ensures room { vec_capacity bytes.old ≤ vec_capacity bytes.new }
{
    bytes.reserve(to - bytes.len())?;
    let twice = bytes.len().saturating_mul(2).max(USUAL);
    let len = twice.min(bytes.capacity()).max(to);
    bytes.resize(len, 0).unwrap();
    Ok(())
}

/// How many digits the greatest `u64` has.
const MOST_DIGITS: usize = 20;

/// Writes a number in decimal to the end of `digits`, and answers where it begins.
fn write_digits(value: u64, digits: &mut [u8]) -> usize
    requires { length digits.old ≡ MOST_DIGITS }
    ensures within { result < MOST_DIGITS }
    ensures written { drop result digits.new ≡ decimal value }
{
    let mut rest = value;
    let mut start = MOST_DIGITS - 1;
    digits[start] = b'0' + (rest % 10) as u8;
    while rest >= 10 {
        rest /= 10;
        start -= 1;
        digits[start] = b'0' + (rest % 10) as u8;
    }
    start
}

//! A source over a reader and a sink over a writer: the ways out of the program.

ghost use Rattle.std.specs.Prelude.{◌≡◌, ◌≤◌, None, IfOk};
ghost use Rattle.sm_io.specs.Faults.{Rose};
ghost use Rattle.sm_io.specs.Source.{Takes};
ghost use Rattle.sm_io.specs.Sink.{Puts};
ghost use Rattle.sm_io.specs.Edge.{reader_of, source_faults, writer_of, sink_faults, CountsTaken, CountsPut, Writes};

use crate::{Put, Sink, Source, Taken};
use std::io::{Read, Write};

/// A source over a reader. It tells no bytes itself, and each error of the reader is a fault.
#[derive(Drop)]
pub struct ReadSource<R> {
    inner: R,
    faults: u64,
}

impl<R: Read> ReadSource<R> {
    /// A source of the reader's bytes, with no fault so far. Takes constant time and no memory.
    pub fn new(inner: R) -> ReadSource<R>
        ensures reader { reader_of result ≡ inner }
        ensures faults { source_faults result ≡ 0 }
    {
        ReadSource { inner, faults: 0 }
    }
}

impl<R: Read> Source for ReadSource<R> {
    ghost left = { λ _. None };

    ghost faults = { λ s. source_faults s };

    /// Reads once. `End` is a read of no bytes, as with an empty `into`; any error of the reader, also an interrupted read, is
    /// `Failed`. Where the reader tells its bytes, those that are given are its next ones.
    fn take(&mut self, into: &mut [u8]) -> Taken
        ensures taken { Takes None None result into.new }
        ensures later { source_faults self.old ≤ source_faults self.new }
        ensures failed { result ≡ Taken.Failed → Rose (source_faults self.old)
            (source_faults self.new) }
        ensures counted { CountsTaken (source_faults self.old) (source_faults self.new) result }
        ensures reader { Takes (R.remaining (reader_of self.old))
            (R.remaining (reader_of self.new)) result into.new }
    {
        match self.inner.read(into) {
            Ok(0) => Taken::End,
            Ok(count) => Taken::Got(count),
            Err(_) => {
                self.faults = self.faults.saturating_add(1);
                Taken::Failed
            }
        }
    }
}

/// A sink over a writer. It tells no bytes itself, and each error of the writer is a fault.
#[derive(Drop)]
pub struct WriteSink<W> {
    inner: W,
    faults: u64,
}

impl<W: Write> WriteSink<W> {
    /// A sink into the writer, with no fault so far. Takes constant time and no memory.
    pub fn new(inner: W) -> WriteSink<W>
        ensures writer { writer_of result ≡ inner }
        ensures faults { sink_faults result ≡ 0 }
    {
        WriteSink { inner, faults: 0 }
    }
}

impl<W: Write> Sink for WriteSink<W> {
    ghost held = { λ _. None };

    ghost faults = { λ s. sink_faults s };

    /// Writes until the whole piece is out, and then flushes. Any error of the writer, and a write of no bytes, is `Failed`.
    /// Where the writer tells its bytes, they grow by the piece or after a fault by a front of it.
    fn put(&mut self, piece: &[u8]) -> Put
        ensures taken { Puts None None result piece.now }
        ensures later { sink_faults self.old ≤ sink_faults self.new }
        ensures failed { result ≡ Put.Failed → Rose (sink_faults self.old) (sink_faults self.new) }
        ensures counted { CountsPut (sink_faults self.old) (sink_faults self.new) result }
        ensures writer { Writes (W.contents (writer_of self.old))
            (W.contents (writer_of self.new)) result piece.now }
    {
        let answer = write_out(&mut self.inner, piece);
        if let Put::Failed = answer {
            self.faults = self.faults.saturating_add(1);
        }
        answer
    }
}

/// Writes the whole piece and flushes. `Failed` comes at the first error, and at a write of no bytes.
fn write_out<W: Write>(writer: &mut W, piece: &[u8]) -> Put
    ensures { Writes (W.contents writer.old) (W.contents writer.new) result piece.now }
{
    let mut rest = piece;
    while !rest.is_empty() {
        match writer.write(rest) {
            Ok(0) => return Put::Failed,
            Ok(count) => rest = &rest[count..],
            Err(_) => return Put::Failed,
        }
    }
    match writer.flush() {
        Ok(()) => Put::Done,
        Err(_) => Put::Failed,
    }
}

//! Sources and sinks: those in memory, and those over a reader and a writer that fail once and then go on.

ghost use Rattle.std.specs.Prelude.{◌≤◌, IfOk};

use crate::made::{MEMORY, copy};
use sm_io::{
    MemSink, MemSource, Put, ReadSource, Sink, Source, SteadySink, SteadySource, Taken, WriteSink,
};
use std::io;
use std::io::{Read, Write};
use std::process::Abort;

/// Moves a byte a call, but for the call of one number, from 1: this one fails, with an error or by writing nothing.
#[derive(Drop)]
struct FailsOnce {
    calls: usize,
    failing: usize,
    is_loud: bool,
}

impl FailsOnce {
    fn new(failing: usize, is_loud: bool) -> FailsOnce {
        FailsOnce {
            calls: 0,
            failing,
            is_loud,
        }
    }

    /// How many bytes the next call moves.
    fn step(&mut self) -> io::Result<usize>
        ensures { IfOk result (λ count. count ≤ 1) }
    {
        self.calls = self.calls.saturating_add(1);
        if self.calls != self.failing {
            Ok(1)
        } else if self.is_loud {
            Err(io::Error::from(io::ErrorKind::BrokenPipe))
        } else {
            Ok(0)
        }
    }
}

impl Read for FailsOnce {
    fn read(&mut self, buf: &mut [u8]) -> io::Result<usize> {
        if buf.is_empty() {
            return Ok(0);
        }
        self.step()
    }
}

impl Write for FailsOnce {
    fn write(&mut self, buf: &[u8]) -> io::Result<usize> {
        if buf.is_empty() {
            return Ok(0);
        }
        self.step()
    }

    fn flush(&mut self) -> io::Result<()> {
        self.step()?;
        Ok(())
    }
}

/// Makes sure what a source answers, and with which bytes the place for them begins then.
fn takes(rt: &impl Abort, source: &mut impl Source, into: &mut [u8], answer: Taken, bytes: &[u8]) {
    assert!(rt; source.take(into) == answer);
    assert!(rt; into.starts_with(bytes));
}

/// Makes sure what a sink answers to a piece.
fn puts(rt: &impl Abort, sink: &mut impl Sink, piece: &[u8], answer: Put) {
    assert!(rt; sink.put(piece) == answer);
}

#[test]
fn a_reader_is_read_and_its_error_told(rt: HostRuntime) {
    let mut into = [0u8; 2];
    reads_to_the_end(&rt, &mut into);
    // a second try would give a byte
    let mut source = ReadSource::new(FailsOnce::new(1, true));
    takes(&rt, &mut source, &mut into, Taken::Failed, b"");
    takes(&rt, &mut source, &mut into, Taken::Got(1), b"");
}

/// Reads three bytes into a place for two.
fn reads_to_the_end(rt: &impl Abort, into: &mut [u8]) {
    let mut source = ReadSource::new(b"abc".as_slice());
    takes(rt, &mut source, &mut [], Taken::End, b"");
    takes(rt, &mut source, into, Taken::Got(2), b"ab");
    takes(rt, &mut source, into, Taken::Got(1), b"c");
    takes(rt, &mut source, into, Taken::End, b"");
}

/// Puts a piece of two bytes, which takes a write for each and a flush, into a writer of which one call fails, and then puts
/// another. A second try of the one that failed would be done.
fn puts_once_more(rt: &impl Abort, failing: usize, is_loud: bool) {
    let mut sink = WriteSink::new(FailsOnce::new(failing, is_loud));
    puts(rt, &mut sink, b"ab", Put::Failed);
    puts(rt, &mut sink, b"cd", Put::Done);
}

#[test]
fn a_writer_is_written_and_its_error_told(rt: HostRuntime) {
    writes_two_pieces(&rt);
    puts_once_more(&rt, 1, true);
    puts_once_more(&rt, 2, true);
    puts_once_more(&rt, 2, false);
    puts_once_more(&rt, 3, true);
}

/// Puts two pieces into a vector.
fn writes_two_pieces(rt: &(impl Abort + AllocGlobal)) {
    let mut bytes = Vec::new(rt.alloc());
    let mut sink = WriteSink::new(&mut bytes);
    puts(rt, &mut sink, b"ab", Put::Done);
    puts(rt, &mut sink, b"c", Put::Done);
    drop(sink);
    assert!(rt; bytes.as_slice() == b"abc".as_slice());
}

#[test]
fn steady_ones_go_piece_by_piece(rt: HostRuntime) {
    gives_piece_by_piece(&rt);
    holds_up_to_its_room(&rt);
}

/// Takes four bytes from a steady source, three at a time.
fn gives_piece_by_piece(rt: &(impl Abort + AllocGlobal)) {
    let mut source = SteadySource::new(copy(rt, b"abcd"), 3);
    let mut into = [0u8; 8];
    takes(rt, &mut source, &mut into, Taken::Got(3), b"abc");
    takes(rt, &mut source, &mut into, Taken::Got(1), b"d");
    takes(rt, &mut source, &mut into, Taken::End, b"");
}

/// Puts five bytes into a steady sink with room for four.
fn holds_up_to_its_room(rt: &(impl Abort + AllocGlobal)) {
    let mut sink = SteadySink::new(rt.alloc(), 4).expect(rt, MEMORY);
    puts(rt, &mut sink, b"abc", Put::Done);
    puts(rt, &mut sink, b"d", Put::Done);
    assert!(rt; sink.held() == Some(b"abcd".as_slice()));
    puts(rt, &mut sink, b"e", Put::Done);
    assert!(rt; sink.held().is_none());
}

#[test]
fn pieces_round_a_failing_second_call(rt: HostRuntime) {
    let mut source = MemSource::new(copy(&rt, b"abcdefg"), 3, copy(&rt, &[2]));
    let mut into = [0u8; 4];
    takes(&rt, &mut source, &mut into, Taken::Got(3), b"abc");
    takes(&rt, &mut source, &mut into, Taken::Failed, b"");
    takes(&rt, &mut source, &mut into[..2], Taken::Got(2), b"de");
    takes(&rt, &mut source, &mut [], Taken::End, b"");
    takes(&rt, &mut source, &mut into, Taken::Got(2), b"fg");
    takes(&rt, &mut source, &mut into, Taken::End, b"");
    assert!(rt; source.calls() == 6);
}

/// Makes sure what a sink in memory answers to a piece, and what it holds then.
fn holds(rt: &impl Abort, sink: &mut MemSink, piece: &[u8], answer: Put, held: &[u8]) {
    assert!(rt; sink.put(piece) == answer);
    assert!(rt; sink.held() == held);
}

#[test]
fn first_of_two_pairs_and_the_room_count(rt: HostRuntime) {
    let failing = copy(&rt, &[(2, 2), (2, 0), (3, 100)]);
    let mut sink = MemSink::new(rt.alloc(), 10, failing).expect(&rt, MEMORY);
    holds(&rt, &mut sink, b"abc", Put::Done, b"abc");
    holds(&rt, &mut sink, b"defg", Put::Failed, b"abcde");
    holds(&rt, &mut sink, b"hi", Put::Failed, b"abcdehi");
    holds(&rt, &mut sink, b"jklm", Put::Failed, b"abcdehijkl");
    holds(&rt, &mut sink, b"", Put::Done, b"abcdehijkl");
    holds(&rt, &mut sink, b"n", Put::Failed, b"abcdehijkl");
    assert!(rt; sink.calls() == 6);
}

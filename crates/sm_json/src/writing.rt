//! Writing lines as items of an array, each with one put.

ghost use Rattle.std.specs.Prelude.{◌≤◌};
ghost use Rattle.sm_answer.specs.Giving.{HasRest};
ghost use Rattle.sm_json.specs.Writing.{WritesArray};

use crate::wrapping::wrap;
use sm_answer::{Lines, Unwritten};
use sm_io::{Put, Sink};
use sm_text::LineWriter;
use std::alloc::Global;

/// Room for a usual line. A longer one takes more.
const ROOM: usize = 160;

/// Writes lines to a sink as one array of strings in JSON and LF: each line with one put, and `]` with LF with one more.
///
/// There have to be lines that may be given. What is written is added to what the sink held. Takes time in proportion to
/// what is written, beside that of the lines, and memory for one line at a time.
///
/// # Errors
///
/// `SinkFailed` at the first put that fails, and then the sink's count of faults rose or stands at the greatest `u64`;
/// `NoMemory` where memory ran out. A front of the array of lines that may be given is then written.
pub fn write_wrapped<K: Sink, L: Lines + Drop>(
    alloc: Global,
    sink: &mut K,
    lines: L,
) -> Result<(), Unwritten>
    requires { HasRest (L.gives lines) }
    ensures wrote { WritesArray (L.gives lines)
        (K.held sink.old) (K.held sink.new) (K.faults sink.old) (K.faults sink.new) result }
    ensures later { K.faults sink.old ≤ K.faults sink.new }
{
    let mut lines = lines;
    let mut line = LineWriter::new(alloc, ROOM)?;
    let mut item = LineWriter::new(alloc, ROOM)?;
    let mut first = true;
    'lines: loop {
        line.clear();
        if !lines.put_next(alloc, &mut line)? {
            match sink.put(b"]\n") {
                Put::Done => return Ok(()),
                Put::Failed => return Err(Unwritten::SinkFailed),
            }
        }
        item.clear();
        wrap(&mut item, first, line.bytes())?;
        match sink.put(item.bytes()) {
            Put::Done => first = false,
            Put::Failed => return Err(Unwritten::SinkFailed),
        }
    }
}

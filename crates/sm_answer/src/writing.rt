//! Writing lines, each with one put.

ghost use Rattle.std.specs.Prelude.{◌≤◌, ◌∷◌, ◌++◌, [], OnOk};
ghost use Rattle.sm_text.specs.Lines.{LF};
ghost use Rattle.sm_answer.specs.Giving.{HasRest};
ghost use Rattle.sm_answer.specs.Writing.{WritesAnswer};

use crate::lines::Lines;
use sm_io::{Put, Sink};
use sm_text::LineWriter;
use std::alloc::{AllocError, Global};

/// Why lines weren't written whole.
#[derive(Clone, Copy, Debug, PartialEq, Eq)]
pub enum Unwritten {
    /// The sink failed.
    SinkFailed,
    /// There was no memory.
    NoMemory,
}

impl From<AllocError> for Unwritten {
    ghost use Rattle.std.specs.Prelude.{◌≡◌};
    ghost use Rattle.sm_answer.specs.declared.writing.Unwritten.TheVariants.{NoMemory};

    ghost from_gives = { λ _ e. e ≡ NoMemory };

    fn from(_e: AllocError) -> Unwritten {
        Unwritten::NoMemory
    }
}

/// Room for a usual line. A longer one takes more.
const ROOM: usize = 160;

/// Writes lines to a sink, each with LF behind it and with one put.
///
/// There have to be lines that may be given. What is written is added to what the sink held. Takes time in proportion to
/// what is written, beside that of the lines, and memory for one line at a time.
///
/// # Errors
///
/// `SinkFailed` at the first put that fails, and then the sink's count of faults rose or stands at the greatest `u64`;
/// `NoMemory` where memory ran out. A front of the text of lines that may be given is then written.
pub fn write<K: Sink, L: Lines + Drop>(
    alloc: Global,
    sink: &mut K,
    lines: L,
) -> Result<(), Unwritten>
    requires { HasRest (L.gives lines) }
    ensures wrote { WritesAnswer (L.gives lines)
        (K.held sink.old) (K.held sink.new) (K.faults sink.old) (K.faults sink.new) result }
    ensures later { K.faults sink.old ≤ K.faults sink.new }
{
    let mut lines = lines;
    let mut writer = LineWriter::new(alloc, ROOM)?;
    'lines: loop {
        writer.clear();
        if !lines.put_next(alloc, &mut writer)? {
            return Ok(());
        }
        writer.put_byte(b'\n')?;
        match sink.put(writer.bytes()) {
            Put::Done => {}
            Put::Failed => return Err(Unwritten::SinkFailed),
        }
    }
}

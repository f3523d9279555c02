//! The top call.

ghost use Rattle.std.specs.Prelude.{◌≡◌, ◌≤◌, true, false};
ghost use Rattle.sm_io.specs.Faults.{Rose};
ghost use Rattle.sm_words.specs.Words.{texts};
ghost use Rattle.sm_words.specs.declared.jobs.Form.TheVariants.{Text};
ghost use Rattle.sm_serve.specs.Input.{Drains};
ghost use Rattle.sm_serve.specs.Steps.{IsServed};
ghost use Rattle.sm_trim_top.specs.Running.{has_no_words, Trims, TrimsTaken};
ghost use Rattle.sm_trim_top.specs.Trimmed.{IsRightText, IsRefused};

use crate::trimming::trim;
use sm_instance_lines::instance_lines;
use sm_io::{Sink, Source};
use sm_serve::{Status, Stop, read_all, say_stop, write};
use sm_words::Form;
use std::alloc::Global;

/// Does all that `matchtrim` does, and says how it ended.
///
/// The words are those of the command line behind the program's name; there have to be none. The source is read to its end, or
/// until it gave more than 16,777,216 bytes. The lines of the instance are written to the sink, each with one put.
///
/// - `Done`: the whole text of the trimmed instance is written. It has the same agents, capacities, weights, conditions and order
///   as the instance that was read, and each of its lists is a front of what it was there. Both have the same stable matchings,
///   which are worth the same in both and allowed in one exactly where they are in the other. The lists are cut as far as
///   [`sm_trim::trimmed`] says, and the seats have at most 1,048,576 entries.
/// - `Refused`: the input is refused for this reason, at this line; the one line `refused NAME LINE` is written. An input that is
///   too long comes first, at line 0, then the faults of its lines from the top, then a missing `end`, then a name that isn't
///   declared, then text behind `end`, then roommates, at the header, then seats of the trimmed instance that have more than
///   1,048,576 entries, at the line of the first reviewer with whom they do.
/// - `Usage`: there is a word; the one line `usage 1` is written, and nothing is read.
/// - `ReadFault`, `WriteFault`: the source or the sink failed. Nothing was written, or a front of the text.
/// - `OutOfMemory`: there was no memory. Nothing was written, or a front of the text.
///
/// `NoneExists` and `CheckedNo` never come.
///
/// What is written is added to what the sink held. It depends on the bytes that the source gave and not on how they were cut.
/// Takes time and memory linear in the bytes, beside a look-up for each name, and the time of [`sm_trim::trimmed`].
pub fn run<S: Source, K: Sink>(
    alloc: Global,
    words: &[String],
    source: &mut S,
    sink: &mut K,
) -> Status
    ensures answer { Trims (texts words.now) (S.left source.old) (S.left source.new)
        (K.held sink.old) (K.held sink.new) result }
    ensures taken { TrimsTaken (texts words.now) (S.left source.old) result }
    ensures untouched { has_no_words (texts words.now) ≡ false → source.new ≡ source.old }
    ensures read_fault { result ≡ Status.ReadFault
        → Rose (S.faults source.old) (S.faults source.new) }
    ensures write_fault { result ≡ Status.WriteFault
        → Rose (K.faults sink.old) (K.faults sink.new) }
    ensures source_later { S.faults source.old ≤ S.faults source.new }
    ensures sink_later { K.faults sink.old ≤ K.faults sink.new }
{
    if !words.is_empty() {
        return say_stop(alloc, Form::Text, sink, Stop::Usage(1));
    }
    match serve(alloc, source, sink) {
        Ok(status) => status,
        Err(stop) => say_stop(alloc, Form::Text, sink, stop),
    }
}

/// Reads an instance, and writes what it is trimmed to.
fn serve<S: Source, K: Sink>(alloc: Global, source: &mut S, sink: &mut K) -> Result<Status, Stop>
    ensures served { IsServed true Text IsRightText IsRefused
        S.left S.faults K.held K.faults source.old source.new sink.old sink.new result }
    ensures drains { Drains S.left S.faults source.old source.new }
{
    let bytes = read_all(alloc, source)?;
    let input = trim(alloc, bytes)?;
    Ok(write(
        alloc,
        sink,
        Form::Text,
        Status::Done,
        instance_lines(&input),
    ))
}

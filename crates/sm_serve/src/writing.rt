//! Writing an answer with its status.

ghost use Rattle.std.specs.Prelude.{◌≡◌, ◌∷◌, ◌++◌, [], ℕ, List};
ghost use Rattle.sm_answer.specs.Giving.{HasRest};
ghost use Rattle.sm_text.specs.Lines.{LF};
ghost use Rattle.sm_words.specs.declared.jobs.Form.TheVariants.{Text, Json};
ghost use Rattle.sm_serve.specs.Wrote.{Wrote, With};

use crate::status::Status;
use sm_answer::{Lines, Unwritten};
use sm_io::{Put, Sink};
use sm_json::write_wrapped;
use sm_words::Form;
use std::alloc::Global;

/// Writes lines in a form, and answers the status that goes with them where all are written; else `WriteFault` or `OutOfMemory`,
/// and then a front of them is written.
///
/// Each line is written with one put; in JSON they are the strings of an array, and `]` with LF is written with one more. Takes
/// time linear in what is written, beside that of the lines, and memory for one line at a time.
pub fn write<K: Sink, L: Lines + Drop>(
    alloc: Global,
    sink: &mut K,
    form: Form,
    status: Status,
    lines: L,
) -> Status
    requires { HasRest (L.gives lines) }
    ensures { Wrote form (With status (L.gives lines)) K.held K.faults
        sink.old sink.new result }
{
    match form {
        Form::Text => write_text(alloc, sink, status, lines),
        Form::Json => write_json(alloc, sink, status, lines),
    }
}

/// Writes lines, each with its end.
#[tactic(auto, using(crate::proofs::WritingLemmas::wrote_whole, crate::proofs::WritingLemmas::wrote_failed, crate::proofs::WritingLemmas::wrote_cut))]
fn write_text<K: Sink, L: Lines + Drop>(
    alloc: Global,
    sink: &mut K,
    status: Status,
    lines: L,
) -> Status
    requires { HasRest (L.gives lines) }
    ensures { Wrote Text (With status (L.gives lines)) K.held K.faults
        sink.old sink.new result }
{
    match sm_answer::write(alloc, sink, lines) {
        Ok(()) => status,
        Err(Unwritten::SinkFailed) => Status::WriteFault,
        Err(Unwritten::NoMemory) => Status::OutOfMemory,
    }
}

/// Writes lines as an array of strings in JSON.
#[tactic(auto, using(crate::proofs::WritingLemmas::wrote_array, crate::proofs::WritingLemmas::wrote_array_failed, crate::proofs::WritingLemmas::wrote_array_cut))]
fn write_json<K: Sink, L: Lines + Drop>(
    alloc: Global,
    sink: &mut K,
    status: Status,
    lines: L,
) -> Status
    requires { HasRest (L.gives lines) }
    ensures { Wrote Json (With status (L.gives lines)) K.held K.faults
        sink.old sink.new result }
{
    match write_wrapped(alloc, sink, lines) {
        Ok(()) => status,
        Err(Unwritten::SinkFailed) => Status::WriteFault,
        Err(Unwritten::NoMemory) => Status::OutOfMemory,
    }
}

/// Puts a line that has its end, with one put, and answers `Done`, or `WriteFault` where the sink failed. Takes time linear in it.
pub fn put_line<K: Sink>(sink: &mut K, text: &[u8]) -> Status
    ensures { (line : List ℕ) → text.now ≡ line ++ LF ∷ []
        → Wrote Text (With Status.Done (λ lines. lines ≡ line ∷ [])) K.held K.faults
        sink.old sink.new result }
{
    match sink.put(text) {
        Put::Done => Status::Done,
        Put::Failed => Status::WriteFault,
    }
}

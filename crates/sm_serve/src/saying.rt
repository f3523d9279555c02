//! Saying why there is no answer.

ghost use Rattle.std.specs.Prelude.{◌≡◌, ◌∷◌, [], true};
ghost use Rattle.sm_serve.specs.Saying.{SaysStop};
ghost use Rattle.sm_serve.specs.Stops.{IsPlainStop};
ghost use Rattle.sm_serve.specs.Texts.{are_plain, refusal_fields, refused_line, with_detail};
ghost use Rattle.sm_serve.specs.Wrote.{Wrote, With};

use crate::status::Status;
use crate::stop::{RefusedLine, Stop, UsageLine, no_detail};
use crate::writing::write;
use sm_io::Sink;
use sm_text::RefusalKind;
use sm_words::Form;
use std::alloc::Global;

/// Says in a form why there is no answer, and answers the status that goes with it.
///
/// For faulty words and for an input that is refused it is one line, `usage WORD` or `refused NAME LINE`, with fields that tell
/// more behind `NotStable`. Where the source failed, or where there was no memory, nothing is written. Takes time linear in
/// what is written.
pub fn say_stop<K: Sink>(alloc: Global, form: Form, sink: &mut K, stop: Stop) -> Status
    requires { IsPlainStop stop }
    ensures { SaysStop form stop K.held K.faults sink.old sink.new result }
{
    match stop {
        Stop::Usage(word) => {
            let lines = UsageLine {
                word,
                is_said: false,
            };
            write(alloc, sink, form, Status::Usage(word), lines)
        }
        Stop::Refused(kind, at) => {
            let lines = RefusedLine {
                kind,
                at,
                detail: no_detail(alloc),
                is_said: false,
            };
            write(alloc, sink, form, Status::Refused(kind, at), lines)
        }
        Stop::Unstable(at, detail) => say_unstable(alloc, form, sink, at, detail),
        Stop::ReadFault => Status::ReadFault,
        Stop::OutOfMemory => Status::OutOfMemory,
    }
}

/// Says that a given matching isn't stable, with the fields that tell why.
fn say_unstable<K: Sink>(
    alloc: Global,
    form: Form,
    sink: &mut K,
    at: u32,
    detail: Vec<Vec<u8>>,
) -> Status
    requires { are_plain (refusal_fields detail) ≡ true }
    ensures { Wrote form (With (Status.Refused RefusalKind.NotStable at)
        (λ lines. lines ≡ refused_line (with_detail RefusalKind.NotStable at
        (refusal_fields detail)) ∷ [])) K.held K.faults sink.old sink.new result }
{
    let kind = RefusalKind::NotStable;
    let lines = RefusedLine {
        kind,
        at,
        detail,
        is_said: false,
    };
    write(alloc, sink, form, Status::Refused(kind, at), lines)
}

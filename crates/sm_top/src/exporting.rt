//! Doing `export`.

ghost use Rattle.std.specs.Prelude.{◌≡◌, ◌∷◌, []};
ghost use Rattle.serde_json.specs.Written.{compact_text};
ghost use Rattle.sm_json.specs.Making.{json_of};
ghost use Rattle.sm_words.specs.declared.jobs.Form.TheVariants.{Text};
ghost use Rattle.sm_serve.specs.Wrote.{Leaves, With};

use sm_instance::Input;
use sm_io::Sink;
use sm_json::to_json;
use sm_serve::{Status, put_line};
use std::alloc::{AllocError, Global};

/// Writes an instance in JSON, as one line.
pub(crate) fn export<K: Sink>(
    alloc: Global,
    input: &Input,
    sink: &mut K,
) -> Result<Status, AllocError>
    ensures { Leaves Text
        (With Status.Done (λ lines. lines ≡ compact_text (json_of input.now) ∷ []))
        K.held K.faults sink.old sink.new result }
{
    let mut text = to_json(alloc, input)?;
    text.extend_from_slice(b"\n")?;
    Ok(put_line(sink, &text))
}

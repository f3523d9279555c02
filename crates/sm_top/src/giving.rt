//! The text of the instance that an input gives in a form.

ghost use Rattle.std.specs.Prelude.{◌≡◌, ◌≤◌, length, IfOk, IfErr, Ok};
ghost use Rattle.sm_text.specs.Limits.{most_bytes};
ghost use Rattle.sm_top.specs.Forms.{given_text};
ghost use Rattle.sm_top.specs.Steps.{IsUngiven};
ghost use Rattle.sm_serve.specs.Stops.{StopsBy};

use sm_json::{JsonFault, to_text};
use sm_serve::Stop;
use sm_text::{MOST_BYTES, RefusalKind};
use sm_words::Form;
use std::alloc::Global;

/// The text that an input gives in a form. It isn't copied; the input is freed before the text is read.
pub(crate) fn text_given(alloc: Global, form: Form, bytes: Vec<u8>) -> Result<Vec<u8>, Stop>
    requires { length bytes.items ≤ most_bytes }
    ensures text { IfOk result (λ text. given_text form bytes.items ≡ Ok text.items) }
    ensures short { IfOk result (λ text. length text.items ≤ most_bytes) }
    ensures stop { IfErr result (λ stop. StopsBy (λ _. ⊥) (IsUngiven form bytes.items) ⊥ stop) }
{
    match form {
        Form::Text => Ok(bytes),
        Form::Json => text_of_json(alloc, &bytes),
    }
}

/// The text of the instance that bytes are in JSON.
fn text_of_json(alloc: Global, bytes: &[u8]) -> Result<Vec<u8>, Stop>
    requires { length bytes.now ≤ most_bytes }
    ensures text { IfOk result (λ text. given_text Form.Json bytes.now ≡ Ok text.items) }
    ensures short { IfOk result (λ text. length text.items ≤ most_bytes) }
    ensures stop { IfErr result (λ stop. StopsBy (λ _. ⊥) (IsUngiven Form.Json bytes.now) ⊥ stop) }
{
    match to_text(alloc, bytes) {
        Ok(text) => {
            if text.len() > MOST_BYTES {
                return Err(Stop::Refused(RefusalKind::TooLong, 0));
            }
            Ok(text)
        }
        Err(JsonFault::BadJson) => Err(Stop::Refused(RefusalKind::BadJson, 0)),
        Err(JsonFault::OutOfMemory) => Err(Stop::OutOfMemory),
    }
}

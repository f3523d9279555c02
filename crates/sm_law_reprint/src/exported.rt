//! An exported instance is read back: the law over calls. The function makes them, and its contract says what comes of them.

ghost use Rattle.std.specs.Prelude.{◌≡◌, ◌≤◌, IfOk, length, Some};
ghost use Rattle.sm_text.specs.Limits.{most_bytes};
ghost use Rattle.sm_json.specs.JsonText.{text_in};
ghost use Rattle.sm_law_reprint.specs.Reading.{printed_text, SameButForLines};

use sm_instance::Input;
use sm_json::{JsonFault, to_json, to_text};
use sm_reader::{Read, TextFault, read_instance};
use std::alloc::{AllocError, Global};

/// Exports an instance and reads it back: [`to_json`], then [`to_text`] of its bytes, then [`read_instance`] of that text, as
/// `export` and the commands with `form=json` do.
///
/// The text must not be too long for an input. Then neither the bytes nor the text is refused, and the instance that is read is
/// the exported one but for the numbers of lines. Takes time and memory in proportion to the instance and its text.
///
/// # Errors
///
/// `AllocError` where memory ran out, and only then.
pub fn exported_is_read(alloc: Global, input: &Input) -> Result<Read, AllocError>
    requires short { length (printed_text input.now) ≤ most_bytes }
    ensures same { IfOk result (λ read. SameButForLines read.input input.now) }
    ensures whole { IfOk result (λ read. read.rest ≡ length (printed_text input.now)) }
{
    let bytes = to_json(alloc, input)?;
    let text = text_of(alloc, input, &bytes)?;
    read_text(alloc, input, &text)
}

/// The text that the JSON of an instance stands for.
fn text_of(alloc: Global, input: &Input, bytes: &[u8]) -> Result<Vec<u8>, AllocError>
    requires { text_in bytes.now ≡ Some (printed_text input.now) }
    ensures { IfOk result (λ text. text.items ≡ printed_text input.now) }
{
    match to_text(alloc, bytes) {
        Ok(text) => Ok(text),
        Err(JsonFault::BadJson) => unreachable!(),
        Err(JsonFault::OutOfMemory) => Err(AllocError),
    }
}

/// What the text of a printed instance means.
fn read_text(alloc: Global, input: &Input, text: &[u8]) -> Result<Read, AllocError>
    requires short { length (printed_text input.now) ≤ most_bytes }
    requires text { text.now ≡ printed_text input.now }
    ensures same { IfOk result (λ read. SameButForLines read.input input.now) }
    ensures whole { IfOk result (λ read. read.rest ≡ length (printed_text input.now)) }
{
    // For the proof: the call tells that the instance is sound.
    let _kind = input.kind();
    match read_instance(alloc, text) {
        Ok(read) => Ok(read),
        Err(TextFault::Refused(_, _)) => unreachable!(),
        Err(TextFault::OutOfMemory) => Err(AllocError),
    }
}

//! The bytes of an input.

ghost use Rattle.std.specs.Prelude.{◌≡◌, IfOk, IfErr, vec_len};
ghost use Rattle.sm_io.specs.Faults.{Rose};
ghost use Rattle.sm_serve.specs.Input.{Drains, ReadWhole, IsTooLong};
ghost use Rattle.sm_serve.specs.Stops.{StopsBy};

use crate::stop::Stop;
use sm_io::{Source, Taken};
use sm_text::{MOST_BYTES, RefusalKind};
use std::alloc::{AllocError, Global};

/// How many bytes are asked for at a time.
const CHUNK: usize = 65_536;

/// Reads a source to its end, or until it gave more bytes than are taken. Takes time and memory linear in the bytes.
///
/// # Errors
///
/// `Refused(TooLong, 0)` where there are more than 16,777,216 bytes, `ReadFault` where the source failed, and `OutOfMemory`.
pub fn read_all<S: Source>(alloc: Global, source: &mut S) -> Result<Vec<u8>, Stop>
    ensures whole { IfOk result (λ bytes. ReadWhole (S.left source.old) (S.left source.new)
        bytes.items) }
    ensures stop { IfErr result (λ stop. StopsBy (λ _. ⊥) (IsTooLong (S.left source.old)
        (S.left source.new))
        (Rose (S.faults source.old) (S.faults source.new)) stop) }
    ensures drains { Drains S.left S.faults source.old source.new }
{
    let mut chunk = zeros(alloc, CHUNK)?;
    let mut bytes = Vec::new(alloc);
    'reading: while bytes.len() <= MOST_BYTES {
        match source.take(chunk.as_mut_slice()) {
            Taken::Got(count) => bytes.extend_from_slice(&chunk[..count])?,
            Taken::End => return Ok(bytes),
            Taken::Failed => return Err(Stop::ReadFault),
        }
    }
    Err(Stop::Refused(RefusalKind::TooLong, 0))
}

/// So many zeros.
fn zeros(alloc: Global, len: usize) -> Result<Vec<u8>, AllocError>
    ensures { IfOk result (λ v. vec_len v ≡ len) }
{
    vec![in alloc; 0u8; len]
}

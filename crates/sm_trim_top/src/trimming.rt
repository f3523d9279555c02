//! From the text of an instance to a trimmed instance.

ghost use Rattle.std.specs.Prelude.{◌≡◌, ◌≤◌, length, IfOk, IfErr};
ghost use Rattle.sm_text.specs.Limits.{most_bytes};
ghost use Rattle.sm_reader.specs.InstanceText.{read_of};
ghost use Rattle.sm_instance.specs.declared.inputs.Input.TheVariants.{Two};
ghost use Rattle.sm_serve.specs.Refusals.{IsTooMany};
ghost use Rattle.sm_serve.specs.Stops.{StopsBy};
ghost use Rattle.sm_trim.specs.Cuts.{IsTrimmed};
ghost use Rattle.sm_trim.specs.Rounds.{IsCutFar};
ghost use Rattle.sm_trim_top.specs.Taking.{IsTaken, IsUntaken, IsOfWrongKind};
ghost use Rattle.sm_trim_top.specs.Trimmed.{IsTrimmedInput, IsRefused, IsFewSeated};

use sm_instance::{Input, Instance};
use sm_reader::{Read, TextFault, read_instance};
use sm_serve::{Stop, counts_of, text_behind};
use sm_text::{RefusalKind, TextHash};
use sm_trim::trimmed;
use std::alloc::{AllocError, Global};

/// The instance of a text, with lists that are cut at their ends. The text is freed before they are cut.
pub(crate) fn trim(alloc: Global, bytes: Vec<u8>) -> Result<Input, Stop>
    requires { length bytes.items ≤ most_bytes }
    ensures input { IfOk result (IsTrimmedInput bytes.items) }
    ensures stop { IfErr result (λ stop. StopsBy (λ _. ⊥) (IsRefused bytes.items) ⊥ stop) }
{
    let hash = TextHash::of(&bytes);
    let instance = read_two(alloc, &bytes)?;
    drop(bytes);
    let kept = cut(alloc, hash, instance)?;
    with_few_seats(alloc, kept)
}

/// Reads an instance with two sides and nothing behind its `end`.
fn read_two(alloc: Global, bytes: &[u8]) -> Result<Instance, Stop>
    requires { length bytes.now ≤ most_bytes }
    ensures taken { IfOk result (λ w. IsTaken bytes.now w) }
    ensures stop { IfErr result (λ stop. StopsBy (λ _. ⊥) (IsUntaken bytes.now) ⊥ stop) }
{
    match read_instance(alloc, bytes) {
        Ok(read) => match text_behind(bytes, &read) {
            Some(line) => Err(Stop::Refused(RefusalKind::AfterEnd, line)),
            None => with_two_sides(read),
        },
        Err(TextFault::Refused(kind, at)) => Err(Stop::Refused(kind, at)),
        Err(TextFault::OutOfMemory) => Err(Stop::OutOfMemory),
    }
}

/// The instance that was read, if it has two sides.
fn with_two_sides(read: Read) -> Result<Instance, Stop>
    ensures two { IfOk result (λ w. read.input ≡ Two w) }
    ensures stop { IfErr result (λ stop. StopsBy (λ _. ⊥) (IsOfWrongKind (read_of read)) ⊥ stop) }
{
    let line = read.header_line;
    match read.input {
        Input::Two(instance) => Ok(instance),
        Input::Room(_) => Err(Stop::Refused(RefusalKind::WrongKind, line)),
    }
}

/// An instance with lists that are cut at their ends. Cross places are kept, since each place of a list is looked up on the other.
fn cut(alloc: Global, hash: TextHash, instance: Instance) -> Result<Instance, AllocError>
    ensures trimmed { IfOk result (λ t. IsTrimmed instance t) }
    ensures far { IfOk result (λ t. IsCutFar instance t) }
{
    let mut instance = instance;
    instance.keep_crosses()?;
    trimmed(alloc, hash, &instance)
}

/// An instance, if it has few enough seats.
fn with_few_seats(alloc: Global, kept: Instance) -> Result<Input, Stop>
    ensures input { IfOk result (IsFewSeated kept) }
    ensures stop { IfErr result (λ stop. StopsBy (λ _. ⊥) (IsTooMany (Two kept)) ⊥ stop) }
{
    match counts_of(alloc, &kept) {
        Ok(_) => Ok(Input::Two(kept)),
        Err(stop) => Err(stop),
    }
}

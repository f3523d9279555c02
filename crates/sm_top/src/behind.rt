//! The two matchings behind an instance.

ghost use Rattle.std.specs.Prelude.{◌≡◌, ◌<◌, ◌+◌, ◌^◌, length, drop, IfOk, IfErr};
ghost use Rattle.sm_text.specs.Lines.{lines, texts_from};
ghost use Rattle.sm_report.specs.Sound.{ArePair};
ghost use Rattle.sm_answer_given.specs.Given.{AreStableGiven};
ghost use Rattle.sm_top.specs.Outcome.{IsGivenRefusal, which_name, flaw_name, unstable_fields};
ghost use Rattle.sm_serve.specs.Stops.{StopsBy};
ghost use Rattle.sm_serve.specs.Texts.{refusal_fields};

use crate::counted::Counted;
use sm_answer_given::{Flaw, Given, GivenFault, Unstable, Which, find_given};
use sm_instance::Input;
use sm_serve::Stop;
use sm_text::RefusalKind;
use std::alloc::{AllocError, Global};

/// The two stable matchings behind the `end` of an instance with two sides.
pub(crate) fn given_behind(alloc: Global, given: &Counted<'_>, bytes: &[u8]) -> Result<Given, Stop>
    requires { given.now.read.now.rest_line
        + length (lines (drop given.now.read.now.rest bytes.now)) < 2 ^ 32 }
    ensures given { IfOk result (AreStableGiven given.now.instance.now (texts_from bytes.now
        given.now.read.now.rest)) }
    ensures stop { IfErr result (λ stop. StopsBy (λ _. ⊥)
        (IsGivenRefusal given.now.instance.now (texts_from bytes.now given.now.read.now.rest)
        given.now.read.now.rest_line) ⊥ stop) }
{
    let read = given.read;
    let _kind = read.input.kind();
    match find_given(
        alloc,
        &read.input,
        given.instance,
        bytes,
        read.rest,
        read.rest_line,
    ) {
        Ok(two) => Ok(two),
        Err(GivenFault::BadAnswer(line)) => Err(Stop::Refused(RefusalKind::BadAnswer, line)),
        Err(GivenFault::NotStable(unstable)) => {
            let fields = unstable_fields(alloc, &read.input, unstable)?;
            Err(Stop::Unstable(unstable.line, fields))
        }
        Err(GivenFault::OutOfMemory) => Err(Stop::OutOfMemory),
    }
}

/// The fields that tell of a matching that isn't stable: which one, why, and the names of the pair.
fn unstable_fields(
    alloc: Global,
    input: &Input,
    unstable: Unstable,
) -> Result<Vec<Vec<u8>>, AllocError>
    requires { ArePair input.now unstable.proposer unstable.reviewer }
    ensures { IfOk result (λ fields. refusal_fields fields ≡ unstable_fields input.now unstable) }
{
    let mut fields = Vec::with_capacity(alloc, 4)?;
    fields.push(Vec::from_slice(alloc, which_name(unstable.which).as_bytes())?)?;
    fields.push(Vec::from_slice(alloc, flaw_name(unstable.flaw).as_bytes())?)?;
    fields.push(Vec::from_slice(alloc, input.left_name(unstable.proposer))?)?;
    fields.push(Vec::from_slice(alloc, input.right_name(unstable.reviewer))?)?;
    Ok(fields)
}

/// Which of the two matchings.
fn which_name(which: Which) -> &'static str
    ensures { result.now ≡ which_name which }
{
    match which {
        Which::Left => "left",
        Which::Right => "right",
    }
}

/// Why.
fn flaw_name(flaw: Flaw) -> &'static str
    ensures { result.now ≡ flaw_name flaw }
{
    match flaw {
        Flaw::Breach => "breach",
        Flaw::Blocks => "blocks",
    }
}

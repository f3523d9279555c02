//! What is said where there is no answer.

ghost use Rattle.std.specs.Prelude.{◌≡◌, OnOk, ◌++◌, [], true};
ghost use Rattle.sm_text.specs.Plain.{is_plain};
ghost use Rattle.sm_serve.specs.Texts.{plain_refusal, refusal_fields, usage_line, refused_line, are_plain};
ghost use Rattle.sm_report.specs.Fields.{spaced};

use sm_answer::Lines;
use sm_text::{LineWriter, RefusalKind};
use std::alloc::{AllocError, Global};

/// Why there is no answer.
#[derive(Debug, Drop)]
pub enum Stop {
    /// The word of this number, counted from 1, is faulty.
    Usage(u32),
    /// The input is refused, for this reason and at this line.
    Refused(RefusalKind, u32),
    /// A given matching isn't stable: the line, and the fields that tell why.
    Unstable(u32, Vec<Vec<u8>>),
    /// The source failed.
    ReadFault,
    /// There was no memory.
    OutOfMemory,
}

impl From<AllocError> for Stop {
    ghost use Rattle.std.specs.Prelude.{◌≡◌};
    ghost use Rattle.sm_serve.specs.declared.stop.Stop.TheVariants.{OutOfMemory};

    ghost from_gives = { λ _ e. e ≡ OutOfMemory };

    fn from(_e: AllocError) -> Stop {
        Stop::OutOfMemory
    }
}

/// The line that names a faulty word.
#[derive(Drop)]
pub(crate) struct UsageLine {
    pub(crate) word: u32,
    pub(crate) is_said: bool,
}

impl Lines for UsageLine {
    ghost use Rattle.sm_serve.specs.Texts.{usage_line};
    ghost use Rattle.sm_serve.specs.Unsaid.{lines_unsaid, most_unsaid};
    ghost use Rattle.std.specs.Prelude.{◌≡◌};

    ghost gives = { λ s rest. rest ≡ lines_unsaid s.is_said (usage_line s.word) };

    ghost most = { λ s. most_unsaid s.is_said };

    fn put_next(&mut self, _alloc: Global, into: &mut LineWriter) -> Result<bool, AllocError> {
        if self.is_said {
            return Ok(false);
        }
        put_usage(into, self.word)?;
        self.is_said = true;
        Ok(true)
    }
}

/// The line that names why an input is refused, and where.
#[derive(Drop)]
pub(crate) struct RefusedLine {
    pub(crate) kind: RefusalKind,
    pub(crate) at: u32,
    /// The fields that tell more.
    pub(crate) detail: Vec<Vec<u8>>,
    pub(crate) is_said: bool,
    ghost plain: { are_plain (refusal_fields detail) ≡ true },
}

impl Lines for RefusedLine {
    ghost use Rattle.sm_serve.specs.Texts.{with_detail, refusal_fields, refused_line};
    ghost use Rattle.sm_serve.specs.Unsaid.{lines_unsaid, most_unsaid};
    ghost use Rattle.std.specs.Prelude.{◌≡◌};

    ghost gives = { λ s rest. rest ≡ lines_unsaid s.is_said (refused_line (with_detail s.kind s.at
        (refusal_fields s.detail))) };

    ghost most = { λ s. most_unsaid s.is_said };

    fn put_next(&mut self, _alloc: Global, into: &mut LineWriter) -> Result<bool, AllocError> {
        if self.is_said {
            return Ok(false);
        }
        put_refused(into, self.kind, self.at)?;
        put_fields(into, &self.detail)?;
        self.is_said = true;
        Ok(true)
    }
}

/// No fields that tell more.
pub(crate) fn no_detail(alloc: Global) -> Vec<Vec<u8>>
    ensures none { refusal_fields result ≡ [] }
    ensures plain { are_plain (refusal_fields result) ≡ true }
{
    Vec::new(alloc)
}

/// Puts the line that names a faulty word.
fn put_usage(into: &mut LineWriter, word: u32) -> Result<(), AllocError>
    ensures put { OnOk result (into.new.bytes ≡ into.old.bytes ++ usage_line word) }
    ensures plain { OnOk result (is_plain (usage_line word) ≡ true) }
{
    into.put_bytes(b"usage ")?;
    into.put_number(u64::from(word))
}

/// Puts why an input is refused, and where.
fn put_refused(into: &mut LineWriter, kind: RefusalKind, at: u32) -> Result<(), AllocError>
    ensures put { OnOk result (into.new.bytes ≡ into.old.bytes
        ++ refused_line (plain_refusal kind at)) }
    ensures plain { OnOk result (is_plain (refused_line (plain_refusal kind at)) ≡ true) }
{
    into.put_bytes(b"refused ")?;
    into.put_bytes(kind.name().as_bytes())?;
    into.put_bytes(b" ")?;
    into.put_number(u64::from(at))
}

/// Puts fields, each behind a space.
fn put_fields(into: &mut LineWriter, fields: &Vec<Vec<u8>>) -> Result<(), AllocError>
    ensures { OnOk result (into.new.bytes ≡ into.old.bytes ++ spaced (refusal_fields fields.now)) }
{
    for field in fields {
        into.put_bytes(b" ")?;
        into.put_bytes(field)?;
    }
    Ok(())
}

//! Where a list stands among others.

ghost use Rattle.std.specs.Prelude.{◌≡◌, ◌+◌, IfOk};

use std::alloc::AllocError;

/// Where a list stands: from an entry on, up to another.
#[derive(Clone, Copy, Debug)]
pub(crate) struct Span {
    pub(crate) start: u32,
    pub(crate) end: u32,
}

impl Span {
    /// That of a list of so many entries behind so many others.
    ///
    /// # Errors
    ///
    /// `AllocError` where these would be more than 4,294,967,295 entries in all.
    pub(crate) fn behind(others: usize, entries: usize) -> Result<Span, AllocError>
        ensures start { IfOk result (λ span. span.start ≡ others) }
        ensures end { IfOk result (λ span. span.end ≡ others + entries) }
    {
        let end = others.saturating_add(entries);
        if end > u32::MAX as usize {
            return Err(AllocError);
        }
        Ok(Span {
            start: others as u32,
            end: end as u32,
        })
    }
}

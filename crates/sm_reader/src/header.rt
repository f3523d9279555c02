//! The header of a text.

use sm_instance::Kind;

/// The header that was read: the kind, the format (1 or 2), its line, and the place behind its line.
#[derive(Clone, Copy)]
pub(crate) struct Header {
    pub(crate) kind: Kind,
    pub(crate) format: u32,
    pub(crate) line: u32,
    pub(crate) next: usize,
}

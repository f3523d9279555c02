//! Names with a space before them, ready to be put into a line.

ghost use Rattle.sm_text.specs.Writer.{IsSpacedName};

/// How many bytes are put at once.
pub(crate) const WIDTH: usize = 16;

/// A space and a name behind it, where both together have at most sixteen bytes, as nearly all have. All sixteen are put into a
/// line at once, whatever the name's length.
#[derive(Clone, Copy, Debug)]
pub struct SpacedName {
    /// The space, the name, and bytes that mean nothing.
    pub(crate) bytes: [u8; WIDTH],
    /// How many bytes the space and the name have; 0 where they are more than sixteen.
    pub(crate) len: u8,
}

impl SpacedName {
    /// That of a name. Takes time in its length.
    pub fn of(name: &[u8]) -> SpacedName
        ensures { IsSpacedName result.bytes result.len name.now }
    {
        let mut bytes = [b' '; WIDTH];
        if name.len() >= WIDTH {
            return SpacedName { bytes, len: 0 };
        }
        let len = name.len() + 1;
        bytes[1..len].copy_from_slice(name);
        SpacedName {
            bytes,
            len: len as u8,
        }
    }
}

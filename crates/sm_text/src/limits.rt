//! The limits within which inputs have to keep. Each is inclusive.

/// The greatest number of bytes of an input, with what stands behind its line `end`.
pub const MOST_BYTES: usize = 16_777_216;

/// The greatest number of agents on a side, and of persons in roommates.
pub const MOST_AGENTS: usize = 4_096;

/// The greatest number of entries on the lists of all agents together.
pub const MOST_ENTRIES: usize = 524_288;

/// The greatest number of seat entries: of the entries that lists have where each reviewer stands once for each of its
/// places.
pub const MOST_SEAT_ENTRIES: usize = 1_048_576;

/// The greatest number of places of an agent.
pub const MOST_CAPACITY: u32 = 4_096;

/// The greatest size of a weight.
pub const MOST_WEIGHT: i64 = 1_000_000_000;

/// The greatest limit on how many matchings are listed.
pub const MOST_LIMIT: u32 = 1_000_000;

/// The greatest number of bytes in a name.
pub const MOST_NAME_BYTES: usize = 64;

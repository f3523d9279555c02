//! Profiles: how many have which choice.

/// How many ranks are 1, 2, 3 and greater: so many proposers have their first choice, their second, their third, and a later one
/// or none.
#[derive(Clone, Copy)]
pub struct Profile {
    /// How many ranks are 1.
    pub first: u64,
    /// How many are 2.
    pub second: u64,
    /// How many are 3.
    pub third: u64,
    /// How many are greater.
    pub greater: u64,
}

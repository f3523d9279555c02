//! What came of a survey.

/// What came of a survey, beside what its tallies show.
#[derive(Drop)]
pub struct Survey {
    /// How many matchings were listed.
    pub listed: u32,
    /// The rank vector of the last one, where more follow behind it.
    pub last: Option<Vec<u32>>,
}

//! What holds of listings. Each function does nothing: its contract is the law.

ghost use Rattle.sm_lister.specs.Rests.{ListingGives};

/// The items of an iterator over a lister are a listing: each is the first of what was left, a refusal takes nothing away, and
/// at the end nothing was left, but for a limit that was reached.
pub fn listing_gives()
    ensures { ListingGives }
{}

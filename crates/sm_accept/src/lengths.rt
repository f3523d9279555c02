//! How long the reviewers' lists are.

ghost use Rattle.std.specs.Prelude.{◌≡◌, length, map};

use sm_market::Market;

/// Writes how long each reviewer's list is.
pub(crate) fn write_lengths(market: &Market, lengths: &mut [u32])
    requires { length lengths.old ≡ length market.now.reviewers }
    ensures { lengths.new ≡ map (λ list. length list) market.now.reviewers }
{
    for r in 0..market.reviewers() {
        lengths[r as usize] = market.reviewer_len(r);
    }
}

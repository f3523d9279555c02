//! The earlier of two numbers.

ghost use Rattle.std.specs.Prelude.{◌≡◌};
ghost use Rattle.sm_lists.specs.Earlier.{earlier_of};

/// The earlier of two places or lines, if there are any. Takes constant time.
pub fn earlier(a: Option<u32>, b: Option<u32>) -> Option<u32>
    ensures { result ≡ earlier_of a b }
{
    match (a, b) {
        (Some(a), Some(b)) => Some(a.min(b)),
        (Some(a), None) => Some(a),
        (None, b) => b,
    }
}

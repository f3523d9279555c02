//! A walk over the allowed stable matchings.

ghost use Rattle.std.specs.Prelude.{◌≡◌, [], IfOk, IfErr, None};
ghost use Rattle.sm_market.specs.Vectors.{rows_of};
ghost use Rattle.sm_answer_list.specs.Started.{IsListerOf};
ghost use Rattle.sm_answer_median.specs.MedianAnswer.{AreTooMany};
ghost use Rattle.sm_answer_median.specs.RankCounts.{AreRankCounts, AreAllCounted};
ghost use Rattle.sm_answer_median.specs.declared.faults.MedianFault.TheVariants.{TooMany};

use crate::counting::count_ranks;
use crate::faults::MedianFault;
use sm_instance::Instance;
use sm_lister::Lister;

/// The median of at most so many matchings is looked for.
pub const MOST_LISTED: u32 = 100_000;

/// Counts the ranks of all vectors that a lister lists, and says how many vectors they are.
///
/// # Errors
///
/// `TooMany` exactly where they are more than [`MOST_LISTED`]. Nothing is said of the counts then.
pub(crate) fn count_listed(
    lister: &mut Lister,
    counts: &mut [Vec<u32>],
    instance: &Instance,
) -> Result<u32, MedianFault>
    requires lister { IsListerOf instance.now None lister.old }
    requires counts { AreRankCounts instance.now [] (rows_of counts.old) }
    ensures all { IfOk result (λ listed. AreAllCounted instance.now listed (rows_of counts.new)) }
    ensures fault { IfErr result (λ f. (f ≡ TooMany) × AreTooMany instance.now) }
{
    let mut listed = 0;
    'matchings: while listed < MOST_LISTED {
        if !lister.advance() {
            return Ok(listed);
        }
        count_ranks(counts, instance, lister.current());
        listed += 1;
    }
    if lister.advance() {
        return Err(MedianFault::TooMany);
    }
    Ok(listed)
}

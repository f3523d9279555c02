//! Conditions by levels.

ghost use Rattle.std.specs.Prelude.{◌≡◌, ℕ, ◌+◌, ◌<◌, length, IfOk};
ghost use Rattle.sm_agents.specs.Sound.{IsPairOf};
ghost use Rattle.sm_lists.specs.Pairs.{pair_at};
ghost use Rattle.sm_agents.specs.Written.{place_of};
ghost use Rattle.sm_seats.specs.Correspondence.{leveled};

use sm_instance::Instance;
use std::alloc::{AllocError, Global};

/// Pairs of a proposer and a reviewer as pairs of a proposer and a level, the rank of the reviewer on its list, from 1, or one past
/// the last where it isn't on it. Takes time and memory in proportion to them, with a logarithm of how many list a reviewer.
///
/// # Errors
///
/// `AllocError` where memory ran out, and only then.
pub fn leveled(
    alloc: Global,
    instance: &Instance,
    pairs: &[(u32, u32)],
) -> Result<Vec<(u32, u32)>, AllocError>
    requires { (n : ℕ) → n < length pairs.now
        → IsPairOf (length instance.now.proposers) (length instance.now.reviewers)
        (pair_at pairs.now n) }
    ensures { IfOk result (λ levels. levels.items ≡ leveled instance.now pairs.now) }
{
    let mut levels = Vec::with_capacity(alloc, pairs.len())?;
    for pair in pairs {
        levels.push((pair.0, level_of(instance, pair.0, pair.1)))?;
    }
    Ok(levels)
}

/// The level of a reviewer on a proposer's list: its rank, or one past the last where it isn't on it.
fn level_of(instance: &Instance, p: u32, r: u32) -> u32
    requires proposer { p < length instance.now.proposers }
    requires reviewer { r < length instance.now.reviewers }
    ensures { result ≡ place_of instance.now.proposers p r + 1 }
{
    let past = instance.proposer_len(p);
    match instance.place(p, r) {
        Some(place) => place + 1,
        None => past + 1,
    }
}

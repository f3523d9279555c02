//! Second weights of pairs.

ghost use Rattle.std.specs.Prelude.{◌≡◌, ◌≢◌, ℕ, ◌<◌, ◌^◌, ◌↔◌, length, map, pos, unwrap_or, IsTrue, IfOk, IfErr, OnOk};
ghost use Rattle.sm_lists.specs.Pairs.{pair_at};
ghost use Rattle.sm_agents.specs.Written.{weight_among};
ghost use Rattle.sm_agents.specs.Checks.{AreGiven, IsGivenFault};
ghost use Rattle.sm_agents.specs.Nonzero.{HasNonzero};

use crate::faults::InstanceFault;
use crate::pairs::Pairs;
use sm_text::MOST_WEIGHT;
use std::alloc::Global;

/// The second weight that some items give to each of these pairs, where they give one. Takes time in proportion to the items and
/// the pairs, and memory in proportion to the pairs.
///
/// # Errors
///
/// `BadPair` names the first item, from 0, that isn't sound. Else `OutOfMemory` alone.
pub fn checked_seconds(
    alloc: Global,
    pairs: &Pairs,
    seconds: &[(u32, u32, i64)],
) -> Result<Vec<Option<i64>>, InstanceFault>
    requires few { length seconds.now < 2 ^ 24 }
    requires differ { (n k : ℕ) → k < n → n < length pairs.now
        → pair_at pairs.now k ≢ pair_at pairs.now n }
    ensures given { IfOk result (λ given. AreGiven pairs.now seconds.now (length seconds.now) given.items) }
    ensures fault { IfErr result (λ f. IsGivenFault pairs.now seconds.now f) }
{
    let mut given = vec![in alloc; None; pairs.len()]?;
    for n in 0..seconds.len() as u32 {
        let (p, r, second) = seconds[n as usize];
        if second.unsigned_abs() > MOST_WEIGHT.unsigned_abs() {
            return Err(InstanceFault::BadPair(n));
        }
        let Some(k) = pairs.find((p, r)) else {
            return Err(InstanceFault::BadPair(n));
        };
        if given[k].is_some() {
            return Err(InstanceFault::BadPair(n));
        }
        given[k] = Some(second);
    }
    Ok(given)
}

/// Sets each second weight to the one that is given, and to 0 where none is. Takes time in proportion to them.
pub fn set_seconds(seconds: &mut [i64], given: &[Option<i64>])
    requires { length given.now ≡ length seconds.old }
    ensures { seconds.new ≡ map (λ second. unwrap_or second (pos 0)) given.now }
{
    for k in 0..seconds.len() {
        seconds[k] = given[k].unwrap_or(0);
    }
}

/// Whether one of these numbers isn't 0. Takes time in proportion to them.
pub fn has_nonzero(seconds: &[i64]) -> bool
    ensures { IsTrue result ↔ HasNonzero seconds.now }
{
    for k in 0..seconds.len() {
        if seconds[k] != 0 {
            return true;
        }
    }
    false
}

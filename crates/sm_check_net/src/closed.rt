//! Whether a set of rotations is closed.

ghost use Rattle.std.specs.Prelude.{◌≡◌, ℕ, ◌<◌, ◌↔◌, length, List, slice_index, IsTrue};
ghost use Rattle.sm_market.specs.Lists.{Lists};
ghost use Rattle.sm_theory.specs.ClosedSets.{IsMember, IsClosed};
ghost use Rattle.sm_check_net.specs.CheckedNets.{net_of_parts, NeedsAreOf};

use crate::net::CheckedNet;

/// Whether a set has, with each member, all rotations that the member needs. Where the needs of the net are the predecessors of
/// the rotations of a chain, that is whether the set is closed.
///
/// Takes time in proportion to the rotations and needs (Gusfield and Irving 1989, section 2.5).
pub fn is_closed(net: &CheckedNet, set: &[bool]) -> bool
    requires { length set.now ≡ (net_of_parts net.now).size }
    ensures { (l : Lists) (rotations : List (List (ℕ × ℕ))) → NeedsAreOf l rotations net.now
        → IsTrue result ↔ IsClosed l rotations set.now }
{
    for j in 0..net.size() {
        if set[j as usize] && !are_members(set, net.needs(j)) {
            return false;
        }
    }
    true
}

/// Whether all of these are members.
fn are_members(set: &[bool], numbers: &[u32]) -> bool
    requires { (a : ℕ) → a < length numbers.now → slice_index numbers.now a < length set.now }
    ensures { IsTrue result ↔ ((a : ℕ) → a < length numbers.now
        → IsMember set.now (slice_index numbers.now a)) }
{
    for &i in numbers {
        if !set[i as usize] {
            return false;
        }
    }
    true
}

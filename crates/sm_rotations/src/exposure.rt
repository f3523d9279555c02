//! The exposed rotation that comes first, by the plain definition.

ghost use Rattle.std.specs.Prelude.{◌≡◌, ℕ, ◌<◌, length, true, false, IfOk, MatchOption};
ghost use Rattle.sm_market.specs.Lists.{IsMarket};
ghost use Rattle.sm_market.specs.Stable.{IsStable};
ghost use Rattle.sm_market.specs.Pairing.{IsPairingOf};
ghost use Rattle.sm_theory.specs.Rotations.{IsSuccessor, IsNothingExposed, IsLowestExposed};
ghost use Rattle.sm_rotations.specs.Following.{IsStep, IsRotationFrom, IsInNone};

use sm_market::{Market, Pairing};
use sm_theory::{Rotation, successor};
use std::alloc::{AllocError, Global};

/// The exposed rotation that has the lowest-numbered proposer of all exposed rotations, beginning with that proposer.
/// `None` exactly where none is exposed.
///
/// The pairing has to be stable and made for a market of these lists. From each proposer in turn the successors are
/// followed until they come back to it or have led on as often as there are proposers, so the time can grow with the square
/// of the proposers and with the length of their lists (Gusfield and Irving 1989, section 2.5).
///
/// # Errors
///
/// `AllocError` where memory ran out, and only then.
pub fn exposed(alloc: Global, market: &Market, m: &Pairing) -> Result<Option<Rotation>, AllocError>
    requires made { IsPairingOf market.now m.now }
    requires stable { IsStable market.now m.now.places }
    ensures { IfOk result (λ found. MatchOption found
        (IsNothingExposed market.now m.now.places)
        (λ rotation. IsLowestExposed market.now m.now.places rotation.pairs.items)) }
{
    let mut pairs = Vec::new(alloc);
    for p in 0..market.proposers() {
        if leads_back(market, m, p, &mut pairs)? {
            return Ok(Some(Rotation { pairs }));
        }
    }
    Ok(None)
}

/// Follows the successors from `p` on, and tells whether they come back to `p`. Then the pairs are the rotation.
fn leads_back(
    market: &Market,
    m: &Pairing,
    p: u32,
    pairs: &mut Vec<(u32, u32)>,
) -> Result<bool, AllocError>
    requires in_range { p < length market.now.proposers }
    requires made { IsPairingOf market.now m.now }
    ensures found { IfOk result (λ back. back ≡ true
        → IsRotationFrom market.now m.now.places p pairs.new.items) }
    ensures none { IfOk result (λ back. back ≡ false → IsInNone market.now m.now.places p) }
{
    pairs.clear();
    let mut q = p;
    'steps: while pairs.len() < market.proposers() as usize {
        let Some((r, next)) = step(market, m, q) else {
            return Ok(false);
        };
        pairs.push((q, r))?;
        if next == p {
            return Ok(true);
        }
        q = next;
    }
    Ok(false)
}

/// The partner of `p`, and the proposer that has `p`'s successor.
fn step(market: &Market, m: &Pairing, p: u32) -> Option<(u32, u32)>
    requires in_range { p < length market.now.proposers }
    requires market { IsMarket market.now }
    requires made { IsPairingOf market.now m.now }
    ensures step { MatchOption result
        ((i : ℕ) → ¬ IsSuccessor market.now m.now.places p i)
        (λ s. IsStep market.now m.now.places p s.0 s.1) }
    ensures in_range { MatchOption result (Unit {0}) (λ s. s.1 < length market.now.proposers) }
{
    let place = m.place(p)?;
    let target = market.reviewer_at(p, successor(market, m, p)?);
    let next = m.holder(target)?;
    Some((market.reviewer_at(p, place), next))
}

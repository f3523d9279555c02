//! Eliminating a rotation.

ghost use Rattle.std.specs.Prelude.{◌≡◌};
ghost use Rattle.sm_market.specs.Stable.{IsStable};
ghost use Rattle.sm_market.specs.Pairing.{IsPairingOf};
ghost use Rattle.sm_theory.specs.Rotations.{IsExposed, eliminated};

use crate::rotations::Rotation;
use sm_market::{Market, Pairing};

/// Moves each proposer of a rotation to the reviewer of the next pair, and the last one to that of the first pair. A stable
/// pairing stays stable.
///
/// The pairing has to be made for a market of these lists, and the rotation exposed at it. Takes no memory, and time in
/// proportion to the rotation and to the places by which its proposers move down their lists (Gusfield and Irving 1989,
/// section 2.5).
pub fn eliminate(market: &Market, m: &mut Pairing, rotation: &Rotation)
    requires made { IsPairingOf market.now m.old }
    requires exposed { IsExposed market.now m.old.places rotation.now.pairs.items }
    ensures made { IsPairingOf market.now m.new }
    ensures moved { m.new.places ≡ eliminated market.now m.old.places rotation.now.pairs.items }
    ensures stable { IsStable market.now m.old.places → IsStable market.now m.new.places }
{
    prove!(market.proposers() < 1 << 24);
    m.turn(market, &rotation.pairs);
}

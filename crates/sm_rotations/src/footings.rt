//! How those whom a rotation moves stand before it is eliminated, and after it.

ghost use Rattle.std.specs.Prelude.{◌≡◌, ℕ, ◌+◌, ◌<◌, ◌≤◌, [], length, vec_len, vec_capacity, OnOk};
ghost use Rattle.sm_market.specs.Lists.{IsMarket};
ghost use Rattle.sm_market.specs.Pairing.{IsPairingOf};
ghost use Rattle.sm_theory.specs.Rotations.{IsExposed, eliminated};
ghost use Rattle.sm_rotations.specs.Footings.{AreFootings, AreSteps, AreTargetPlaces};

use sm_market::{Footing, Market, Pairing, next_in};
use sm_theory::Rotation;
use std::alloc::AllocError;

/// Eliminates a rotation, and finds how those whom it moves stand before and after, in place of what was found for another.
/// `places` has the places to which its proposers move.
pub(crate) fn step(
    market: &Market,
    m: &mut Pairing,
    rotation: &Rotation,
    places: &[u32],
    before: &mut Vec<Footing>,
    after: &mut Vec<Footing>,
) -> Result<(), AllocError>
    requires made { IsPairingOf market.now m.old }
    requires exposed { IsExposed market.now m.old.places rotation.now.pairs.items }
    requires places { AreTargetPlaces market.now rotation.now.pairs.items places.now }
    ensures made { OnOk result (IsPairingOf market.now m.new) }
    ensures moved { OnOk result (m.new.places
        ≡ eliminated market.now m.old.places rotation.now.pairs.items) }
    ensures steps { OnOk result (AreSteps market.now rotation.now.pairs.items before.new.items
        after.new.items) }
    ensures market { IsMarket market.now }
{
    prove!(market.proposers() < 1 << 24);
    find_footings(market, m, &rotation.pairs, places, before, after)?;
    m.turn_to(market, &rotation.pairs, after);
    Ok(())
}

/// Finds how those whom an exposed rotation moves stand in a pairing, and how they will stand once it is eliminated.
fn find_footings(
    market: &Market,
    m: &Pairing,
    pairs: &[(u32, u32)],
    places: &[u32],
    before: &mut Vec<Footing>,
    after: &mut Vec<Footing>,
) -> Result<(), AllocError>
    requires market { IsMarket market.now }
    requires made { IsPairingOf market.now m.now }
    requires exposed { IsExposed market.now m.now.places pairs.now }
    requires places { AreTargetPlaces market.now pairs.now places.now }
    ensures { OnOk result (AreSteps market.now pairs.now before.new.items after.new.items) }
{
    before.clear();
    after.clear();
    before.reserve(pairs.len())?;
    after.reserve(pairs.len())?;
    put_footings(market, m, pairs, places, before, after);
    Ok(())
}

/// Puts these footings where there is room for them.
fn put_footings(
    market: &Market,
    m: &Pairing,
    pairs: &[(u32, u32)],
    places: &[u32],
    before: &mut Vec<Footing>,
    after: &mut Vec<Footing>,
)
    requires market { IsMarket market.now }
    requires made { IsPairingOf market.now m.now }
    requires exposed { IsExposed market.now m.now.places pairs.now }
    requires places { AreTargetPlaces market.now pairs.now places.now }
    requires none_before { before.old.items ≡ [] }
    requires none_after { after.old.items ≡ [] }
    requires room_before { vec_len before.old + length pairs.now ≤ vec_capacity before.old }
    requires room_after { vec_len after.old + length pairs.now ≤ vec_capacity after.old }
    ensures { AreSteps market.now pairs.now before.new.items after.new.items }
{
    for i in 0..pairs.len() {
        let p = pairs[i].0;
        let target = pairs[next_in(i, pairs.len())].1;
        let place = places[p as usize];
        before.push_reserved(Footing {
            proposer: market.proposer_standing(m, p),
            reviewer: market.reviewer_standing(m, target),
        });
        after.push_reserved(Footing {
            proposer: place,
            reviewer: market.cross(p, place),
        });
    }
}

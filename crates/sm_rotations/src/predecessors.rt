//! What each rotation of a chain needs: its predecessors.
//!
//! The rotations are taken in the order of the chain, eliminated and noted one after another.

ghost use Rattle.std.specs.Prelude.{◌≡◌, ℕ, ◌<◌, ◌^◌, length, IfOk, OnOk, []};
ghost use Rattle.sm_market.specs.Lists.{row};
ghost use Rattle.sm_market.specs.Vectors.{rows_of};
ghost use Rattle.sm_market.specs.Pairing.{IsPairingOf};
ghost use Rattle.sm_theory.specs.Rotations.{IsExposed};
ghost use Rattle.sm_theory.specs.Chains.{AreEliminable, AreNeedsOf};
ghost use Rattle.sm_theory.specs.Values.{rotations_of};
ghost use Rattle.sm_rotations.specs.Graph.{AreFollowers};
ghost use Rattle.sm_rotations.specs.Footings.{AreTargetPlaces};
ghost use Rattle.sm_rotations.specs.Noting.{AreNoted};

use crate::graph::needs_by_followers;
use crate::notes::Notes;
use sm_market::{Market, Pairing};
use sm_successors::first_taker;
use sm_theory::{Chain, Rotation};
use std::alloc::{AllocError, Global};

/// For each rotation of a chain the numbers of its predecessors, rising.
///
/// There are two kinds. A rotation that moves a proposer from a reviewer needs the one that moved it there. A rotation
/// that moves a proposer past a reviewer of its list needs the one that moved that reviewer from somebody worse than the
/// proposer to somebody better (Gusfield and Irving 1989, chapter 3, in a form of this project's own).
///
/// The rotations have to be such that they can be eliminated one after the other from the first matching, in any order that
/// allows it. Rotations are numbered from 0. Takes time and memory in proportion to the agents and entries: what is found is
/// noted with the rotation that is needed, so that nothing has to be sorted.
///
/// # Errors
///
/// `AllocError` where memory ran out, and only then.
pub fn needs(alloc: Global, market: &Market, chain: &Chain) -> Result<Vec<Vec<u32>>, AllocError>
    requires made { IsPairingOf market.now chain.now.first }
    requires eliminable { AreEliminable market.now chain.now.first.places
        (rotations_of chain.now.rotations.items) }
    ensures one_each { IfOk result (λ n. length n.items ≡ length chain.now.rotations.items) }
    ensures needs { IfOk result (λ n. (j : ℕ) → j < length chain.now.rotations.items
        → AreNeedsOf market.now (rotations_of chain.now.rotations.items) j
        (row (rows_of n.items) j)) }
{
    let followers = followers(alloc, market, chain)?;
    needs_by_followers(alloc, &followers)
}

/// For each rotation of a chain those that need it, each once.
///
/// Takes time and memory in proportion to the agents and entries.
fn followers(alloc: Global, market: &Market, chain: &Chain) -> Result<Vec<Vec<u32>>, AllocError>
    requires made { IsPairingOf market.now chain.now.first }
    requires eliminable { AreEliminable market.now chain.now.first.places
        (rotations_of chain.now.rotations.items) }
    ensures few { OnOk result (length chain.now.rotations.items < 2 ^ 24) }
    ensures followers { IfOk result (λ f. AreFollowers market.now
        (rotations_of chain.now.rotations.items)
        (length chain.now.rotations.items) (rows_of f.items)) }
{
    prove!(market.proposers() < 1 << 24);
    let mut m = chain.first.copy(alloc)?;
    let mut notes = Notes::of(alloc, market)?;
    let mut places = vec![in alloc; 0; market.proposers() as usize]?;
    eliminate_all(
        alloc,
        market,
        &chain.rotations,
        &mut places,
        &mut m,
        &mut notes,
    )?;
    Ok(notes.into_followers())
}

/// Eliminates all rotations of a chain, one after another, and notes them. `places` has room for the places to which they move
/// their proposers.
fn eliminate_all(
    alloc: Global,
    market: &Market,
    rotations: &[Rotation],
    places: &mut [u32],
    m: &mut Pairing,
    notes: &mut Notes,
) -> Result<(), AllocError>
    requires made { IsPairingOf market.now m.old }
    requires eliminable { AreEliminable market.now m.old.places (rotations_of rotations.now) }
    requires one_each { length places.old ≡ length market.now.proposers }
    requires none { AreNoted market.now m.old.places [] notes.old }
    ensures { OnOk result (AreNoted market.now m.old.places (rotations_of rotations.now) notes.new) }
{
    for rotation in rotations {
        find_places(market, m, &rotation.pairs, places);
        notes.eliminate(alloc, market, m, rotation, places)?;
    }
    Ok(())
}

/// Finds for each proposer of an exposed rotation the place to which it moves.
fn find_places(market: &Market, m: &Pairing, pairs: &[(u32, u32)], places: &mut [u32])
    requires made { IsPairingOf market.now m.now }
    requires exposed { IsExposed market.now m.now.places pairs.now }
    requires one_each { length places.old ≡ length market.now.proposers }
    ensures { AreTargetPlaces market.now pairs.now places.new }
{
    prove!(market.proposers() < 1 << 24);
    for i in 0..pairs.len() {
        let p = pairs[i].0;
        places[p as usize] = first_taker(market, m, p, 0);
    }
}

//! The rotations of an instance, and their poset.

ghost use Rattle.std.specs.Prelude.{◌≡◌, IfOk};
ghost use Rattle.sm_answer_rotations.specs.Found.{AreRotationsOf};

use sm_accept::proposer_best;
use sm_poset::Poset;
use sm_rotations::{ChainWithNeeds, chain_with_needs};
use sm_seats::Seats;
use std::alloc::{AllocError, Global};

/// The complete chain of rotations of the market of an instance's seats, with what each one needs. Takes the time and the memory
/// of [`chain_with_needs`].
///
/// # Errors
///
/// `AllocError` where memory ran out, and only then.
pub fn find_rotations(alloc: Global, seats: &Seats) -> Result<ChainWithNeeds, AllocError>
    ensures { IfOk result (λ found. AreRotationsOf seats.now.market found) }
{
    let market = seats.market();
    prove!(market.proposers() < 1 << 24);
    let first = proposer_best(alloc, market)?;
    let found = chain_with_needs(alloc, market, &first)?;
    Ok(found)
}

/// The poset of the market of an instance's seats, which keeps the market, the proposers' best matching and the chain: what the
/// commands that need rotations stand on. The market is shared with the seats, and nothing of it is copied. Takes the time and the
/// memory of [`find_rotations`] and [`Poset::with_needs`].
///
/// # Errors
///
/// `AllocError` where memory ran out, and only then.
pub fn find_poset(alloc: Global, seats: &Seats) -> Result<Poset, AllocError>
    ensures { IfOk result (λ poset. poset.lists ≡ seats.now.market) }
{
    let found = find_rotations(alloc, seats)?;
    Ok(Poset::with_needs(alloc, seats.shared_market()?, found)?)
}

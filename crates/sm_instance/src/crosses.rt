//! Where each agent stands on the lists of those whom it names, and who names each reviewer.

ghost use Rattle.std.specs.Prelude.{◌≡◌, ◌<◌, [], length, slice_index_or, IfOk};
ghost use Rattle.sm_agents.specs.Sound.{IsWithinLimits, AreSoundEntries};
ghost use Rattle.sm_instance.specs.Crosses.{AreCrossesOf, crosses_lent};
ghost use Rattle.sm_agents.specs.Vectors.{agents_of};

use sm_agents::{Agent, lent_lists};
use sm_lists::{CompactNaming, Cross, CrossPlaces, Packed, cross_places, namings};
use std::alloc::{AllocError, Global};

/// For each place of each list of an instance, the place of the list's owner on the list of the agent there; none where it isn't
/// on it, so that the entry is inert. And who names each reviewer, by rising number and with the place.
#[derive(Drop)]
pub struct Crosses {
    namings: Packed<CompactNaming>,
    proposers: Packed<Cross>,
    reviewers: Packed<Cross>,
}

impl Crosses {
    /// Those of a proposer's list. Takes constant time.
    pub fn of_proposer(&self, p: u32) -> &[Cross]
        requires { p < length self.now.proposers }
        ensures { result.now ≡ slice_index_or self.now.proposers p [] }
    {
        self.proposers.at(p)
    }

    /// Those of a reviewer's list. Takes constant time.
    pub fn of_reviewer(&self, r: u32) -> &[Cross]
        requires { r < length self.now.reviewers }
        ensures { result.now ≡ slice_index_or self.now.reviewers r [] }
    {
        self.reviewers.at(r)
    }

    /// Those of both sides' lists, without who names whom. Takes constant time.
    fn into_sides(self) -> CrossPlaces<Cross>
        ensures rows { result.rows ≡ self.proposers }
        ensures others { result.others ≡ self.reviewers }
    {
        CrossPlaces {
            rows: self.proposers,
            others: self.reviewers,
        }
    }

    /// The same of copies. Takes time and memory in proportion to the entries.
    fn copied_sides(&self, alloc: Global) -> Result<CrossPlaces<Cross>, AllocError>
        ensures rows { IfOk result (λ sides. sides.rows ≡ self.now.proposers) }
        ensures others { IfOk result (λ sides. sides.others ≡ self.now.reviewers) }
    {
        Ok(CrossPlaces {
            rows: self.proposers.copy(alloc)?,
            others: self.reviewers.copy(alloc)?,
        })
    }

    /// Who names a reviewer. Takes constant time.
    pub(crate) fn namings_of(&self, r: u32) -> &[CompactNaming]
        requires { r < length self.now.namings }
        ensures { result.now ≡ slice_index_or self.now.namings r [] }
    {
        self.namings.at(r)
    }
}

/// The cross places of an instance, kept by it or made.
#[derive(Drop)]
pub enum LentCrosses<'a> {
    Kept(&'a Crosses),
    Made(Crosses),
}

impl<'a> LentCrosses<'a> {
    /// The cross places. Takes constant time.
    pub fn get(&self) -> &Crosses
        ensures { result.now ≡ crosses_lent self.now }
    {
        match self {
            LentCrosses::Kept(crosses) => crosses,
            LentCrosses::Made(crosses) => crosses,
        }
    }

    /// Those of both sides' lists, for a keeper of its own: moved where they were made, and copied where the instance keeps them.
    /// Takes time and memory in proportion to the entries where they are copied, and constant time else.
    ///
    /// # Errors
    ///
    /// `AllocError` where memory ran out, and only then.
    pub fn into_sides(self, alloc: Global) -> Result<CrossPlaces<Cross>, AllocError>
        ensures rows { IfOk result (λ sides. sides.rows ≡ (crosses_lent self.entry).proposers) }
        ensures others { IfOk result (λ sides. sides.others ≡ (crosses_lent self.entry).reviewers) }
    {
        match self {
            LentCrosses::Kept(crosses) => crosses.copied_sides(alloc),
            LentCrosses::Made(crosses) => Ok(crosses.into_sides()),
        }
    }
}

/// Who names each reviewer, and the cross places of both sides' lists.
pub(crate) fn find_crosses(
    alloc: Global,
    proposers: &[Agent],
    reviewers: &[Agent],
) -> Result<Crosses, AllocError>
    requires limits { IsWithinLimits (agents_of proposers.now) (agents_of reviewers.now) }
    requires proposers { AreSoundEntries (agents_of proposers.now)
        (length (agents_of reviewers.now)) }
    requires reviewers { AreSoundEntries (agents_of reviewers.now)
        (length (agents_of proposers.now)) }
    ensures { IfOk result (λ c. AreCrossesOf (agents_of proposers.now) (agents_of reviewers.now) c) }
{
    let proposers = lent_lists(alloc, proposers)?;
    let reviewers = lent_lists(alloc, reviewers)?;
    let found = namings(alloc, &proposers, &reviewers)?;
    let CrossPlaces { rows, others } = cross_places(alloc, &proposers, &reviewers, &found)?;
    Ok(Crosses {
        namings: found,
        proposers: rows,
        reviewers: others,
    })
}

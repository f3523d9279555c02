//! Proposals, which are looked for one by one.

ghost use Rattle.std.specs.Prelude.{◌≡◌, ◌<◌, length, IfOk, MatchOption};
ghost use Rattle.sm_agents.specs.Written.{row, entry, IsAcceptable};
ghost use Rattle.sm_answer_solve.specs.Admitting.{IsProposalAt};

use sm_instance::{CrossSearch, Instance};
use std::alloc::{AllocError, Global};
use std::marker::Model;

/// A proposal: of a proposer to a reviewer, on whose written list it stands at a place.
#[derive(Clone, Copy)]
pub(crate) struct Proposal {
    pub(crate) proposer: u32,
    pub(crate) reviewer: u32,
    pub(crate) place: u32,
}

/// The proposals of an instance.
#[derive(Drop)]
pub(crate) struct Proposals<'a> {
    alloc: Global,
    search: CrossSearch<'a>,
}

impl<'a> Model for Proposals<'a> {
    ghost use Rattle.sm_agents.specs.Written.{Written};

    ghost Value = { Written };

    ghost view = { λ p. p.search };
}

impl<'a> Proposals<'a> {
    /// Those of an instance, of which none is looked for yet.
    pub(crate) fn of(alloc: Global, instance: &'a Instance) -> Proposals<'a>
        ensures { result ≡ instance.now }
    {
        Proposals {
            alloc,
            search: CrossSearch::new(instance),
        }
    }

    /// The proposal of a proposer at a place of its written list. There is none where the entry is inert.
    pub(crate) fn at(
        &mut self,
        instance: &Instance,
        p: u32,
        place: u32,
    ) -> Result<Option<Proposal>, AllocError>
        requires same { self.old ≡ instance.now }
        requires in_range { p < length instance.now.proposers }
        requires on_list { place < length (row instance.now.proposers p) }
        ensures same { self.new ≡ self.old }
        ensures proposal { IfOk result (λ proposal. MatchOption proposal
            (¬ IsAcceptable instance.now p (entry instance.now.proposers p place))
            (IsProposalAt instance.now p place)) }
    {
        let place_there = match self.search.cross(self.alloc, p, place)? {
            Some(place_there) => place_there,
            None => return Ok(None),
        };
        Ok(Some(Proposal {
            proposer: p,
            reviewer: instance.reviewer_at(p, place),
            place: place_there,
        }))
    }
}

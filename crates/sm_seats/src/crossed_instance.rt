//! An instance beside its cross places.

ghost use Rattle.std.specs.Prelude.{◌≡◌, ◌<◌, ◌≤◌, length};
ghost use Rattle.sm_text.specs.Limits.{most_agents, most_capacity};
ghost use Rattle.sm_agents.specs.Sound.{IsInstance};
ghost use Rattle.sm_agents.specs.Written.{row, capacity_of};
ghost use Rattle.sm_instance.specs.Crosses.{AreCrossPlacesOf, AreCrossesOf};

use sm_instance::{Cross, Crosses, Instance};
use std::marker::Model;

/// An instance beside the cross places of its lists.
#[derive(Drop)]
pub(crate) struct CrossedInstance<'a> {
    instance: &'a Instance,
    crosses: &'a Crosses,
}

impl<'a> Model for CrossedInstance<'a> {
    ghost use Rattle.sm_agents.specs.Written.{Written};
    ghost use Rattle.sm_instance.specs.Crosses.{AreCrossesOf};

    ghost Value = { Written };

    ghost view = { λ i. i.instance.now };

    ghost invariant = { λ i. AreCrossesOf i.instance.now.proposers i.instance.now.reviewers
        i.crosses.now };
}

impl<'a> CrossedInstance<'a> {
    /// An instance and its cross places.
    pub(crate) fn of(instance: &'a Instance, crosses: &'a Crosses) -> CrossedInstance<'a>
        requires { AreCrossesOf instance.now.proposers instance.now.reviewers crosses.now }
        ensures { result ≡ instance.now }
    {
        CrossedInstance { instance, crosses }
    }

    /// The instance.
    pub(crate) fn instance(&self) -> &Instance
        ensures { result.now ≡ self.now }
    {
        self.instance
    }

    /// How many proposers there are.
    pub(crate) fn proposer_count(&self) -> u32
        ensures count { result ≡ length self.now.proposers }
        ensures instance { IsInstance self.now }
    {
        self.instance.proposer_count()
    }

    /// How many reviewers there are.
    pub(crate) fn reviewer_count(&self) -> u32
        ensures count { result ≡ length self.now.reviewers }
        ensures instance { IsInstance self.now }
    {
        self.instance.reviewer_count()
    }

    /// How many reviewers a proposer lists.
    pub(crate) fn proposer_len(&self, p: u32) -> u32
        requires { p < length self.now.proposers }
        ensures length { result ≡ length (row self.now.proposers p) }
        ensures fits { result ≤ most_agents }
        ensures instance { IsInstance self.now }
    {
        self.instance.proposer_len(p)
    }

    /// How many proposers a reviewer lists.
    pub(crate) fn reviewer_len(&self, r: u32) -> u32
        requires { r < length self.now.reviewers }
        ensures length { result ≡ length (row self.now.reviewers r) }
        ensures fits { result ≤ most_agents }
    {
        self.instance.reviewer_len(r)
    }

    /// Whom a proposer lists, best first.
    pub(crate) fn proposer_list(&self, p: u32) -> &[u32]
        requires { p < length self.now.proposers }
        ensures { result.now ≡ row self.now.proposers p }
    {
        self.instance.proposer_list(p)
    }

    /// Whom a reviewer lists, best first.
    pub(crate) fn reviewer_list(&self, r: u32) -> &[u32]
        requires { r < length self.now.reviewers }
        ensures { result.now ≡ row self.now.reviewers r }
    {
        self.instance.reviewer_list(r)
    }

    /// How many proposers a reviewer may have.
    pub(crate) fn capacity(&self, r: u32) -> u32
        requires { r < length self.now.reviewers }
        ensures capacity { result ≡ capacity_of self.now.reviewers r }
        ensures fits { result ≤ most_capacity }
    {
        self.instance.capacity(r)
    }

    /// The cross places along a proposer's list.
    pub(crate) fn proposer_crosses(&self, p: u32) -> &[Cross]
        requires { p < length self.now.proposers }
        ensures { AreCrossPlacesOf self.now.proposers self.now.reviewers p result.now }
    {
        self.crosses.of_proposer(p)
    }

    /// The cross places along a reviewer's list.
    pub(crate) fn reviewer_crosses(&self, r: u32) -> &[Cross]
        requires { r < length self.now.reviewers }
        ensures { AreCrossPlacesOf self.now.reviewers self.now.proposers r result.now }
    {
        self.crosses.of_reviewer(r)
    }
}

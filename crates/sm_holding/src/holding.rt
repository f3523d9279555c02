//! A matching that grows, one pair after another.

ghost use Rattle.std.specs.Prelude.{◌≡◌, ◌<◌, length, replicate, None, IfOk, MatchOption};
ghost use Rattle.sm_agents.specs.Written.{IsAcceptable};
ghost use Rattle.sm_holding.specs.Holding.{IsHolding, AddsPair, IsAcceptableAt};

use sm_instance::{Assignment, Instance};
use std::alloc::{AllocError, Global};

/// A matching that grows. Agents are counted from 0.
#[derive(Drop)]
pub struct Holding {
    /// The place of each proposer's reviewer on its written list, counted from 0, where it has one.
    pub matching: Assignment,
    /// How many proposers each reviewer has.
    pub loads: Vec<u32>,
}

impl Holding {
    /// Nobody is matched. Takes time and memory in proportion to the agents.
    ///
    /// # Errors
    ///
    /// `AllocError` where memory ran out, and only then.
    pub fn none(alloc: Global, instance: &Instance) -> Result<Holding, AllocError>
        ensures places { IfOk result (λ holding. holding.matching.places.items
            ≡ replicate (length instance.now.proposers) None) }
        ensures loads { IfOk result (λ holding. holding.loads.items
            ≡ replicate (length instance.now.reviewers) 0) }
    {
        Ok(Holding {
            matching: Assignment {
                places: vec![in alloc; None; instance.proposer_count() as usize]?,
            },
            loads: vec![in alloc; 0; instance.reviewer_count() as usize]?,
        })
    }

    /// Adds the pair of a proposer and a reviewer, counted from 0, and answers `false` where it can't be held: the two aren't
    /// acceptable to each other, the proposer has a reviewer, or the reviewer is full. Then nothing is changed. Takes time in
    /// proportion to the logarithm of how many list the reviewer.
    pub fn add(&mut self, instance: &Instance, p: u32, r: u32) -> bool
        requires proposer { p < length instance.now.proposers }
        requires reviewer { r < length instance.now.reviewers }
        requires held { IsHolding instance.now self.old }
        ensures { AddsPair instance.now self.old self.new p r result }
    {
        match acceptable_place(instance, p, r) {
            Some(place) => {
                if self.matching.places[p as usize].is_some()
                    || self.loads[r as usize] >= instance.capacity(r)
                {
                    return false;
                }
                self.matching.places[p as usize] = Some(place);
                self.loads[r as usize] += 1;
                true
            }
            None => false,
        }
    }
}

/// The place of a reviewer on a proposer's list, where they are acceptable to each other.
fn acceptable_place(instance: &Instance, p: u32, r: u32) -> Option<u32>
    requires proposer { p < length instance.now.proposers }
    requires reviewer { r < length instance.now.reviewers }
    ensures { MatchOption result (¬ IsAcceptable instance.now p r)
        (λ place. IsAcceptableAt instance.now p r place) }
{
    let place = instance.place(p, r)?;
    match instance.cross(p, place) {
        Some(_) => Some(place),
        None => None,
    }
}

//! What an instance is made of.

ghost use Rattle.std.specs.Prelude.{◌≡◌, ◌≤◌, length, IfOk};
ghost use Rattle.sm_text.specs.Limits.{most_agents};
ghost use Rattle.sm_agents.specs.Vectors.{agents_of, written_from, written_in};

use crate::agents::Agent;
use crate::kinds::Kind;
use sm_lists::first_numbers;
use std::alloc::{AllocError, Global};

/// What an instance with two sides is made of. Each pair has the proposer first.
#[derive(Drop)]
pub struct Parts {
    pub kind: Kind,
    pub proposers: Vec<Agent>,
    pub reviewers: Vec<Agent>,
    pub weights: Vec<(u32, u32, i64)>,
    pub forced: Vec<(u32, u32)>,
    pub forbidden: Vec<(u32, u32)>,
    /// The second weight of each pair that has a weight, in the order of the weights.
    pub seconds: Vec<i64>,
    /// The order of the proposers in which rank vectors are compared.
    pub order: Vec<u32>,
}

impl Parts {
    /// Parts whose second weights are all 0, and whose proposers are compared in the order of their numbers. Takes time and
    /// memory in proportion to the proposers and the weights.
    ///
    /// # Errors
    ///
    /// `AllocError` where memory ran out, and only then.
    pub fn plain(
        alloc: Global,
        kind: Kind,
        proposers: Vec<Agent>,
        reviewers: Vec<Agent>,
        weights: Vec<(u32, u32, i64)>,
        forced: Vec<(u32, u32)>,
        forbidden: Vec<(u32, u32)>,
    ) -> Result<Parts, AllocError>
        requires few { length (agents_of proposers.items) ≤ most_agents }
        ensures { IfOk result (λ parts. written_in parts ≡ written_from kind
            proposers.items reviewers.items weights.items forced.items forbidden.items) }
    {
        let seconds = vec![in alloc; 0; weights.len()]?;
        let order = first_numbers(alloc, proposers.len() as u32)?;
        Ok(Parts {
            kind,
            proposers,
            reviewers,
            weights,
            forced,
            forbidden,
            seconds,
            order,
        })
    }
}

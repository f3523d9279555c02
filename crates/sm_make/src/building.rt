//! Instances of sides that are known to be sound.

ghost use Rattle.std.specs.Prelude.{◌≡◌, [], IfOk};
ghost use Rattle.sm_agents.specs.Vectors.{agents_of, written_from};
ghost use Rattle.sm_agents.specs.Sound.{IsInstance, ArePersons};
ghost use Rattle.sm_instance.specs.declared.inputs.Input.TheVariants.{Room};
ghost use Rattle.sm_make.specs.Made.{plain};

use sm_instance::{Agent, Input, Instance, Kind, Parts, Persons};
use sm_text::Digest;
use std::alloc::{AllocError, Global};

/// The instance of two sides, without weights and conditions. Nobody chose the names, so any hashes will do for them.
pub(crate) fn two(
    alloc: Global,
    kind: Kind,
    proposers: Vec<Agent>,
    reviewers: Vec<Agent>,
) -> Result<Input, AllocError>
    requires { IsInstance (written_from kind proposers.items reviewers.items [] [] []) }
    ensures { IfOk result (λ input. input ≡ plain kind (agents_of proposers.items)
        (agents_of reviewers.items)) }
{
    let parts = Parts::plain(
        alloc,
        kind,
        proposers,
        reviewers,
        Vec::new(alloc),
        Vec::new(alloc),
        Vec::new(alloc),
    )?;
    let instance = Instance::held(alloc, Digest::new().hash(), parts)?;
    Ok(Input::Two(instance))
}

/// The instance of these persons.
pub(crate) fn room(alloc: Global, persons: Vec<Agent>) -> Result<Input, AllocError>
    requires { ArePersons (agents_of persons.items) }
    ensures { IfOk result (λ input. input ≡ Room (agents_of persons.items)) }
{
    let persons = Persons::held(alloc, Digest::new().hash(), persons)?;
    Ok(Input::Room(persons))
}

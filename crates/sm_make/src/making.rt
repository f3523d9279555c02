//! An instance of each shape.

ghost use Rattle.std.specs.Prelude.{◌≡◌, ◌≤◌, [], IfOk};
ghost use Rattle.sm_make.specs.Made.{made, made_instance, most_size};

use crate::building::{room, two};
use crate::shape::Shape;
use crate::sides::{copy_side, cycle_side, drawn_persons, drawn_side};
use rand_pcg::Pcg32;
use sm_instance::{Input, Kind, Side};
use std::alloc::{AllocError, Global};

/// The stream of the generator from which the words come.
const STREAM: u64 = 54;

/// The places of a made hospital.
const PLACES: u32 = 7;

/// The instance of a shape, a size and a seed: always the same one for the same three.
///
/// The size has to be from 1 to 2,048 for [`Shape::Copies`] and from 1 to 512 for the others. Names are `p1`, `p2` and so on
/// and `r1`, `r2` and so on, without weights and conditions. The words for shuffled lists come from the generator of 32
/// bits with a state of 64 (O'Neill 2014), which starts at the seed. Takes time and memory in proportion to the entries on
/// the lists.
///
/// # Errors
///
/// `AllocError` where memory ran out, and only then.
pub fn make(alloc: Global, shape: Shape, size: u32, seed: u64) -> Result<Input, AllocError>
    requires some { 1 ≤ size }
    requires few { size ≤ most_size shape }
    ensures { IfOk result (λ input. input ≡ made_instance shape size seed) }
{
    match shape {
        Shape::Copies => copies(alloc, size),
        Shape::Cycle => cycle(alloc, size),
        Shape::Random => random(alloc, size, seed),
        Shape::Hospitals => hospitals(alloc, size, seed),
        Shape::Rooms => rooms(alloc, size, seed),
    }
}

/// So many copies of two proposers and two reviewers.
fn copies(alloc: Global, size: u32) -> Result<Input, AllocError>
    requires { size ≤ 2048 }
    ensures { IfOk result (λ input. input ≡ made Shape.Copies size []) }
{
    let proposers = copy_side(alloc, Side::Proposers, 2 * size)?;
    let reviewers = copy_side(alloc, Side::Reviewers, 2 * size)?;
    let input = two(alloc, Kind::Marriage, proposers, reviewers)?;
    Ok(input)
}

/// A cycle of so many on each side.
fn cycle(alloc: Global, size: u32) -> Result<Input, AllocError>
    requires { size ≤ 512 }
    ensures { IfOk result (λ input. input ≡ made Shape.Cycle size []) }
{
    let proposers = cycle_side(alloc, Side::Proposers, size)?;
    let reviewers = cycle_side(alloc, Side::Reviewers, size)?;
    let input = two(alloc, Kind::Marriage, proposers, reviewers)?;
    Ok(input)
}

/// A marriage of so many on each side.
fn random(alloc: Global, size: u32, seed: u64) -> Result<Input, AllocError>
    requires { size ≤ 512 }
    ensures { IfOk result (λ input. input ≡ made_instance Shape.Random size seed) }
{
    let mut generator = Pcg32::new(seed, STREAM);
    let proposers = drawn_side(alloc, &mut generator, Side::Proposers, 1, size, size)?;
    let reviewers = drawn_side(alloc, &mut generator, Side::Reviewers, 1, size, size)?;
    let input = two(alloc, Kind::Marriage, proposers, reviewers)?;
    Ok(input)
}

/// So many residents, and a hospital for every eight of them.
fn hospitals(alloc: Global, size: u32, seed: u64) -> Result<Input, AllocError>
    requires { size ≤ 512 }
    ensures { IfOk result (λ input. input ≡ made_instance Shape.Hospitals size seed) }
{
    let count = (size / 8).max(1);
    let mut generator = Pcg32::new(seed, STREAM);
    let residents = drawn_side(alloc, &mut generator, Side::Proposers, 1, size, count)?;
    let hospitals = drawn_side(alloc, &mut generator, Side::Reviewers, PLACES, count, size)?;
    let input = two(alloc, Kind::Hospitals, residents, hospitals)?;
    Ok(input)
}

/// So many persons.
fn rooms(alloc: Global, size: u32, seed: u64) -> Result<Input, AllocError>
    requires { size ≤ 512 }
    ensures { IfOk result (λ input. input ≡ made_instance Shape.Rooms size seed) }
{
    let mut generator = Pcg32::new(seed, STREAM);
    let persons = drawn_persons(alloc, &mut generator, size)?;
    let input = room(alloc, persons)?;
    Ok(input)
}

//! The steps between two sets of rotations.

ghost use Rattle.std.specs.Prelude.{◌≡◌, ◌^◌, ◌<◌, ◌++◌, [], ◌∷◌, if◌then◌else◌, length, IfOk, OnOk};
ghost use Rattle.sm_theory.specs.Routes.{is_only_in, steps_between};

use sm_theory::Step;
use std::alloc::{AllocError, Global};

/// The steps from one set of rotations to another: first a step back for each rotation that is in the left set alone, highest
/// number first, then a step forth for each that is in the right set alone, lowest first.
pub(crate) fn steps_of(
    alloc: Global,
    left: &[bool],
    right: &[bool],
) -> Result<Vec<Step>, AllocError>
    requires each { length right.now ≡ length left.now }
    requires few { length left.now < 2 ^ 32 }
    ensures { IfOk result (λ steps. steps.items
        ≡ steps_between left.now right.now (length left.now)) }
{
    let count = left.len() as u32;
    let mut steps = Vec::new(alloc);
    'back: for taken in 0..count {
        let k = count - 1 - taken;
        push_if(&mut steps, is_only_in(left, right, k), Step::Back(k))?;
    }
    'forth: for k in 0..count {
        push_if(&mut steps, is_only_in(right, left, k), Step::Forth(k))?;
    }
    Ok(steps)
}

/// Whether a rotation is in the one set and not in the other.
fn is_only_in(set: &[bool], other: &[bool], k: u32) -> bool
    requires in_set { k < length set.now }
    requires in_other { k < length other.now }
    ensures { result ≡ is_only_in set.now other.now k }
{
    set[k as usize] && !other[k as usize]
}

/// Puts a step behind the others where it is wanted.
fn push_if(steps: &mut Vec<Step>, wanted: bool, step: Step) -> Result<(), AllocError>
    ensures { OnOk result (steps.new.items
        ≡ (if wanted then steps.old.items ++ step ∷ [] else steps.old.items)) }
{
    if wanted {
        steps.push(step)?;
    }
    Ok(())
}

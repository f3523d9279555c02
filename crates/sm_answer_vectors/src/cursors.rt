//! Vectors behind which others are listed.

ghost use Rattle.std.specs.Prelude.{◌≡◌, ◌++◌, ◌∷◌, [], IfSome, IfOk, OnOk};
ghost use Rattle.std.specs.List.{All};
ghost use Rattle.sm_report.specs.Sound.{IsSmall};
ghost use Rattle.sm_answer_vectors.specs.VectorAnswer.{cursor_in};

use std::alloc::{AllocError, AllocFailed, Global};

/// A copy of a vector, if there is one. Takes time and memory in proportion to it.
///
/// # Errors
///
/// `AllocError` where memory ran out, and only then.
pub fn copy_of_cursor(
    alloc: Global,
    after: &Option<Vec<u32>>,
) -> Result<Option<Vec<u32>>, AllocError>
    ensures copied { IfOk result (λ copy. cursor_in copy ≡ cursor_in after.now) }
    ensures small { IfOk result (λ copy. IfSome (cursor_in copy) (All IsSmall)) }
{
    match after {
        Some(vector) => Ok(Some(small_copy(alloc, vector)?)),
        None => Ok(None),
    }
}

/// A copy of numbers, all of which have 32 bits. Takes time and memory in proportion to them.
///
/// # Errors
///
/// `AllocError` where memory ran out, and only then.
pub fn small_copy(alloc: Global, numbers: &[u32]) -> Result<Vec<u32>, AllocError>
    ensures copied { IfOk result (λ copy. copy.items ≡ numbers.now) }
    ensures small { IfOk result (λ copy. All IsSmall copy.items) }
{
    let mut copy = Vec::with_capacity(alloc, numbers.len())?;
    for n in numbers {
        push_small(&mut copy, *n)?;
    }
    Ok(copy)
}

/// Adds a number, which has 32 bits.
fn push_small(copy: &mut Vec<u32>, n: u32) -> Result<(), AllocFailed<u32>>
    ensures pushed { OnOk result (copy.new.items ≡ copy.old.items ++ n ∷ []) }
    ensures small { IsSmall n }
{
    copy.push(n)
}

//! Orders of the agents of a side.

ghost use Rattle.std.specs.Prelude.{◌≡◌, ℕ, ◌<◌, ◌≤◌, ◌↔◌, length, false, slice_index_or, IsTrue, IfOk};
ghost use Rattle.std.specs.List.{range_with_len};
ghost use Rattle.sm_lists.specs.EachOnce.{IsEachOnce};

use std::alloc::{AllocError, Global};

/// Whether an order has each of so many numbers, from 0, once. Takes time in proportion to the numbers, and memory for a mark of
/// each.
///
/// # Errors
///
/// `AllocError` where memory ran out, and only then.
pub fn is_each_once(alloc: Global, count: u32, order: &[u32]) -> Result<bool, AllocError>
    ensures { IfOk result (λ is. IsTrue is ↔ IsEachOnce count order.now) }
{
    if order.len() != count as usize {
        return Ok(false);
    }
    let mut met = vec![in alloc; false; count as usize]?;
    Ok(mark_each(order, met.as_mut_slice()))
}

/// Marks the numbers of an order, and answers whether each has a mark and none was marked before.
fn mark_each(order: &[u32], met: &mut [bool]) -> bool
    requires as_many { length order.now ≡ length met.old }
    requires unmet { (p : ℕ) → slice_index_or met.old p false ≡ false }
    ensures { IsTrue result ↔ IsEachOnce (length met.old) order.now }
{
    for n in 0..order.len() {
        let p = order[n] as usize;
        if p >= met.len() || met[p] {
            return false;
        }
        met[p] = true;
    }
    true
}

/// So many numbers, from 0 and in turn. Takes time and memory in proportion to the numbers.
///
/// # Errors
///
/// `AllocError` where memory ran out, and only then.
pub fn first_numbers(alloc: Global, count: u32) -> Result<Vec<u32>, AllocError>
    ensures { IfOk result (λ numbers. numbers.items ≡ range_with_len 0 count) }
{
    let mut numbers = Vec::with_capacity(alloc, count as usize)?;
    for n in 0..count {
        numbers.push(n)?;
    }
    Ok(numbers)
}

//! The order of all numbers below a count that some of them begin.

ghost use Rattle.std.specs.Prelude.{◌≡◌, ◌<◌, ◌^◌, ◌||◌, ◌==◌, ◌++◌, ◌∷◌, [], if◌then◌else◌, ℕ, length, slice_index_or, false, IfOk};
ghost use Rattle.std.specs.List.{list_any};
ghost use Rattle.sm_agents.specs.Order.{full_order};

use std::alloc::{AllocError, Global};

/// All numbers below a count: first these, in their order, and then the others, which rise. Takes time and memory in proportion to
/// the count.
///
/// # Errors
///
/// `AllocError` where memory ran out, and only then.
pub fn full_order(alloc: Global, count: usize, first: Vec<u32>) -> Result<Vec<u32>, AllocError>
    requires { count < 2 ^ 32 }
    ensures { IfOk result (λ v. v.items ≡ full_order count first.items) }
{
    let is_first = marked(alloc, count, &first)?;
    let mut order = first;
    'numbers: for number in 0..count {
        push_other(&mut order, is_first[number], number as u32)?;
    }
    Ok(order)
}

/// Puts a number behind an order, unless it is one of those that come first.
fn push_other(order: &mut Vec<u32>, is_first: bool, number: u32) -> Result<(), AllocError>
    ensures { IfOk result (λ _. order.new.items ≡ order.old.items
        ++ (if is_first then [] else number ∷ [])) }
{
    if !is_first {
        order.push(number)?;
    }
    Ok(())
}

/// For each number below a count, whether it is one of these.
fn marked(alloc: Global, count: usize, numbers: &[u32]) -> Result<Vec<bool>, AllocError>
    ensures each { IfOk result (λ v. length v.items ≡ count) }
    ensures marked { IfOk result (λ v. (n : ℕ) → n < count
        → slice_index_or v.items n false ≡ list_any (λ m. m == n) numbers.now) }
{
    let mut marks = vec![in alloc; false; count]?;
    mark_all(&mut marks, numbers);
    Ok(marks)
}

/// Marks numbers, where they have a mark.
fn mark_all(marks: &mut [bool], numbers: &[u32])
    ensures each { length marks.new ≡ length marks.old }
    ensures marked { (n : ℕ) → n < length marks.old → slice_index_or marks.new n false
        ≡ (slice_index_or marks.old n false || list_any (λ m. m == n) numbers.now) }
{
    'numbers: for number in numbers {
        mark(marks, *number);
    }
}

/// Marks a number, where it has a mark.
fn mark(marks: &mut [bool], number: u32)
    ensures each { length marks.new ≡ length marks.old }
    ensures marked { (n : ℕ) → n < length marks.old → slice_index_or marks.new n false
        ≡ (slice_index_or marks.old n false || number == n) }
{
    if (number as usize) < marks.len() {
        marks[number as usize] = true;
    }
}

//! Which format an instance needs.

ghost use Rattle.std.specs.Prelude.{◌≡◌, nat_eq, not, is_some, length};
ghost use Rattle.std.specs.List.{range_with_len};
ghost use Rattle.std.specs.Cmp.Lexicographic.{pointwise};
ghost use Rattle.sm_agents.specs.Sound.{IsInstance};
ghost use Rattle.sm_instance.specs.declared.inputs.Input.TheVariants.{Two};
ghost use Rattle.sm_instance_lines.specs.Printed.{format_of};
ghost use Rattle.sm_instance_lines.specs.Names.{said_of};

use sm_instance::{Input, Instance};

/// The format by which an instance is printed: 2 where its proposers have an order of their own or a pair has a second weight
/// that isn't 0, and else 1.
pub(crate) fn format(input: &Input) -> u32
    ensures { result ≡ format_of (said_of input.now) }
{
    match input {
        Input::Two(instance) => two_format(instance),
        Input::Room(_) => 1,
    }
}

/// The format by which an instance with two sides is printed.
fn two_format(instance: &Instance) -> u32
    ensures { result ≡ format_of (said_of (Two instance.now)) }
{
    if has_own_order(instance) {
        return 2;
    }
    if instance.has_seconds() { 2 } else { 1 }
}

/// Is the order of the proposers another than that of their numbers? Then a printed instance has a line for it. Takes time in
/// the number of proposers.
pub fn has_own_order(instance: &Instance) -> bool
    ensures own { result ≡ is_some (said_of (Two instance.now)).order }
    ensures instance { IsInstance instance.now }
{
    !are_counted(instance.order())
}

/// Does each of these numbers hold its place?
fn are_counted(numbers: &[u32]) -> bool
    ensures { result ≡ pointwise nat_eq numbers.now (range_with_len 0 (length numbers.now)) }
{
    'places: for place in 0..numbers.len() {
        if numbers[place] as usize != place {
            return false;
        }
    }
    true
}

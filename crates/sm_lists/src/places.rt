//! Looking for a number on a list.

ghost use Rattle.std.specs.Prelude.{◌≡◌, ◌≢◌, ℕ, ◌<◌, ◌≤◌, ◌^◌, length, false, get_or, IfSome};
ghost use Rattle.sm_lists.specs.Crosses.{found_on};

/// How many entries are compared before the first branch.
const BLOCK: usize = 16;

/// The first place of a number on a list, counted from 0; `None` where it isn't on it. Takes time in proportion to the entries up
/// to that place.
pub fn first_place(list: &[u32], number: u32) -> Option<u32>
    requires { length list.now < 2 ^ 32 }
    ensures found { result ≡ found_on list.now number }
    ensures on_list { IfSome result (λ place. place < length list.now) }
{
    for place in passed(list, number)..list.len() {
        if list[place] == number {
            return Some(place as u32);
        }
    }
    None
}

/// The length of the front of a list that is passed in whole blocks, since the number isn't on it.
fn passed(list: &[u32], number: u32) -> usize
    ensures within { result ≤ length list.now }
    ensures without { (k : ℕ) → k < result → get_or list.now k 0 ≢ number }
{
    let mut from = 0;
    'blocks: while from + BLOCK <= list.len() && !stands_in(list, from, from + BLOCK, number) {
        from += BLOCK;
    }
    from
}

/// Whether a number stands on a list from one place up to another. It compares the entries at all of these places, with no jump
/// out, so that the machine compares several at once.
fn stands_in(list: &[u32], from: usize, to: usize, number: u32) -> bool
    requires { to ≤ length list.now }
    ensures { result ≡ false → (k : ℕ) → from ≤ k → k < to → get_or list.now k 0 ≢ number }
{
    let mut found = false;
    for place in from..to {
        found |= list[place] == number;
    }
    found
}

//! Numbers by how often each of them stands.

ghost use Rattle.std.specs.Prelude.{◌≡◌, ℕ, ◌+◌, ◌^◌, ◌<◌, ◌≤◌, ◌∷◌, List, length, slice_index};
ghost use Rattle.sm_theory.specs.Medians.{IsAtPlace};
ghost use Rattle.sm_lattice.specs.Counts.{AreCountsOf};

/// The number that stands at a place, counted from 1, when some numbers stand in order, the least first, with repeats. Each of
/// them stands so often among them as its count says, and the place is among them.
///
/// Takes no memory, and time in proportion to the counts.
pub fn number_at_place(counts: &[u32], place: u32) -> u32
    requires { length counts.now < 2 ^ 32 }
    ensures { (numbers : List ℕ) → AreCountsOf numbers counts.now → 0 < place → place
        ≤ length numbers → IsAtPlace numbers place result }
{
    let mut up_to = 0;
    for x in 0..counts.len() {
        let before = up_to;
        up_to = before + u64::from(counts[x]);
        if u64::from(place) <= up_to {
            return x as u32;
        }
    }
    counts.len() as u32
}

/// Counts one number more: `counts` says for each number, from 0, how often it stands. Takes constant time.
#[tactic(auto, using(crate::proofs::UpTo::counts_more))]
pub fn count_number(counts: &mut [u32], number: u32)
    requires in_range { number < length counts.old }
    requires fits { slice_index counts.old number + 1 < 2 ^ 32 }
    ensures { (numbers : List ℕ) → AreCountsOf numbers counts.old
        → AreCountsOf (number ∷ numbers) counts.new }
{
    counts[number as usize] += 1;
}

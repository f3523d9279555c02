//! Whom each seat of the reviewers holds.

ghost use Rattle.std.specs.Prelude.{◌≡◌, ℕ, ◌≤◌, ◌<◌, length, slice_index};
ghost use Rattle.sm_seats.specs.Counted.{first_seats_of};
ghost use Rattle.sm_answer_solve.specs.Admitting.{AreFreeSeats};

use sm_instance::Instance;

/// Sets each seat free: its standing is one past its reviewer's list.
pub(crate) fn free_seats(instance: &Instance, firsts: &[u32], standings: &mut [u32])
    requires firsts { firsts.now ≡ first_seats_of instance.now }
    requires seats { length standings.old ≡ slice_index firsts.now (length instance.now.reviewers) }
    ensures { AreFreeSeats instance.now standings.new }
{
    for r in 0..instance.reviewer_count() {
        let from = firsts[r as usize] as usize;
        let to = firsts[r as usize + 1] as usize;
        fill_between(standings, from, to, instance.reviewer_len(r));
    }
}

/// Writes a number from a place on, up to another.
fn fill_between(numbers: &mut [u32], from: usize, to: usize, number: u32)
    requires order { from ≤ to }
    requires there { to ≤ length numbers.old }
    ensures as_long { length numbers.new ≡ length numbers.old }
    ensures before { (i : ℕ) → i < from → slice_index numbers.new i ≡ slice_index numbers.old i }
    ensures filled { (i : ℕ) → from ≤ i → i < to → slice_index numbers.new i ≡ number }
{
    numbers[from..to].fill(number);
}

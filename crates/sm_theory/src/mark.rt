//! Marks, in four bytes each.

ghost use Rattle.std.specs.Prelude.{◌≡◌, ◌+◌, ◌<◌, ◌^◌, IfSome};

use std::marker::Model;

/// The number of a rotation, or none. The number is less than 4,294,967,295: half as large as an `Option<u32>`.
#[derive(Clone, Copy, Debug)]
pub struct Mark {
    /// One more than the number; 0 where there is none.
    past: u32,
}

impl Model for Mark {
    ghost use Rattle.std.specs.Prelude.{ℕ, Option};
    ghost use Rattle.sm_lists.specs.Places.{place_before, past_of, past_of-place_before};

    ghost Value = { Option ℕ };

    ghost view = { λ m. place_before m.past };

    ghost inverse = { λ number. record { past = past_of number } };

    ghost inverse_ok = { λ m h i. record { past = past_of-place_before m.past i } };
}

impl Mark {
    /// The mark with a number, or with none.
    pub(crate) fn of(number: Option<u32>) -> Mark
        requires { IfSome number (λ number. number + 1 < 2 ^ 32) }
        ensures { result ≡ number }
    {
        match number {
            Some(number) => Mark { past: number + 1 },
            None => Mark { past: 0 },
        }
    }

    /// The number, if there is one. Takes constant time.
    pub fn get(self) -> Option<u32>
        ensures { result ≡ self }
    {
        self.past.checked_sub(1)
    }
}

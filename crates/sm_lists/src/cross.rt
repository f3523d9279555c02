//! Cross places as they are kept, in two bytes each.

ghost use Rattle.std.specs.Prelude.{◌≡◌, ◌-◌, ◌^◌};

use crate::place::KeptPlace;
use std::marker::Model;

/// The place of a list's owner on the list of an agent that it names, or none where it isn't on it, so that the entry is
/// inert. The place is less than 65,535: a quarter as large as an `Option<u32>`.
#[derive(Clone, Copy, Debug)]
pub struct Cross {
    /// One more than the place; 0 where there is none.
    past: u16,
}

impl Model for Cross {
    ghost use Rattle.std.specs.Prelude.{ℕ, Option};
    ghost use Rattle.sm_lists.specs.Places.{place_before, past_of, past_of-place_before};

    ghost Value = { Option ℕ };

    ghost view = { λ c. place_before c.past };

    ghost inverse = { λ place. record { past = past_of place } };

    ghost inverse_ok = { λ c h i. record { past = past_of-place_before c.past i } };
}

impl Cross {
    /// The place, counted from 0. Takes constant time.
    pub fn place(self) -> Option<u32>
        ensures { result ≡ self }
    {
        u32::from(self.past).checked_sub(1)
    }
}

impl KeptPlace for Cross {
    ghost kept = { λ place. place };

    ghost most = { 2 ^ 16 - 1 };

    fn of(place: Option<u32>) -> Cross {
        match place {
            Some(place) => Cross {
                past: place as u16 + 1,
            },
            None => Cross { past: 0 },
        }
    }

    fn place(self) -> Option<u32> {
        Cross::place(self)
    }
}

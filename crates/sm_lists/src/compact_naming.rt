//! Who names an agent, and where, as it is kept in four bytes.

ghost use Rattle.std.specs.Prelude.{◌≡◌, ◌≢◌, ℕ, ◌<◌, ◌^◌, length, MatchOption};
ghost use Rattle.sm_lists.specs.CompactNamings.{IsNamed, naming_at};

use crate::naming::{KeptNaming, Naming};

/// Who names an agent, and at which place of its list. Both are numbered from 0, and are less than 65,536: half as large as a
/// `Naming`.
#[derive(Clone, Copy)]
pub struct CompactNaming {
    pub by: u16,
    pub place: u16,
}

impl KeptNaming for CompactNaming {
    ghost kept = { λ n. record { by = n.by; place = n.place } };

    ghost most = { 2 ^ 16 };

    fn blank() -> CompactNaming {
        CompactNaming { by: 0, place: 0 }
    }

    fn of(naming: Naming) -> CompactNaming {
        CompactNaming {
            by: naming.by as u16,
            place: naming.place as u16,
        }
    }

    fn naming(self) -> Naming {
        Naming {
            by: u32::from(self.by),
            place: u32::from(self.place),
        }
    }
}

/// The place at which `by` names, among namings by rising number; `None` where it isn't among them. Takes time in proportion to the
/// logarithm of how many namings there are.
pub fn place_by(namings: &[CompactNaming], by: u32) -> Option<u32>
    requires { (e f : ℕ) → e < f → f < length namings.now
        → (naming_at namings.now e).by < (naming_at namings.now f).by }
    ensures { MatchOption result
        ((e : ℕ) → e < length namings.now → (naming_at namings.now e).by ≢ by)
        (λ place. IsNamed namings.now by place) }
{
    let mut low = 0;
    let mut high = namings.len();
    while low < high {
        let middle = low + (high - low) / 2;
        let naming = namings[middle];
        let found = u32::from(naming.by);
        if found == by {
            return Some(u32::from(naming.place));
        }
        if found < by {
            low = middle + 1;
        } else {
            high = middle;
        }
    }
    None
}

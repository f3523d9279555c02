//! How cross places are kept.

ghost use Rattle.std.specs.Prelude.{◌-◌, ◌^◌};
ghost use Rattle.sm_lists.specs.Held.{place_in};

/// The place of an agent on a list, or none where it isn't on it, as it is kept: lists may be so short that places fit
/// fewer bytes.
pub trait KeptPlace: Copy {
    ghost use Rattle.std.specs.Prelude.{◌≡◌, ℕ, Option, ◌<◌, IfSome};

    /// The place.
    ghost kept: { Self → Option ℕ };

    /// Places are kept below this.
    ghost most: { ℕ };

    /// Keeps a place.
    fn of(place: Option<u32>) -> Self
        requires { IfSome place (λ i. i < most) }
        ensures { Self.kept result ≡ place };

    /// The place, counted from 0.
    fn place(self) -> Option<u32>
        ensures { result ≡ Self.kept self };
}

/// The place itself; the greatest number where there is none.
impl KeptPlace for u32 {
    ghost kept = { place_in };

    ghost most = { 2 ^ 32 - 1 };

    fn of(place: Option<u32>) -> u32 {
        match place {
            Some(place) => place,
            None => u32::MAX,
        }
    }

    fn place(self) -> Option<u32> {
        if self == u32::MAX { None } else { Some(self) }
    }
}

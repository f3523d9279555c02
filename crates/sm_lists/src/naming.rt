//! That an agent names another, and how it is kept.

/// That an agent of one side names a certain agent of the other, at a place of its list. Both are numbered from 0.
#[derive(Clone, Copy, Debug)]
pub struct Naming {
    pub by: u32,
    pub place: u32,
}

/// A naming as it is kept: a side may be so small that its numbers fit fewer bytes.
pub trait KeptNaming: Copy {
    ghost use Rattle.std.specs.Prelude.{◌≡◌, ℕ, ◌<◌};
    ghost use Rattle.sm_lists.specs.declared.naming.Naming.{Naming};

    /// The naming.
    ghost kept: { Self → Naming };

    /// Numbers of agents and places are kept below this.
    ghost most: { ℕ };

    /// Some naming, for room in which none is kept yet.
    fn blank() -> Self;

    /// Keeps a naming.
    fn of(naming: Naming) -> Self
        requires by { naming.by < most }
        requires place { naming.place < most }
        ensures { Self.kept result ≡ naming };

    /// The naming.
    fn naming(self) -> Naming
        ensures { result ≡ Self.kept self };
}

impl KeptNaming for Naming {
    ghost kept = { λ n. n };

    ghost most = { 2 ^ 24 };

    ghost use Rattle.std.specs.Prelude.{◌^◌};

    fn blank() -> Naming {
        Naming { by: 0, place: 0 }
    }

    fn of(naming: Naming) -> Naming {
        naming
    }

    fn naming(self) -> Naming {
        self
    }
}

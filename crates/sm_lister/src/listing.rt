//! Listings.

ghost use Rattle.std.specs.Prelude.{◌≡◌, true, false};

use crate::lister::Lister;
use std::alloc::AllocError;
use std::marker::Model;

/// The vectors that a lister has still to give, at most as many as a limit.
///
/// An item for which there is no memory counts as one and doesn't move the listing: the next item is that vector, where the
/// limit allows one more. Once `None` came it comes for ever.
#[derive(Debug, Drop)]
pub struct Listing {
    lister: Lister,
    left: u32,
    waits: bool,
}

impl Model for Listing {
    ghost use Rattle.std.specs.Prelude.{◌≡◌, true};
    ghost use Rattle.sm_lister.specs.Listers.{Listing as Plain};

    ghost Value = { Plain };

    ghost view = { λ s. record { lister = s.lister; left = s.left; waits = s.waits } };

    ghost invariant = { λ s. s.waits ≡ true → s.lister.here ≡ true };
}

impl Listing {
    /// The vectors that a lister has still to give, at most `limit`. Takes constant time and no memory.
    pub fn new(lister: Lister, limit: u32) -> Listing
        ensures lister { result.lister ≡ lister }
        ensures left { result.left ≡ limit }
        ensures waits { result.waits ≡ false }
    {
        Listing {
            lister,
            left: limit,
            waits: false,
        }
    }
}

impl Iterator for Listing {
    ghost use Rattle.std.specs.Iterator.{at_most};
    ghost use Rattle.sm_lister.specs.Listers.{GivesItem};

    type Item = Result<Vec<u32>, AllocError>;

    ghost remaining = { λ s. at_most s.left };

    ghost next_gives = { λ s item t. GivesItem s item t };

    fn next(&mut self) -> Option<Result<Vec<u32>, AllocError>> {
        if self.left == 0 {
            return None;
        }
        if !self.waits && !self.lister.advance() {
            self.left = 0;
            return None;
        }
        self.left -= 1;
        let item = self.lister.copied();
        self.waits = item.is_err();
        Some(item)
    }
}

//! The vectors of a lister of roommates, one after another.

use sm_answer_vectors::Vectors;
use sm_room_list::RoomLister;
use std::alloc::AllocError;

/// The vectors of a lister of roommates.
#[derive(Drop)]
pub struct RoomListed(pub(crate) RoomLister);

impl Vectors for RoomListed {
    ghost use Rattle.sm_lists.specs.Rows.{agents};
    ghost use Rattle.sm_room_list.specs.RoomVectors.{IsRoomVector};

    ghost order = { λ s. agents s.0.rows };

    ghost is_one = { λ s v. IsRoomVector s.0.rows v };

    ghost cursor = { λ s. s.0.cursor };

    ghost here = { λ s. s.0.here };

    fn advance(&mut self) -> Result<bool, AllocError> {
        self.0.advance()
    }

    fn current(&self) -> &[u32] {
        self.0.current()
    }
}

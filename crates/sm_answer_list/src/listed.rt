//! The vectors of a lister, one after another.

use sm_answer_vectors::Vectors;
use sm_lister::Lister;
use std::alloc::AllocError;

/// The vectors of a lister. No step takes memory.
#[derive(Drop)]
pub struct Listed(pub(crate) Lister);

impl Vectors for Listed {
    ghost use Rattle.sm_lister.specs.Listers.{IsListed};

    ghost order = { λ s. s.0.order };

    ghost is_one = { λ s v. IsListed s.0 v };

    ghost cursor = { λ s. s.0.cursor };

    ghost here = { λ s. s.0.here };

    fn advance(&mut self) -> Result<bool, AllocError> {
        Ok(self.0.advance())
    }

    fn current(&self) -> &[u32] {
        self.0.current()
    }
}

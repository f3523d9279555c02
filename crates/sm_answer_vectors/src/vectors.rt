//! Vectors that come one after another.

use std::alloc::AllocError;

/// Vectors of numbers that come one after another, in a rising order, from a cursor on.
pub trait Vectors {
    ghost use Rattle.std.specs.Prelude.{◌≡◌, ℕ, Bool, true, false, List, Option, Some, IfOk};
    ghost use Rattle.sm_answer_vectors.specs.Stepping.{AreSameVectors, HasStepped, IsLast};

    /// Two vectors are compared at the first of these numbers' places at which they differ.
    ghost order: { Self → List ℕ };

    /// These vectors are in question.
    ghost is_one: { Self → List ℕ → Type 0 };

    /// The vector that was reached last, or the one behind which they come, if there is one.
    ghost cursor: { Self → Option (List ℕ) };

    /// Whether the last step reached a vector.
    ghost here: { Self → Bool };

    /// Goes to the next vector behind the cursor. False exactly where there is none, and then the cursor stays.
    ///
    /// # Errors
    ///
    /// `AllocError` where memory ran out, and only then. Nothing is said then of where it stands.
    fn advance(&mut self) -> Result<bool, AllocError>
        ensures same { AreSameVectors (order self.old) (order self.new) (is_one self.old)
            (is_one self.new) }
        ensures next { IfOk result (λ found. found ≡ true
            → HasStepped (order self.old) (is_one self.old) (cursor self.old) (cursor self.new)) }
        ensures none { IfOk result (λ found. found ≡ false
            → IsLast (order self.old) (is_one self.old) (cursor self.old)
            × (cursor self.new ≡ cursor self.old)) }
        ensures here { IfOk result (λ found. here self.new ≡ found) };

    /// The vector that the last step reached. It has to have reached one. Takes no memory.
    fn current(&self) -> &[u32]
        requires { here self.now ≡ true }
        ensures { cursor self.now ≡ Some result.now };
}

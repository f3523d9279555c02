//! Texts as keys of a set.

use std::hash::{Hash, Hasher};

/// A text as a key of a set, by its bytes alone. All of them are hashed at once, where a slice is hashed byte by byte.
#[derive(Clone, Copy)]
pub struct TextKey<'a> {
    /// The text.
    pub text: &'a [u8],
}

impl<'a> PartialEq for TextKey<'a> {
    ghost use Rattle.std.specs.Prelude.{nat_eq};
    ghost use Rattle.std.specs.Cmp.{partial_equiv_from_equiv, on_per};
    ghost use Rattle.std.specs.Cmp.Lexicographic.{pointwise, nat_list_eq_equiv};
    ghost use Rattle.sm_keys.specs.Keys.{spelled};

    ghost eq = { λ a b. pointwise nat_eq (spelled a) (spelled b) };

    ghost laws = { on_per spelled (partial_equiv_from_equiv nat_list_eq_equiv) };

    fn eq(&self, other: &TextKey<'a>) -> bool {
        self.text == other.text
    }
}

impl<'a> Eq for TextKey<'a> {
    ghost use Rattle.std.specs.Cmp.{on_equiv};
    ghost use Rattle.std.specs.Cmp.Lexicographic.{nat_list_eq_equiv};
    ghost use Rattle.sm_keys.specs.Keys.{spelled};

    ghost laws = { on_equiv spelled nat_list_eq_equiv };
}

impl<'a> Hash for TextKey<'a> {
    ghost use Rattle.std.specs.Prelude.{◌∷◌, []};
    ghost use Rattle.std.specs.Cmp.Rules.{hashing};
    ghost use Rattle.std.proofs.Common.{rules};
    ghost use Rattle.sm_keys.specs.Keys.{spelled};

    ghost hash_input = { λ key. spelled key ∷ [] };

    ghost respects_eq = { Prim.search (hashing, rules) };

    fn hash<H: Hasher>(&self, state: &mut H) {
        state.write(self.text);
    }
}

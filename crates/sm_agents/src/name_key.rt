//! Names as keys of a set.

ghost use Rattle.std.specs.Prelude.{◌≡◌, ◌∷◌, [], nat_eq, IfOk};
ghost use Rattle.std.specs.Cmp.{partial_equiv_from_equiv, on_per, on_equiv};
ghost use Rattle.std.specs.Cmp.Lexicographic.{pointwise, bytes_decides, nat_list_eq_equiv};
ghost use Rattle.std.specs.Cmp.Rules.{hashing};
ghost use Rattle.std.specs.Str.{bytes_eq};
ghost use Rattle.std.proofs.Common.{rules, ap};
ghost use Rattle.sm_agents.specs.NameKeys.{text_of, name_of};

use indexmap::Equivalent;
use smallvec::SmallVec;
use std::alloc::{AllocError, Global};
use std::hash::{Hash, Hasher};

/// A name as a key of a set, with no memory of its own where it has at most 16 bytes, as most names have. All its bytes are
/// hashed at once, where a vector is hashed byte by byte.
#[derive(Drop)]
pub(crate) struct NameKey {
    text: SmallVec<u8, 16>,
}

impl NameKey {
    /// This name.
    pub(crate) fn of(alloc: Global, name: &[u8]) -> Result<NameKey, AllocError>
        ensures { IfOk result (λ key. text_of key ≡ name.now) }
    {
        let text = SmallVec::from_slice(alloc, name)?;
        Ok(NameKey { text })
    }

    /// Is it this name?
    pub(crate) fn is(&self, name: &[u8]) -> bool
        ensures { result ≡ bytes_eq name.now (text_of self.now) }
    {
        name == self.text.as_slice()
    }
}

impl PartialEq for NameKey {
    ghost eq = { λ a b. pointwise nat_eq (text_of a) (text_of b) };

    ghost laws = { on_per text_of (partial_equiv_from_equiv nat_list_eq_equiv) };

    fn eq(&self, other: &NameKey) -> bool {
        self.text.as_slice() == other.text.as_slice()
    }
}

impl Eq for NameKey {
    ghost laws = { on_equiv text_of nat_list_eq_equiv };
}

impl Hash for NameKey {
    ghost hash_input = { λ key. text_of key ∷ [] };

    ghost respects_eq = { Prim.search (hashing, rules) };

    fn hash<H: Hasher>(&self, state: &mut H) {
        state.write(self.text.as_slice());
    }
}

/// A name that is looked for among such keys.
#[derive(Clone, Copy)]
pub(crate) struct Sought<'a> {
    pub(crate) name: &'a [u8],
}

impl<'a> PartialEq for Sought<'a> {
    ghost eq = { λ a b. pointwise nat_eq (name_of a) (name_of b) };

    ghost laws = { on_per name_of (partial_equiv_from_equiv nat_list_eq_equiv) };

    fn eq(&self, other: &Sought<'a>) -> bool {
        self.name == other.name
    }
}

impl<'a> Eq for Sought<'a> {
    ghost laws = { on_equiv name_of nat_list_eq_equiv };
}

impl<'a> Hash for Sought<'a> {
    ghost hash_input = { λ sought. name_of sought ∷ [] };

    ghost respects_eq = { Prim.search (hashing, rules) };

    fn hash<H: Hasher>(&self, state: &mut H) {
        state.write(self.name);
    }
}

impl<'a> Equivalent<NameKey> for Sought<'a> {
    ghost equivalent = { λ sought key. pointwise nat_eq (name_of sought) (text_of key) };

    ghost respects_hash = { λ sought key h. ap (λ text. text ∷ []) ((bytes_decides (name_of sought) (text_of key)).0 h) };

    ghost respects_eq = { λ sought x y. nat_list_eq_equiv.congr (name_of sought) (text_of x) (text_of y) };

    fn equivalent(&self, key: &NameKey) -> bool {
        self.name == key.text.as_slice()
    }
}

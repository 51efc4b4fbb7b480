//! Names as keys of a table.

ghost use Rattle.std.specs.Prelude.{◌≡◌, [], ◌∷◌};
ghost use Rattle.std.specs.Cmp.{partial_equiv_from_equiv, on_per, on_equiv};
ghost use Rattle.std.specs.Cmp.Lexicographic.{nat_list_eq_equiv};
ghost use Rattle.std.specs.Str.{bytes_eq};
ghost use Rattle.std.proofs.Common.{ap};
ghost use Rattle.std.proofs.lemmas.Slice.Eq.{bytes_eq-Decides};

use std::hash::{Hash, Hasher};
use std::marker::Model;

/// The bytes of a name, as a key of a table. A hasher gets them in one call, and so takes many at once.
#[derive(Drop)]
pub struct NameKey<'a> {
    /// Borrowed, so a look-up takes no memory.
    bytes: &'a [u8],
}

impl<'a> Model for NameKey<'a> {
    ghost use Rattle.std.specs.Prelude.{List, ℕ};
    ghost use Rattle.std.specs.Borrow.{Bor};

    ghost Value = { Bor (List ℕ) };

    ghost view = { λ key. key.bytes };
}

impl<'a> NameKey<'a> {
    /// The key of these bytes.
    pub fn new(bytes: &'a [u8]) -> NameKey<'a>
        ensures { result.now ≡ bytes.now }
    {
        NameKey { bytes }
    }
}

impl<'a> PartialEq for NameKey<'a> {
    ghost eq = { λ x y. bytes_eq x.now y.now };

    ghost laws = { on_per (λ x. x.now) (partial_equiv_from_equiv nat_list_eq_equiv) };

    fn eq(&self, other: &NameKey<'a>) -> bool {
        self.bytes == other.bytes
    }
}

impl<'a> Eq for NameKey<'a> {
    ghost laws = { on_equiv (λ x. x.now) nat_list_eq_equiv };
}

impl<'a> Hash for NameKey<'a> {
    ghost hash_input = { λ x. x.now ∷ [] };

    ghost respects_eq = { λ x y same. ap (λ bytes. bytes ∷ []) ((bytes_eq-Decides x.now y.now).0 same) };

    fn hash<H: Hasher>(&self, state: &mut H) {
        state.write(self.bytes);
    }
}

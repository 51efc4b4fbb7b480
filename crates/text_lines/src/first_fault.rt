//! Laws of the first fault of a list.
//!
//! A law's body is empty, or calls other laws: what it says is proved in the folder of its name in `proofs/first_fault`, or needs no
//! answer. Who calls it has what it says in proofs; the call does nothing when run.

ghost use Rattle.std.specs.Prelude.{◌≡◌, ℕ, List, Option, ◌⊎◌};
ghost use Rattle.text_lines.specs.FirstFault.{IsFaultless, IsFirstFault};

/// A list has at most one first fault.
pub fn one_first_fault<A, F>()
    ensures { (fault : List A → A → Option F) (items : List A) (p q : ℕ) (f g : F) →
        IsFirstFault fault items p f → IsFirstFault fault items q g → (p ≡ q) × (f ≡ g) }
{}

/// A list with a first fault is not faultless.
pub fn never_faulty_and_faultless<A, F>()
    ensures { (fault : List A → A → Option F) (items : List A) (place : ℕ) (found : F) →
        IsFirstFault fault items place found → IsFaultless fault items → ⊥ }
{}

/// Each list is faultless or has a first fault.
pub fn faultless_or_faulty<A, F>()
    ensures { (fault : List A → A → Option F) (items : List A) →
        IsFaultless fault items ⊎ ((place : ℕ) × (found : F) × IsFirstFault fault items place found) }
{}

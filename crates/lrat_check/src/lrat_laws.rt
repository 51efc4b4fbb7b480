//! Laws of a derivation's text.
//!
//! A law's body is empty, or calls other laws: what it says is proved in the folder of its name in `proofs/lrat_laws`, or needs no
//! answer. Who calls it has what it says in proofs; the call does nothing when run.
//!
//! No function calls those of this file. They are for readers of two contracts: by the definitions in that of `read_lrat` each text has one derivation or
//! one first fault, and never both; and the text in that of `write_lrat` spells the steps that were written.

ghost use Rattle.std.specs.Prelude.{◌≡◌, ◌⊎◌, ℕ, List, true};
ghost use Rattle.std.specs.List.{list_all};
ghost use Rattle.lrat_check.specs.LratFaults.{HasLratFault};
ghost use Rattle.lrat_check.specs.LratText.{SpellsDerivation, is_lrat_step};
ghost use Rattle.lrat_check.specs.LratWritten.{canonical_derivation};
ghost use Rattle.lrat_check.specs.declared.derivation.Step.{Step};
ghost use Rattle.lrat_check.specs.declared.lrat_fault.LratCause.{LratCause};

/// A text spells at most one derivation.
pub fn one_derivation()
    ensures { (text : List ℕ) (m n : List Step) → SpellsDerivation text m → SpellsDerivation text n → m ≡ n }
{}

/// A text has at most one first fault.
pub fn one_lrat_fault()
    ensures { (text : List ℕ) (c d : LratCause) (p q : ℕ) → HasLratFault text c p → HasLratFault text d q → (c ≡ d) × (p ≡ q) }
{}

/// A text that spells a derivation has no fault.
pub fn never_spelled_and_faulty()
    ensures { (text : List ℕ) (steps : List Step) (cause : LratCause) (line : ℕ) →
        SpellsDerivation text steps → HasLratFault text cause line → ⊥ }
{}

/// Each text spells a derivation or has a first fault.
pub fn spelled_or_faulty()
    ensures { (text : List ℕ) →
        ((steps : List Step) × SpellsDerivation text steps) ⊎ ((cause : LratCause) × (line : ℕ) × HasLratFault text cause line) }
{}

/// The canonical text of steps that can be written spells them.
pub fn canonical_spells()
    ensures { (steps : List Step) → list_all is_lrat_step steps ≡ true → SpellsDerivation (canonical_derivation steps) steps }
{}

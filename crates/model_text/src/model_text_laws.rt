//! Laws of the text of a solver's answer.
//!
//! A law's body is empty, or calls other laws: what it says is proved in the folder of its name in `proofs/model_text_laws`, or needs no
//! answer. Who calls it has what it says in proofs; the call does nothing when run. Proofs give it its premises in the order in which
//! they stand, so another order changes each of these proofs.

ghost use Rattle.std.specs.Prelude.{◌≡◌, ◌⊎◌, ℕ, Bool, List};
ghost use Rattle.dimacs.specs.Assignment.{value_of};
ghost use Rattle.model_text.specs.ModelFirstFault.{HasModelFault};
ghost use Rattle.model_text.specs.ModelText.{SpellsModel};
ghost use Rattle.model_text.specs.declared.model_fault.ModelCause.{ModelCause};

/// A text spells one assignment at most: the same truth value for each variable.
pub fn one_model()
    ensures { (text : List ℕ) (first second : List Bool) → SpellsModel text first → SpellsModel text second →
        (n : ℕ) → value_of first n ≡ value_of second n }
{}

/// A text has at most one first fault.
pub fn one_model_fault()
    ensures { (text : List ℕ) (c d : ModelCause) (p q : ℕ) → HasModelFault text c p → HasModelFault text d q → (c ≡ d) × (p ≡ q) }
{}

/// A text that spells an assignment has no fault.
pub fn never_model_and_fault()
    ensures { (text : List ℕ) (values : List Bool) (cause : ModelCause) (line : ℕ) →
        SpellsModel text values → HasModelFault text cause line → ⊥ }
{}

/// Each text spells an assignment or has a first fault.
pub fn model_spelled_or_faulty()
    ensures { (text : List ℕ) →
        ((values : List Bool) × SpellsModel text values) ⊎ ((cause : ModelCause) × (line : ℕ) × HasModelFault text cause line) }
{}

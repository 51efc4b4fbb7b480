//! Laws of a formula's text.
//!
//! A law's body is empty, or calls other laws: what it says is proved in the folder of its name in `proofs/cnf_laws`, or needs no
//! answer. Who calls it has what it says in proofs; the call does nothing when run.

ghost use Rattle.std.specs.Prelude.{◌≡◌, ◌≤◌, ◌⊎◌, ℕ, List, length, true};
ghost use Rattle.cnf_text.specs.declared.cnf_fault.CnfCause.{CnfCause};
ghost use Rattle.cnf_text.specs.CnfReading.{SpellsCnf, HasCnfFault};
ghost use Rattle.dimacs.specs.CnfText.{cnf_text};
ghost use Rattle.dimacs.specs.Formula.{FormulaValue, is_formula};
ghost use Rattle.dimacs.specs.Literal.{most_variable};

/// A text spells at most one formula.
pub fn one_formula()
    ensures { (text : List ℕ) (f g : FormulaValue) → SpellsCnf text f → SpellsCnf text g → f ≡ g }
{}

/// A text has at most one first fault.
pub fn one_cnf_fault()
    ensures { (text : List ℕ) (c d : CnfCause) (p q : ℕ) → HasCnfFault text c p → HasCnfFault text d q → (c ≡ d) × (p ≡ q) }
{}

/// A text that spells a formula has no fault.
pub fn never_spelled_and_faulty()
    ensures { (text : List ℕ) (f : FormulaValue) (cause : CnfCause) (line : ℕ) → SpellsCnf text f → HasCnfFault text cause line → ⊥ }
{}

/// Each text spells a formula or has a first fault.
pub fn spelled_or_faulty()
    ensures { (text : List ℕ) → ((f : FormulaValue) × SpellsCnf text f) ⊎ ((cause : CnfCause) × (line : ℕ) × HasCnfFault text cause line) }
{}

/// The text that is written of a formula spells it if its counts are those of a header.
pub fn written_spells()
    ensures { (f : FormulaValue) → is_formula f ≡ true → f.variables ≤ most_variable → length f.clauses ≤ 16777216 → SpellsCnf (cnf_text f) f }
{}

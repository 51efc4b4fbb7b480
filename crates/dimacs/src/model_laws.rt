//! Laws of models and of first false clauses.
//!
//! A law's body is empty, or calls other laws: what it says is proved in the folder of its name in `proofs/model_laws`, or needs no
//! answer. Who calls it has what it says in proofs; the call does nothing when run.
//!
//! No function calls these. They are for a reader of the contracts of `Formula::eval` and `ClauseList::eval`, which answer that values are a model, or
//! give the first clause that they make false: exactly one such answer is right.

ghost use Rattle.std.specs.Prelude.{◌≡◌, ◌⊎◌, ℕ, ℤ, Bool, List};
ghost use Rattle.dimacs.specs.Models.{IsModel, IsFirstFalse};

/// A model has no first false clause.
pub fn never_model_and_first_false()
    ensures { (value : ℕ → Bool) (clauses : List (List ℤ)) (place : ℕ) → IsModel value clauses → IsFirstFalse value clauses place → ⊥ }
{}

/// Truth values are a model or have a first false clause.
pub fn model_or_first_false()
    ensures { (value : ℕ → Bool) (clauses : List (List ℤ)) → IsModel value clauses ⊎ ((place : ℕ) × IsFirstFalse value clauses place) }
{}

/// Truth values have at most one first false clause.
pub fn one_first_false()
    ensures { (value : ℕ → Bool) (clauses : List (List ℤ)) (p q : ℕ) → IsFirstFalse value clauses p → IsFirstFalse value clauses q → p ≡ q }
{}

//! Laws of derivations: what an accepted one shows, and that each is accepted or refused in one way.
//!
//! A law's body is empty, or calls other laws: what it says is proved in the folder of its name in `proofs/laws`, or needs no
//! answer. Who calls it has what it says in proofs; the call does nothing when run.

ghost use Rattle.std.specs.Prelude.{◌≡◌, ◌⊎◌, ℕ, ℤ, Bool, true, List, Option, length};
ghost use Rattle.std.specs.List.{list_all};
ghost use Rattle.dimacs.specs.Assignment.{makes_some};
ghost use Rattle.dimacs.specs.Models.{HasNoModelIn};
ghost use Rattle.lrat_check.specs.Active.{after};
ghost use Rattle.lrat_check.specs.Checked.{IsRight, IsAccepted, IsRefused};
ghost use Rattle.lrat_check.specs.Derivation.{is_step, are_steps};
ghost use Rattle.lrat_check.specs.Justified.{IsImplied};
ghost use Rattle.lrat_check.specs.OtherCubes.{AreServed};
ghost use Rattle.lrat_check.specs.Sound.{has_no_zero, HaveNoZero, Satisfies, HasModel};
ghost use Rattle.lrat_check.specs.declared.derivation.Step.{Step};
ghost use Rattle.lrat_check.specs.declared.refusal.StepFault.{StepFault};

/// A clause that its first hints imply follows from the active ones: truth values that satisfy them make one of its literals
/// true.
pub fn implied_follows()
    ensures { (active : ℕ → Option (List ℤ)) (clause hints : List ℤ) → HaveNoZero active → has_no_zero clause ≡ true →
        IsImplied active clause hints → (value : ℕ → Bool) → Satisfies value active → makes_some value clause ≡ true }
{}

/// After a step that may be taken, the active clauses have a model if they had one before.
pub fn step_keeps_models()
    ensures { (active : ℕ → Option (List ℤ)) (step : Step) → HaveNoZero active → is_step step ≡ true → IsRight active step →
        HasModel active → HasModel (after active step) }
{}

/// If a derivation is accepted, no model of the clauses makes all literals of the cube true.
pub fn accepted_has_no_model()
    ensures { (clauses : List (List ℤ)) (cube : List ℤ) (steps : List Step) → list_all has_no_zero clauses ≡ true → has_no_zero cube ≡ true →
        are_steps steps ≡ true → IsAccepted clauses cube steps → HasNoModelIn clauses cube }
{}

/// A derivation has at most one refusal.
pub fn one_refusal()
    ensures { (clauses : List (List ℤ)) (cube : List ℤ) (steps : List Step) (f g : StepFault) (p q : ℕ) →
        IsRefused clauses cube steps f p → IsRefused clauses cube steps g q → (f ≡ g) × (p ≡ q) }
{}

/// A derivation that is accepted is not refused.
pub fn never_accepted_and_refused()
    ensures { (clauses : List (List ℤ)) (cube : List ℤ) (steps : List Step) (fault : StepFault) (place : ℕ) →
        IsAccepted clauses cube steps → IsRefused clauses cube steps fault place → ⊥ }
{}

/// Each derivation is accepted or refused.
pub fn accepted_or_refused()
    ensures { (clauses : List (List ℤ)) (cube : List ℤ) (steps : List Step) →
        IsAccepted clauses cube steps ⊎ ((fault : StepFault) × (place : ℕ) × IsRefused clauses cube steps fault place) }
{}

/// A derivation that is accepted for one cube, and does not need it in place of a second, is accepted for the second. It does not need it if both
/// are equally long, no step names the id of a literal of the cube, and none adds a clause whose first literal is negated in the second cube alone.
pub fn accepted_for_other_cubes()
    ensures { (clauses : List (List ℤ)) (first second : List ℤ) (steps : List Step) →
        AreServed (length clauses) first second steps → IsAccepted clauses first steps → IsAccepted clauses second steps }
{}

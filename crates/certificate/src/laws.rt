//! Laws of certificates: what an accepted one shows, that each is accepted or refused in one way, and when one is accepted.
//!
//! A law's body is empty, or calls other laws: what it says is proved in the folder of its name in `proofs/laws`, or needs no
//! answer. Who calls it has what it says in proofs; the call does nothing when run.

ghost use Rattle.std.specs.Prelude.{◌≡◌, ◌⊎◌, ℕ, ℤ, Bool, List, IsTrue};
ghost use Rattle.std.specs.List.{AllZip};
ghost use Rattle.cube_tree.specs.CubeTree.{CubeTree, leaves, splits_variables, cubes_of};
ghost use Rattle.dimacs.specs.Formula.{FormulaValue, is_formula};
ghost use Rattle.dimacs.specs.Models.{IsModel};
ghost use Rattle.lrat_check.specs.Checked.{IsAccepted};
ghost use Rattle.lrat_check.specs.declared.derivation.Step.{Step};
ghost use Rattle.certificate.specs.CertWritten.{certificate_of};
ghost use Rattle.certificate.specs.Rechecked.{IsRechecked, HasRecheckFault, are_sections_of_clauses};
ghost use Rattle.certificate.specs.declared.cert_fault.CertCause.{CertCause};
ghost use Rattle.certificate.specs.declared.certificate.Certificate.{Certificate};

/// If a certificate is accepted, the formula has no model.
pub fn accepted_has_no_model()
    ensures { (formula : FormulaValue) (certificate : Certificate) (count : ℕ) →
        IsTrue (is_formula formula) → IsTrue (splits_variables certificate.tree) → IsTrue (are_sections_of_clauses certificate.sections) →
        IsRechecked formula.clauses certificate count → (value : ℕ → Bool) → IsModel value formula.clauses → ⊥ }
{}

/// A certificate that is accepted is not refused.
pub fn never_accepted_and_refused()
    ensures { (clauses : List (List ℤ)) (certificate : Certificate) (count : ℕ) (cause : CertCause) (leaf : ℕ) →
        IsRechecked clauses certificate count → HasRecheckFault clauses certificate cause leaf → ⊥ }
{}

/// A certificate has at most one refusal.
pub fn one_refusal()
    ensures { (clauses : List (List ℤ)) (certificate : Certificate) (c d : CertCause) (j k : ℕ) →
        HasRecheckFault clauses certificate c j → HasRecheckFault clauses certificate d k → (c ≡ d) × (j ≡ k) }
{}

/// Each certificate is accepted or refused.
pub fn accepted_or_refused()
    ensures { (clauses : List (List ℤ)) (certificate : Certificate) →
        ((count : ℕ) × IsRechecked clauses certificate count) ⊎ ((cause : CertCause) × (leaf : ℕ) × HasRecheckFault clauses certificate cause leaf) }
{}

/// A tree with a derivation for each of its leaves, in their order, each of which is accepted for its leaf's cube, is a certificate that
/// is accepted.
pub fn proofs_are_accepted()
    ensures { (clauses : List (List ℤ)) (tree : CubeTree) (derivations : List (List Step)) →
        AllZip (IsAccepted clauses) (cubes_of tree) derivations → IsRechecked clauses (certificate_of tree derivations) (leaves tree) }
{}

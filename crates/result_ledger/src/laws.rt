//! Laws of verdicts.
//!
//! A law's body is empty, or calls other laws: what it says is proved in the folder of its name in `proofs/laws`, or needs no
//! answer. Who calls it has what it says in proofs; the call does nothing when run.

ghost use Rattle.std.specs.Prelude.{◌≡◌, ◌↔◌, ◌<◌, ℕ, ℤ, Bool, List, IsTrue, Some, IsPermutation};
ghost use Rattle.std.specs.List.{AllZip, list_all, Contains, slice_get};
ghost use Rattle.cube_jobs.specs.Models.{IsModelIn};
ghost use Rattle.cube_tree.specs.Covers.{Covers};
ghost use Rattle.cube_tree.specs.CubeTree.{CubeTree, leaves, cubes_of, with_split};
ghost use Rattle.dimacs.specs.Formula.{FormulaValue, is_formula};
ghost use Rattle.dimacs.specs.Literal.{is_clause};
ghost use Rattle.dimacs.specs.Models.{IsModel};
ghost use Rattle.cube_jobs.specs.declared.job.Settled.{Settled};
ghost use Rattle.cube_jobs.specs.declared.outcome.Outcome.TheVariants.{Skipped};
ghost use Rattle.cube_jobs.specs.Results.{AreResultsOf};
ghost use Rattle.result_ledger.specs.Entered.{AreEntered, AreEnteredInTurn};
ghost use Rattle.result_ledger.specs.Ledger.{cubes_in, derivations_in, SplitsCube};
ghost use Rattle.result_ledger.specs.Verdict.{IsProofIn, IsVerdict, IsConsistentBelow, AgreeUpToModel};
ghost use Rattle.result_ledger.specs.declared.slot.Slot.{Slot};
ghost use Rattle.result_ledger.specs.declared.verdict.Verdict.{Verdict};
ghost use Rattle.result_ledger.specs.declared.verdict.Verdict.TheVariants.{Inconsistent, Unknown};

/// The verdict is a function of the answers by leaf: ledgers that agree up to the lowest leaf that has a model for its answer,
/// and at all leaves where none has, have the same verdict. So the order in which answers arrive changes nothing.
pub fn agreeing_ledgers_agree()
    ensures { (clauses : List (List ℤ)) (first second : List Slot) (one other : Verdict) →
        AgreeUpToModel clauses first second → IsVerdict clauses first one → IsVerdict clauses second other → one ≡ other }
{}

/// Results that are entered one after the other may as well be entered in any other order: each of them is then taken too, and the
/// ledger is the same.
pub fn entered_in_either_order()
    ensures { (slots ledger : List Slot) (results reordered : List Settled) → AreEnteredInTurn slots results ledger → IsPermutation results reordered →
        AreEnteredInTurn slots reordered ledger }
{}

/// Results are entered one after the other if and only if each is in the slot of its leaf, which was empty, and no other slot has changed.
/// So what is said of the one, as that the order changes nothing, holds of the other.
pub fn entered_in_turn_is_entered()
    ensures { (slots ledger : List Slot) (results : List Settled) → AreEnteredInTurn slots results ledger ↔ AreEntered slots results ledger }
{}

/// If all results of a search were entered and one of them is of a leaf that was skipped, the verdict is a model in the cube of a lower
/// leaf.
pub fn skipped_only_above_a_model()
    ensures { (clauses cubes : List (List ℤ)) (which : List ℕ) (results : List Settled) (old new : List Slot) (skipped : Settled) (verdict : Verdict) →
        AreResultsOf clauses cubes which results → AreEntered old results new → Contains results skipped → skipped.outcome ≡ Skipped →
        IsVerdict clauses new verdict → IsConsistentBelow skipped.ticket verdict }
{}

/// If the cubes cover and the verdict is that the formula is inconsistent, it has no model.
pub fn inconsistent_has_no_model()
    ensures { (formula : FormulaValue) (slots : List Slot) (count : ℕ) →
        IsTrue (is_formula formula) → IsTrue (list_all is_clause (cubes_in slots)) → Covers (cubes_in slots) →
        IsVerdict formula.clauses slots (Inconsistent count) → (value : ℕ → Bool) → IsModel value formula.clauses → ⊥ }
{}

/// If the verdict is that the formula is inconsistent, the derivations among the answers are one for the cube of each leaf, in the order of
/// the leaves, and each can be written and is accepted for its cube.
pub fn proofs_by_leaf()
    ensures { (clauses : List (List ℤ)) (slots : List Slot) (count : ℕ) →
        IsVerdict clauses slots (Inconsistent count) → AllZip (IsProofIn clauses) (cubes_in slots) (derivations_in slots) }
{}

/// If the cubes cover and the verdict is open, each model of the formula makes all literals of some listed leaf's cube true.
pub fn unknown_holds_all_models()
    ensures { (formula : FormulaValue) (slots : List Slot) (leaves : List ℕ) →
        IsTrue (is_formula formula) → IsTrue (list_all is_clause (cubes_in slots)) → Covers (cubes_in slots) →
        IsVerdict formula.clauses slots (Unknown leaves) → (value : ℕ → Bool) → IsModel value formula.clauses →
        (leaf : ℕ) × (slot : Slot) × Contains leaves leaf × (slice_get slots leaf ≡ Some slot) × IsModelIn formula.clauses slot.cube value }
{}

/// A tree whose leaf was split has the cubes of the tree before with that leaf's cube replaced by two, as `Ledger::split` asks.
pub fn split_tree_splits_a_cube()
    ensures { (tree : CubeTree) (leaf variable : ℕ) → leaf < leaves tree → SplitsCube leaf (cubes_of tree) (cubes_of (with_split leaf variable tree)) }
{}

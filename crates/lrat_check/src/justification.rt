//! Whether a clause may be added: it follows by unit propagation along its hints (RUP), or it is RAT on its first
//! literal (Järvisalo, Heule, Biere 2012).

ghost use Rattle.std.specs.Prelude.{◌≡◌, [], ℕ, ℤ, List, Option, MatchResult};
ghost use Rattle.lrat_check.specs.ClauseAt.{clause_at};
ghost use Rattle.lrat_check.specs.Counted.{AreFormulaCounts, HasRightChanges};
ghost use Rattle.lrat_check.specs.Hints.{groups_of};
ghost use Rattle.lrat_check.specs.Justified.{IsJustified, IsUnjustified};
ghost use Rattle.lrat_check.specs.Rat.{IsRat, IsNoRat, missing};
ghost use Rattle.text_lines.specs.Fault.{IsRefusalAt};

use crate::counted_clauses::CountedClauses;
use crate::formula_counts::FormulaCounts;
use crate::groups::{check_candidates, has_all};
use crate::hint_groups::cut_group;
use crate::propagation::is_implied;
use crate::refusal::{Refusal, StepFault};
use crate::true_literals::TrueLiterals;
use dimacs::{ClauseList, Lit};
use std::alloc::Global;

/// What the check of a step is given, and does not change.
#[derive(Drop)]
pub struct StepRun<'a, F> {
    /// Where memory is taken.
    pub alloc: Global,
    /// The formula against which the derivation is checked.
    pub formula: &'a F,
    /// The number of the step, counted from 1, which a refusal names.
    pub number: usize,
}

/// Gives what is wrong with an empty clause whose first hints lead to no conflict.
fn without_pivot(hints: &[i64]) -> StepFault
    ensures { (active : ℕ → Option (List ℤ)) (reached : List ℤ) → IsNoRat active [] (groups_of hints.now) reached result }
{
    match cut_group(hints) {
        Some(_) => StepFault::NoPivot,
        None => StepFault::NoConflict,
    }
}

/// Gives what is wrong if an active clause that holds the pivot's negation has no group. Without any group the step was not meant as RAT, and
/// it is called `NoConflict`.
fn without_group(hints: &[i64]) -> StepFault
    ensures { result ≡ missing (groups_of hints.now) }
{
    match cut_group(hints) {
        Some(_) => StepFault::GroupMissing,
        None => StepFault::NoConflict,
    }
}

/// Checks that the clause is RAT on its first literal by the groups among the hints, if its first hints lead to no conflict. The groups that
/// there are come first, and only then whether one is missing, as the contract has the faults in order; a step that fails earlier needs no
/// counts.
fn check_rat<F: ClauseList>(
    run: &StepRun<'_, F>,
    counts: &mut FormulaCounts,
    active: &mut CountedClauses,
    trues: &mut TrueLiterals,
    clause: &[Lit],
    hints: &[i64],
) -> Result<(), Refusal>
    ensures same { active.new.clauses ≡ active.old.clauses }
    ensures formula { AreFormulaCounts (F.formula run.now.formula.now).clauses counts.old → AreFormulaCounts (F.formula run.now.formula.now).clauses counts.new }
    ensures counted { HasRightChanges (F.formula run.now.formula.now).clauses active.old → HasRightChanges (F.formula run.now.formula.now).clauses active.new }
    ensures rat { AreFormulaCounts (F.formula run.now.formula.now).clauses counts.old → HasRightChanges (F.formula run.now.formula.now).clauses active.old → MatchResult result
        (λ _. IsRat (clause_at (F.formula run.now.formula.now).clauses active.old.clauses) clause.now (groups_of hints.now) trues.old)
        (λ refusal. IsRefusalAt (λ fault. IsNoRat (clause_at (F.formula run.now.formula.now).clauses active.old.clauses) clause.now (groups_of hints.now) trues.old fault) run.now.number refusal) }
{
    if clause.is_empty() {
        return Err(Refusal::At(without_pivot(hints), run.number));
    }
    let pivot = clause[0];
    check_candidates(
        run.formula,
        &active.clauses,
        trues,
        pivot,
        hints,
        run.number,
    )?;
    let count = active.times_active(run.alloc, run.formula, counts, pivot.negated())?;
    if has_all(run.alloc, run.formula, &active.clauses, pivot, count, hints)? {
        Ok(())
    } else {
        Err(Refusal::At(without_group(hints), run.number))
    }
}

/// Checks that the clause of the step may be added. Propagation comes first, since almost all steps need no more.
pub fn justify<F: ClauseList>(
    run: &StepRun<'_, F>,
    counts: &mut FormulaCounts,
    active: &mut CountedClauses,
    trues: &mut TrueLiterals,
    clause: &[Lit],
    hints: &[i64],
) -> Result<(), Refusal>
    ensures same { active.new.clauses ≡ active.old.clauses }
    ensures formula { AreFormulaCounts (F.formula run.now.formula.now).clauses counts.old → AreFormulaCounts (F.formula run.now.formula.now).clauses counts.new }
    ensures counted { HasRightChanges (F.formula run.now.formula.now).clauses active.old → HasRightChanges (F.formula run.now.formula.now).clauses active.new }
    ensures justified { AreFormulaCounts (F.formula run.now.formula.now).clauses counts.old → HasRightChanges (F.formula run.now.formula.now).clauses active.old → MatchResult result
        (λ _. IsJustified (clause_at (F.formula run.now.formula.now).clauses active.old.clauses) clause.now hints.now)
        (λ refusal. IsRefusalAt (λ fault. IsUnjustified (clause_at (F.formula run.now.formula.now).clauses active.old.clauses) clause.now hints.now fault) run.now.number refusal) }
{
    if is_implied(
        run.formula,
        &active.clauses,
        trues,
        clause,
        hints,
        run.number,
    )? {
        return Ok(());
    }
    check_rat(run, counts, active, trues, clause, hints)
}

//! The checker of derivations.

ghost use Rattle.std.specs.Prelude.{◌≡◌, ℕ, IfOk, IfErr, MatchResult};
ghost use Rattle.lrat_check.specs.Active.{after};
ghost use Rattle.lrat_check.specs.Checked.{IsRight, IsWrong, ends, IsAccepted, IsRefused};
ghost use Rattle.lrat_check.specs.ClauseAt.{clause_at};
ghost use Rattle.lrat_check.specs.Counted.{AreFormulaCounts, HasRightChanges};
ghost use Rattle.dimacs.specs.Models.{HasNoModelIn};
ghost use Rattle.text_lines.specs.Fault.{IsRefusal, IsRefusalAt};

use crate::counted_clauses::CountedClauses;
use crate::derivation::{Derivation, Step};
use crate::formula_counts::FormulaCounts;
use crate::justification::{StepRun, justify};
use crate::refusal::{Refusal, StepFault};
use crate::true_literals::TrueLiterals;
use dimacs::{ClauseList, Lit, recall_literals};
use std::alloc::Global;

/// A derivation was accepted.
#[derive(Clone, Copy, Debug, PartialEq, Eq)]
pub struct Accepted;

/// Takes the step, whose hints go through the list `room`. Returns whether it adds the empty clause. A deletion may name ids of no
/// active clause: they are passed over.
pub(crate) fn take_step<'a, F: ClauseList>(
    run: &StepRun<'_, F>,
    counts: &mut FormulaCounts,
    active: &mut CountedClauses<'a>,
    trues: &mut TrueLiterals,
    room: &mut Vec<i64>,
    step: &'a Step,
) -> Result<bool, Refusal>
    ensures formula { AreFormulaCounts (F.formula run.now.formula.now).clauses counts.old → AreFormulaCounts (F.formula run.now.formula.now).clauses counts.new }
    ensures step { AreFormulaCounts (F.formula run.now.formula.now).clauses counts.old → HasRightChanges (F.formula run.now.formula.now).clauses active.old → MatchResult result
        (λ ended. IsRight (clause_at (F.formula run.now.formula.now).clauses active.old.clauses) step.now × (ended ≡ ends step.now) × ((id : ℕ) → clause_at (F.formula run.now.formula.now).clauses active.new.clauses id ≡ after (clause_at (F.formula run.now.formula.now).clauses active.old.clauses) step.now id) × HasRightChanges (F.formula run.now.formula.now).clauses active.new)
        (λ refusal. IsRefusalAt (λ fault. IsWrong (clause_at (F.formula run.now.formula.now).clauses active.old.clauses) step.now fault) run.now.number refusal) }
{
    match step {
        Step::Deletion { ids, .. } => {
            active.remove_all(run.formula, ids.as_slice())?;
            Ok(false)
        }
        Step::Addition {
            id,
            literals,
            hints,
        } => {
            if active.clauses.contains(run.formula, *id) {
                return Err(Refusal::At(StepFault::IdInUse, run.number));
            }
            hints.copy_to(room)?;
            justify(
                run,
                counts,
                active,
                trues,
                literals.as_slice(),
                room.as_slice(),
            )?;
            active.insert(run.formula, *id, literals)?;
            Ok(literals.as_slice().is_empty())
        }
    }
}

/// Checks as `check` does, where the counts of the formula's literals are shared by all derivations that are checked against it: they
/// are made at the first RAT step of all, and a derivation then costs what it touches itself. Steps after the first that adds the empty
/// clause are not looked at.
pub fn check_with<F: ClauseList>(
    alloc: Global,
    formula: &F,
    counts: &mut FormulaCounts,
    cube: &[Lit],
    derivation: &Derivation,
) -> Result<Accepted, Refusal>
    requires { AreFormulaCounts (F.formula formula.now).clauses counts.old }
    ensures formula { AreFormulaCounts (F.formula formula.now).clauses counts.new }
    ensures accepted { IfOk result (λ _. IsAccepted (F.formula formula.now).clauses cube.now derivation.now) }
    ensures sound { IfOk result (λ _. HasNoModelIn (F.formula formula.now).clauses cube.now) }
    ensures refused { IfErr result (λ refusal. IsRefusal (IsRefused (F.formula formula.now).clauses cube.now derivation.now) refusal) }
{
    formula.recall_invariant();
    recall_literals(cube);
    let mut active = CountedClauses::at_start(alloc, cube);
    let mut trues = TrueLiterals::new(alloc);
    let mut room = Vec::new(alloc);
    let steps = derivation.steps();
    for i in 0..steps.len() {
        let run = StepRun {
            alloc,
            formula,
            number: i + 1,
        };
        if take_step(&run, counts, &mut active, &mut trues, &mut room, &steps[i])? {
            return Ok(Accepted);
        }
    }
    Err(Refusal::At(StepFault::NoEmptyClause, steps.len() + 1))
}

/// Checks whether the derivation (LRAT, CADE 2017) shows that no model of the formula makes all literals of the cube
/// true. If not, the refusal names the first step that fails.
pub fn check<F: ClauseList>(
    alloc: Global,
    formula: &F,
    cube: &[Lit],
    derivation: &Derivation,
) -> Result<Accepted, Refusal>
    ensures accepted { IfOk result (λ _. IsAccepted (F.formula formula.now).clauses cube.now derivation.now) }
    ensures sound { IfOk result (λ _. HasNoModelIn (F.formula formula.now).clauses cube.now) }
    ensures refused { IfErr result (λ refusal. IsRefusal (IsRefused (F.formula formula.now).clauses cube.now derivation.now) refusal) }
{
    let mut counts = FormulaCounts::new();
    check_with(alloc, formula, &mut counts, cube, derivation)
}

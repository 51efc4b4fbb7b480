//! A derivation in pieces, so that several threads can check it side by side: whether a step is right depends on the clauses that are active, and
//! not on whether the steps before it are right.

ghost use Rattle.std.specs.Prelude.{◌≡◌, ◌≤◌, ◌<◌, ℕ, length, take, IfOk, OnOk, MatchBool};
ghost use Rattle.lrat_check.specs.Active.{after, at_start};
ghost use Rattle.lrat_check.specs.ClauseAt.{clause_at};
ghost use Rattle.lrat_check.specs.Counted.{HasRightChanges};
ghost use Rattle.lrat_check.specs.Pieces.{after_all, IsAcceptedFrom};

use crate::checker::take_step;
use crate::counted_clauses::CountedClauses;
use crate::derivation::{Derivation, Step};
use crate::formula_counts::FormulaCounts;
use crate::justification::StepRun;
use crate::refusal::Refusal;
use crate::true_literals::TrueLiterals;
use dimacs::{ClauseList, Lit};
use std::alloc::{AllocError, Global};

/// Takes a step that is not checked.
fn pass_step<'a, F: ClauseList>(
    formula: &F,
    active: &mut CountedClauses<'a>,
    step: &'a Step,
) -> Result<(), AllocError>
    ensures { OnOk result ((id : ℕ) → clause_at (F.formula formula.now).clauses active.new.clauses id ≡ after (clause_at (F.formula formula.now).clauses active.old.clauses) step.now id) }
{
    match step {
        Step::Deletion { ids, .. } => active.remove_all(formula, ids.as_slice()),
        Step::Addition { id, literals, .. } => active.insert(formula, *id, literals),
    }
}

/// The clauses that are active after this number of steps.
fn active_after<'a, F: ClauseList>(
    alloc: Global,
    formula: &F,
    cube: &'a [Lit],
    steps: &'a [Step],
    count: usize,
) -> Result<CountedClauses<'a>, AllocError>
    requires { count ≤ length steps.now }
    ensures active { IfOk result (λ active. (id : ℕ) → clause_at (F.formula formula.now).clauses active.clauses id ≡ after_all (at_start (F.formula formula.now).clauses cube.now) (take count steps.now) id) }
    ensures counted { IfOk result (λ active. HasRightChanges (F.formula formula.now).clauses active) }
{
    let mut active = CountedClauses::at_start(alloc, cube);
    for i in 0..count {
        pass_step(&*formula, &mut active, &steps[i])?;
    }
    Ok(active.uncounted())
}

/// Checks the steps from the place `from` up to `to`, which is left out; those before are taken unchecked. Returns whether one of them adds the empty clause.
/// If so, the steps from `from` on are accepted; if not, they are if those from `to` on are. It refuses if a step of the piece is wrong, which the refusal
/// names, or if memory runs out.
pub fn check_piece<F: ClauseList>(
    alloc: Global,
    formula: &F,
    cube: &[Lit],
    derivation: &Derivation,
    from: usize,
    to: usize,
) -> Result<bool, Refusal>
    requires { (from ≤ to) × (to ≤ length derivation.now) }
    ensures { IfOk result (λ ended. MatchBool ended
        (IsAcceptedFrom (F.formula formula.now).clauses cube.now derivation.now from)
        (IsAcceptedFrom (F.formula formula.now).clauses cube.now derivation.now to → IsAcceptedFrom (F.formula formula.now).clauses cube.now derivation.now from)) }
{
    let steps = derivation.steps();
    let mut active = active_after(alloc, formula, cube, steps, from)?;
    let mut counts = FormulaCounts::new();
    let mut trues = TrueLiterals::new(alloc);
    let mut room = Vec::new(alloc);
    for i in from..to {
        let run = StepRun {
            alloc,
            formula,
            number: i + 1,
        };
        if take_step(
            &run,
            &mut counts,
            &mut active,
            &mut trues,
            &mut room,
            &steps[i],
        )? {
            return Ok(true);
        }
    }
    Ok(false)
}

//! Whether the answers of workers, which are claims, are right.
ghost use Rattle.std.specs.Prelude.{◌≡◌, ◌<◌, ◌↔◌, Bool, List, length, IsTrue, IfOk, IfSome, MatchOption, Some};
ghost use Rattle.cube_jobs.specs.declared.outcome.Outcome.TheVariants.{Model, Refuted};
ghost use Rattle.lrat_check.specs.Checked.{IsAccepted};
ghost use Rattle.lrat_check.specs.declared.derivation.Step.{Step};
ghost use Rattle.result_ledger.specs.Verdict.{IsProofIn, IsModelAnswer, IsProofAnswer, HasModelAt, HaveNoModelBefore};

use crate::lrat_steps::can_be_written;
use crate::slot::Slot;
use cube_jobs::{Outcome, is_model_in};
use dimacs::{Assignment, ClauseList, Lit};
use lrat_check::checker::check;
use lrat_check::derivation::Derivation;
use lrat_check::derivation_copies::are_same;
use lrat_check::laws::{accepted_for_other_cubes, never_accepted_and_refused};
use lrat_check::other_cubes::are_served;
use lrat_check::refusal::Refusal;
use std::alloc::{AllocError, Global};

/// The assignment that the answer claims to be a model, not yet checked.
fn said_model(outcome: &Option<Outcome>) -> Option<&Assignment>
    ensures { MatchOption result
        ((truth : List Bool) → outcome.now ≡ Some (Model truth) → ⊥)
        (λ found. outcome.now ≡ Some (Model found.now)) }
{
    match outcome {
        Some(Outcome::Model(assignment)) => Some(assignment),
        _ => None,
    }
}

/// The derivation by which the answer claims that there is no model, not yet checked.
pub(crate) fn said_derivation(outcome: &Option<Outcome>) -> Option<&Derivation>
    ensures { MatchOption result
        ((steps : List Step) → outcome.now ≡ Some (Refuted steps) → ⊥)
        (λ found. outcome.now ≡ Some (Refuted found.now)) }
{
    match outcome {
        Some(Outcome::Refuted(derivation)) => Some(derivation),
        _ => None,
    }
}

/// Returns whether the derivation is accepted for the cube.
fn is_accepted<L: ClauseList>(
    alloc: Global,
    formula: &L,
    cube: &[Lit],
    derivation: &Derivation,
) -> Result<bool, AllocError>
    ensures { IfOk result (λ accepted. IsTrue accepted ↔ IsAccepted (L.formula formula.now).clauses cube.now derivation.now) }
{
    // A law, which does nothing when run: no derivation is both accepted and refused.
    never_accepted_and_refused();
    match check(alloc, formula, cube, derivation) {
        Ok(_) => Ok(true),
        Err(Refusal::At(_, _)) => Ok(false),
        Err(Refusal::OutOfMemory) => Err(AllocError),
    }
}

/// Returns whether the derivation proves that the formula has no model in the cube: the checker accepts it for the cube, and it can be
/// written as LRAT, so that others can check it again.
fn is_proof_in<L: ClauseList>(
    alloc: Global,
    formula: &L,
    cube: &[Lit],
    derivation: &Derivation,
) -> Result<bool, AllocError>
    ensures { IfOk result (λ proved. IsTrue proved ↔ IsProofIn (L.formula formula.now).clauses cube.now derivation.now) }
{
    if can_be_written(derivation) {
        is_accepted(alloc, formula, cube, derivation)
    } else {
        Ok(false)
    }
}

/// The truth values of the slot's answer, where it is a model that makes the cube true.
fn model_of<'a, L: ClauseList>(formula: &L, slot: &'a Slot) -> Option<&'a Assignment>
    ensures { MatchOption result
        ((truth : List Bool) → IsModelAnswer (L.formula formula.now).clauses slot.now truth → ⊥)
        (λ found. IsModelAnswer (L.formula formula.now).clauses slot.now found.now) }
{
    let assignment = said_model(&slot.outcome)?;
    if is_model_in(formula, slot.cube.as_slice(), assignment) {
        Some(assignment)
    } else {
        None
    }
}

/// Returns whether the slot's answer is a derivation that can be written and is accepted for its cube.
pub(crate) fn is_proved<L: ClauseList>(
    alloc: Global,
    formula: &L,
    slot: &Slot,
) -> Result<bool, AllocError>
    ensures { IfOk result (λ proved. IsTrue proved ↔ IsProofAnswer (L.formula formula.now).clauses slot.now) }
{
    let Some(derivation) = said_derivation(&slot.outcome) else {
        return Ok(false);
    };
    let proved = is_proof_in(alloc, formula, slot.cube.as_slice(), derivation)?;
    Ok(proved)
}

/// Returns whether both answers are the same derivation, and no step of it rests on what only the first cube has (`are_served`). If the
/// first answer is proved, so is the second.
fn serves<L: ClauseList>(formula: &L, first: &Slot, second: &Slot) -> bool
    ensures { IsTrue result → IsProofAnswer (L.formula formula.now).clauses first.now → IsProofAnswer (L.formula formula.now).clauses second.now }
{
    // A law, which does nothing when run: what is served by a derivation is proved by it.
    accepted_for_other_cubes();
    let Some(derivation) = said_derivation(&first.outcome) else {
        return false;
    };
    let Some(other) = said_derivation(&second.outcome) else {
        return false;
    };
    let same = are_same(derivation, other);
    if !same {
        return false;
    }
    are_served(
        formula.count(),
        first.cube.as_slice(),
        second.cube.as_slice(),
        derivation,
    )
}

/// Returns whether the slot's answer is proved without a check, since it is the derivation of one that is known to be proved.
pub(crate) fn is_served<L: ClauseList>(formula: &L, known: Option<&Slot>, slot: &Slot) -> bool
    requires { IfSome known (λ first. IsProofAnswer (L.formula formula.now).clauses first.now) }
    ensures { IsTrue result → IsProofAnswer (L.formula formula.now).clauses slot.now }
{
    match known {
        Some(first) => serves(formula, first, slot),
        None => false,
    }
}

/// The lowest leaf that has a model for its answer.
#[derive(Drop)]
pub(crate) struct FirstModel<'a> {
    /// Its number.
    pub(crate) leaf: usize,
    /// The truth values of its answer.
    pub(crate) assignment: &'a Assignment,
}

/// The lowest leaf that has a model for its answer, if there is one.
pub(crate) fn first_model<'a, L: ClauseList>(
    formula: &L,
    slots: &'a [Slot],
) -> Option<FirstModel<'a>>
    ensures { MatchOption result
        (HaveNoModelBefore (L.formula formula.now).clauses slots.now (length slots.now))
        (λ found. HasModelAt (L.formula formula.now).clauses slots.now found.leaf found.assignment.now × HaveNoModelBefore (L.formula formula.now).clauses slots.now found.leaf × (found.leaf < length slots.now)) }
{
    for leaf in 0..slots.len() {
        match model_of(formula, &slots[leaf]) {
            Some(assignment) => return Some(FirstModel { leaf, assignment }),
            None => {}
        }
    }
    None
}

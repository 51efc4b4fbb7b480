//! Copies of derivations, and whether one is a copy of another.
//!
//! A derivation that a formula has no model is the answer for many of its cubes: `solver` gives each of them a copy, and `result_ledger` finds by a
//! comparison that it has accepted the same one already, and does not check it again.

ghost use Rattle.std.specs.Prelude.{◌≡◌, ◌↔◌, IsTrue, IfOk};
ghost use Rattle.lrat_check.specs.declared.derivation.Step.TheVariants.{Addition, Deletion};

use crate::derivation::{Derivation, Step};
use crate::hints::Hints;
use dimacs::Clause;
use std::alloc::{AllocError, Global};

/// A copy of the step.
fn copied_step(alloc: Global, step: &Step) -> Result<Step, AllocError>
    ensures { IfOk result (λ copy. copy ≡ step.now) }
{
    match step {
        Step::Addition {
            id,
            literals,
            hints,
        } => {
            let literals = Clause::from_slice(alloc, literals.as_slice())?;
            let hints = hints.copied(alloc)?;
            Ok(Step::Addition {
                id: *id,
                literals,
                hints,
            })
        }
        Step::Deletion { first, ids } => {
            let ids = ids.copied(alloc)?;
            Ok(Step::Deletion { first: *first, ids })
        }
    }
}

/// A copy of the derivation.
pub fn copied(alloc: Global, derivation: &Derivation) -> Result<Derivation, AllocError>
    ensures { IfOk result (λ copy. copy ≡ derivation.now) }
{
    let steps = derivation.steps();
    let mut copies = Vec::with_capacity(alloc, steps.len())?;
    for step in steps {
        copies.push(copied_step(alloc, step)?)?;
    }
    Ok(Derivation::new(copies))
}

/// Returns whether these are the same ids in the same order.
fn are_same_ids(first: &[u64], second: &[u64]) -> bool
    ensures { IsTrue result ↔ (first.now ≡ second.now) }
{
    first == second
}

/// Returns whether the step is this addition, with hints kept in the same way.
fn is_addition(id: u64, literals: &Clause, hints: &Hints, step: &Step) -> bool
    ensures { IsTrue result → Addition id literals.now hints.now ≡ step.now }
{
    match step {
        Step::Addition {
            id: other_id,
            literals: other_literals,
            hints: other_hints,
        } => {
            id == *other_id
                && dimacs::are_same(literals.as_slice(), other_literals.as_slice())
                && hints.are_same(other_hints)
        }
        Step::Deletion { .. } => false,
    }
}

/// Returns whether the step is this deletion.
fn is_deletion(first: u64, ids: &[u64], step: &Step) -> bool
    ensures { IsTrue result → Deletion first ids.now ≡ step.now }
{
    match step {
        Step::Addition { .. } => false,
        Step::Deletion {
            first: other_first,
            ids: other_ids,
        } => first == *other_first && are_same_ids(ids, other_ids.as_slice()),
    }
}

/// Returns whether the steps are the same, with hints kept in the same way.
fn is_same_step(first: &Step, second: &Step) -> bool
    ensures { IsTrue result → first.now ≡ second.now }
{
    match first {
        Step::Addition {
            id,
            literals,
            hints,
        } => is_addition(*id, literals, hints, second),
        Step::Deletion { first, ids } => is_deletion(*first, ids.as_slice(), second),
    }
}

/// Returns whether the steps are the same ones in the same order, with hints kept in the same way.
fn are_same_steps(first: &[Step], second: &[Step]) -> bool
    ensures { IsTrue result → first.now ≡ second.now }
{
    if first.len() != second.len() {
        return false;
    }
    for i in 0..first.len() {
        let same = is_same_step(&first[i], &second[i]);
        if !same {
            return false;
        }
    }
    true
}

/// Returns whether the derivations are the same, with hints kept in the same way. It is so for copies. Of derivations with the same steps
/// whose hints are kept in different ways (`Hints::are_same`) this says no.
pub fn are_same(first: &Derivation, second: &Derivation) -> bool
    ensures { IsTrue result → first.now ≡ second.now }
{
    are_same_steps(first.steps(), second.steps())
}

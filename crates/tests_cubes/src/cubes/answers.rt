//! Answers for leaves, made by a test and not by a search, and what is expected of a verdict.

use crate::cubes::texts::{derivation_of, literals_of};
use cube_jobs::{Job, Outcome, Settled};
use dimacs::{Assignment, Clause, Lit, MAX_CUBE_LITERALS};
use lrat_check::derivation::{Derivation, Step};
use lrat_check::hints::Hints;
use lrat_check::lrat_number::MAX_ID;
use result_ledger::Verdict;
use std::alloc::{AllocError, Global};
use std::process::Abort;

/// What is said of a leaf's cube.
#[derive(Clone, Copy)]
pub enum Says {
    /// These truth values of the variables 1, 2 and so on are a model.
    Model(&'static [bool]),
    /// The derivation of this text shows that there is none.
    Refuted(&'static str),
    /// The same, by one step with these hints, which no LRAT line can write.
    Unwritable(&'static [i64]),
    /// The search came to no end.
    Open,
    /// The cube was not searched.
    Skipped,
}

/// What a verdict is expected to be.
#[derive(Clone, Copy)]
pub enum Expected {
    /// A model at this leaf, with these truth values of the variables 1, 2 and so on.
    Consistent(u32, &'static [bool]),
    /// That there is no model, by this number of leaves.
    Inconsistent(u32),
    /// Nothing, since these leaves are open.
    Unknown(&'static [u32]),
}

/// The derivation of one step, which adds the empty clause by these hints, under a number above all that LRAT lines have.
pub fn unwritable_derivation(alloc: Global, hints: &[i64]) -> Result<Derivation, AllocError> {
    let mut steps = Vec::new(alloc);
    steps.push(Step::Addition {
        id: MAX_ID + 1,
        literals: Clause::from_slice(alloc, &[])?,
        hints: Hints::new(Vec::from_slice(alloc, hints)?),
    })?;
    Ok(Derivation::new(steps))
}

/// The outcome that says this.
fn outcome_of(rt: &impl Abort, alloc: Global, says: Says) -> Result<Outcome, AllocError> {
    Ok(match says {
        Says::Model(values) => Outcome::Model(Assignment::new(Vec::from_slice(alloc, values)?)),
        Says::Refuted(text) => Outcome::Refuted(derivation_of(rt, alloc, text)),
        Says::Unwritable(hints) => Outcome::Refuted(unwritable_derivation(alloc, hints)?),
        Says::Open => Outcome::Open,
        Says::Skipped => Outcome::Skipped,
    })
}

/// The job of a leaf with this cube.
fn job_of(rt: &impl Abort, alloc: Global, leaf: u32, literals: &[Lit]) -> Job {
    if literals.len() > MAX_CUBE_LITERALS {
        panic!(rt; "a cube has no more than 20 literals");
    }
    Job::new(alloc, leaf, literals)
}

/// The result that says this of a cube, under a leaf's number.
pub fn result_of(
    rt: &impl Abort,
    alloc: Global,
    leaf: u32,
    cube: &[i32],
    says: Says,
) -> Result<Settled, AllocError> {
    let literals = literals_of(alloc, cube)?;
    settled_of(rt, alloc, leaf, literals.as_slice(), says)
}

/// The same, of a cube of these literals.
pub fn settled_of(
    rt: &impl Abort,
    alloc: Global,
    leaf: u32,
    literals: &[Lit],
    says: Says,
) -> Result<Settled, AllocError> {
    let outcome = outcome_of(rt, alloc, says)?;
    Ok(job_of(rt, alloc, leaf, literals).settle(outcome))
}

/// Returns whether these are the values of the variables 1, 2 and so on.
fn has_values(truth: &Assignment, values: &[bool]) -> bool {
    let mut variable = 0u32;
    for value in values {
        variable = variable.wrapping_add(1);
        if truth.value(variable) != *value {
            return false;
        }
    }
    true
}

/// Returns whether the verdict is the expected one.
pub fn is_expected(verdict: &Verdict, expected: Expected) -> bool {
    match (verdict, expected) {
        (Verdict::Consistent(leaf, truth), Expected::Consistent(there, values)) => {
            *leaf == there && has_values(truth, values)
        }
        (Verdict::Inconsistent(count), Expected::Inconsistent(leaves)) => *count == leaves,
        (Verdict::Unknown(leaves), Expected::Unknown(open)) => leaves.as_slice() == open,
        _ => false,
    }
}

//! Answers of the solver, tried by those that they are for.

use crate::expectations::ample;
use dimacs::{Assignment, Formula, Lit};
use lrat_check::checker::check;
use lrat_check::derivation::Derivation;
use solver::{Answer, EncodingHints, solve};
use std::alloc::{AllocError, Global};
use std::process::Abort;

/// What an answer of the solver has shown.
#[derive(Clone, Copy, PartialEq, Eq)]
pub enum Shown {
    /// A model, which has been evaluated.
    Model,
    /// That there is none, by a derivation of this number of steps that was accepted.
    NoModel(usize),
    /// Nothing.
    Nothing,
    /// A model that is none, or a derivation that was refused.
    Mistake,
}

/// Gives what truth values show of the formula in the cube.
fn shown_by_model(formula: &Formula, cube: &[Lit], model: &Assignment) -> Shown {
    if formula.eval(model).is_ok() && model.makes(cube) {
        Shown::Model
    } else {
        Shown::Mistake
    }
}

/// Gives what a derivation shows of the formula in the cube.
fn shown_by_steps(alloc: Global, formula: &Formula, cube: &[Lit], steps: &Derivation) -> Shown {
    if check(alloc, formula, cube, steps).is_ok() {
        Shown::NoModel(steps.steps().len())
    } else {
        Shown::Mistake
    }
}

/// Gives what an answer shows of the formula in the cube: it is evaluated or checked.
pub fn shown_by(alloc: Global, formula: &Formula, cube: &[Lit], answer: &Answer) -> Shown {
    match answer {
        Answer::Model(model) => shown_by_model(formula, cube, model),
        Answer::Refuted(derivation) => shown_by_steps(alloc, formula, cube, derivation),
        Answer::Open => Shown::Nothing,
    }
}

/// Solves the formula, and evaluates or checks the answer.
fn solve_and_check(
    alloc: Global,
    formula: &Formula,
    cube: &[Lit],
    encoding: EncodingHints,
    budget: u64,
) -> Result<Shown, AllocError> {
    let answer = solve(alloc, formula, cube, encoding, budget)?;
    Ok(shown_by(alloc, formula, cube, &answer))
}

/// Gives what an answer of the solver has shown that has memory enough.
pub fn solved(
    rt: &impl Abort,
    alloc: Global,
    formula: &Formula,
    cube: &[Lit],
    encoding: EncodingHints,
    budget: u64,
) -> Shown {
    ample(rt, solve_and_check(alloc, formula, cube, encoding, budget))
}

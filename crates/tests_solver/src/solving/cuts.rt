//! A derivation has no step on which its last one does not rest.

use crate::expectations::{ample, expect};
use crate::solving::formulas::{PIGEONHOLE, listed};
use crate::solving::random_formulas::{Random, random_formula};
use dimacs::Formula;
use lrat_check::derivation::{Derivation, Step};
use solver::{Answer, EncodingHints, solve};
use std::alloc::{AllocError, Global};

/// Returns whether one of these steps has the clause of this number among its hints.
fn is_hint_of(alloc: Global, steps: &[Step], number: u64) -> Result<bool, AllocError> {
    for step in steps {
        if let Step::Addition { hints, .. } = step {
            let hints = hints.to_vec(alloc)?;
            for hint in hints.as_slice() {
                if u64::try_from(*hint).unwrap_or(0) == number {
                    return Ok(true);
                }
            }
        }
    }
    Ok(false)
}

/// Returns whether each step adds a clause, and each but the last one a clause that is a hint of a later step.
fn is_cut(alloc: Global, derivation: &Derivation) -> Result<bool, AllocError> {
    let steps = derivation.steps();
    for place in 1..steps.len() {
        let Step::Addition { id, .. } = &steps[place - 1] else {
            return Ok(false);
        };
        if !is_hint_of(alloc, &steps[place..], *id)? {
            return Ok(false);
        }
    }
    Ok(true)
}

/// Returns whether the derivation of the answer is cut, if it has one.
fn is_cut_answer(alloc: Global, formula: &Formula) -> Result<bool, AllocError> {
    match solve(alloc, formula, &[], EncodingHints::none(), 100_000)? {
        Answer::Refuted(derivation) => is_cut(alloc, &derivation),
        Answer::Model(_) => Ok(true),
        Answer::Open => Ok(false),
    }
}

#[test]
fn derivations_have_no_step_too_many(rt: HostRuntime) {
    let alloc = rt.alloc();
    let pigeons = ample(&rt, listed(alloc, 12, &PIGEONHOLE));
    assert!(rt; ample(&rt, is_cut_answer(alloc, &pigeons)));
    let mut random = Random::new(4);
    for number in 0..200 {
        let formula = ample(&rt, random_formula(alloc, &mut random));
        let is_cut = ample(&rt, is_cut_answer(alloc, &formula));
        expect(&rt, is_cut, number);
    }
}

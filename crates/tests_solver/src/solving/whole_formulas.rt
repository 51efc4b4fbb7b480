//! What is found of a formula itself answers its cubes.

use crate::expectations::{ample, expect};
use crate::solving::answers::{Shown, shown_by};
use crate::solving::formulas::{PIGEONHOLE, STORE_BUFFERING, listed, literals_of};
use dimacs::Formula;
use lrat_check::derivation::Derivation;
use lrat_check::derivation_copies::are_same;
use proof_log::ClauseId;
use solver::{Answer, CubeSolver, EncodingHints, PreparedFormula, solve_cube};
use std::alloc::{AllocError, Global};

/// Conflicts and steps enough for each of these formulas.
const ENOUGH: u64 = 100_000;

/// The derivation that is found for the cube of this literal, if one is and the checker accepts it.
pub fn refuted(
    alloc: Global,
    formula: &Formula,
    prepared: &PreparedFormula,
    literal: i32,
) -> Result<Option<Derivation>, AllocError> {
    let cube = literals_of(alloc, &[literal])?;
    let answer = solve_cube(alloc, prepared, cube.as_slice(), ENOUGH)?;
    if shown_by(alloc, formula, cube.as_slice(), &answer) == Shown::Mistake {
        return Ok(None);
    }
    match answer {
        Answer::Refuted(derivation) => Ok(Some(derivation)),
        Answer::Model(_model) => Ok(None),
        Answer::Open => Ok(None),
    }
}

/// Returns whether both are derivations, and the same.
pub fn are_one(one: &Option<Derivation>, other: &Option<Derivation>) -> bool {
    match (one, other) {
        (Some(one), Some(other)) => are_same(one, other),
        _ => false,
    }
}

/// What the answer for the cube of this literal shows.
fn shown(
    alloc: Global,
    formula: &Formula,
    prepared: &PreparedFormula,
    literal: i32,
) -> Result<Shown, AllocError> {
    let cube = literals_of(alloc, &[literal])?;
    let answer = solve_cube(alloc, prepared, cube.as_slice(), ENOUGH)?;
    Ok(shown_by(alloc, formula, cube.as_slice(), &answer))
}

#[test]
fn one_refutation_serves_all_cubes(rt: HostRuntime) {
    let alloc = rt.alloc();
    let formula = ample(&rt, listed(alloc, 12, &PIGEONHOLE));
    let prepared = PreparedFormula::of(alloc, &formula, EncodingHints::none());
    let mut prepared = ample(&rt, prepared);
    ample(&rt, prepared.search_whole(alloc, &[1], ENOUGH));
    expect(&rt, prepared.take_conflicts() > 0, 0);
    let one = ample(&rt, refuted(alloc, &formula, &prepared, 1));
    let other = ample(&rt, refuted(alloc, &formula, &prepared, -1));
    expect(&rt, are_one(&one, &other), 1);
    // Both cubes were answered without a search of their own.
    expect(&rt, prepared.take_conflicts() == 0, 2);
}

#[test]
fn a_model_of_the_whole_leaves_other_cubes_open(rt: HostRuntime) {
    let alloc = rt.alloc();
    // These clauses have one model, in which all variables are true. So it is not in the cube of -2, which a search of its own refutes.
    let formula = ample(&rt, listed(alloc, 8, &STORE_BUFFERING[..13]));
    let prepared = PreparedFormula::of(
        alloc,
        &formula,
        EncodingHints::with_order(4, ClauseId::new(3)),
    );
    let mut prepared = ample(&rt, prepared);
    let alone = ample(&rt, shown(alloc, &formula, &prepared, -2));
    expect(&rt, matches!(alone, Shown::NoModel(_)), 0);
    ample(&rt, prepared.search_whole(alloc, &[2], ENOUGH));
    let inside = ample(&rt, shown(alloc, &formula, &prepared, 2));
    expect(&rt, inside == Shown::Model, 1);
    let outside = ample(&rt, shown(alloc, &formula, &prepared, -2));
    expect(&rt, outside == Shown::Nothing, 2);
}

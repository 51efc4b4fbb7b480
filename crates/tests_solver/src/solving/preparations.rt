//! One preparation for several cubes, and the preparation of another formula.

use crate::expectations::{ample, expect};
use crate::solving::answers::{Shown, shown_by, solved};
use crate::solving::formulas::{PIGEONHOLE, STORE_BUFFERING, listed, literals_of};
use dimacs::{Formula, Lit};
use proof_log::ClauseId;
use solver::{EncodingHints, PreparedFormula, solve_cube};
use std::alloc::{AllocError, Global};
use std::process::Abort;

/// Cubes of either formula. Some have a variable that stands in no clause, and one a literal with its negation.
const CUBES: [&[i32]; 7] = [&[], &[3], &[-3], &[2, -5], &[-7, 1], &[13, -40], &[9, -9]];

/// Gives what the answer that is found with this preparation shows of the formula in the cube.
fn shown_in(
    alloc: Global,
    prepared: &PreparedFormula,
    formula: &Formula,
    cube: &[Lit],
) -> Result<Shown, AllocError> {
    let answer = solve_cube(alloc, prepared, cube, 1000)?;
    Ok(shown_by(alloc, formula, cube, &answer))
}

/// Asserts that one preparation serves all cubes of the formula, as `solve` does each of them.
fn assert_shared(rt: &impl Abort, alloc: Global, formula: &Formula, encoding: EncodingHints) {
    let prepared = ample(rt, PreparedFormula::of(alloc, formula, encoding));
    for number in 0..CUBES.len() {
        let cube = ample(rt, literals_of(alloc, CUBES[number]));
        let alone = solved(rt, alloc, formula, cube.as_slice(), encoding, 1000);
        let shared = ample(rt, shown_in(alloc, &prepared, formula, cube.as_slice()));
        expect(rt, shared == alone && shared != Shown::Mistake, number);
    }
}

/// Asserts that nothing is shown of a formula where another one was prepared.
fn assert_no_help(rt: &impl Abort, alloc: Global, formula: &Formula, other: &Formula) {
    let prepared = ample(
        rt,
        PreparedFormula::of(alloc, other, EncodingHints::with_order(4, ClauseId::new(3))),
    );
    let shown = ample(rt, shown_in(alloc, &prepared, formula, &[]));
    expect(rt, shown == Shown::Mistake, 0);
}

#[test]
fn one_preparation_serves_all_cubes(rt: HostRuntime) {
    let alloc = rt.alloc();
    let formula = ample(&rt, listed(alloc, 12, &PIGEONHOLE));
    assert_shared(&rt, alloc, &formula, EncodingHints::none());
    let formula = ample(&rt, listed(alloc, 8, &STORE_BUFFERING[..13]));
    assert_shared(
        &rt,
        alloc,
        &formula,
        EncodingHints::with_order(4, ClauseId::new(3)),
    );
}

#[test]
fn the_preparation_of_another_formula_shows_nothing(rt: HostRuntime) {
    let alloc = rt.alloc();
    let with_none = ample(&rt, listed(alloc, 8, &STORE_BUFFERING));
    let with_model = ample(&rt, listed(alloc, 8, &STORE_BUFFERING[..13]));
    assert_no_help(&rt, alloc, &with_none, &with_model);
    assert_no_help(&rt, alloc, &with_model, &with_none);
}

//! Small formulas with and without a model, beside the plain solver.

use crate::expectations::ample;
use crate::solving::formulas::{PIGEONHOLE, STORE_BUFFERING, listed};
use crate::solving::random_formulas::assert_solved;
use dimacs::Formula;
use proof_log::ClauseId;
use solver::EncodingHints;
use std::alloc::Global;
use std::process::Abort;

/// Cubes of each of them. One has a variable that stands in no clause, and one a literal with its negation.
const CUBES: [&[i32]; 8] = [
    &[],
    &[3],
    &[-3],
    &[-3, 4],
    &[2, -5],
    &[-7, 1],
    &[13, -40],
    &[8, -8],
];

/// Asserts that the solver finds in each cube what the plain solver finds.
fn assert_all_solved(rt: &impl Abort, alloc: Global, formula: &Formula, encoding: EncodingHints) {
    for cube in &CUBES {
        assert_solved(rt, alloc, formula, cube, encoding);
    }
}

#[test]
fn solves_pigeons(rt: HostRuntime) {
    let alloc = rt.alloc();
    // All four pigeons, three of them, and all four where two may sit together.
    for lists in [&PIGEONHOLE[..], &PIGEONHOLE[1..], &PIGEONHOLE[..21]] {
        let formula = ample(&rt, listed(alloc, 12, lists));
        assert_all_solved(&rt, alloc, &formula, EncodingHints::none());
    }
}

#[test]
fn solves_store_buffering(rt: HostRuntime) {
    let alloc = rt.alloc();
    // The whole, and such as lack what one read or program order says.
    for count in [14, 13, 12, 11] {
        let formula = ample(&rt, listed(alloc, 8, &STORE_BUFFERING[..count]));
        assert_all_solved(&rt, alloc, &formula, EncodingHints::none());
        assert_all_solved(
            &rt,
            alloc,
            &formula,
            EncodingHints::with_order(4, ClauseId::new(3)),
        );
    }
    let formula = ample(&rt, listed(alloc, 8, &STORE_BUFFERING[2..]));
    assert_all_solved(&rt, alloc, &formula, EncodingHints::none());
    assert_all_solved(
        &rt,
        alloc,
        &formula,
        EncodingHints::with_order(4, ClauseId::new(1)),
    );
}

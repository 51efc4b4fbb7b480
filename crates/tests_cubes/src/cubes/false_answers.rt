//! Answers that are wrong, or none: what they do to a verdict.

use crate::cubes::answers::{Expected, Says, result_of, unwritable_derivation};
use crate::cubes::searches::{assert_confirmed, enter, new_ledger};
use crate::cubes::texts::{STORE_BUFFERING, WRITTEN_AGAIN, formula_of, literals_of, tree_of};
use crate::expectations::{ample, expect};
use dimacs::Formula;
use lrat_check::checker::check;
use result_ledger::Ledger;
use std::alloc::{AllocError, Global};
use std::process::Abort;

/// Clause 13 makes variable 8 true, and clause 14 makes variable 3 false, which clause 15, the first leaf's cube, does not allow.
const FIRST: Says = Says::Refuted("16 0 13 14 15 0\n");

/// What makes variable 3 true, which clause 15, the second leaf's cube, does not allow.
const SECOND: Says = Says::Refuted("16 0 1 2 11 12 3 7 15 0\n");

/// The hints of the first one.
const HINTS: &[i64] = &[13, 14, 15];

/// The first one, which the checker accepts, under a number that no LRAT line can write.
const UNWRITABLE: Says = Says::Unwritable(HINTS);

/// A derivation that ends before it adds the empty clause.
const UNENDED: Says = Says::Refuted("");

/// A derivation of which no step is justified.
const FALSE: Says = Says::Refuted("5 0 1 2 3 4 0\n");

/// The model of `WRITTEN_AGAIN` that makes variable 1 true.
const WRITES_FIRST: &[bool] = &[true, false, true];

/// The model that makes it false.
const READS_FIRST: &[bool] = &[false, true, false];

/// What is said of the two leaves of a tree, and the verdict that follows.
type FalseAnswerCase = (Says, Says, Expected);

/// What is said of store buffering in the cubes 3 and -3.
const OF_STORE_BUFFERING: [FalseAnswerCase; 7] = [
    (FIRST, SECOND, Expected::Inconsistent(2)),
    (SECOND, SECOND, Expected::Unknown(&[0])),
    (FIRST, FIRST, Expected::Unknown(&[1])),
    (UNENDED, SECOND, Expected::Unknown(&[0])),
    (Says::Model(&[true; 8]), SECOND, Expected::Unknown(&[0])),
    (Says::Open, Says::Open, Expected::Unknown(&[0, 1])),
    (FIRST, Says::Skipped, Expected::Unknown(&[1])),
];

/// What is said of the value that is written again in the cubes 1 and -1.
const OF_WRITTEN_AGAIN: [FalseAnswerCase; 4] = [
    (
        Says::Model(WRITES_FIRST),
        Says::Model(READS_FIRST),
        Expected::Consistent(0, WRITES_FIRST),
    ),
    (
        FALSE,
        Says::Model(READS_FIRST),
        Expected::Consistent(1, READS_FIRST),
    ),
    (FALSE, UNENDED, Expected::Unknown(&[0, 1])),
    (
        Says::Model(READS_FIRST),
        Says::Model(WRITES_FIRST),
        Expected::Unknown(&[0, 1]),
    ),
];

/// The ledger of the tree of this text, with what is said of the literal and of its negation. The second answer comes first.
fn ledger_of(
    rt: &impl Abort,
    alloc: Global,
    split: &[u8],
    literal: i32,
    first: Says,
    second: Says,
) -> Ledger {
    let tree = tree_of(rt, alloc, split);
    let mut ledger = new_ledger(rt, alloc, &tree);
    let negation = literal.wrapping_neg();
    let right = ample(rt, result_of(rt, alloc, 1, &[negation], second));
    enter(rt, &mut ledger, right);
    let left = ample(rt, result_of(rt, alloc, 0, &[literal], first));
    enter(rt, &mut ledger, left);
    ledger
}

/// Returns whether the checker accepts the derivation of these hints for the cube of this literal.
fn is_accepted(
    alloc: Global,
    formula: &Formula,
    literal: i32,
    hints: &[i64],
) -> Result<bool, AllocError> {
    let derivation = unwritable_derivation(alloc, hints)?;
    let cube = literals_of(alloc, &[literal])?;
    Ok(check(alloc, formula, cube.as_slice(), &derivation).is_ok())
}

#[test]
fn a_derivation_that_cannot_be_written_is_accepted_and_refutes_nothing(rt: HostRuntime) {
    let alloc = rt.alloc();
    let formula = formula_of(&rt, alloc, STORE_BUFFERING);
    let accepted = ample(&rt, is_accepted(alloc, &formula, 3, HINTS));
    expect(&rt, accepted, 0);
    let ledger = ledger_of(&rt, alloc, b"split 3\nleaf\nleaf\n", 3, UNWRITABLE, SECOND);
    let expected = Expected::Unknown(&[0]);
    assert_confirmed(&rt, alloc, &ledger, &formula, expected, 0);
}

#[test]
fn no_false_answer_makes_a_false_verdict(rt: HostRuntime) {
    let alloc = rt.alloc();
    let formula = formula_of(&rt, alloc, STORE_BUFFERING);
    let mut number = 0usize;
    for (first, second, expected) in &OF_STORE_BUFFERING {
        let ledger = ledger_of(&rt, alloc, b"split 3\nleaf\nleaf\n", 3, *first, *second);
        assert_confirmed(&rt, alloc, &ledger, &formula, *expected, number);
        number = number.wrapping_add(1);
    }
    let formula = formula_of(&rt, alloc, WRITTEN_AGAIN);
    for (first, second, expected) in &OF_WRITTEN_AGAIN {
        let ledger = ledger_of(&rt, alloc, b"split 1\nleaf\nleaf\n", 1, *first, *second);
        assert_confirmed(&rt, alloc, &ledger, &formula, *expected, number);
        number = number.wrapping_add(1);
    }
}

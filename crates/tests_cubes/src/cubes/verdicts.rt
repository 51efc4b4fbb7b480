//! From a formula and a tree to a verdict, by the search.

use crate::cubes::answers::Expected;
use crate::cubes::searches::{assert_confirmed, enter_all, new_ledger, results_of};
use crate::cubes::texts::{READS_FIRST, STORE_BUFFERING, WRITTEN_AGAIN, formula_of, tree_of};
use crate::expectations::ample;
use cube_jobs::{OpenGate, Options};
use std::alloc::Global;
use std::process::Abort;
use std::sync::Wait;
use std::thread::Threads;

/// A tree of four leaves, on the variables on which a search of store buffering splits.
const ON_3_AND_4: &str = "split 3\nsplit 4\nleaf\nleaf\nsplit 4\nleaf\nleaf\n";

/// A tree of two leaves.
const ON_1: &str = "split 1\nleaf\nleaf\n";

/// A formula, a tree, a budget, and the verdict.
type VerdictCase = (&'static str, &'static str, u64, Expected);

const TOLD: [VerdictCase; 5] = [
    (STORE_BUFFERING, ON_3_AND_4, 100, Expected::Inconsistent(4)),
    (STORE_BUFFERING, "leaf\n", 1, Expected::Inconsistent(1)),
    (
        STORE_BUFFERING,
        ON_3_AND_4,
        0,
        Expected::Unknown(&[0, 1, 2, 3]),
    ),
    (
        WRITTEN_AGAIN,
        ON_1,
        100,
        Expected::Consistent(0, &[true, false, true]),
    ),
    (
        READS_FIRST,
        ON_1,
        100,
        Expected::Consistent(1, &[false, true]),
    ),
];

/// Asserts that a search in the tree of this text, with this budget, ends in this verdict.
fn assert_reaches<R: Threads + Wait + Sync + Abort>(
    rt: &R,
    alloc: Global,
    clauses: &str,
    tree: &str,
    budget: u64,
    expected: Expected,
) {
    let formula = formula_of(rt, alloc, clauses);
    let tree = tree_of(rt, alloc, tree.as_bytes());
    let options = ample(rt, Options::new(1, 3, budget, 1));
    let found = results_of(rt, alloc, &formula, &tree, &options, &OpenGate);
    let mut ledger = new_ledger(rt, alloc, &tree);
    enter_all(rt, &mut ledger, ample(rt, found));
    assert_confirmed(rt, alloc, &ledger, &formula, expected, clauses.len());
}

#[test]
fn reaches_each_verdict(rt: HostRuntime) {
    for (clauses, tree, budget, expected) in &TOLD {
        assert_reaches(&rt, rt.alloc(), clauses, tree, *budget, *expected);
    }
}

//! What a ledger takes, and what becomes of it where a leaf is split.

use crate::cubes::answers::{Expected, Says, result_of};
use crate::cubes::searches::{assert_confirmed, enter, new_ledger};
use crate::cubes::texts::{STORE_BUFFERING, are_literals, formula_of, tree_of};
use crate::expectations::{ample, expect};
use cube_tree::split_leaf;
use result_ledger::{EntryFault, Ledger, split_tree_splits_a_cube};
use std::alloc::Global;
use std::process::Abort;

/// A leaf and a cube, and why a result of these is handed back.
type RefusedEntry = (u32, &'static [i32], EntryFault);

/// What is refused where no leaf has an answer.
const REFUSED_AT_FIRST: [RefusedEntry; 4] = [
    (2, &[3], EntryFault::Stranger),
    (0, &[-3], EntryFault::WrongCube),
    (0, &[], EntryFault::WrongCube),
    (0, &[3, 3], EntryFault::WrongCube),
];

/// What is refused where the first leaf has one.
const REFUSED_AFTERWARDS: [RefusedEntry; 2] = [
    (0, &[3], EntryFault::Double),
    (0, &[-3], EntryFault::Double),
];

/// Asserts that a result is handed back for this reason.
fn assert_refused(
    rt: &impl Abort,
    alloc: Global,
    ledger: &mut Ledger,
    leaf: u32,
    cube: &[i32],
    fault: EntryFault,
) {
    let settled = ample(rt, result_of(rt, alloc, leaf, cube, Says::Open));
    let Err((settled, told)) = ledger.enter(settled) else {
        panic!(rt; "it is entered");
    };
    let is_told = told == fault && settled.ticket() == leaf;
    expect(rt, is_told, cube.len());
    let is_same = ample(rt, are_literals(alloc, settled.cube(), cube));
    expect(rt, is_same, cube.len());
}

/// Asserts that these leaves have no answer.
fn assert_unanswered(rt: &impl Abort, alloc: Global, ledger: &Ledger, leaves: &[u32]) {
    let unanswered = ample(rt, ledger.unanswered(alloc));
    expect(rt, unanswered.as_slice() == leaves, leaves.len());
}

#[test]
fn enters_each_leaf_once_under_its_cube(rt: HostRuntime) {
    let alloc = rt.alloc();
    let mut ledger = new_ledger(&rt, alloc, &tree_of(&rt, alloc, b"split 3\nleaf\nleaf\n"));
    for (leaf, cube, fault) in &REFUSED_AT_FIRST {
        assert_refused(&rt, alloc, &mut ledger, *leaf, cube, *fault);
    }
    let answer = ample(&rt, result_of(&rt, alloc, 0, &[3], Says::Open));
    enter(&rt, &mut ledger, answer);
    for (leaf, cube, fault) in &REFUSED_AFTERWARDS {
        assert_refused(&rt, alloc, &mut ledger, *leaf, cube, *fault);
    }
    assert_unanswered(&rt, alloc, &ledger, &[1]);
    assert!(&rt; ledger.leaves() == 2);
}

/// The ledger of the cubes 3 and -3, of which the first is refuted and the second one open, with this second leaf split on variable 4.
fn split_ledger(rt: &impl Abort, alloc: Global) -> Ledger {
    let tree = tree_of(rt, alloc, b"split 3\nleaf\nleaf\n");
    let mut ledger = new_ledger(rt, alloc, &tree);
    let refuted = Says::Refuted("16 0 13 14 15 0\n");
    let left = ample(rt, result_of(rt, alloc, 0, &[3], refuted));
    enter(rt, &mut ledger, left);
    let right = ample(rt, result_of(rt, alloc, 1, &[-3], Says::Open));
    enter(rt, &mut ledger, right);
    split_tree_splits_a_cube();
    let Ok(tree) = split_leaf(alloc, tree, 1, 4) else {
        panic!(rt; "the tree's leaf is not split");
    };
    let Ok(ledger) = ledger.split(alloc, 1, &tree) else {
        panic!(rt; "the ledger's leaf is not split");
    };
    ledger
}

/// Asserts that the leaf has the cube of these numbers.
fn assert_cube(rt: &impl Abort, alloc: Global, ledger: &Ledger, leaf: u32, numbers: &[i32]) {
    if leaf >= ledger.leaves() {
        panic!(rt; "there is no leaf {leaf}");
    }
    let is_right = ample(rt, are_literals(alloc, ledger.cube(leaf), numbers));
    expect(rt, is_right, leaf as usize);
}

#[test]
fn splits_a_leaf_and_forgets_its_answer(rt: HostRuntime) {
    let alloc = rt.alloc();
    let ledger = split_ledger(&rt, alloc);
    assert!(&rt; ledger.leaves() == 3);
    assert_unanswered(&rt, alloc, &ledger, &[1, 2]);
    let formula = formula_of(&rt, alloc, STORE_BUFFERING);
    let expected = Expected::Unknown(&[1, 2]);
    assert_confirmed(&rt, alloc, &ledger, &formula, expected, 0);
    assert_cube(&rt, alloc, &ledger, 0, &[3]);
    assert_cube(&rt, alloc, &ledger, 1, &[-3, 4]);
    assert_cube(&rt, alloc, &ledger, 2, &[-3, -4]);
}

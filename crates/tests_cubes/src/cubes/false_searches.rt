//! In place of the search something that lies, over two rounds with the open leaves split in between: what it says changes no verdict
//! into a false one.
ghost use Rattle.std.specs.Prelude.{◌≡◌, ◌≤◌};
ghost use Rattle.cube_tree.specs.CubeTree.{cubes_of};
ghost use Rattle.result_ledger.specs.Ledger.{cubes_in};

use crate::cubes::answers::{Expected, Says, settled_of};
use crate::cubes::searches::{assert_confirmed, new_ledger};
use crate::cubes::texts::{STORE_BUFFERING, WRITTEN_AGAIN, formula_of, tree_of};
use crate::expectations::{ample, expect};
use cube_jobs::Settled;
use cube_tree::{Tree, cubes, split_leaf};
use dimacs::{Cube, Formula, MAX_VARIABLE};
use result_ledger::{Ledger, split_tree_splits_a_cube};
use std::alloc::Global;
use std::process::Abort;
use std::thread::Threads;

/// What comes of a round.
#[derive(Clone, Copy)]
struct Round {
    /// The leaves that are asked for: those without an answer.
    asked: &'static [u32],
    /// The distance of the number on each result above that of its leaf. If it is not 0, each is an answer of another leaf.
    above: u32,
    /// What is said of these leaves, in their order.
    says: &'static [Says],
    /// The verdict that follows.
    expected: Expected,
}

/// Two rounds.
type FalseSearchCase = (Round, Round);

/// No model of store buffering: clause 14 is false.
const ALL_TRUE: Says = Says::Model(&[true; 8]);

/// Of the cube 3: clause 13 makes variable 8 true, and clause 14 makes variable 3 false, which clause 15, the cube, does not allow.
const OF_3: Says = Says::Refuted("16 0 13 14 15 0\n");

/// Of the cube -3: what makes variable 3 true, which clause 15, the cube, does not allow.
const OF_NOT_3: Says = Says::Refuted("16 0 1 2 11 12 3 7 15 0\n");

/// The same of the cubes 3, 4 and 3, -4. Clause 16 is the cube's second literal.
const OF_3_SPLIT: Says = Says::Refuted("17 0 13 14 15 0\n");

/// The same of the cubes -3, 4 and -3, -4.
const OF_NOT_3_SPLIT: Says = Says::Refuted("17 0 1 2 11 12 3 7 15 0\n");

/// A derivation that ends before it adds the empty clause.
const UNENDED: Says = Says::Refuted("");

/// What is said of store buffering, which has no model, in the cubes 3 and -3, and then in the halves of those that are open. It is split
/// on variable 4.
const OF_STORE_BUFFERING: [FalseSearchCase; 6] = [
    // Nothing is found.
    (
        Round {
            asked: &[0, 1],
            above: 0,
            says: &[Says::Open, Says::Open],
            expected: Expected::Unknown(&[0, 1]),
        },
        Round {
            asked: &[0, 1, 2, 3],
            above: 0,
            says: &[Says::Open, Says::Open, Says::Open, Says::Open],
            expected: Expected::Unknown(&[0, 1, 2, 3]),
        },
    ),
    // What is no model is said to be one.
    (
        Round {
            asked: &[0, 1],
            above: 0,
            says: &[ALL_TRUE, ALL_TRUE],
            expected: Expected::Unknown(&[0, 1]),
        },
        Round {
            asked: &[0, 1, 2, 3],
            above: 0,
            says: &[ALL_TRUE, ALL_TRUE, OF_NOT_3_SPLIT, OF_NOT_3_SPLIT],
            expected: Expected::Unknown(&[0, 1]),
        },
    ),
    // Each derivation is that of the other cube; and then they are right.
    (
        Round {
            asked: &[0, 1],
            above: 0,
            says: &[OF_NOT_3, OF_3],
            expected: Expected::Unknown(&[0, 1]),
        },
        Round {
            asked: &[0, 1, 2, 3],
            above: 0,
            says: &[OF_3_SPLIT, OF_3_SPLIT, OF_NOT_3_SPLIT, OF_NOT_3_SPLIT],
            expected: Expected::Inconsistent(4),
        },
    ),
    // Each derivation is right for the cube that the result has, and has the number of another leaf.
    (
        Round {
            asked: &[0, 1],
            above: 1,
            says: &[OF_3, OF_NOT_3],
            expected: Expected::Unknown(&[0, 1]),
        },
        Round {
            asked: &[0, 1, 2, 3],
            above: 2,
            says: &[OF_3_SPLIT, OF_3_SPLIT, OF_NOT_3_SPLIT, OF_NOT_3_SPLIT],
            expected: Expected::Unknown(&[0, 1, 2, 3]),
        },
    ),
    // The first cube is refuted, and stays so; of the halves of the other one nothing is shown.
    (
        Round {
            asked: &[0, 1],
            above: 0,
            says: &[OF_3, ALL_TRUE],
            expected: Expected::Unknown(&[1]),
        },
        Round {
            asked: &[1, 2],
            above: 0,
            says: &[Says::Skipped, OF_3_SPLIT],
            expected: Expected::Unknown(&[1, 2]),
        },
    ),
    // The first cube is refuted, and then both halves of the other one.
    (
        Round {
            asked: &[0, 1],
            above: 0,
            says: &[OF_3, UNENDED],
            expected: Expected::Unknown(&[1]),
        },
        Round {
            asked: &[1, 2],
            above: 0,
            says: &[OF_NOT_3_SPLIT, OF_NOT_3_SPLIT],
            expected: Expected::Inconsistent(3),
        },
    ),
];

/// The model of `WRITTEN_AGAIN` in the cubes 1 and 1, -2.
const WRITES_FIRST: &[bool] = &[true, false, true];

/// The model in the cubes -1 and -1, 2.
const READS_FIRST: &[bool] = &[false, true, false];

/// A derivation of which no step is justified.
const FALSE: Says = Says::Refuted("5 0 1 2 3 4 0\n");

/// Of the cube 1, 2, whose literals are the clauses 4 and 5: clause 2 is false. It is false in no other cube of variables 1 and 2.
const OF_1_AND_2: Says = Says::Refuted("6 0 4 5 2 0\n");

/// What is said of the value that is written again, for which there are two models, in the cubes 1 and -1, and then in their halves. They
/// are split on variable 2.
const OF_WRITTEN_AGAIN: [FalseSearchCase; 4] = [
    // There is said to be no model anywhere, which is true of the first half alone.
    (
        Round {
            asked: &[0, 1],
            above: 0,
            says: &[FALSE, UNENDED],
            expected: Expected::Unknown(&[0, 1]),
        },
        Round {
            asked: &[0, 1, 2, 3],
            above: 0,
            says: &[OF_1_AND_2, OF_1_AND_2, OF_1_AND_2, OF_1_AND_2],
            expected: Expected::Unknown(&[1, 2, 3]),
        },
    ),
    // Each model is that of the other cube; and then one model is said of all halves, and makes the second one's literals true.
    (
        Round {
            asked: &[0, 1],
            above: 0,
            says: &[Says::Model(READS_FIRST), Says::Model(WRITES_FIRST)],
            expected: Expected::Unknown(&[0, 1]),
        },
        Round {
            asked: &[0, 1, 2, 3],
            above: 0,
            says: &[
                Says::Model(WRITES_FIRST),
                Says::Model(WRITES_FIRST),
                Says::Model(WRITES_FIRST),
                Says::Model(WRITES_FIRST),
            ],
            expected: Expected::Consistent(1, WRITES_FIRST),
        },
    ),
    // Each model is right for the cube that the result has, and has the number of another leaf.
    (
        Round {
            asked: &[0, 1],
            above: 1,
            says: &[Says::Model(WRITES_FIRST), Says::Model(READS_FIRST)],
            expected: Expected::Unknown(&[0, 1]),
        },
        Round {
            asked: &[0, 1, 2, 3],
            above: 1,
            says: &[
                OF_1_AND_2,
                Says::Model(WRITES_FIRST),
                Says::Model(READS_FIRST),
                Says::Open,
            ],
            expected: Expected::Unknown(&[0, 1, 2, 3]),
        },
    ),
    // Of all lies one answer is a model, and stands.
    (
        Round {
            asked: &[0, 1],
            above: 0,
            says: &[FALSE, Says::Open],
            expected: Expected::Unknown(&[0, 1]),
        },
        Round {
            asked: &[0, 1, 2, 3],
            above: 0,
            says: &[
                Says::Skipped,
                OF_1_AND_2,
                Says::Model(READS_FIRST),
                OF_1_AND_2,
            ],
            expected: Expected::Consistent(2, READS_FIRST),
        },
    ),
];

/// The cube of this leaf.
fn cube_of<'a>(rt: &impl Abort, cubes: &'a [Cube], leaf: u32) -> &'a Cube {
    match cubes.get(leaf as usize) {
        Some(cube) => cube,
        None => panic!(rt; "there is no leaf {leaf}"),
    }
}

/// In place of a search of these leaves of the tree: a result for each of them, in their order, with its cube and what the round says of
/// it.
fn false_search(
    rt: &impl Abort,
    alloc: Global,
    tree: &Tree,
    which: &[u32],
    round: &Round,
) -> Vec<Settled> {
    let cubes = ample(rt, cubes(alloc, tree));
    let mut results = Vec::new(alloc);
    for (leaf, says) in which.iter().zip(round.says) {
        let cube = cube_of(rt, cubes.as_slice(), *leaf);
        let number = leaf.wrapping_add(round.above);
        let settled = settled_of(rt, alloc, number, cube.as_slice(), *says);
        ample(rt, results.push(ample(rt, settled)));
    }
    results
}

/// Enters the results, as the rounds of `verify` do: one that the ledger refuses is dropped. It answers how many those are.
fn enter_all(ledger: &mut Ledger, results: Vec<Settled>) -> usize
    ensures { cubes_in ledger.new ≡ cubes_in ledger.old }
{
    let mut refused = 0usize;
    for settled in results {
        let is_refused = ledger.enter(settled).is_err();
        refused = refused.wrapping_add(usize::from(is_refused));
    }
    refused
}

/// Enters what a round says. Asserts which leaves are asked for, and that the ledger refuses each answer of another leaf and no other.
fn enter_round(
    rt: &impl Abort,
    alloc: Global,
    tree: &Tree,
    ledger: &mut Ledger,
    round: &Round,
    number: usize,
)
    ensures { cubes_in ledger.new ≡ cubes_in ledger.old }
{
    let which = ample(rt, ledger.unanswered(alloc));
    expect(rt, which.as_slice() == round.asked, number);
    let results = false_search(rt, alloc, tree, which.as_slice(), round);
    expect(rt, results.len() == round.asked.len(), number);
    let refused = enter_all(ledger, results);
    let wanted = if round.above == 0 {
        0
    } else {
        round.asked.len()
    };
    expect(rt, refused == wanted, number);
}

/// The tree and its ledger with this leaf split.
fn split_one(
    rt: &impl Abort,
    alloc: Global,
    tree: Tree,
    ledger: Ledger,
    leaf: u32,
    variable: u32,
) -> (Tree, Ledger)
    requires cubes { cubes_in ledger ≡ cubes_of tree }
    requires variable { (1 ≤ variable) × (variable ≤ MAX_VARIABLE) }
    ensures { cubes_in result.1 ≡ cubes_of result.0 }
{
    split_tree_splits_a_cube();
    let Ok(tree) = split_leaf(alloc, tree, leaf, variable) else {
        panic!(rt; "the tree's leaf is not split");
    };
    let Ok(ledger) = ledger.split(alloc, leaf, &tree) else {
        panic!(rt; "the ledger's leaf is not split");
    };
    (tree, ledger)
}

/// The tree and its ledger with these leaves split, rising. A leaf's number is that before the first split.
fn split_all(
    rt: &impl Abort,
    alloc: Global,
    tree: Tree,
    ledger: Ledger,
    leaves: &[u32],
    variable: u32,
) -> (Tree, Ledger)
    requires cubes { cubes_in ledger ≡ cubes_of tree }
    requires variable { (1 ≤ variable) × (variable ≤ MAX_VARIABLE) }
    ensures { cubes_in result.1 ≡ cubes_of result.0 }
{
    let mut tree = tree;
    let mut ledger = ledger;
    let mut more = 0u32;
    for leaf in leaves {
        let (next_tree, next_ledger) = split_one(
            rt,
            alloc,
            tree,
            ledger,
            leaf.wrapping_add(more),
            variable,
        );
        tree = next_tree;
        ledger = next_ledger;
        more = more.wrapping_add(1);
    }
    (tree, ledger)
}

/// The leaves that are open by this verdict.
fn open_leaves(expected: Expected) -> &'static [u32] {
    match expected {
        Expected::Unknown(leaves) => leaves,
        _ => &[],
    }
}

/// A formula, and the text of the tree of its cubes in the first round.
#[derive(Clone, Copy)]
struct SplitFormula<'a> {
    formula: &'a Formula,
    tree: &'a [u8],
}

/// Asserts which verdicts follow from two rounds, the second one with the open leaves of the first split on the variable.
fn assert_rounds<R: Threads + Sync + Abort>(
    rt: &R,
    alloc: Global,
    split: SplitFormula<'_>,
    variable: u32,
    told: &FalseSearchCase,
    number: usize,
)
    requires { (1 ≤ variable) × (variable ≤ MAX_VARIABLE) }
{
    let (first, second) = told;
    let SplitFormula { formula, tree } = split;
    let tree = tree_of(rt, alloc, tree);
    let mut ledger = new_ledger(rt, alloc, &tree);
    enter_round(rt, alloc, &tree, &mut ledger, first, number);
    assert_confirmed(rt, alloc, &ledger, formula, first.expected, number);
    let leaves = open_leaves(first.expected);
    let (tree, ledger) = split_all(rt, alloc, tree, ledger, leaves, variable);
    let mut ledger = ledger;
    enter_round(rt, alloc, &tree, &mut ledger, second, number);
    assert_confirmed(rt, alloc, &ledger, formula, second.expected, number);
}

#[test]
fn no_false_search_makes_a_false_verdict(rt: HostRuntime) {
    let alloc = rt.alloc();
    let mut number = 0usize;
    let formula = formula_of(&rt, alloc, STORE_BUFFERING);
    let split = SplitFormula {
        formula: &formula,
        tree: b"split 3\nleaf\nleaf\n",
    };
    for told in &OF_STORE_BUFFERING {
        assert_rounds(&rt, alloc, split, 4, told, number);
        number = number.wrapping_add(1);
    }
    let formula = formula_of(&rt, alloc, WRITTEN_AGAIN);
    let split = SplitFormula {
        formula: &formula,
        tree: b"split 1\nleaf\nleaf\n",
    };
    for told in &OF_WRITTEN_AGAIN {
        assert_rounds(&rt, alloc, split, 2, told, number);
        number = number.wrapping_add(1);
    }
}

//! What is searched, entered and confirmed: the calls of the queue and of the ledger that the tests share.
ghost use Rattle.std.specs.Prelude.{◌≡◌};
ghost use Rattle.cube_tree.specs.CubeTree.{cubes_of};
ghost use Rattle.result_ledger.specs.Ledger.{cubes_in};

use crate::cubes::answers::{Expected, is_expected};
use crate::expectations::{ample, expect};
use cube_jobs::{Gate, Options, SearchFault, Settled};
use cube_queue::search;
use cube_tree::Tree;
use dimacs::Formula;
use result_ledger::Ledger;
use solver::{EncodingHints, PreparedFormula};
use std::alloc::Global;
use std::process::Abort;
use std::sync::Wait;
use std::thread::Threads;

/// The results of a search of all leaves of the tree.
pub fn results_of<R: Threads + Wait + Sync, G: Gate + Sync>(
    rt: &R,
    alloc: Global,
    formula: &Formula,
    tree: &Tree,
    options: &Options,
    gate: &G,
) -> Result<Vec<Settled>, SearchFault> {
    let ledger = Ledger::new(alloc, tree)?;
    let which = ledger.unanswered(alloc)?;
    let leaves = which.as_slice();
    let prepared = PreparedFormula::of(alloc, formula, EncodingHints::none())?;
    search(alloc, rt, formula, &prepared, tree, leaves, options, gate)
}

/// The ledger of the tree, without an answer.
pub fn new_ledger(rt: &impl Abort, alloc: Global, tree: &Tree) -> Ledger
    ensures { cubes_in result ≡ cubes_of tree.now }
{
    match Ledger::new(alloc, tree) {
        Ok(ledger) => ledger,
        Err(_) => panic!(rt; "there is no memory"),
    }
}

/// Enters the result, which is not handed back.
pub fn enter(rt: &impl Abort, ledger: &mut Ledger, settled: Settled)
    ensures { cubes_in ledger.new ≡ cubes_in ledger.old }
{
    let number = settled.ticket() as usize;
    expect(rt, ledger.enter(settled).is_ok(), number);
}

/// Enters all of the results.
pub fn enter_all(rt: &impl Abort, ledger: &mut Ledger, results: Vec<Settled>) {
    for settled in results {
        enter(rt, ledger, settled);
    }
}

/// Asserts that this verdict follows from the answers, in the case of this number.
pub fn assert_confirmed<R: Threads + Sync + Abort>(
    rt: &R,
    alloc: Global,
    ledger: &Ledger,
    formula: &Formula,
    expected: Expected,
    number: usize,
) {
    let verdict = ample(rt, ledger.confirm(alloc, rt, formula, 1));
    expect(rt, is_expected(&verdict, expected), number);
}

//! Answers that several workers confirm: any number of them comes to the same verdict.
ghost use Rattle.std.specs.Prelude.{◌≤◌};

use crate::workers::searches::{formula_of, tree_of};
use cube_jobs::{OpenGate, Options};
use cube_queue::search;
use dimacs::Formula;
use result_ledger::{Ledger, Verdict};
use solver::{EncodingHints, PreparedFormula};
use std::alloc::Global;
use std::process::Abort;
use std::sync::Wait;
use std::test::Fail;
use std::thread::Threads;

/// Each choice of truth values for both variables is ruled out by one clause.
pub const ALL_RULED_OUT: &str = "p cnf 2 4\n1 2 0\n1 -2 0\n-1 2 0\n-1 -2 0\n";

/// A leaf for each of these choices.
const FOUR_LEAVES: &[u8] = b"split 1\nsplit 2\nleaf\nleaf\nsplit 2\nleaf\nleaf\n";

/// A ledger of the four leaves with what a search says of them, but for the leaves that stay open.
fn ledger_but_for<R: Threads + Wait + Abort + Sync>(
    rt: &R,
    alloc: Global,
    formula: &Formula,
    open: &[u32],
) -> Result<Ledger, Fail> {
    let tree = tree_of(rt, alloc, FOUR_LEAVES);
    let options = Options::new(1, 2, 100, 1)
        .ok()
        .ok_or("an option is out of its range")?;
    let mut ledger = Ledger::new(alloc, &tree)?;
    let which = ledger.unanswered(alloc)?;
    let prepared = PreparedFormula::of(alloc, formula, EncodingHints::none())?;
    let results = search(
        alloc,
        rt,
        formula,
        &prepared,
        &tree,
        which.as_slice(),
        &options,
        &OpenGate,
    )
    .ok()
    .ok_or("there are no results")?;
    for settled in results {
        if open.contains(&settled.ticket()) {
            continue;
        }
        assert!(rt; ledger.enter(settled).is_ok());
    }
    Ok(ledger)
}

/// Returns whether this number of workers finds that these leaves are open, or, where there are none, that each leaf is refuted.
pub fn are_open<R: Threads + Sync>(
    rt: &R,
    alloc: Global,
    formula: &Formula,
    ledger: &Ledger,
    workers: u32,
    open: &[u32],
) -> Result<bool, Fail>
    requires { (1 ≤ workers) × (workers ≤ 8) }
{
    let verdict = ledger.confirm(alloc, rt, formula, workers)?;
    Ok(match verdict {
        Verdict::Consistent(_, _) => false,
        Verdict::Inconsistent(count) => count == ledger.leaves() && open.is_empty(),
        Verdict::Unknown(leaves) => leaves.as_slice() == open,
    })
}

#[test]
fn any_number_of_workers_confirms_the_same(rt: HostRuntime) -> Result<(), Fail> {
    let alloc = rt.alloc();
    let formula = formula_of(&rt, alloc, ALL_RULED_OUT);
    for open in [[].as_slice(), &[0, 3], &[2], &[0, 1, 2, 3]] {
        let ledger = ledger_but_for(&rt, alloc, &formula, open)?;
        assert!(&rt; ledger.leaves() == 4);
        for workers in 1..9 {
            let is_right = are_open(&rt, alloc, &formula, &ledger, workers, open)?;
            assert!(&rt; is_right, "{workers} workers");
        }
    }
    Ok(())
}

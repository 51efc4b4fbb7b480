//! A search in one thread.
ghost use Rattle.std.specs.Prelude.{◌⊎◌, IsTrue, IfOk};
ghost use Rattle.cube_jobs.specs.Results.{AreLeaves, AreResultsOf, HasModel};
ghost use Rattle.cube_tree.specs.CubeTree.{cubes_of};

use crate::leaf_jobs::job_of;
use crate::settler::Settler;
use crate::settling::{CubeSettler, is_model_result};
use cube_jobs::{Gate, Settled};
use cube_tree::{Tree, cubes};
use dimacs::ClauseList;
use proof_log::CubeSolver;
use std::alloc::{AllocError, Global};

/// Returns whether the last of the results is a model of the formula that makes its cube true.
fn ends_in_model<L: ClauseList>(formula: &L, results: &[Settled]) -> bool
    ensures { IsTrue result → HasModel (L.formula formula.now).clauses results.now }
{
    match results.last() {
        Some(settled) => is_model_result(formula, settled),
        None => false,
    }
}

/// Returns whether there is a model among the results: one was known before the last of them, or that is one.
fn knows_model<L: ClauseList>(formula: &L, known_before: bool, results: &[Settled]) -> bool
    ensures { IsTrue result → IsTrue known_before ⊎ HasModel (L.formula formula.now).clauses results.now }
{
    known_before || ends_in_model(formula, results)
}

/// Searches the cubes of these leaves of the tree one after the other, between the two calls of the gate, as worker 0. The leaves rise, so after a
/// model all that come are higher, and are skipped.
pub(crate) fn search_in_turn<L: ClauseList, S: CubeSolver, G: Gate>(
    alloc: Global,
    settler: &CubeSettler<L, S, G>,
    tree: &Tree,
    which: &[u32],
) -> Result<Vec<Settled>, AllocError>
    requires { AreLeaves (cubes_of tree.now) which.now }
    ensures { IfOk result (λ results. AreResultsOf (L.formula settler.now.formula.now).clauses (cubes_of tree.now) which.now results.items) }
{
    let cubes = cubes(alloc, tree)?;
    let mut results = Vec::with_capacity(alloc, which.len())?;
    let mut has_model = false;
    for leaf in which {
        // What the last leaf says is not looked at here: no leaf comes after it that could be skipped.
        has_model = knows_model(settler.formula, has_model, results.as_slice());
        let job = job_of(alloc, cubes.as_slice(), *leaf);
        settler.report_taken(0, *leaf);
        let settled = settler.settle(job, has_model);
        settler.report_conflicts();
        results.push(settled)?;
        settler.report_settled(0, *leaf);
    }
    Ok(results)
}

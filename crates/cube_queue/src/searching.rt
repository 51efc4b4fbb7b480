//! The search that settles the leaves of a tree.
ghost use Rattle.std.specs.Prelude.{◌≡◌, ◌≤◌, length, IfOk, IfErr};
ghost use Rattle.cube_jobs.specs.Results.{AreLeaves, AreResultsOf};
ghost use Rattle.cube_queue.specs.Faults.{IsFaultOf};
ghost use Rattle.cube_tree.specs.CubeTree.{cubes_of};

use crate::closing::close;
use crate::in_turn::search_in_turn;
use crate::leaf_jobs::jobs_of;
use crate::opening::open;
use crate::running::run;
use crate::settling::CubeSettler;
use cube_jobs::options::needed;
use cube_jobs::{Gate, Options, SearchFault, Settled};
use cube_tree::{Tree, bounded_cubes};
use dimacs::ClauseList;
use proof_log::CubeSolver;
use std::alloc::{AllocError, Global};
use std::sync::Wait;
use std::thread::Threads;

/// Searches the cubes of these leaves of the tree by several workers in threads of their own, no more of them than leaves.
fn search_in_threads<
    R: Threads + Wait + Sync,
    L: ClauseList + Sync,
    S: CubeSolver + Sync,
    G: Gate + Sync,
>(
    alloc: Global,
    rt: &R,
    settler: &CubeSettler<L, S, G>,
    tree: &Tree,
    which: &[u32],
    workers: u32,
) -> Result<Vec<Settled>, SearchFault>
    requires leaves { AreLeaves (cubes_of tree.now) which.now }
    requires workers { (2 ≤ workers) × (workers ≤ 8) }
    requires used { workers ≤ length which.now }
    ensures results { IfOk result (λ results. AreResultsOf (L.formula settler.now.formula.now).clauses (cubes_of tree.now) which.now results.items) }
    ensures fault { IfErr result (λ fault. IsFaultOf workers (cubes_of tree.now) which.now fault) }
{
    let cubes = bounded_cubes(alloc, tree)?;
    let jobs = jobs_of(alloc, cubes.as_slice(), which)?;
    let (site, crew) = open(alloc, workers, cubes.len() as u32, jobs)?;
    let returned = run(alloc, rt, &site, settler, crew)?;
    let results = close(alloc, rt, site, returned)?;
    Ok(results)
}

/// Searches the cubes of these leaves of the tree (cube and conquer: Heule, Kullmann, Wieringa and Biere, 2011) as a round of jobs, each
/// between the two calls of the gate. There is one result for each of them, with its cube, and no other. What a result says of its cube is untrusted, and checked by
/// the caller. All cubes share the solver, and nothing rests on it.
///
/// The workers search in threads of their own; a single one, or one for a single leaf, in the caller's. A worker that finds no memory
/// in a cube leaves that cube open. After a result that is a model of the formula and makes its cube true, the cubes of higher leaves
/// may be skipped.
///
/// A single worker fails only if memory runs out. If several are to search, it answers `NoThread` if the thread of one could not be
/// started, and then no job was put; and `Cut` if a job or a stop ticket came back, or fewer results than jobs came.
pub fn search<R: Threads + Wait + Sync, L: ClauseList + Sync, S: CubeSolver + Sync, G: Gate + Sync>(
    alloc: Global,
    rt: &R,
    formula: &L,
    solver: &S,
    tree: &Tree,
    which: &[u32],
    options: &Options,
    gate: &G,
) -> Result<Vec<Settled>, SearchFault>
    requires { AreLeaves (cubes_of tree.now) which.now }
    ensures results { IfOk result (λ results. AreResultsOf (L.formula formula.now).clauses (cubes_of tree.now) which.now results.items) }
    ensures fault { IfErr result (λ fault. IsFaultOf options.now.workers (cubes_of tree.now) which.now fault) }
{
    gate.begin_round(which.len());
    let workers = needed(options.workers(), which.len());
    let budget = options.budget();
    let settler = CubeSettler {
        alloc,
        formula,
        solver,
        budget,
        gate,
    };
    if workers < 2 {
        let results = search_in_turn(alloc, &settler, tree, which)?;
        return Ok(results);
    }
    search_in_threads(alloc, rt, &settler, tree, which, workers)
}

//! The rounds of a search: the leaves of a tree are searched, and those that stay open are split.
ghost use Rattle.std.specs.Prelude.{◌≡◌, IfOk, OnOk, length, map};
ghost use Rattle.clause_blocks.specs.Clauses.{clauses_of};
ghost use Rattle.cube_jobs.specs.Results.{AreLeaves};
ghost use Rattle.cube_tree.specs.CubeTree.{cubes_of};
ghost use Rattle.result_ledger.specs.Ledger.{cubes_in, empty_slot, HasAnswerAt};
ghost use Rattle.result_ledger.specs.Verdict.{AreWithout, IsVerdict};
ghost use Rattle.trace_decision.specs.Rounds.{AreOfUnanswered, HaveEnded, IsConfirmed, IsNext, IsSearched, first_tree, variables_of};

use crate::decided::{Decided, Next};
use crate::splitting::split_all;
use clause_blocks::trace_clauses::TraceClauses;
use cube_jobs::{Gate, Options, SearchFault, SearchRun, Settled};
use cube_queue::search;
use cube_tree::{Tree, grow};
use dimacs::MAX_CUBE_LITERALS;
use result_ledger::{Ledger, Verdict, enter_all};
use solver::CubeSolver;
use std::alloc::{AllocError, Global};
use std::sync::Wait;
use std::thread::Threads;

/// The leaves of the tree that have no answer, rising: all in the first round, and then those that a split has made. A leaf that was left open and
/// cannot be split has an answer, and is not searched again. The tree stands here for the clauses, which name it.
fn unanswered(alloc: Global, _tree: &Tree, ledger: &Ledger) -> Result<Vec<u32>, AllocError>
    requires { cubes_in ledger.now ≡ cubes_of _tree.now }
    ensures leaves { IfOk result (λ leaves. AreWithout (HasAnswerAt ledger.now) (length ledger.now) leaves.items) }
    ensures asked { IfOk result (λ leaves. AreLeaves (cubes_of _tree.now) leaves.items) }
{
    ledger.unanswered(alloc)
}

/// The results of the leaves that have no answer.
fn search_unanswered<R: Threads + Wait + Sync, S: CubeSolver + Sync, G: Gate + Sync>(
    run: &SearchRun<'_, R, G>,
    clauses: &TraceClauses,
    solver: &S,
    tree: &Tree,
    ledger: &Ledger,
) -> Result<Vec<Settled>, SearchFault>
    requires { cubes_in ledger.now ≡ cubes_of tree.now }
    ensures { IfOk result (λ results. AreOfUnanswered (clauses_of clauses.now) ledger.now results.items) }
{
    let which = unanswered(run.alloc, tree, ledger)?;
    search(
        run.alloc,
        run.rt,
        clauses,
        solver,
        tree,
        which.as_slice(),
        run.options,
        run.gate,
    )
}

/// Searches the leaves that have no answer, enters what is found, and gives the verdict that follows from what was answered for all leaves.
fn search_and_confirm<R: Threads + Wait + Sync, S: CubeSolver + Sync, G: Gate + Sync>(
    run: &SearchRun<'_, R, G>,
    clauses: &TraceClauses,
    solver: &S,
    tree: &Tree,
    ledger: &mut Ledger,
) -> Result<Verdict, SearchFault>
    requires { cubes_in ledger.old ≡ cubes_of tree.now }
    ensures cubes { cubes_in ledger.new ≡ cubes_of tree.now }
    ensures verdict { IfOk result (λ verdict. IsVerdict (clauses_of clauses.now) ledger.new verdict) }
    ensures searched { OnOk result (IsSearched (clauses_of clauses.now) ledger.old ledger.new) }
{
    let results = search_unanswered(run, clauses, solver, tree, ledger)?;
    enter_all(ledger, results);
    let verdict = ledger.confirm(run.alloc, run.rt, clauses, run.options.workers())?;
    Ok(verdict)
}

/// Searches the leaves that have no answer, enters what is found, and confirms what was answered for all leaves.
fn search_open<R: Threads + Wait + Sync, S: CubeSolver + Sync, G: Gate + Sync>(
    run: &SearchRun<'_, R, G>,
    clauses: &TraceClauses,
    solver: &S,
    tree: Tree,
    ledger: Ledger,
) -> Result<Decided, SearchFault>
    requires { cubes_in ledger ≡ cubes_of tree }
    ensures confirmed { IfOk result (λ decided. IsConfirmed (clauses_of clauses.now) decided) }
    ensures searched { IfOk result (λ decided. IsSearched (clauses_of clauses.now) ledger decided.ledger) }
{
    let mut ledger = ledger;
    let verdict = search_and_confirm(run, clauses, solver, &tree, &mut ledger)?;
    Ok(Decided {
        tree,
        ledger,
        verdict,
    })
}

/// The first tree, and a ledger of it without an answer.
fn first_leaves(
    alloc: Global,
    clauses: &TraceClauses,
    options: &Options,
) -> Result<(Tree, Ledger), AllocError>
    ensures cubes { IfOk result (λ first. cubes_in first.1 ≡ cubes_of first.0) }
    ensures empty { IfOk result (λ first. first.1 ≡ map empty_slot (cubes_of (first_tree clauses.now options.now.split))) }
{
    let tree = grow(alloc, clauses.layout(), options.split())?;
    let ledger = Ledger::new(alloc, &tree)?;
    Ok((tree, ledger))
}

/// The first round: the leaves of the first tree are searched.
fn search_first<R: Threads + Wait + Sync, S: CubeSolver + Sync, G: Gate + Sync>(
    run: &SearchRun<'_, R, G>,
    clauses: &TraceClauses,
    solver: &S,
) -> Result<Decided, SearchFault>
    ensures confirmed { IfOk result (λ decided. IsConfirmed (clauses_of clauses.now) decided) }
    ensures searched { IfOk result (λ decided. IsSearched (clauses_of clauses.now) (map empty_slot (cubes_of (first_tree clauses.now run.now.options.now.split))) decided.ledger) }
{
    let (tree, ledger) = first_leaves(run.alloc, clauses, run.options)?;
    search_open(run, clauses, solver, tree, ledger)
}

/// One more round, where the verdict is open and some open leaf can be split: the open leaves are split, and the new ones are searched.
fn search_again<R: Threads + Wait + Sync, S: CubeSolver + Sync, G: Gate + Sync>(
    run: &SearchRun<'_, R, G>,
    clauses: &TraceClauses,
    solver: &S,
    variables: &[u32],
    decided: Decided,
) -> Result<Next, SearchFault>
    requires { IsConfirmed (clauses_of clauses.now) decided }
    ensures { IfOk result (λ next. IsNext (clauses_of clauses.now) variables.now decided next) }
{
    let Decided {
        tree,
        ledger,
        verdict,
    } = decided;
    let Verdict::Unknown(open) = &verdict else {
        return Ok(Next::Ended(Decided {
            tree,
            ledger,
            verdict,
        }));
    };
    let before = ledger.leaves();
    let (tree, ledger) = split_all(run.alloc, variables, tree, ledger, open.as_slice())?;
    // No leaf was split, so a further round would have nothing to search.
    if ledger.leaves() == before {
        return Ok(Next::Ended(Decided {
            tree,
            ledger,
            verdict,
        }));
    }
    let after = search_open(run, clauses, solver, tree, ledger)?;
    Ok(Next::Searched(after))
}

/// The variables on which leaves are split: as many as a cube can have literals, so that one of them is not in a cube that may be split.
fn split_variables(alloc: Global, clauses: &TraceClauses) -> Result<Vec<u32>, AllocError>
    ensures { IfOk result (λ variables. variables.items ≡ variables_of clauses.now) }
{
    clauses.layout().first_splits(alloc, MAX_CUBE_LITERALS)
}

/// Searches in rounds, at most as many as the options say.
pub(crate) fn search_in_rounds<R: Threads + Wait + Sync, S: CubeSolver + Sync, G: Gate + Sync>(
    alloc: Global,
    rt: &R,
    clauses: &TraceClauses,
    solver: &S,
    options: &Options,
    gate: &G,
) -> Result<Decided, SearchFault>
    ensures cubes { IfOk result (λ decided. cubes_in decided.ledger ≡ cubes_of decided.tree) }
    ensures ended { IfOk result (λ decided. HaveEnded clauses.now options.now decided.ledger decided.verdict) }
{
    let run = SearchRun {
        alloc,
        rt,
        options,
        gate,
    };
    let variables = split_variables(alloc, clauses)?;
    let mut decided = search_first(&run, clauses, solver)?;
    for _round in 1..options.rounds() {
        match search_again(&run, clauses, solver, variables.as_slice(), decided)? {
            Next::Ended(last) => return Ok(last),
            Next::Searched(next) => decided = next,
        }
    }
    Ok(decided)
}

//! From a reduced trace to what is decided of it.
ghost use Rattle.std.specs.Prelude.{◌≡◌, ◌<◌, ℕ, length, IfOk, IfSome};
ghost use Rattle.std.specs.List.{Contains};
ghost use Rattle.cube_tree.specs.CubeTree.{cubes_of};
ghost use Rattle.dimacs.specs.Assignment.{value_of};
ghost use Rattle.schedule_decode.specs.Decode.{IsModelOfKept};
ghost use Rattle.trace_semantics.specs.Legal.{IsLegal, HasNoSchedule};
ghost use Rattle.result_ledger.specs.Ledger.{cubes_in};
ghost use Rattle.reducer.specs.Reduction.{kept_trace};
ghost use Rattle.clause_blocks.specs.Clauses.{clauses_of};
ghost use Rattle.trace_decision.specs.Decision.{IsDecided, IsRefutation, NamesOpen, AreCubesOf};
ghost use Rattle.trace_decision.specs.declared.decision.Decision.TheVariants.{Inconsistent};
ghost use Rattle.trace_decision.specs.Rounds.{HaveEnded};

use crate::decided::Decided;
use crate::decision::Decision;
use crate::guide::{guide_to_order, reads_from_table};
use crate::refutation::Refutation;
use crate::rounds::search_in_rounds;
use crate::whole_search::{KeptTrace, search_on};
use clause_blocks::trace_clauses::TraceClauses;
use cube_jobs::{Gate, Options, SearchFault, SearchRun};
use dimacs::{Assignment, ClauseList, Cube};
use plain_lists::PlainList;
use reducer::expand::expand;
use reducer::reduced::Reduced;
use result_ledger::{Ledger, Verdict, inconsistent_has_no_model, unknown_holds_all_models};
use schedule_decode::decode::schedule_of;
use solver::{CubeSolver, PreparedFormula, ReadsFromTable, SourceCounter};
use std::alloc::{AllocError, Global};
use std::sync::Wait;
use std::thread::Threads;
use trace_semantics::schedule::Schedule;

/// The schedule of the whole trace in which a model puts the kept operations. It is legal. The model is not tried again.
///
/// The operations that reduction has dropped are reads that `expand` puts back. The kept trace is asked for its contract alone, which says that it is the
/// reduction of the whole: that makes the expansion of a legal schedule legal.
fn whole_schedule(
    alloc: Global,
    reduced: &Reduced,
    clauses: &TraceClauses,
    truth: &Assignment,
) -> Result<Schedule, AllocError>
    requires { IsModelOfKept (value_of truth.now) clauses.now reduced.now.kept }
    ensures { IfOk result (λ schedule. IsLegal reduced.now.whole schedule) }
{
    let _kept = reduced.kept();
    let kept = schedule_of(alloc, reduced, clauses.layout(), truth)?;
    expand(alloc, reduced, &kept)
}

/// The cubes of these leaves, in order.
fn cubes_of_leaves(
    alloc: Global,
    ledger: &Ledger,
    leaves: &[u32],
) -> Result<PlainList<Cube>, AllocError>
    requires { (leaf : ℕ) → Contains leaves.now leaf → leaf < length ledger.now }
    ensures { IfOk result (λ cubes. AreCubesOf ledger.now leaves.now cubes) }
{
    let mut cubes = Vec::with_capacity(alloc, leaves.len())?;
    for leaf in leaves {
        cubes.push(Cube::of(alloc, ledger.cube(*leaf)))?;
    }
    Ok(PlainList::new(cubes))
}

/// Gives what is decided of the whole trace, by the verdict on the clauses of what is kept of it. The options stand here for the clauses, which name them.
fn decision_of(
    alloc: Global,
    reduced: &Reduced,
    clauses: &TraceClauses,
    _options: &Options,
    decided: Decided,
) -> Result<Decision, AllocError>
    requires clauses { clauses.now ≡ reduced.now.kept }
    requires cubes { cubes_in decided.ledger ≡ cubes_of decided.tree }
    requires ended { HaveEnded clauses.now _options.now decided.ledger decided.verdict }
    ensures decided { IfOk result (λ decision. IsDecided _options.now reduced.now.whole decision) }
    ensures named { IfOk result (λ decision. NamesOpen decided decision) }
{
    let _kept = reduced.kept();
    clauses.recall_invariant();
    let Decided {
        tree,
        ledger,
        verdict,
    } = decided;
    tree.recall_cover();
    ledger.recall_clauses();
    inconsistent_has_no_model();
    unknown_holds_all_models();
    match &verdict {
        Verdict::Consistent(_, truth) => {
            let schedule = whole_schedule(alloc, reduced, clauses, truth)?;
            Ok(Decision::Consistent(schedule))
        }
        Verdict::Inconsistent(_) => {
            let derivations = ledger.into_derivations(alloc)?;
            Ok(Decision::Inconsistent(Refutation { tree, derivations }))
        }
        Verdict::Unknown(leaves) => {
            let cubes = cubes_of_leaves(alloc, &ledger, leaves.as_slice())?;
            Ok(Decision::Unknown(cubes))
        }
    }
}

/// Searches the whole formula before its cubes: what is found there answers for all of them.
fn search_before_cubes<R: Threads + Wait + Sync, G: Gate>(
    alloc: Global,
    rt: &R,
    kept: KeptTrace<'_>,
    prepared: &mut PreparedFormula,
    options: &Options,
    gate: &G,
) -> Result<(), SearchFault> {
    let budget = options.budget();
    let layout = kept.clauses.layout();
    let splits = layout.first_splits(alloc, options.split() as usize)?;
    prepared.count_whole(alloc, splits.len(), budget)?;
    // The number of splits is that of the literals of a cube: ids of what is found for the whole leave room for them. Without a search to go on with,
    // the whole is settled, or is left to the cubes.
    let Some(first) = prepared.search_whole(alloc, splits.as_slice(), budget)? else {
        return Ok(());
    };
    let run = SearchRun {
        alloc,
        rt,
        options,
        gate,
    };
    let answer = search_on(&run, kept, prepared, first)?;
    prepared.know(splits.len(), answer);
    Ok(())
}

/// Prepares the formula of the clauses, with hints about their structure, and searches it whole.
fn prepared_formula<'a, R: Threads + Wait + Sync, G: Gate>(
    alloc: Global,
    rt: &R,
    kept: KeptTrace<'_>,
    reads_from: &'a ReadsFromTable,
    options: &Options,
    gate: &G,
) -> Result<PreparedFormula<'a>, SearchFault> {
    let encoding = guide_to_order(kept.clauses).with_reads_from(reads_from);
    let mut prepared = PreparedFormula::of(alloc, kept.clauses, encoding)?;
    search_before_cubes(alloc, rt, kept, &mut prepared, options, gate)?;
    Ok(prepared)
}

/// The steps that one derivation for the whole may take whatever the budget of a search is. The largest lock of 160 operations takes 786 thousand.
const MOST_STEPS: u64 = 1_000_000;

/// From this number of steps on a derivation for the whole stands once, in a tree of one leaf. A shorter one is copied to each leaf of the tree that was asked for.
const LONG_STEPS: u64 = 10_000;

/// Gives the refutation of the whole as one cube, if the solver has one. All workers of the options check it.
fn refute_as_one_cube<R: Threads + Wait + Sync, S: CubeSolver + Sync, G: Gate + Sync>(
    run: &SearchRun<'_, R, G>,
    reduced: &Reduced,
    clauses: &TraceClauses,
    solver: &S,
) -> Result<Option<Refutation>, SearchFault>
    requires { clauses.now ≡ reduced.now.kept }
    ensures { IfOk result (λ found. IfSome found (λ refutation. IsRefutation (clauses_of (kept_trace reduced.now.whole)) refutation × HasNoSchedule reduced.now.whole)) }
{
    let alloc = run.alloc;
    // A tree of one leaf, and one round. These numbers are in their ranges, so there are such options.
    let Ok(one_cube) = Options::new(run.options.workers(), 0, MOST_STEPS, 1) else {
        return Ok(None);
    };
    let decided = search_in_rounds(alloc, run.rt, clauses, solver, &one_cube, run.gate)?;
    match decision_of(alloc, reduced, clauses, &one_cube, decided)? {
        Decision::Inconsistent(refutation) => Ok(Some(refutation)),
        _ => Ok(None),
    }
}

/// Gives a refutation by counting, if there is one that the budget of the search was too small for. Its tree is one leaf, since each cube would have
/// the same long derivation. A search that may have no conflict decides nothing, and neither does counting for it.
fn refute_by_counting<R: Threads + Wait + Sync, G: Gate + Sync>(
    run: &SearchRun<'_, R, G>,
    reduced: &Reduced,
    clauses: &TraceClauses,
) -> Result<Option<Refutation>, SearchFault>
    requires { clauses.now ≡ reduced.now.kept }
    ensures { IfOk result (λ found. IfSome found (λ refutation. IsDecided run.now.options.now reduced.now.whole (Inconsistent refutation))) }
{
    let alloc = run.alloc;
    let budget = run.options.budget();
    // With a budget from `MOST_STEPS` on, the search has counted with as many steps before.
    if budget == 0 || budget >= MOST_STEPS {
        return Ok(None);
    }
    let reads_from = reads_from_table(alloc, clauses)?;
    let encoding = guide_to_order(clauses).with_reads_from(&reads_from);
    let prepared = PreparedFormula::of(alloc, clauses, encoding)?;
    let counter = SourceCounter::of(&prepared);
    refute_as_one_cube(run, reduced, clauses, &counter)
}

/// Gives the refutation of the whole that the search before the cubes has found, as one cube, if it is long: else each leaf of the certificate would have a copy of it,
/// and `recheck` would check each.
fn long_refutation<R: Threads + Wait + Sync, G: Gate + Sync>(
    run: &SearchRun<'_, R, G>,
    reduced: &Reduced,
    clauses: &TraceClauses,
    prepared: &PreparedFormula,
) -> Result<Option<Refutation>, SearchFault>
    requires { clauses.now ≡ reduced.now.kept }
    ensures { IfOk result (λ found. IfSome found (λ refutation. IsRefutation (clauses_of (kept_trace reduced.now.whole)) refutation × HasNoSchedule reduced.now.whole)) }
{
    let steps = prepared.refutation_steps() as u64;
    if steps < LONG_STEPS || steps > MOST_STEPS {
        return Ok(None);
    }
    refute_as_one_cube(run, reduced, clauses, prepared)
}

/// Decides whether the whole trace has a legal schedule, within the limits of the options.
pub fn decide<R: Threads + Wait + Sync, G: Gate + Sync>(
    alloc: Global,
    rt: &R,
    reduced: &Reduced,
    options: &Options,
    gate: &G,
) -> Result<Decision, SearchFault>
    ensures { IfOk result (λ decision. IsDecided options.now reduced.now.whole decision) }
{
    let clauses = TraceClauses::of(alloc, reduced)?;
    let reads_from = reads_from_table(alloc, &clauses)?;
    let kept = KeptTrace {
        trace: reduced.kept(),
        clauses: &clauses,
    };
    let run = SearchRun {
        alloc,
        rt,
        options,
        gate,
    };
    let prepared = prepared_formula(alloc, rt, kept, &reads_from, options, gate)?;
    if let Some(refutation) = long_refutation(&run, reduced, &clauses, &prepared)? {
        return Ok(Decision::Inconsistent(refutation));
    }
    let decided = search_in_rounds(alloc, rt, &clauses, &prepared, options, gate)?;
    let decision = decision_of(alloc, reduced, &clauses, options, decided)?;
    // Counting with more steps comes last, as it prepares the formula anew.
    if let Decision::Unknown(_) = &decision {
        if let Some(refutation) = refute_by_counting(&run, reduced, &clauses)? {
            return Ok(Decision::Inconsistent(refutation));
        }
    }
    Ok(decision)
}

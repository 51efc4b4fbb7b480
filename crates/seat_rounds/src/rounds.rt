//! Rounds, until there is an answer or the budget is used up.

ghost use Rattle.std.specs.Prelude.{IfOk, IfSome};
ghost use Rattle.cube_jobs.specs.Results.{AreLeaves};
ghost use Rattle.cube_tree.specs.CubeTree.{cubes_of};
ghost use Rattle.proof_log.specs.Answers.{IsWithin};

use crate::beside::{ModelSearch, RoundBeside};
use crate::leaves::leaves_of;
use crate::seats::Seats;
use cube_jobs::{Gate, OpenGate, SearchFault, SearchRun};
use cube_queue::search;
use cube_tree::Tree;
use dimacs::{Assignment, ClauseList};
use proof_log::{Answer, Attempt, SharingLearner};
use std::alloc::{AllocError, Global};
use std::sync::Wait;
use std::thread::Threads;

/// Conflicts of a seat in a round. Fewer share sooner what is learned, but each seat goes back to level 0 for it: of five traces without a schedule the seats
/// took 119 thousand conflicts in rounds of 100, and 123 thousand in rounds of 50.
const ROUND_CONFLICTS: u64 = 100;

/// Runs a round: each of these leaves stands for a seat. Returns how many conflicts there were.
fn run_round<R: Threads + Wait + Sync, L: ClauseList + Sync, S: SharingLearner + Drop + Send, G>(
    run: &SearchRun<'_, R, G>,
    formula: &L,
    tree: &Tree,
    leaves: &[u32],
    seats: &mut Seats<S>,
    conflicts: u64,
) -> Result<u64, SearchFault>
    requires { AreLeaves (cubes_of tree.now) leaves.now }
{
    seats.begin_round(conflicts)?;
    let _results = search(
        run.alloc,
        run.rt,
        formula,
        &seats.round,
        tree,
        leaves,
        run.options,
        &OpenGate,
    )?;
    Ok(seats.additions())
}

/// Runs a round in which the jobs of the first seats look for a model in these ways. Returns the model of the first way that has found one.
fn look_in_round<
    R: Threads + Wait + Sync,
    L: ClauseList + Sync,
    S: SharingLearner + Drop + Send,
    M: ModelSearch + Drop + Sync,
    G,
>(
    run: &SearchRun<'_, R, G>,
    formula: &L,
    tree: &Tree,
    seats: &mut Seats<S>,
    models: M,
    conflicts: u64,
) -> Result<Option<Assignment>, SearchFault> {
    let leaves = leaves_of(run.alloc, tree)?;
    seats.begin_round(conflicts)?;
    let mut beside = RoundBeside::new(run.alloc, &seats.round, models)?;
    let _results = search(
        run.alloc,
        run.rt,
        formula,
        &beside,
        tree,
        leaves.as_slice(),
        run.options,
        &OpenGate,
    )?;
    let found = beside.model(run.alloc, leaves.len())?;
    Ok(found)
}

/// Searches of one formula that go on in rounds, and the conflicts that they may still have.
#[derive(Drop)]
pub struct SeatSearch<S> {
    seats: Seats<S>,
    left: u64,
}

impl<S: SharingLearner + Drop + Send> SeatSearch<S> {
    /// Starts with these searches, of which only the first may have learned clauses already. All together may have `budget` conflicts, with those
    /// that the first has had.
    pub fn new(
        alloc: Global,
        searches: Vec<Attempt<S>>,
        budget: u64,
    ) -> Result<SeatSearch<S>, AllocError> {
        let mut seats = Seats::new(alloc, searches)?;
        // Before the first round the only additions are those of the first search.
        let left = budget.saturating_sub(seats.additions());
        Ok(SeatSearch { seats, left })
    }

    /// The conflicts that each seat may have in the next round, of this many at most, none if they are used up. All these seats are charged what they may use,
    /// also those that wait, so the number of rounds does not depend on what they use.
    fn charge_round(&mut self, most: u64, seats: u64) -> u64 {
        let count = seats.max(1);
        let conflicts = most.min(self.left / count);
        self.left = self.left.saturating_sub(conflicts.saturating_mul(count));
        conflicts
    }

    /// Goes on for at most this many rounds. The answer is that of the lowest search that has ended with one, or else of the lowest that is refuted without a
    /// further conflict, or `Open` if all together have had their conflicts; there is none yet if the rounds are over before. After each round the searches exchange what they have learned. One whose number is not that of a
    /// leaf of the tree waits. Each round is searched by the workers of the options, and the gate gets its conflicts. A derivation has at most `steps`
    /// steps: if a search ends with a longer one, the answer is `Open`, and if one takes more without a further conflict, the search goes on.
    pub fn go_on<R: Threads + Wait + Sync, L: ClauseList + Sync, G: Gate>(
        &mut self,
        run: &SearchRun<'_, R, G>,
        formula: &L,
        tree: &Tree,
        rounds: u64,
        steps: u64,
    ) -> Result<Option<Answer>, SearchFault>
        ensures { IfOk result (λ found. IfSome found (λ answer. IsWithin steps answer)) }
    {
        let leaves = leaves_of(run.alloc, tree)?;
        let count = self.seats.count();
        for _ in 0..rounds {
            let conflicts = self.charge_round(ROUND_CONFLICTS, count);
            if conflicts == 0 {
                return Ok(Some(Answer::Open));
            }
            let had = run_round(
                run,
                formula,
                tree,
                leaves.as_slice(),
                &mut self.seats,
                conflicts,
            )?;
            run.gate.conflicts(had);
            if let Some(answer) = self.seats.answer(steps)? {
                return Ok(Some(answer));
            }
        }
        Ok(None)
    }

    /// Goes on for a round in which the first seats have no conflicts: the job of each looks for a model in one of these ways. The others have the conflicts of as
    /// many rounds as a look takes, as long as they last. The answer is the model of the first way that has found one, or else that of the round, as in `go_on`.
    pub fn look_beside<
        R: Threads + Wait + Sync,
        L: ClauseList + Sync,
        M: ModelSearch + Drop + Sync,
        G: Gate,
    >(
        &mut self,
        run: &SearchRun<'_, R, G>,
        formula: &L,
        tree: &Tree,
        models: M,
        steps: u64,
    ) -> Result<Option<Answer>, SearchFault>
        ensures { IfOk result (λ found. IfSome found (λ answer. IsWithin steps answer)) }
    {
        let searching = self.seats.count().saturating_sub(models.ways() as u64);
        let most = ROUND_CONFLICTS.saturating_mul(models.rounds());
        let conflicts = self.charge_round(most, searching);
        let found = look_in_round(run, formula, tree, &mut self.seats, models, conflicts)?;
        run.gate.conflicts(self.seats.additions());
        if let Some(model) = found {
            return Ok(Some(Answer::Model(model)));
        }
        Ok(self.seats.answer(steps)?)
    }
}

//! Jobs are settled by the solver.
ghost use Rattle.std.specs.Prelude.{◌≡◌, IsTrue};
ghost use Rattle.cube_jobs.specs.declared.outcome.Outcome.TheVariants.{Skipped};
ghost use Rattle.cube_jobs.specs.Models.{IsModelResult};

use crate::settler::Settler;
use cube_jobs::{Gate, Job, Outcome, Settled, is_model_in};
use dimacs::{ClauseList, Lit};
use proof_log::{Answer, CubeSolver};
use std::alloc::Global;

/// What jobs are settled with, by workers in threads of their own or by one in the caller's thread.
#[derive(Clone, Copy)]
pub(crate) struct CubeSettler<'a, L, S, G> {
    /// Where memory is taken for the search of a cube.
    pub(crate) alloc: Global,
    /// The formula, to try models on. The solver has its own form of it.
    pub(crate) formula: &'a L,
    /// The solver of its cubes.
    pub(crate) solver: &'a S,
    /// Conflicts per cube.
    pub(crate) budget: u64,
    /// What sees each job before it is settled, and after.
    pub(crate) gate: &'a G,
}

impl<'a, L: ClauseList, S: CubeSolver, G: Gate> Settler for CubeSettler<'a, L, S, G> {
    ghost clauses = { λ settler. (L.formula settler.formula.now).clauses };

    fn settle(&self, job: Job, skips: bool) -> Settled {
        settle_job(self.alloc, self.solver, job, self.budget, skips)
    }

    fn confirms(&self, settled: &Settled) -> bool {
        is_model_result(self.formula, settled)
    }

    fn report_taken(&self, worker: u32, ticket: u32) {
        self.gate.before(worker, ticket);
    }

    fn report_conflicts(&self) {
        self.gate.conflicts(self.solver.take_conflicts());
    }

    fn report_settled(&self, worker: u32, ticket: u32) {
        self.gate.after(worker, ticket);
    }
}

/// The solver's answer for the cube. A search that finds no memory leaves it open.
fn outcome_of<S: CubeSolver>(alloc: Global, solver: &S, cube: &[Lit], budget: u64) -> Outcome
    ensures { result ≡ Skipped → ⊥ }
{
    match solver.solve(alloc, cube, budget) {
        Ok(Answer::Model(assignment)) => Outcome::Model(assignment),
        Ok(Answer::Refuted(derivation)) => Outcome::Refuted(derivation),
        Ok(Answer::Open) => Outcome::Open,
        Err(_) => Outcome::Open,
    }
}

/// Settles the job: its cube is searched, or skipped if a model in a lower leaf makes it unneeded.
fn settle_job<S: CubeSolver>(
    alloc: Global,
    solver: &S,
    job: Job,
    budget: u64,
    skips: bool,
) -> Settled
    ensures ticket { result.ticket ≡ job.ticket }
    ensures cube { result.cube ≡ job.cube }
    ensures skipped { result.outcome ≡ Skipped → IsTrue skips }
{
    if skips {
        return job.settle(Outcome::Skipped);
    }
    let outcome = outcome_of(alloc, solver, job.cube(), budget);
    job.settle(outcome)
}

/// Returns whether the result is a model of the formula that makes its cube true.
pub(crate) fn is_model_result<L: ClauseList>(formula: &L, settled: &Settled) -> bool
    ensures { IsTrue result → IsModelResult (L.formula formula.now).clauses settled.now }
{
    match settled.outcome() {
        Outcome::Model(assignment) => is_model_in(formula, settled.cube(), assignment),
        Outcome::Refuted(_) => false,
        Outcome::Open => false,
        Outcome::Skipped => false,
    }
}

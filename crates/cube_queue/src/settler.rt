//! Who settles jobs.
ghost use Rattle.std.specs.Prelude.{◌≡◌, ℤ, List, IsTrue};
ghost use Rattle.cube_jobs.specs.declared.outcome.Outcome.TheVariants.{Skipped};
ghost use Rattle.cube_jobs.specs.Models.{IsModelResult};

use cube_jobs::{Job, Settled};

/// A settler of jobs, which all workers share. It also reports to the gate of the search, and nothing is promised of a report.
pub(crate) trait Settler {
    /// The clauses of which models are sought.
    ghost clauses: { Self → List (List ℤ) };

    /// Settles the job: its cube is searched, or skipped if a model in a lower leaf makes it unneeded.
    fn settle(&self, job: Job, skips: bool) -> Settled
        ensures ticket { result.ticket ≡ job.ticket }
        ensures cube { result.cube ≡ job.cube }
        ensures skipped { result.outcome ≡ Skipped → IsTrue skips };

    /// Returns whether the result is a model of the clauses that makes its cube true.
    fn confirms(&self, settled: &Settled) -> bool
        ensures { IsTrue result → IsModelResult (clauses self.now) settled.now };

    /// Reports that the worker has taken the job of this ticket.
    fn report_taken(&self, worker: u32, ticket: u32);

    /// Reports the number of conflicts since it was last reported.
    fn report_conflicts(&self);

    /// Reports that the worker has settled the job of this ticket.
    fn report_settled(&self, worker: u32, ticket: u32);
}

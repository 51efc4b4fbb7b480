//! A worker's work.
ghost use Rattle.std.specs.Prelude.{◌≡◌, ◌<◌, ◌≤◌, ◌⊎◌, [], ◌∷◌, ◌++◌, None, Some, IsTrue, IsFalse};
ghost use Rattle.cube_jobs.specs.declared.outcome.Outcome.TheVariants.{Skipped};
ghost use Rattle.cube_jobs.specs.Models.{IsModelResult};
ghost use Rattle.job_board.specs.InFlight.{ticket_in};
ghost use Rattle.job_board.specs.Seats.{given_by, IsWorkerAt};
ghost use Rattle.stop_word.specs.WordRule.{or_nothing};
ghost use Rattle.cube_queue.specs.Workers.{IsHonest, IsReady, HasWorked};

use crate::participants::Worker;
use crate::settler::Settler;
use crate::shared_search::SharedSearch;
use cube_jobs::{Job, Settled};
use job_board::WorkerSeat;
use std::alloc::Global;
use std::sync::Wait;
use stop_word::StopSeat;

/// Returns whether a mark was shown that is below this ticket: then the lowest model is in a lower leaf, and this job cannot change the verdict.
fn is_past(shown: Option<u32>, ticket: u32) -> bool
    ensures { IsTrue result → or_nothing shown < ticket }
{
    match shown {
        Some(least) => least < ticket,
        None => false,
    }
}

/// Looks at the stop word and settles the job, which is skipped where a lower ticket is marked.
fn look_and_settle<S: Settler>(
    site: &SharedSearch,
    settler: &S,
    worker: u32,
    stop: &mut StopSeat,
    job: Job,
) -> Settled
    requires { stop.old.word ≡ site.now.word }
    ensures ticket { result.ticket ≡ job.ticket }
    ensures stop { (stop.new.word ≡ site.now.word) × (stop.new.knows.parts ≡ stop.old.knows.parts) × (stop.new.knows.marks ≡ stop.old.knows.marks) }
    ensures lower { stop.new.knows.least ≤ stop.old.knows.least }
    ensures skipped { result.outcome ≡ Skipped → stop.new.knows.least < result.ticket }
{
    // The report comes before the look: a test that waits in the gate decides what the look can show.
    settler.report_taken(worker, job.ticket());
    let shown = site.word.look(stop);
    let skips = is_past(shown, job.ticket());
    settler.settle(job, skips)
}

/// Marks the result's ticket where the result is a model of the clauses that makes its cube true. It is tried first: if it were none, the leaves that
/// were skipped for it would stay unproved.
fn mark_model<S: Settler>(site: &SharedSearch, settler: &S, stop: &mut StopSeat, settled: &Settled)
    requires { stop.old.word ≡ site.now.word }
    ensures stop { (stop.new.word ≡ site.now.word) × (stop.new.knows.parts ≡ stop.old.knows.parts) }
    ensures lower { stop.new.knows.least ≤ stop.old.knows.least }
    ensures marks { (stop.new.knows.marks ≡ stop.old.knows.marks) ⊎ ((stop.new.knows.marks ≡ stop.old.knows.marks ++ settled.now.ticket ∷ []) × IsModelResult (S.clauses settler.now) settled.now) }
{
    if settler.confirms(settled) {
        site.word.mark(stop, settled.ticket());
    }
}

/// Settles the job in flight, and gives its result. If the board returns it, the job stays in flight.
fn settle_next<R: Wait, S: Settler>(
    rt: &R,
    site: &SharedSearch,
    settler: &S,
    seat: &mut WorkerSeat,
    stop: &mut StopSeat,
    job: Job,
) -> bool
    requires seat { IsWorkerAt site.now.board seat.old × (ticket_in seat.old.hand ≡ Some job.ticket) }
    requires stop { (stop.old.word ≡ site.now.word) × IsHonest (S.clauses settler.now) stop.old.knows (given_by seat.old) }
    ensures seat { IsWorkerAt site.now.board seat.new × (seat.new.number ≡ seat.old.number) }
    ensures stop { (stop.new.word ≡ site.now.word) × (stop.new.knows.parts ≡ stop.old.knows.parts) }
    ensures given { IsTrue result → (ticket_in seat.new.hand ≡ None) × IsHonest (S.clauses settler.now) stop.new.knows (given_by seat.new) }
    ensures held { IsFalse result → ticket_in seat.new.hand ≡ Some job.ticket }
{
    let worker = seat.number();
    let ticket = job.ticket();
    let settled = look_and_settle(site, settler, worker, stop, job);
    mark_model(site, settler, stop, &settled);
    settler.report_conflicts();
    match site.board.give(rt, seat, settled) {
        Ok(()) => {
            settler.report_settled(worker, ticket);
            true
        }
        Err(_settled) => false,
    }
}

/// Settles jobs until there are no more.
pub(crate) fn work<R: Wait, S: Settler>(
    alloc: Global,
    rt: &R,
    site: &SharedSearch,
    settler: &S,
    member: Worker,
) -> Worker
    requires { IsReady site.now member }
    ensures { HasWorked (S.clauses settler.now) site.now member result }
{
    let Worker { mut seat, mut stop } = member;
    for _ in rt.forever() {
        let Ok(job) = site.board.take(alloc, rt, &mut seat) else {
            return Worker { seat, stop };
        };
        if !settle_next(rt, site, settler, &mut seat, &mut stop, job) {
            return Worker { seat, stop };
        }
    }
    unreachable!()
}

//! A search is run in threads.
ghost use Rattle.std.specs.Prelude.{IfOk, IfErr};
ghost use Rattle.cube_queue.specs.Participants.{IsCrewAt, HasRun};
ghost use Rattle.cube_queue.specs.Faults.{IsFaultAt};

use crate::gathering::gather_all;
use crate::joining::join_all;
use crate::participants::{Participants, Returned};
use crate::putting::{deal, put_stops};
use crate::settler::Settler;
use crate::shared_search::SharedSearch;
use crate::starting::start_all;
use cube_jobs::{SearchCause, SearchFault};
use std::alloc::Global;
use std::sync::Wait;
use std::thread;
use std::thread::{Scope, Threads};
use text_lines::plain_fault::PlainFault;

/// Starts a thread for each worker, puts all jobs, gathers their results, and joins the threads. A stop ticket is put for each worker
/// whatever has failed before, so each thread that was started ends. No job is put where one could not be started.
fn run_members<'s, E, R: Threads + Wait + Sync, S: Settler + Sync>(
    alloc: Global,
    rt: &'s R,
    scope: &Scope<'s, E>,
    site: &'s SharedSearch,
    settler: &'s S,
    crew: Participants,
) -> Result<Returned, SearchFault>
    requires { IsCrewAt site.now crew }
    ensures returned { IfOk result (λ returned. HasRun (S.clauses settler.entry.now) site.entry.now crew returned) }
    ensures fault { IfErr result (λ fault. IsFaultAt site.entry.now.board crew.jobs.items fault) }
{
    let Participants {
        mut dealer,
        mut collector,
        members,
        jobs,
    } = crew;
    let count = jobs.len();
    // If this fails, the scope still joins the threads that were started, so these need their stop tickets.
    let handles = match start_all(alloc, rt, scope, site, settler, members) {
        Ok(handles) => handles,
        Err(fault) => {
            put_stops(alloc, rt, &site.board, &mut dealer);
            return Err(fault);
        }
    };
    if !deal(alloc, rt, &site.board, &mut dealer, jobs) {
        return Err(PlainFault::For(SearchCause::Cut));
    }
    // Only now, when all jobs are put: no worker waits for it, since the result channel has room for the results of all cubes.
    let results = gather_all(alloc, rt, &site.board, &mut collector, count)?;
    let members = join_all(rt, handles)?;
    Ok(Returned {
        dealer,
        collector,
        members,
        results,
    })
}

/// Runs the search of these participants: each worker works in a thread of its own, and this thread deals and gathers.
pub(crate) fn run<R: Threads + Wait + Sync, S: Settler + Sync>(
    alloc: Global,
    rt: &R,
    site: &SharedSearch,
    settler: &S,
    crew: Participants,
) -> Result<Returned, SearchFault>
    requires { IsCrewAt site.now crew }
    ensures returned { IfOk result (λ returned. HasRun (S.clauses settler.now) site.now crew returned) }
    ensures fault { IfErr result (λ fault. IsFaultAt site.now.board crew.jobs.items fault) }
{
    thread::scope(
        thread::scope_env(),
        rt,
        move |scope| -> Result<Returned, SearchFault>
            requires { IsCrewAt site.now crew }
            ensures returned { IfOk result (λ returned. HasRun (S.clauses settler.entry.now) site.entry.now crew returned) }
            ensures fault { IfErr result (λ fault. IsFaultAt site.entry.now.board crew.jobs.items fault) }
        { run_members(alloc, rt, scope, site, settler, crew) },
    )
}

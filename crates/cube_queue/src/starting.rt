//! The workers' threads are started.
ghost use Rattle.std.specs.Prelude.{◌≡◌, ◌⊎◌, IfOk, IfErr, map};
ghost use Rattle.std.specs.List.{All};
ghost use Rattle.cube_jobs.specs.declared.search_fault.SearchCause.TheVariants.{NoThread};
ghost use Rattle.text_lines.specs.declared.plain_fault.PlainFault.TheVariants.{OutOfMemory, For};
ghost use Rattle.cube_queue.specs.Workers.{IsReady, HasWorked};

use crate::participants::Worker;
use crate::promised::WorkerOf;
use crate::settler::Settler;
use crate::shared_search::SharedSearch;
use crate::working::work;
use cube_jobs::{SearchCause, SearchFault};
use std::alloc::Global;
use std::snapshot::Snapshot;
use std::sync::Wait;
use std::thread::{PromisedHandle, Scope};
use text_lines::plain_fault::PlainFault;

/// Starts a thread in which this worker works.
fn start<'s, E, R: Wait + Sync, S: Settler + Sync>(
    alloc: Global,
    rt: &'s R,
    scope: &Scope<'s, E>,
    site: &'s SharedSearch,
    settler: &'s S,
    member: Worker,
) -> Result<PromisedHandle<Worker, WorkerOf<S>>, SearchFault>
    requires ready { IsReady site.now member }
    ensures handle { IfOk result (λ handle. (handle.promise.site.value ≡ site.entry.now) × (handle.promise.settler.value ≡ settler.entry.now) × (handle.promise.member.value ≡ member)) }
    ensures refused { IfErr result (λ fault. fault ≡ For NoThread) }
{
    let promise = WorkerOf {
        site: Snapshot::of(site),
        settler: Snapshot::of(settler),
        member: Snapshot::of(&member),
    };
    match scope.spawn_with(
        promise,
        move || -> Worker
            requires { IsReady site.now member }
            ensures { HasWorked (S.clauses settler.entry.now) site.entry.now member result }
        { work(alloc, rt, site, settler, member) },
    ) {
        Ok(handle) => Ok(handle),
        Err(_refused) => Err(PlainFault::For(SearchCause::NoThread)),
    }
}

/// Starts a thread for each of these workers. Gives the threads' handles in the order of the workers, or, if a thread cannot be started or
/// memory runs out, the refusal: the threads that were started work on then, until the caller puts stop tickets.
pub(crate) fn start_all<'s, E, R: Wait + Sync, S: Settler + Sync>(
    alloc: Global,
    rt: &'s R,
    scope: &Scope<'s, E>,
    site: &'s SharedSearch,
    settler: &'s S,
    members: Vec<Worker>,
) -> Result<Vec<PromisedHandle<Worker, WorkerOf<S>>>, SearchFault>
    requires { All (IsReady site.now) members.items }
    ensures members { IfOk result (λ handles. map (λ handle. handle.promise.member.value) handles.items ≡ members.items) }
    ensures site { IfOk result (λ handles. All (λ handle. handle.promise.site.value ≡ site.entry.now) handles.items) }
    ensures settler { IfOk result (λ handles. All (λ handle. handle.promise.settler.value ≡ settler.entry.now) handles.items) }
    ensures refused { IfErr result (λ fault. (fault ≡ OutOfMemory) ⊎ (fault ≡ For NoThread)) }
{
    let mut handles = Vec::with_capacity(alloc, members.len())?;
    for member in members {
        handles.push(start(alloc, rt, scope, site, settler, member)?)?;
    }
    Ok(handles)
}

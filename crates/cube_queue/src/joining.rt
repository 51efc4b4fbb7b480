//! The workers' threads are joined.
ghost use Rattle.std.specs.Prelude.{IfOk};
ghost use Rattle.std.specs.List.{AllZip};
ghost use Rattle.cube_queue.specs.Workers.{HasWorked};

use crate::participants::Worker;
use crate::promised::WorkerOf;
use crate::settler::Settler;
use std::alloc::AllocError;
use std::thread::{PromisedHandle, Threads, join_promised};

/// All workers, in the order of their handles, once each thread has ended.
pub(crate) fn join_all<R: Threads, S: Settler>(
    rt: &R,
    handles: Vec<PromisedHandle<Worker, WorkerOf<S>>>,
) -> Result<Vec<Worker>, AllocError>
    ensures { IfOk result (λ members. AllZip (λ handle member. HasWorked (S.clauses handle.promise.settler.value) handle.promise.site.value handle.promise.member.value member) handles.items members.items) }
{
    let members = join_promised(rt, handles)?;
    Ok(members)
}

//! What a worker's thread promises.
use crate::participants::Worker;
use crate::settler::Settler;
use crate::shared_search::SharedSearch;
use std::snapshot::Snapshot;
use std::thread::Promise;

/// The promise that this worker will have worked on this shared search, with this settler.
#[derive(Drop)]
pub(crate) struct WorkerOf<S> {
    pub(crate) site: Snapshot<SharedSearch>,
    pub(crate) settler: Snapshot<S>,
    pub(crate) member: Snapshot<Worker>,
}

impl<S: Settler> Promise<Worker> for WorkerOf<S> {
    ghost use Rattle.cube_queue.specs.Workers.{HasWorked};

    ghost kept_by = { λ promise member. HasWorked (S.clauses promise.settler.value) promise.site.value promise.member.value member };
}

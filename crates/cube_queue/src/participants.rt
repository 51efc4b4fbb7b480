//! Who takes part in a search.
use cube_jobs::{Job, Settled};
use job_board::{CollectorSeat, DealerSeat, WorkerSeat};
use stop_word::StopSeat;

/// A worker: its seat at the board, and its seat at the stop word.
#[derive(Drop)]
pub(crate) struct Worker {
    pub(crate) seat: WorkerSeat,
    pub(crate) stop: StopSeat,
}

/// All seats of a search before it begins, and the jobs that will be put.
#[derive(Drop)]
pub(crate) struct Participants {
    pub(crate) dealer: DealerSeat,
    pub(crate) collector: CollectorSeat,
    pub(crate) members: Vec<Worker>,
    pub(crate) jobs: Vec<Job>,
}

/// All seats of a search after it has ended, and the results that were gathered.
#[derive(Drop)]
pub(crate) struct Returned {
    pub(crate) dealer: DealerSeat,
    pub(crate) collector: CollectorSeat,
    pub(crate) members: Vec<Worker>,
    pub(crate) results: Vec<Settled>,
}

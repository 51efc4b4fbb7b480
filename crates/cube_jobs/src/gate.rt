//! Gates: what is called while a search or a survey goes on.

/// Work that may take long before there is a job, or without one.
#[derive(Clone, Copy)]
pub enum Stage {
    /// The survey of a trace of this number of operations.
    Survey(usize),
    /// The search of a core of this number of operations.
    Core(usize),
    /// The search of a whole trace of this number of operations.
    Whole(usize),
}

/// Hook for progress output, and for tests that pause the search: called directly after a worker takes a job, and directly after it gives
/// the result. It cannot affect the result.
pub trait Gate {
    /// The stage begins. A gate that has no use for it leaves this out.
    fn begin(&self, _stage: Stage) {}

    /// The stage has ended. A gate that has no use for it leaves this out.
    fn end(&self, _stage: Stage) {}

    /// A round of this number of jobs begins, and all jobs of earlier rounds are settled. It is called before the first job is taken. A
    /// gate that has no use for it leaves this out.
    fn begin_round(&self, _jobs: usize) {}

    /// The worker has taken the job of this ticket, which is the number of the cube's leaf; both count from 0. Workers in threads may call it at the
    /// same time, each before it looks whether a lower leaf has a model, so that a test which waits here decides what that look shows.
    fn before(&self, worker: u32, ticket: u32);

    /// The worker has settled the job of this ticket.
    fn after(&self, worker: u32, ticket: u32);

    /// The searches had this number of conflicts since the last call of this kind. It is called before a result is given, and nothing is
    /// promised of the number. A gate that has no use for it leaves this out.
    fn conflicts(&self, _count: u64) {}
}

/// The gate that does nothing.
#[derive(Clone, Copy)]
pub struct OpenGate;

impl Gate for OpenGate {
    fn before(&self, _worker: u32, _ticket: u32) {}

    fn after(&self, _worker: u32, _ticket: u32) {}
}

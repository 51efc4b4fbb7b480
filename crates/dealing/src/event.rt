//! The events of the dealing machine.
use cube_jobs::Outcome;

/// An event of the dealing machine: one send or one receive on the way of a job.
#[derive(Drop)]
pub enum Event {
    /// The job of this ticket joins the job queue's back.
    Put(u32),
    /// This worker takes the job queue's front as its job in flight.
    Take(u32),
    /// This worker gives the outcome of its job in flight, which joins the result queue's back.
    Give(u32, Outcome),
    /// The result queue's front is entered into the ledger.
    Gather,
}

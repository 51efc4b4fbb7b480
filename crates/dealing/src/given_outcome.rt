//! Outcomes that were given.
use cube_jobs::Outcome;

/// An outcome that a worker gave, under the ticket of the job that it took.
#[derive(Drop)]
pub struct GivenOutcome {
    /// The job's ticket.
    pub ticket: u32,
    /// The worker's outcome for it.
    pub outcome: Outcome,
}

//! The job that is in flight at a worker.
ghost use Rattle.std.specs.Prelude.{◌≡◌, ◌↔◌, IsTrue};
ghost use Rattle.job_board.specs.InFlight.{ticket_in, is_done};
ghost use Rattle.job_board.specs.Pairs.{of_result};
ghost use Rattle.job_board.specs.declared.in_flight.InFlight.TheVariants.{Holds};
ghost use Rattle.job_board.specs.declared.in_flight.HeldJob.{HeldJob};

use cube_jobs::{Job, Settled};
use dimacs::{Cube, are_same};
use std::alloc::Global;

/// The ticket and the cube of a job that a worker has taken and not yet settled. `Board::give` compares both with those of a result, since its contract says
/// that a result has the cube of the job which was put under its ticket.
#[derive(Drop)]
pub struct HeldJob {
    pub(crate) ticket: u32,
    pub(crate) cube: Cube,
}

/// The job that is in flight at a worker, in its seat at the board (`WorkerSeat`).
#[derive(Drop)]
pub enum InFlight {
    /// Nothing: it may take a job.
    Empty,
    /// A job that it has taken and not yet given a result for.
    Holds(HeldJob),
    /// A stop ticket, with which it ends. It is held, since what a seat took is what it settled and then what it holds.
    Stopped(Job),
    /// Nothing, and its channel ended. The board holds both ends of its channels, so this is not seen while it is shared.
    Cut,
}

impl HeldJob {
    /// The ticket and the cube of this job. It takes no memory.
    pub(crate) fn of(alloc: Global, job: &Job) -> HeldJob
        ensures ticket { result.ticket ≡ job.now.ticket }
        ensures cube { result.cube ≡ job.now.cube }
    {
        HeldJob {
            ticket: job.ticket(),
            cube: Cube::of(alloc, job.cube()),
        }
    }

    /// Returns whether the result is one for this job.
    pub(crate) fn is_settled_by(&self, settled: &Settled) -> bool
        ensures { IsTrue result → (self.now.ticket, self.now.cube) ≡ of_result settled.now }
    {
        self.ticket == settled.ticket() && are_same(self.cube.as_slice(), settled.cube())
    }
}

impl InFlight {
    /// The ticket of the job that it holds. A stop ticket is none. Contracts of `Board::take` and `Board::give` speak of it as `ticket_in`. Of the code only
    /// tests ask for it, by `WorkerSeat::holds`.
    pub(crate) fn ticket(&self) -> Option<u32>
        ensures { result ≡ ticket_in self.now }
    {
        match self {
            InFlight::Empty => None,
            InFlight::Holds(held) => Some(held.ticket),
            InFlight::Stopped(_) => None,
            InFlight::Cut => None,
        }
    }

    /// Returns whether the result is one for the job that it holds.
    pub(crate) fn is_settled_by(&self, settled: &Settled) -> bool
        ensures { IsTrue result → (held : HeldJob) × (self.now ≡ Holds held) × ((held.ticket, held.cube) ≡ of_result settled.now) }
    {
        match self {
            InFlight::Empty => false,
            InFlight::Holds(held) => held.is_settled_by(settled),
            InFlight::Stopped(_) => false,
            InFlight::Cut => false,
        }
    }

    /// Returns whether a stop ticket was received, or the channel ended.
    pub(crate) fn is_done(&self) -> bool
        ensures { result ≡ is_done self.now }
    {
        match self {
            InFlight::Empty => false,
            InFlight::Holds(_) => false,
            InFlight::Stopped(_) => true,
            InFlight::Cut => true,
        }
    }
}

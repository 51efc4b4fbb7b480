//! Jobs and settled jobs.
ghost use Rattle.std.specs.Prelude.{◌≡◌, ◌≤◌, length};

use crate::outcome::Outcome;
use dimacs::{Cube, Lit, MAX_CUBE_LITERALS};
use std::alloc::Global;

/// A cube to search, under a ticket: its leaf's number, from 0. A job that only stops a worker has a ticket from the number of leaves on, and no
/// literal. It is not copied, so that each job is in one place at a time. Contracts see it as
/// the pair of its ticket and its cube.
#[derive(Drop)]
pub struct Job {
    ticket: u32,
    cube: Cube,
}

/// A job with its outcome. Only `Job::settle` makes one, so its ticket and its cube are those of the job. Contracts see it as the
/// triple of its ticket, its cube and its outcome.
#[derive(Drop)]
pub struct Settled {
    ticket: u32,
    cube: Cube,
    outcome: Outcome,
}

impl Job {
    /// The job of this cube, under this ticket. It takes no memory.
    pub fn new(alloc: Global, ticket: u32, cube: &[Lit]) -> Job
        requires { length cube.now ≤ MAX_CUBE_LITERALS }
        ensures ticket { result.ticket ≡ ticket }
        ensures cube { result.cube ≡ cube.now }
    {
        Job {
            ticket,
            cube: Cube::of(alloc, cube),
        }
    }

    /// Its ticket.
    pub fn ticket(&self) -> u32
        ensures { result ≡ self.now.ticket }
    {
        self.ticket
    }

    /// The literals of its cube.
    pub fn cube(&self) -> &[Lit]
        ensures literals { result.now ≡ self.now.cube }
        ensures few { length self.now.cube ≤ MAX_CUBE_LITERALS }
    {
        self.cube.as_slice()
    }

    /// The job with its outcome. It takes no memory.
    pub fn settle(self, outcome: Outcome) -> Settled
        ensures ticket { result.ticket ≡ self.ticket }
        ensures cube { result.cube ≡ self.cube }
        ensures outcome { result.outcome ≡ outcome }
    {
        let Job { ticket, cube } = self;
        Settled {
            ticket,
            cube,
            outcome,
        }
    }
}

impl Settled {
    /// The ticket of its job.
    pub fn ticket(&self) -> u32
        ensures { result ≡ self.now.ticket }
    {
        self.ticket
    }

    /// The literals of its job's cube.
    pub fn cube(&self) -> &[Lit]
        ensures { result.now ≡ self.now.cube }
    {
        self.cube.as_slice()
    }

    /// The outcome for the cube.
    pub fn outcome(&self) -> &Outcome
        ensures { result.now ≡ self.now.outcome }
    {
        &self.outcome
    }

    /// Consumes the result and returns its outcome.
    pub fn into_outcome(self) -> Outcome
        ensures { result ≡ self.outcome }
    {
        let Settled { outcome, .. } = self;
        outcome
    }
}

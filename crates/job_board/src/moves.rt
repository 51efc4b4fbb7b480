//! What the seats do at a board while it is open.
ghost use Rattle.std.specs.Prelude.{◌≡◌, ◌<◌, ◌≤◌, ◌⊎◌, [], ◌∷◌, ◌++◌, true, false, None, Some, IfOk, IfErr, OnOk, OnErr};
ghost use Rattle.std.specs.List.{All};
ghost use Rattle.cube_jobs.specs.declared.job.Job.{Job};
ghost use Rattle.job_board.specs.declared.in_flight.InFlight.TheVariants.{Empty};
ghost use Rattle.job_board.specs.Pairs.{of_job, of_result};
ghost use Rattle.job_board.specs.InFlight.{ticket_in, is_done, held_in};
ghost use Rattle.job_board.specs.Seats.{put_by, taken_by, given_by, gathered_by, IsDealerAt, IsWorkerAt, IsCollectorAt};

use crate::board::Board;
use crate::channel_rules::OneItem;
use crate::counts::added;
use crate::ended::Ended;
use crate::in_flight::{HeldJob, InFlight};
use crate::seats::{CollectorSeat, DealerSeat, WorkerSeat};
use cube_jobs::{Job, Settled};
use std::alloc::Global;
use std::sync::Wait;

impl WorkerSeat {
    /// The number of the worker, from 0 on.
    pub fn number(&self) -> u32
        ensures { result ≡ self.now.number }
    {
        self.number
    }

    /// The ticket of the job that the seat holds. A stop ticket is none.
    pub fn holds(&self) -> Option<u32>
        ensures { result ≡ ticket_in self.now.hand }
    {
        self.hand.ticket()
    }
}

impl Board {
    /// Puts a job, whose ticket is above all that this seat has put. Tickets past the board's cubes are stop tickets: at the end one is put
    /// for each worker. The job comes back where the channel returns it.
    pub fn put<R: Wait>(&self, rt: &R, seat: &mut DealerSeat, job: Job) -> Result<(), Job>
        requires seat { IsDealerAt self.now seat.old }
        requires above { All (λ earlier. earlier.ticket < job.ticket) (put_by seat.old) }
        ensures seat { IsDealerAt self.now seat.new }
        ensures put { OnOk result (put_by seat.new ≡ put_by seat.old ++ job ∷ []) }
        ensures back { IfErr result (λ back. (back ≡ job) × (put_by seat.new ≡ put_by seat.old)) }
    {
        let counts = job.ticket() < seat.cubes;
        // Before the send, after which nothing may keep the count from being right.
        let next = added(rt, seat.put, 1);
        match self
            .job_sender
            .send_as::<OneItem, R>(rt, &mut seat.jobs, job)
        {
            Ok(()) => {
                if counts {
                    seat.put = next;
                }
                Ok(())
            }
            Err(fault) => Err(fault.into_inner()),
        }
    }

    /// Takes the next job. Once the seat has received a stop ticket, or its channel has ended, it answers `Ended`. It takes no memory.
    pub fn take<R: Wait>(&self, alloc: Global, rt: &R, seat: &mut WorkerSeat) -> Result<Job, Ended>
        requires seat { IsWorkerAt self.now seat.old }
        requires holds_no_job { ticket_in seat.old.hand ≡ None }
        ensures seat { IsWorkerAt self.now seat.new × (seat.new.number ≡ seat.old.number) }
        ensures given { given_by seat.new ≡ given_by seat.old }
        ensures taken { IfOk result (λ job. (taken_by seat.new ≡ taken_by seat.old ++ job ∷ []) × (job.ticket < self.now.cubes) × (ticket_in seat.new.hand ≡ Some job.ticket)) }
        ensures ended { OnErr result ((taken_by seat.new ≡ taken_by seat.old) ⊎ ((stop : Job) × (self.now.cubes ≤ stop.ticket) × (taken_by seat.new ≡ taken_by seat.old ++ stop ∷ []))) }
        ensures done { OnErr result (is_done seat.new.hand ≡ true) }
        ensures stays { OnOk result (is_done seat.old.hand ≡ false) }
    {
        // A worker takes one stop ticket and no other: there is one for each, and another worker would wait for ever for that of its own.
        if seat.hand.is_done() {
            return Err(Ended);
        }
        let next = added(rt, seat.taken, 1);
        match self.job_receiver.recv_as::<OneItem, R>(rt, &mut seat.jobs) {
            Ok(job) => {
                if job.ticket() < seat.cubes {
                    seat.hand = InFlight::Holds(HeldJob::of(alloc, &job));
                    seat.taken = next;
                    Ok(job)
                } else {
                    seat.hand = InFlight::Stopped(job);
                    Err(Ended)
                }
            }
            Err(_) => {
                seat.hand = InFlight::Cut;
                Err(Ended)
            }
        }
    }

    /// Gives the result of the job that the seat holds. It comes back where the seat holds no job of its ticket and its cube, or where the
    /// channel returns it.
    pub fn give<R: Wait>(
        &self,
        rt: &R,
        seat: &mut WorkerSeat,
        settled: Settled,
    ) -> Result<(), Settled>
        requires seat { IsWorkerAt self.now seat.old }
        ensures seat { IsWorkerAt self.now seat.new × (seat.new.number ≡ seat.old.number) }
        ensures taken { taken_by seat.new ≡ taken_by seat.old }
        ensures given { OnOk result ((given_by seat.new ≡ given_by seat.old ++ settled ∷ []) × (ticket_in seat.old.hand ≡ Some settled.ticket) × (held_in seat.old.hand ≡ of_result settled ∷ []) × (seat.new.hand ≡ Empty)) }
        ensures back { IfErr result (λ back. (back ≡ settled) × (given_by seat.new ≡ given_by seat.old) × (seat.new.hand ≡ seat.old.hand)) }
    {
        // The cube is compared too: the contracts say that each result has the cube of the job that was put under its ticket.
        if !seat.hand.is_settled_by(&settled) {
            return Err(settled);
        }
        let next = added(rt, seat.given, 1);
        match self
            .result_sender
            .send_as::<OneItem, R>(rt, &mut seat.results, settled)
        {
            Ok(()) => {
                seat.hand = InFlight::Empty;
                seat.given = next;
                Ok(())
            }
            Err(fault) => Err(fault.into_inner()),
        }
    }

    /// Gathers the next result, or answers `Ended` where the channel has ended.
    pub fn gather<R: Wait>(&self, rt: &R, seat: &mut CollectorSeat) -> Result<Settled, Ended>
        requires seat { IsCollectorAt self.now seat.old }
        ensures seat { IsCollectorAt self.now seat.new }
        ensures gathered { IfOk result (λ settled. gathered_by seat.new ≡ gathered_by seat.old ++ settled ∷ []) }
        ensures ended { OnErr result (gathered_by seat.new ≡ gathered_by seat.old) }
    {
        let next = added(rt, seat.gathered, 1);
        match self
            .result_receiver
            .recv_as::<OneItem, R>(rt, &mut seat.results)
        {
            Ok(settled) => {
                if settled.ticket() < seat.cubes {
                    seat.gathered = next;
                }
                Ok(settled)
            }
            Err(_) => Err(Ended),
        }
    }
}

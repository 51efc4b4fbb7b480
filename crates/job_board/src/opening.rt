//! A board is opened.
ghost use Rattle.std.specs.Prelude.{◌≡◌, ◌+◌, ◌<◌, ◌≤◌, [], IfOk, OnOk};
ghost use Rattle.std.specs.List.{All};
ghost use Rattle.crossbeam_channel.specs.Claims.{view, IsSeatAt};
ghost use Rattle.crossbeam_channel.specs.Ends.{sends_on};
ghost use Rattle.job_board.specs.declared.channel_view.ChannelView.TheVariants.{Single};
ghost use Rattle.job_board.specs.Seats.{job_room, result_room, put_by, gathered_by, IsDealerAt, IsWorkerAt, IsCollectorAt, AreWorkersAt, IsIdle};

use crate::board::Board;
use crate::channel_rules::NewWorker;
use crate::in_flight::InFlight;
use crate::seats::{CollectorSeat, DealerSeat, JobPass, ResultPass, WorkerSeat};
use crossbeam_channel::bounded_with;
use cube_jobs::{MAX_CUBES, MAX_WORKERS};
use std::alloc::{AllocError, Global};

impl Board {
    /// Opens a board for 1 to 8 workers and 1 to 1,024 cubes, at which 1 to 1,024 jobs may wait, and returns it with all seats at it. The
    /// result channel has room for all cubes, so a worker never waits for the collector.
    pub fn open(
        alloc: Global,
        workers: u32,
        cubes: u32,
        capacity: u32,
    ) -> Result<(Board, DealerSeat, Vec<WorkerSeat>, CollectorSeat), AllocError>
        requires workers { (1 ≤ workers) × (workers ≤ MAX_WORKERS) }
        requires cubes { (1 ≤ cubes) × (cubes ≤ MAX_CUBES) }
        requires capacity { (1 ≤ capacity) × (capacity ≤ MAX_CUBES) }
        ensures board { IfOk result (λ r. (r.0.workers ≡ workers) × (r.0.cubes ≡ cubes)) }
        ensures room { IfOk result (λ r. (job_room r.0 ≡ capacity) × (result_room r.0 ≡ cubes)) }
        ensures dealer { IfOk result (λ r. IsDealerAt r.0 r.1 × (put_by r.1 ≡ [])) }
        ensures workers { IfOk result (λ r. AreWorkersAt r.0 r.2.items) }
        ensures idle { IfOk result (λ r. All IsIdle r.2.items) }
        ensures collector { IfOk result (λ r. IsCollectorAt r.0 r.3 × (gathered_by r.3 ≡ [])) }
    {
        let (board, mut jobs, mut results) = Board::with_channels(alloc, workers, cubes, capacity)?;
        let seats = board.cut_all(alloc, &mut jobs, &mut results)?;
        let dealer = DealerSeat {
            cubes,
            jobs,
            put: 0,
        };
        let collector = CollectorSeat {
            cubes,
            results,
            gathered: 0,
        };
        Ok((board, dealer, seats, collector))
    }

    /// A board of which no worker was made yet, and the first passes of both channels.
    fn with_channels(
        alloc: Global,
        workers: u32,
        cubes: u32,
        capacity: u32,
    ) -> Result<(Board, JobPass, ResultPass), AllocError>
        requires cubes { 1 ≤ cubes }
        requires capacity { 1 ≤ capacity }
        ensures board { IfOk result (λ r. (r.0.workers ≡ workers) × (r.0.cubes ≡ cubes)) }
        ensures room { IfOk result (λ r. (job_room r.0 ≡ capacity) × (result_room r.0 ≡ cubes)) }
        ensures jobs { IfOk result (λ r. IsSeatAt (sends_on r.0.job_sender) r.1 × (view r.1 ≡ Single [] 0 [])) }
        ensures results { IfOk result (λ r. IsSeatAt (sends_on r.0.result_sender) r.2 × (view r.2 ≡ Single [] 0 [])) }
    {
        let (job_sender, job_receiver, jobs) = bounded_with(alloc, capacity as usize)?;
        let (result_sender, result_receiver, results) = bounded_with(alloc, cubes as usize)?;
        let board = Board {
            workers,
            cubes,
            job_sender,
            job_receiver,
            result_sender,
            result_receiver,
        };
        Ok((board, jobs, results))
    }

    /// All workers' seats, by rising number, cut off both first passes, which the dealer and the collector then have.
    fn cut_all(
        &self,
        alloc: Global,
        jobs: &mut JobPass,
        results: &mut ResultPass,
    ) -> Result<Vec<WorkerSeat>, AllocError>
        requires jobs { IsSeatAt (sends_on self.now.job_sender) jobs.old × (view jobs.old ≡ Single [] 0 []) }
        requires results { IsSeatAt (sends_on self.now.result_sender) results.old × (view results.old ≡ Single [] 0 []) }
        ensures jobs { OnOk result (IsSeatAt (sends_on self.now.job_sender) jobs.new × (view jobs.new ≡ Single [] self.now.workers [])) }
        ensures results { OnOk result (IsSeatAt (sends_on self.now.result_sender) results.new × (view results.new ≡ Single [] self.now.workers [])) }
        ensures workers { IfOk result (λ seats. AreWorkersAt self.now seats.items) }
        ensures idle { IfOk result (λ seats. All IsIdle seats.items) }
    {
        let mut seats = Vec::with_capacity(alloc, self.workers as usize)?;
        for number in 0..self.workers {
            seats.push(self.cut(number, jobs, results))?;
        }
        Ok(seats)
    }

    /// The next worker's seat, cut off both first passes.
    fn cut(&self, number: u32, jobs: &mut JobPass, results: &mut ResultPass) -> WorkerSeat
        requires jobs { IsSeatAt (sends_on self.now.job_sender) jobs.old × (view jobs.old ≡ Single [] number []) }
        requires results { IsSeatAt (sends_on self.now.result_sender) results.old × (view results.old ≡ Single [] number []) }
        ensures jobs { IsSeatAt (sends_on self.now.job_sender) jobs.new × (view jobs.new ≡ Single [] (number + 1) []) }
        ensures results { IsSeatAt (sends_on self.now.result_sender) results.new × (view results.new ≡ Single [] (number + 1) []) }
        ensures seat { IsWorkerAt self.now result }
        ensures number { result.number ≡ number }
        ensures idle { IsIdle result }
    {
        WorkerSeat {
            number,
            cubes: self.cubes,
            jobs: self.job_sender.another::<NewWorker>(jobs),
            results: self.result_sender.another::<NewWorker>(results),
            hand: InFlight::Empty,
            taken: 0,
            given: 0,
        }
    }
}

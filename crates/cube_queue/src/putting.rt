//! Jobs are put, and then the stop tickets.
ghost use Rattle.std.specs.Prelude.{◌≡◌, ◌+◌, ◌<◌, ◌≤◌, [], length, IsTrue, IsFalse};
ghost use Rattle.std.specs.List.{All, AllPairs};
ghost use Rattle.job_board.specs.Seats.{put_by, IsDealerAt};
ghost use Rattle.cube_queue.specs.Participants.{WithStops};

use cube_jobs::Job;
use job_board::{Board, DealerSeat};
use std::alloc::Global;
use std::sync::Wait;

/// Puts these jobs, in their order, and says whether all were put. It ends at the first that comes back.
fn put_jobs<R: Wait>(rt: &R, board: &Board, seat: &mut DealerSeat, jobs: Vec<Job>) -> bool
    requires seat { IsDealerAt board.now seat.old × (put_by seat.old ≡ []) }
    requires rising { AllPairs (λ a b. a.ticket < b.ticket) jobs.items }
    requires low { All (λ job. job.ticket < board.now.cubes) jobs.items }
    ensures seat { IsDealerAt board.now seat.new }
    ensures low { All (λ job. job.ticket < board.now.cubes) (put_by seat.new) }
    ensures put { IsTrue result → put_by seat.new ≡ jobs.items }
    ensures fewer { IsFalse result → length (put_by seat.new) < length jobs.items }
{
    for job in jobs {
        match board.put(rt, seat, job) {
            Ok(()) => (),
            Err(_job) => return false,
        }
    }
    true
}

/// Puts one stop ticket for each worker, and says whether all were put. It ends at the first that comes back. It takes no memory.
pub(crate) fn put_stops<R: Wait>(
    alloc: Global,
    rt: &R,
    board: &Board,
    seat: &mut DealerSeat,
) -> bool
    requires seat { IsDealerAt board.now seat.old }
    requires low { All (λ job. job.ticket < board.now.cubes) (put_by seat.old) }
    requires few { (board.now.cubes ≤ 1024) × (board.now.workers ≤ 8) }
    ensures seat { IsDealerAt board.now seat.new }
    ensures put { WithStops board.now.cubes (put_by seat.old) (put_by seat.new) }
    ensures all { IsTrue result → length (put_by seat.new) ≡ length (put_by seat.old) + board.now.workers }
    ensures fewer { IsFalse result → length (put_by seat.new) < length (put_by seat.old) + board.now.workers }
{
    let cubes = board.cubes();
    for worker in 0..board.workers() {
        // Past the leaves, so that it is a stop ticket, and rising, as the board asks of all that is put.
        let stop = Job::new(alloc, cubes + worker, &[]);
        match board.put(rt, seat, stop) {
            Ok(()) => (),
            Err(_stop) => return false,
        }
    }
    true
}

/// Puts these jobs, and in any case the stop tickets: without them a worker waits for ever. It says whether all were put. It takes no
/// memory.
pub(crate) fn deal<R: Wait>(
    alloc: Global,
    rt: &R,
    board: &Board,
    seat: &mut DealerSeat,
    jobs: Vec<Job>,
) -> bool
    requires seat { IsDealerAt board.now seat.old × (put_by seat.old ≡ []) }
    requires rising { AllPairs (λ a b. a.ticket < b.ticket) jobs.items }
    requires low { All (λ job. job.ticket < board.now.cubes) jobs.items }
    requires few { (board.now.cubes ≤ 1024) × (board.now.workers ≤ 8) }
    ensures seat { IsDealerAt board.now seat.new }
    ensures put { IsTrue result → WithStops board.now.cubes jobs.items (put_by seat.new) }
    ensures fewer { IsFalse result → length (put_by seat.new) < length jobs.items + board.now.workers }
{
    let dealt = put_jobs(rt, board, seat, jobs);
    let stopped = put_stops(alloc, rt, board, seat);
    dealt && stopped
}

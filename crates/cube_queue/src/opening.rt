//! A search is opened: the board, the stop word, and all seats at both.
ghost use Rattle.std.specs.Prelude.{◌≡◌, ◌<◌, ◌≤◌, length, IfOk};
ghost use Rattle.std.specs.List.{All, AllPairs};
ghost use Rattle.cube_queue.specs.Participants.{IsCrewAt, seats_of, stops_of};

use crate::participants::{Participants, Worker};
use crate::shared_search::SharedSearch;
use cube_jobs::Job;
use job_board::{Board, WorkerSeat};
use std::alloc::{AllocError, Global};
use stop_word::{StopSeat, StopWord};

/// Workers, each with a seat at the board and a seat at the stop word, in the order of both.
fn paired(
    alloc: Global,
    seats: Vec<WorkerSeat>,
    stops: Vec<StopSeat>,
) -> Result<Vec<Worker>, AllocError>
    requires { length seats.items ≡ length stops.items }
    ensures seats { IfOk result (λ members. seats_of members.items ≡ seats.items) }
    ensures stops { IfOk result (λ members. stops_of members.items ≡ stops.items) }
{
    let mut members = Vec::with_capacity(alloc, seats.len())?;
    let mut stops = stops.into_iter();
    for seat in seats {
        let Some(stop) = stops.next() else {
            unreachable!()
        };
        members.push(Worker { seat, stop })?;
    }
    Ok(members)
}

/// Opens a board and a stop word for 1 to 8 workers and 1 to 1,024 cubes, and returns all seats at both, with the jobs that will be put. `cubes` is
/// the number of all leaves of the tree, also if only some have jobs: a ticket is a leaf's number, and one from `cubes` on stops a worker.
/// Twice as many jobs as workers may wait at the board.
pub(crate) fn open(
    alloc: Global,
    workers: u32,
    cubes: u32,
    jobs: Vec<Job>,
) -> Result<(SharedSearch, Participants), AllocError>
    requires workers { (1 ≤ workers) × (workers ≤ 8) }
    requires cubes { (1 ≤ cubes) × (cubes ≤ 1024) }
    requires rising { AllPairs (λ a b. a.ticket < b.ticket) jobs.items }
    requires low { All (λ job. job.ticket < cubes) jobs.items }
    ensures crew { IfOk result (λ r. IsCrewAt r.0 r.1) }
    ensures board { IfOk result (λ r. (r.0.board.workers ≡ workers) × (r.0.board.cubes ≡ cubes)) }
    ensures jobs { IfOk result (λ r. r.1.jobs.items ≡ jobs.items) }
{
    let (board, dealer, seats, collector) = Board::open(alloc, workers, cubes, 2 * workers)?;
    let (word, stops) = StopWord::open(alloc, workers)?;
    let members = paired(alloc, seats, stops)?;
    let site = SharedSearch { board, word };
    let crew = Participants {
        dealer,
        collector,
        members,
        jobs,
    };
    Ok((site, crew))
}

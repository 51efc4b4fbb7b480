//! Closes a search: collects and checks the workers' results after all have been joined.
ghost use Rattle.std.specs.Prelude.{◌≡◌, ℕ, ℤ, List, IfOk};
ghost use Rattle.cube_jobs.specs.Results.{AreResultsOf};
ghost use Rattle.cube_queue.specs.Participants.{seats_of, stops_of, AreAllAt, IsHonestRun};

use crate::participants::{Returned, Worker};
use crate::shared_search::SharedSearch;
use cube_jobs::Settled;
use job_board::WorkerSeat;
use std::alloc::{AllocError, Global};
use std::sync::Wait;
use stop_word::StopSeat;

/// The workers' seats at the board, and those at the stop word, in the order of the workers.
fn parted(
    alloc: Global,
    members: Vec<Worker>,
) -> Result<(Vec<WorkerSeat>, Vec<StopSeat>), AllocError>
    ensures seats { IfOk result (λ r. r.0.items ≡ seats_of members.items) }
    ensures stops { IfOk result (λ r. r.1.items ≡ stops_of members.items) }
{
    let mut seats = Vec::with_capacity(alloc, members.len())?;
    let mut stops = Vec::with_capacity(alloc, members.len())?;
    for member in members {
        let Worker { seat, stop } = member;
        seats.push(seat)?;
        stops.push(stop)?;
    }
    Ok((seats, stops))
}

/// The results that were gathered. If the jobs of these leaves were put, and each worker was honest, they are the results of these leaves.
/// It needs no look at the account: as many were gathered as were put, so none was left on the way.
pub(crate) fn close<R: Wait>(
    alloc: Global,
    rt: &R,
    site: SharedSearch,
    returned: Returned,
) -> Result<Vec<Settled>, AllocError>
    requires { AreAllAt site returned }
    ensures { (clauses cubes : List (List ℤ)) (which : List ℕ) → IsHonestRun clauses cubes which site returned → IfOk result (λ results. AreResultsOf clauses cubes which results.items) }
{
    let Returned {
        dealer,
        collector,
        members,
        results,
    } = returned;
    let SharedSearch { board, word } = site;
    let (seats, stops) = parted(alloc, members)?;
    // What these two answer is known by their contracts: the four numbers are equal, and no worker was shown a number below the least.
    let _account = board.close(rt, dealer, seats, collector);
    let _least = word.close(stops);
    Ok(results)
}

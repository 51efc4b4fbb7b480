//! Results are gathered.
ghost use Rattle.std.specs.Prelude.{◌≡◌, ◌⊎◌, ◌<◌, [], length, IfOk, IfErr};
ghost use Rattle.cube_jobs.specs.declared.search_fault.SearchCause.TheVariants.{Cut};
ghost use Rattle.job_board.specs.Seats.{gathered_by, IsCollectorAt};
ghost use Rattle.text_lines.specs.declared.plain_fault.PlainFault.TheVariants.{OutOfMemory, For};

use cube_jobs::{SearchCause, SearchFault, Settled};
use job_board::{Board, CollectorSeat};
use std::alloc::Global;
use std::sync::Wait;
use text_lines::plain_fault::PlainFault;

/// Gathers the given number of results, in the order in which they come. `Cut` if the channel ends before. The board holds both ends of it, so in a
/// search it does not end, and the call waits until the number has come: the caller asks only for what the workers will give.
/// Room for all is made first, so that no result is taken out of the channel and then lost for lack of memory.
pub(crate) fn gather_all<R: Wait>(
    alloc: Global,
    rt: &R,
    board: &Board,
    seat: &mut CollectorSeat,
    count: usize,
) -> Result<Vec<Settled>, SearchFault>
    requires { IsCollectorAt board.now seat.old × (gathered_by seat.old ≡ []) }
    ensures seat { IsCollectorAt board.now seat.new }
    ensures results { IfOk result (λ results. results.items ≡ gathered_by seat.new) }
    ensures all { IfOk result (λ results. length results.items ≡ count) }
    ensures fault { IfErr result (λ fault. (fault ≡ OutOfMemory) ⊎ ((fault ≡ For Cut) × (length (gathered_by seat.new) < count))) }
{
    let mut results = Vec::with_capacity(alloc, count)?;
    for _ in 0..count {
        let Ok(settled) = board.gather(rt, seat) else {
            return Err(PlainFault::For(SearchCause::Cut));
        };
        results.push(settled)?;
    }
    Ok(results)
}

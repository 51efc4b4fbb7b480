//! The verdicts on the pieces of a block.

ghost use Rattle.std.specs.Prelude.{IfOk};
ghost use Rattle.std.specs.List.{AllZip};
ghost use Rattle.batch_report.specs.Blocks.{IsOnPlaced};

use crate::batch_run::BatchSearch;
use crate::block::PlacedPiece;
use crate::deciding::verdict_on;
use crate::piece_verdict::PieceVerdict;
use parallel_map::map_by_workers;
use std::alloc::{AllocError, Global};
use std::sync::Wait;
use std::thread::Threads;
use surveyor::Surveyor;

/// The verdicts on the pieces, in their order. Each is decided by one thread, and at most as many at a time as there are workers.
pub(crate) fn verdicts_of<R: Threads + Wait + Sync, S: Surveyor + Sync>(
    alloc: Global,
    rt: &R,
    pieces: &[PlacedPiece<'_>],
    search: &BatchSearch,
    surveyor: &S,
) -> Result<Vec<PieceVerdict>, AllocError>
    ensures { IfOk result (λ verdicts. AllZip IsOnPlaced pieces.now verdicts.items) }
{
    let decide = |piece: &PlacedPiece<'_>| -> PieceVerdict
        ensures { IsOnPlaced piece.now result }
    { verdict_on(alloc, rt, piece.text, piece.before, search, surveyor) };
    map_by_workers(alloc, rt, pieces, search.workers, &decide)
}

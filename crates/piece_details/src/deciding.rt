//! A trace is decided once more, for what is said beside its verdict.
ghost use Rattle.std.specs.Prelude.{IfOk, IfSome};
ghost use Rattle.piece_details.specs.Details.{IsShown};

use cube_jobs::{OpenGate, Options};
use reducer::reduced::{Reduced, reduce};
use std::alloc::{AllocError, Global};
use std::sync::Wait;
use std::thread::Threads;
use survey_verdict::{Surveyed, decide_unwatched};
use surveyor::Surveyor;
use text_lines::fault::PlacedFault;
use text_lines::plain_fault::PlainFault;
use trace_decision::decide;
use trace_semantics::trace::Trace;

/// How a trace is decided once more.
#[derive(Drop)]
pub struct PieceSearch<'a, S> {
    /// The search of a trace of which at most 160 operations are kept.
    pub short: &'a Options,
    /// The search of a longer trace, after its survey.
    pub long: &'a Options,
    /// The surveyor of a longer trace.
    pub surveyor: &'a S,
}

/// Gives what a search decides of a trace, or nothing if it has no results.
fn decide_by_search<R: Threads + Wait + Sync>(
    alloc: Global,
    rt: &R,
    reduced: &Reduced,
    options: &Options,
) -> Result<Option<Surveyed>, AllocError>
    ensures { IfOk result (λ found. IfSome found (IsShown reduced.now.whole)) }
{
    match decide(alloc, rt, reduced, options, &OpenGate) {
        Ok(decision) => Ok(Some(Surveyed::Decided(decision))),
        Err(PlainFault::OutOfMemory) => Err(AllocError),
        Err(PlainFault::For(_)) => Ok(None),
    }
}

/// Gives what is decided of a trace with the help of a survey, or nothing if a search has no results.
fn decide_long<R: Threads + Wait + Sync, S: Surveyor>(
    alloc: Global,
    rt: &R,
    trace: &Trace,
    options: &Options,
    surveyor: &S,
) -> Result<Option<Surveyed>, AllocError>
    ensures { IfOk result (λ found. IfSome found (IsShown trace.now)) }
{
    match decide_unwatched(alloc, rt, trace, options, surveyor) {
        Ok(surveyed) => Ok(Some(surveyed)),
        Err(PlainFault::OutOfMemory) => Err(AllocError),
        Err(PlainFault::For(_)) => Ok(None),
    }
}

/// Gives what is decided of a trace, or nothing if a search has no results: by a search, or by a survey if more than 160 of its operations
/// are kept.
pub(crate) fn decide_trace<R: Threads + Wait + Sync, S: Surveyor>(
    alloc: Global,
    rt: &R,
    trace: &Trace,
    search: &PieceSearch<'_, S>,
) -> Result<Option<Surveyed>, AllocError>
    ensures { IfOk result (λ found. IfSome found (IsShown trace.now)) }
{
    // A refusal with a place says that more are kept than a search takes, and nothing else.
    match reduce(alloc, trace) {
        Ok(reduced) => decide_by_search(alloc, rt, &reduced, search.short),
        Err(PlacedFault::OutOfMemory) => Err(AllocError),
        Err(PlacedFault::At(_, _)) => decide_long(alloc, rt, trace, search.long, search.surveyor),
    }
}

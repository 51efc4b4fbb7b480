//! What is decided of a piece.

ghost use Rattle.std.specs.Prelude.{◌≡◌};
ghost use Rattle.batch_report.specs.PieceVerdicts.{IsVerdictOf, IsVerdictOn};
ghost use Rattle.text_lines.specs.Fault.{IsRefusal};
ghost use Rattle.trace_text.specs.TraceFault.{HasTraceFault};
ghost use Rattle.verdict_report.specs.Fault.{fault_of_search};

use crate::batch_run::BatchSearch;
use crate::piece_verdict::{PieceVerdict, verdict_of_decision, verdict_of_surveyed};
use cube_jobs::{OpenGate, Options, SearchFault};
use reducer::reduced::{Reduced, reduce};
use std::alloc::Global;
use std::sync::Wait;
use std::thread::Threads;
use survey_verdict::decide_unwatched;
use surveyor::Surveyor;
use text_lines::fault::PlacedFault;
use text_lines::plain_fault::PlainFault;
use trace_decision::decide;
use trace_semantics::trace::Trace;
use trace_text::trace_fault::TraceFault;
use trace_text::trace_reader::read_trace;
use verdict_report::Fault;

/// The refusal of a search.
fn refusal_of_search(fault: SearchFault) -> Fault
    ensures { result ≡ fault_of_search fault }
{
    match fault {
        PlainFault::OutOfMemory => Fault::OutOfMemory,
        PlainFault::For(cause) => Fault::Search(cause),
    }
}

/// Gives the verdict of a search of a trace.
fn verdict_by_search<R: Threads + Wait + Sync>(
    alloc: Global,
    rt: &R,
    reduced: &Reduced,
    options: &Options,
) -> PieceVerdict
    ensures { IsVerdictOf reduced.now.whole result }
{
    match decide(alloc, rt, reduced, options, &OpenGate) {
        Ok(decision) => verdict_of_decision(&decision),
        Err(fault) => PieceVerdict::Refused(refusal_of_search(fault)),
    }
}

/// Gives the verdict of a survey of a trace.
fn verdict_by_survey<R: Threads + Wait + Sync, S: Surveyor>(
    alloc: Global,
    rt: &R,
    trace: &Trace,
    surveyor: &S,
    options: &Options,
) -> PieceVerdict
    ensures { IsVerdictOf trace.now result }
{
    match decide_unwatched(alloc, rt, trace, options, surveyor) {
        Ok(surveyed) => verdict_of_surveyed(&surveyed),
        Err(fault) => PieceVerdict::Refused(refusal_of_search(fault)),
    }
}

/// Gives the verdict on a trace: by a search, or by a survey if more than 160 of its operations are kept.
fn verdict_on_trace<R: Threads + Wait + Sync, S: Surveyor>(
    alloc: Global,
    rt: &R,
    trace: &Trace,
    search: &BatchSearch,
    surveyor: &S,
) -> PieceVerdict
    ensures { IsVerdictOf trace.now result }
{
    match reduce(alloc, trace) {
        Ok(reduced) => verdict_by_search(alloc, rt, &reduced, &search.short),
        Err(PlacedFault::OutOfMemory) => PieceVerdict::Refused(Fault::OutOfMemory),
        Err(PlacedFault::At(_, _)) => verdict_by_survey(alloc, rt, trace, surveyor, &search.long),
    }
}

/// Gives the refusal of a text that is no trace. The fault has the line of the whole text.
fn refused_piece(_text: &[u8], before: usize, fault: TraceFault) -> PieceVerdict
    requires { IsRefusal (HasTraceFault _text.now) fault }
    ensures { IsVerdictOn before _text.now result }
{
    match fault {
        PlacedFault::OutOfMemory => PieceVerdict::Refused(Fault::OutOfMemory),
        PlacedFault::At(cause, line) => match before.checked_add(line) {
            Some(line) => PieceVerdict::Refused(Fault::Trace(cause, line)),
            None => PieceVerdict::Refused(Fault::OutOfMemory),
        },
    }
}

/// Gives the verdict on a piece behind a number of lines: whether the trace that it spells has a legal schedule, or why it spells
/// none.
pub fn verdict_on<R: Threads + Wait + Sync, S: Surveyor>(
    alloc: Global,
    rt: &R,
    text: &[u8],
    before: usize,
    search: &BatchSearch,
    surveyor: &S,
) -> PieceVerdict
    ensures { IsVerdictOn before text.now result }
{
    match read_trace(alloc, text) {
        Ok(trace) => verdict_on_trace(alloc, rt, &trace, search, surveyor),
        Err(fault) => refused_piece(text, before, fault),
    }
}

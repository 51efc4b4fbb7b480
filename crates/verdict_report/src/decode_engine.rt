//! The engine that turns a model into a schedule, from bytes to bytes.

ghost use Rattle.std.specs.Prelude.{◌≡◌};
ghost use Rattle.reducer.specs.Reduced.{IsReduced};
ghost use Rattle.schedule_text.specs.ScheduleWritten.{canonical_schedule};
ghost use Rattle.verdict_report.specs.DecodeEngine.{IsDecodedFrom, IsRunOfDecode, IsSaidOfModel, written_status};
ghost use Rattle.verdict_report.specs.Engine.{IsRunOfWriting};
ghost use Rattle.verdict_report.specs.Runs.{source_run, sink_run};

use crate::fault::Fault;
use crate::inputs::read_two;
use crate::source::Source;
use crate::status::Status;
use dimacs::{Assignment, Sink, write_whole};
use model_text::read_model;
use reducer::expand::expand;
use reducer::reduced::{Reduced, reduce};
use schedule_decode::decode_model::decode_model;
use schedule_text::schedule_writer::write_schedule;
use std::alloc::Global;
use trace_semantics::schedule::Schedule;
use trace_text::trace_reader::read_trace;

/// Turns the model of the second source into a schedule of the trace of the first, and writes it, one name a line. The
/// schedule is a legal one of the whole trace.
///
/// Both texts are read whole, in this order, before either is parsed; then the trace is reduced. The first refusal stands:
/// of a source that fails, an input past the limit, the trace's text, the model's text, a trace of which more than 160
/// operations are kept, truth values that are no model, lack of memory, or the sink.
pub fn run_decode<T: Source, M: Source, W: Sink>(
    alloc: Global,
    trace: &mut T,
    model: &mut M,
    out: &mut W,
) -> Result<Status, Fault>
    ensures run { IsRunOfDecode
        (source_run T.handed_out T.is_at_end T.failures trace.old trace.new)
        (source_run M.handed_out M.is_at_end M.failures model.old model.new)
        (sink_run W.written W.failures out.old out.new)
        result }
    ensures same_trace { T.path trace.new ≡ T.path trace.old }
    ensures same_model { M.path model.new ≡ M.path model.old }
    ensures same_out { W.path out.new ≡ W.path out.old }
{
    let texts = read_two(alloc, trace, model)?;
    let schedule = decode_texts(alloc, texts.0.as_slice(), texts.1.as_slice())?;
    write_names(alloc, &schedule, out)
}

/// The schedule of the trace that the first text spells, by the model that the second one spells.
fn decode_texts(alloc: Global, trace_text: &[u8], model_text: &[u8]) -> Result<Schedule, Fault>
    ensures { IsSaidOfModel trace_text.now model_text.now result }
{
    let trace = read_trace(alloc, trace_text)?;
    let model = read_model(alloc, model_text)?;
    let reduced = reduce(alloc, &trace)?;
    decode_reduced(alloc, &reduced, &model)
}

/// The schedule of the whole trace, by a model of what is kept of it.
fn decode_reduced(alloc: Global, reduced: &Reduced, model: &Assignment) -> Result<Schedule, Fault>
    requires { IsReduced reduced.now }
    ensures { IsDecodedFrom reduced.now model.now result }
{
    let kept = decode_model(alloc, reduced, model)?;
    Ok(expand(alloc, reduced, &kept)?)
}

/// Writes the schedule's text.
fn write_names<W: Sink>(alloc: Global, schedule: &Schedule, out: &mut W) -> Result<Status, Fault>
    ensures run { IsRunOfWriting (canonical_schedule schedule.now) (written_status schedule.now)
        (sink_run W.written W.failures out.old out.new)
        result }
    ensures same { W.path out.new ≡ W.path out.old }
{
    let text = write_schedule(alloc, schedule)?;
    write_whole(out, text.as_slice())?;
    Ok(Status::Yes)
}

//! The engine that makes parts of traces, from bytes to bytes.

ghost use Rattle.std.specs.Prelude.{◌≡◌, OnOk};
ghost use Rattle.verdict_report.specs.Engine.{IsRunOfWriting};
ghost use Rattle.verdict_report.specs.Runs.{source_run, sink_run};
ghost use Rattle.part_text.specs.PartText.{part_text};
ghost use Rattle.part_report.specs.PartEngine.{IsRunOfPart, IsSaidOfChoice, WritesPart, part_status};

use dimacs::{Sink, write_whole};
use part_text::named_part::named_part;
use part_text::part_writer::write_part;
use schedule_text::schedule_reader::read_schedule;
use std::alloc::Global;
use trace_part::part::TracePart;
use trace_semantics::trace_size::limits_for;
use trace_text::trace_reader::read_trace;
use verdict_report::{Fault, Source, Status, read_two};

/// Writes the part of the trace of the first source that the operations make up which the second source names, as a trace's text; with
/// `shows_names` a comment before each operation has its name in the whole. If the part has no legal schedule, the trace has none.
///
/// Both texts are read whole, in this order, before either is parsed. The first refusal stands: of a source that fails, an input past
/// the limit, the trace's text, the names' text, the first name that is not of the trace or stands twice, lack of memory, or the sink.
pub fn run_part<T: Source, N: Source, W: Sink>(
    alloc: Global,
    trace: &mut T,
    names: &mut N,
    shows_names: bool,
    out: &mut W,
) -> Result<Status, Fault>
    ensures run { IsRunOfPart shows_names
        (source_run T.handed_out T.is_at_end T.failures trace.old trace.new)
        (source_run N.handed_out N.is_at_end N.failures names.old names.new)
        (sink_run W.written W.failures out.old out.new)
        result }
    ensures meaning { OnOk result (WritesPart
        (source_run T.handed_out T.is_at_end T.failures trace.old trace.new)
        (sink_run W.written W.failures out.old out.new)) }
    ensures same_trace { T.path trace.new ≡ T.path trace.old }
    ensures same_names { N.path names.new ≡ N.path names.old }
    ensures same_out { W.path out.new ≡ W.path out.old }
{
    let texts = read_two(alloc, trace, names)?;
    let part = part_of_texts(alloc, texts.0.as_slice(), texts.1.as_slice())?;
    put_part(alloc, &part, shows_names, out)
}

/// The part of the trace that the first text spells, of the operations that the second one names. The trace is read first, since its size says
/// how many names there may be, and how large their places.
fn part_of_texts(alloc: Global, trace_text: &[u8], names_text: &[u8]) -> Result<TracePart, Fault>
    ensures { IsSaidOfChoice trace_text.now names_text.now result }
{
    let trace = read_trace(alloc, trace_text)?;
    let names = read_schedule(alloc, limits_for(&trace), names_text)?;
    Ok(named_part(alloc, &trace, &names, names_text)?)
}

/// Writes the text of the part to the sink.
fn put_part<W: Sink>(
    alloc: Global,
    part: &TracePart,
    shows_names: bool,
    out: &mut W,
) -> Result<Status, Fault>
    ensures run { IsRunOfWriting (part_text shows_names part.now) (part_status part.now)
        (sink_run W.written W.failures out.old out.new)
        result }
    ensures same { W.path out.new ≡ W.path out.old }
{
    let text = write_part(alloc, part, shows_names)?;
    write_whole(out, text.as_slice())?;
    Ok(Status::Yes)
}

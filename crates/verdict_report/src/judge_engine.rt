//! The engine that judges a schedule, from bytes to bytes.

ghost use Rattle.std.specs.Prelude.{◌≡◌};
ghost use Rattle.verdict_report.specs.Fault.{status_after};
ghost use Rattle.verdict_report.specs.JudgeEngine.{IsRunOfJudge, IsSaidOfTexts, judgement_line};
ghost use Rattle.verdict_report.specs.Engine.{IsRunOfWriting};
ghost use Rattle.verdict_report.specs.Runs.{source_run, sink_run};

use crate::fault::Fault;
use crate::inputs::read_two;
use crate::source::Source;
use crate::status::Status;
use dimacs::{Sink, write_whole};
use schedule_judge::judge::judge;
use schedule_text::schedule_reader::read_schedule;
use std::alloc::Global;
use trace_semantics::judgement::Judgement;
use trace_semantics::trace_size::limits_for;
use trace_text::trace_reader::read_trace;

/// Judges the schedule of the second source by the trace of the first, and writes `LEGAL`, or `ILLEGAL` with the
/// number, the name and the place of the first fault, as one line.
///
/// Both texts are read whole, in this order, before either is parsed. The first refusal stands: of a source that
/// fails, an input past the limit, the trace's text, the schedule's text, lack of memory, or the sink.
pub fn run_judge<T: Source, S: Source, W: Sink>(
    alloc: Global,
    trace: &mut T,
    schedule: &mut S,
    out: &mut W,
) -> Result<Status, Fault>
    ensures run { IsRunOfJudge
        (source_run T.handed_out T.is_at_end T.failures trace.old trace.new)
        (source_run S.handed_out S.is_at_end S.failures schedule.old schedule.new)
        (sink_run W.written W.failures out.old out.new)
        result }
    ensures same_trace { T.path trace.new ≡ T.path trace.old }
    ensures same_schedule { S.path schedule.new ≡ S.path schedule.old }
    ensures same_out { W.path out.new ≡ W.path out.old }
{
    let texts = read_two(alloc, trace, schedule)?;
    let judgement = judge_texts(alloc, texts.0.as_slice(), texts.1.as_slice())?;
    write_judgement(alloc, judgement, out)
}

/// The judgement of the schedule that the second text spells by the trace that the first one spells.
fn judge_texts(alloc: Global, trace_text: &[u8], schedule_text: &[u8]) -> Result<Judgement, Fault>
    ensures { IsSaidOfTexts trace_text.now schedule_text.now result }
{
    let trace = read_trace(alloc, trace_text)?;
    let schedule = read_schedule(alloc, limits_for(&trace), schedule_text)?;
    Ok(judge(alloc, &trace, &schedule)?)
}

/// Writes the judgement as a line, and gives the status for it.
fn write_judgement<W: Sink>(
    alloc: Global,
    judgement: Judgement,
    out: &mut W,
) -> Result<Status, Fault>
    ensures run { IsRunOfWriting (judgement_line judgement) (status_after judgement)
        (sink_run W.written W.failures out.old out.new)
        result }
    ensures same { W.path out.new ≡ W.path out.old }
{
    let line = format!(in alloc; "{judgement}\n")?;
    write_whole(out, line.as_bytes())?;
    Ok(Status::after(judgement))
}

//! The engine that translates a trace into clauses, from bytes to bytes.

ghost use Rattle.std.specs.Prelude.{◌≡◌, ◌≤◌, OnOk};
ghost use Rattle.verdict_report.specs.CnfEngine.{IsRunOfCnf, MeansSchedulable};
ghost use Rattle.verdict_report.specs.Runs.{source_run, sink_run};

use crate::admitted::reduce_text;
use crate::fault::Fault;
use crate::inputs::read_one;
use crate::laws::satisfiable_exactly_where_schedulable;
use crate::source::Source;
use crate::status::Status;
use clause_blocks::laws::formula_is_over_its_variables;
use clause_blocks::stream_cnf::stream_cnf;
use dimacs::Sink;
use std::alloc::Global;
use std::thread::Threads;

/// Writes the clause list of the trace that the source hands out, as a DIMACS text. The text is fixed by the trace
/// alone, and is the same whatever the number of workers. Its clauses have a model if and only if the whole trace has a
/// legal schedule.
///
/// The first refusal stands: of a source that fails, an input past the limit, the trace's text, a trace of which more
/// than 160 operations are kept, lack of memory, or the sink. Before the last two a prefix of the text may have been
/// written, and before the others nothing.
pub fn run_cnf<R: Threads + Sync, T: Source, W: Sink>(
    alloc: Global,
    rt: &R,
    trace: &mut T,
    workers: u32,
    out: &mut W,
) -> Result<Status, Fault>
    requires some { 1 ≤ workers }
    requires few { workers ≤ 8 }
    ensures run { IsRunOfCnf
        (source_run T.handed_out T.is_at_end T.failures trace.old trace.new)
        (sink_run W.written W.failures out.old out.new)
        result }
    ensures meaning { OnOk result (MeansSchedulable
        (source_run T.handed_out T.is_at_end T.failures trace.old trace.new)
        (sink_run W.written W.failures out.old out.new)) }
    ensures same_trace { T.path trace.new ≡ T.path trace.old }
    ensures same_out { W.path out.new ≡ W.path out.old }
{
    let text = read_one(alloc, trace)?;
    let reduced = reduce_text(alloc, text.as_slice())?;
    formula_is_over_its_variables();
    satisfiable_exactly_where_schedulable();
    stream_cnf(alloc, rt, &reduced, workers, out)?;
    Ok(Status::Yes)
}

//! The engine that decides whether a trace has a legal schedule, from bytes to bytes.

ghost use Rattle.std.specs.Prelude.{◌≡◌, IfOk, Ok};
ghost use Rattle.trace_decision.specs.Decision.{report};
ghost use Rattle.verdict_report.specs.Engine.{IsRunOfWriting};
ghost use Rattle.verdict_report.specs.RecheckEngine.{InputHasNoLegalSchedule};
ghost use Rattle.verdict_report.specs.Runs.{source_run, sink_run};
ghost use Rattle.verdict_report.specs.VerifyEngine.{WritesAcceptedCertificate, IsRunOfVerify, IsDecidedFrom, IsRunOfCertifiedVerify, IsSaidOfTrace, TellsOpen, ReportsLegalSchedule, status_of_decision};
ghost use Rattle.verdict_report.specs.declared.status.Status.TheVariants.{No, Unknown, Yes};

use crate::admitted::reduce_text;
use crate::fault::Fault;
use crate::inputs::read_one;
use crate::source::Source;
use crate::status::Status;
use cube_jobs::{Gate, Options, SearchRun};
use dimacs::{Sink, write_whole};
use std::alloc::Global;
use std::sync::Wait;
use std::thread::Threads;
use trace_decision::laws::certificate_is_accepted;
use trace_decision::{Decision, decide, report_of, write_certificate};

/// Decides whether the trace that the source hands out has a legal schedule, and writes the report: CONSISTENT and a legal
/// schedule of the whole trace; INCONSISTENT, where each cube of some tree is refuted by a derivation that can be written and is
/// accepted, so that there is no legal schedule; or UNKNOWN and the cubes of those leaves of the last round's tree that have no such
/// derivation, in which all models of the trace's clauses are.
///
/// The first refusal stands: of a source that fails, an input past the limit, the trace's text, a trace of which more than
/// 160 operations are kept, the search, lack of memory, or the sink. Before the last a prefix of the report may have been
/// written, and before the others nothing.
pub fn run_verify<R: Threads + Wait + Sync, T: Source, G: Gate + Sync, W: Sink>(
    alloc: Global,
    rt: &R,
    trace: &mut T,
    options: &Options,
    gate: &G,
    out: &mut W,
) -> Result<Status, Fault>
    ensures run { IsRunOfVerify
        (source_run T.handed_out T.is_at_end T.failures trace.old trace.new)
        (sink_run W.written W.failures out.old out.new)
        result }
    ensures consistent { result ≡ Ok Yes → ReportsLegalSchedule
        (source_run T.handed_out T.is_at_end T.failures trace.old trace.new)
        (sink_run W.written W.failures out.old out.new) }
    ensures inconsistent { result ≡ Ok No → InputHasNoLegalSchedule (source_run T.handed_out T.is_at_end T.failures trace.old trace.new) }
    ensures unknown { result ≡ Ok Unknown → TellsOpen options.now
        (source_run T.handed_out T.is_at_end T.failures trace.old trace.new)
        (sink_run W.written W.failures out.old out.new) }
    ensures same_trace { T.path trace.new ≡ T.path trace.old }
    ensures same_out { W.path out.new ≡ W.path out.old }
{
    let text = read_one(alloc, trace)?;
    let decision = decide_text(alloc, rt, text.as_slice(), options, gate)?;
    write_report(alloc, &decision, out)
}

/// Does what [`run_verify`] does, and writes the certificate of an INCONSISTENT to a sink of its own before the report: the tree, and
/// for each of its leaves, in their order, the derivation that is accepted for its cube. With another report that sink takes nothing.
///
/// Where memory runs out or a sink fails while the certificate or the report is written, a prefix of the two may have been written, the
/// certificate first. Before the other refusals, which are those of `run_verify`, nothing was.
pub fn run_certified_verify<R: Threads + Wait + Sync, T: Source, G: Gate + Sync, C: Sink, W: Sink>(
    run: &SearchRun<'_, R, G>,
    trace: &mut T,
    cert: &mut C,
    out: &mut W,
) -> Result<Status, Fault>
    ensures run { IsRunOfCertifiedVerify
        (source_run T.handed_out T.is_at_end T.failures trace.old trace.new)
        (sink_run C.written C.failures cert.old cert.new)
        (sink_run W.written W.failures out.old out.new)
        result }
    ensures consistent { result ≡ Ok Yes → ReportsLegalSchedule
        (source_run T.handed_out T.is_at_end T.failures trace.old trace.new)
        (sink_run W.written W.failures out.old out.new) }
    ensures certified { result ≡ Ok No → WritesAcceptedCertificate
        (source_run T.handed_out T.is_at_end T.failures trace.old trace.new)
        (sink_run C.written C.failures cert.old cert.new) }
    ensures unknown { result ≡ Ok Unknown → TellsOpen run.now.options.now
        (source_run T.handed_out T.is_at_end T.failures trace.old trace.new)
        (sink_run W.written W.failures out.old out.new) }
    ensures same_trace { T.path trace.new ≡ T.path trace.old }
    ensures same_cert { C.path cert.new ≡ C.path cert.old }
    ensures same_out { W.path out.new ≡ W.path out.old }
{
    certificate_is_accepted();
    let text = read_one(run.alloc, trace)?;
    let decision = decide_text(run.alloc, run.rt, text.as_slice(), run.options, run.gate)?;
    write_certificate(run.alloc, &decision, cert)?;
    write_report(run.alloc, &decision, out)
}

/// Gives what is decided of the trace that the text spells.
fn decide_text<R: Threads + Wait + Sync, G: Gate + Sync>(
    alloc: Global,
    rt: &R,
    text: &[u8],
    options: &Options,
    gate: &G,
) -> Result<Decision, Fault>
    ensures said { IsSaidOfTrace text.now result }
    ensures decided { IfOk result (λ decision. IsDecidedFrom options.now text.now decision) }
{
    let reduced = reduce_text(alloc, text)?;
    Ok(decide(alloc, rt, &reduced, options, gate)?)
}

/// The status that goes with a decision.
pub fn status_of(decision: &Decision) -> Status
    ensures { result ≡ status_of_decision decision.now }
{
    match decision {
        Decision::Consistent(_) => Status::Yes,
        Decision::Inconsistent(_) => Status::No,
        Decision::Unknown(_) => Status::Unknown,
    }
}

/// Writes the report, and gives the status for it.
fn write_report<W: Sink>(alloc: Global, decision: &Decision, out: &mut W) -> Result<Status, Fault>
    ensures run { IsRunOfWriting (report decision.now) (status_of_decision decision.now)
        (sink_run W.written W.failures out.old out.new)
        result }
    ensures same { W.path out.new ≡ W.path out.old }
{
    let text = report_of(alloc, decision)?;
    write_whole(out, text.as_slice())?;
    Ok(status_of(decision))
}

//! The engine that checks certificates, from bytes to bytes.

ghost use Rattle.std.specs.Prelude.{◌≡◌, IfOk, OnOk, string_bytes};
ghost use Rattle.reducer.specs.Reduced.{IsReduced};
ghost use Rattle.verdict_report.specs.Engine.{IsRunOfWriting};
ghost use Rattle.verdict_report.specs.RecheckEngine.{InputHasNoLegalSchedule, IsRecheckedFor, IsRunOfRecheck, IsSaidOfCertificate, IsSaidOfEither, IsSaidOfReasons, size_line, size_status};
ghost use Rattle.verdict_report.specs.Runs.{source_run, sink_run};

use crate::fault::Fault;
use crate::inputs::read_two;
use crate::source::Source;
use crate::status::Status;
use certificate::{Certificate, recheck, take_cert};
use clause_blocks::trace_clauses::TraceClauses;
use dimacs::{Sink, write_whole};
use reason_check::reasons_check::check_reasons;
use reason_text::reason_header::begins_reasons;
use reducer::reduced::{Reduced, reduce};
use std::alloc::{AllocError, Global};
use trace_text::trace_reader::read_trace;

/// What an accepted certificate is made of, and how many of them.
#[derive(Clone, Copy, Debug, PartialEq, Eq)]
pub enum CertificateSize {
    /// The cubes of its tree.
    Cubes(u32),
    /// The clauses of its reasons.
    Clauses(usize),
}

/// Checks that the certificate of the second source shows that the trace of the first has no legal schedule, and writes
/// `ACCEPTED` and how many cubes its tree has, or how many clauses its reasons, as one line. Nothing is searched, and no derivation of
/// the certificate is taken on trust. The answer is Ok only where the whole trace has no legal schedule.
///
/// Both texts are read whole, in this order, before either is parsed. A certificate whose first line is `vsc-reasons 1` has reasons, for a
/// trace of any length: after the trace's text, its lines are refused in their order, and then its derivation. For any other one the trace
/// is reduced. The first refusal stands: of a source that fails, an input past the limit, the trace's text, the certificate's text, a trace
/// of which more than 160 operations are kept, a section that is a stranger or a double, the lowest leaf that has none, the lowest leaf
/// whose derivation is refused, lack of memory, or the sink.
pub fn run_recheck<T: Source, C: Source, W: Sink>(
    alloc: Global,
    trace: &mut T,
    cert: &mut C,
    out: &mut W,
) -> Result<Status, Fault>
    ensures run { IsRunOfRecheck
        (source_run T.handed_out T.is_at_end T.failures trace.old trace.new)
        (source_run C.handed_out C.is_at_end C.failures cert.old cert.new)
        (sink_run W.written W.failures out.old out.new)
        result }
    ensures sound { OnOk result (InputHasNoLegalSchedule (source_run T.handed_out T.is_at_end T.failures trace.old trace.new)) }
    ensures same_trace { T.path trace.new ≡ T.path trace.old }
    ensures same_cert { C.path cert.new ≡ C.path cert.old }
    ensures same_out { W.path out.new ≡ W.path out.old }
{
    let (trace_text, cert_text) = read_two(alloc, trace, cert)?;
    let size = recheck_either(alloc, trace_text.as_slice(), cert_text)?;
    write_size(alloc, size, out)
}

/// The size of the certificate that the second text spells, and that refutes the trace of the first.
fn recheck_either(
    alloc: Global,
    trace_text: &[u8],
    cert_text: Vec<u8>,
) -> Result<CertificateSize, Fault>
    ensures { IsSaidOfEither trace_text.now cert_text.items result }
{
    if begins_reasons(cert_text.as_slice()) {
        let count = recheck_reasons(alloc, trace_text, cert_text.as_slice())?;
        return Ok(CertificateSize::Clauses(count));
    }
    let count = recheck_texts(alloc, trace_text, cert_text)?;
    Ok(CertificateSize::Cubes(count))
}

/// Of how many clauses the reasons are that the second text spells, and that refute the trace of the first.
fn recheck_reasons(alloc: Global, trace_text: &[u8], cert_text: &[u8]) -> Result<usize, Fault>
    ensures { IsSaidOfReasons trace_text.now cert_text.now result }
{
    let trace = read_trace(alloc, trace_text)?;
    let accepted = check_reasons(alloc, &trace, cert_text)?;
    Ok(accepted.clauses)
}

/// Of how many cubes the certificate is that the second text spells, and that refutes the trace of the first.
fn recheck_texts(alloc: Global, trace_text: &[u8], cert_text: Vec<u8>) -> Result<u32, Fault>
    ensures { IsSaidOfCertificate trace_text.now cert_text.items result }
{
    let trace = read_trace(alloc, trace_text)?;
    let certificate = take_cert(alloc, cert_text)?;
    let reduced = reduce(alloc, &trace)?;
    recheck_reduced(alloc, &reduced, &certificate)
}

/// Of how many cubes the certificate is, where it refutes the trace.
pub fn recheck_reduced(
    alloc: Global,
    reduced: &Reduced,
    certificate: &Certificate,
) -> Result<u32, Fault>
    requires { IsReduced reduced.now }
    ensures { IsRecheckedFor reduced.now certificate.now result }
{
    let clauses = TraceClauses::of(alloc, reduced)?;
    Ok(recheck(alloc, &clauses, certificate)?)
}

/// The line that says that a certificate of this size is accepted.
fn line_of_size(alloc: Global, size: CertificateSize) -> Result<String, AllocError>
    ensures { IfOk result (λ line. string_bytes line ≡ size_line size) }
{
    match size {
        CertificateSize::Cubes(count) => format!(in alloc; "ACCEPTED cubes={count}\n"),
        CertificateSize::Clauses(count) => format!(in alloc; "ACCEPTED clauses={count}\n"),
    }
}

/// Writes that a certificate is accepted, and its size.
pub fn write_size<W: Sink>(
    alloc: Global,
    size: CertificateSize,
    out: &mut W,
) -> Result<Status, Fault>
    ensures run { IsRunOfWriting (size_line size) (size_status size)
        (sink_run W.written W.failures out.old out.new)
        result }
    ensures same { W.path out.new ≡ W.path out.old }
{
    let line = line_of_size(alloc, size)?;
    write_whole(out, line.as_bytes())?;
    Ok(Status::Yes)
}

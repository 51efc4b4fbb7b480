//! The engine that checks certificates of parts of traces, from bytes to bytes.

ghost use Rattle.std.specs.Prelude.{◌≡◌, OnOk};
ghost use Rattle.part_report.specs.PartRecheckEngine.{IsRunOfPartRecheck, IsSaidByPart};
ghost use Rattle.verdict_report.specs.RecheckEngine.{InputHasNoLegalSchedule};
ghost use Rattle.verdict_report.specs.Runs.{source_run, sink_run};

use certificate::take_cert;
use dimacs::Sink;
use part_text::named_part::named_part;
use reducer::reduced::reduce;
use schedule_text::schedule_reader::read_schedule;
use std::alloc::Global;
use trace_semantics::trace_size::limits_for;
use trace_text::trace_reader::read_trace;
use verdict_report::{
    CertificateSize, Fault, Source, Status, read_three, recheck_reduced, write_size,
};

/// Checks that the certificate of the second source shows that the part of the trace of the first source which the operations make up
/// that the third source names has no legal schedule, and writes `ACCEPTED` and how many cubes its tree has, as one line. The answer is
/// Ok only where the whole trace has no legal schedule. The part is made here, and who chose its operations is not trusted.
///
/// All texts are read whole, in this order, before any is parsed; then the part is made and reduced. The first refusal stands: of a
/// source that fails, an input past the limit, the trace's text, the certificate's text, the names' text, the first name that is not of
/// the trace or stands twice, a part of which more than 160 operations are kept, a section that is a stranger or a double, the lowest
/// leaf that has none, the lowest leaf whose derivation is refused, lack of memory, or the sink.
pub fn run_part_recheck<T: Source, C: Source, N: Source, W: Sink>(
    alloc: Global,
    trace: &mut T,
    cert: &mut C,
    names: &mut N,
    out: &mut W,
) -> Result<Status, Fault>
    ensures run { IsRunOfPartRecheck
        (source_run T.handed_out T.is_at_end T.failures trace.old trace.new)
        (source_run C.handed_out C.is_at_end C.failures cert.old cert.new)
        (source_run N.handed_out N.is_at_end N.failures names.old names.new)
        (sink_run W.written W.failures out.old out.new)
        result }
    ensures sound { OnOk result (InputHasNoLegalSchedule (source_run T.handed_out T.is_at_end T.failures trace.old trace.new)) }
    ensures same_trace { T.path trace.new ≡ T.path trace.old }
    ensures same_cert { C.path cert.new ≡ C.path cert.old }
    ensures same_names { N.path names.new ≡ N.path names.old }
    ensures same_out { W.path out.new ≡ W.path out.old }
{
    let (trace_text, cert_text, names_text) = read_three(alloc, trace, cert, names)?;
    let count = recheck_part(
        alloc,
        trace_text.as_slice(),
        cert_text,
        names_text.as_slice(),
    )?;
    write_size(alloc, CertificateSize::Cubes(count), out)
}

/// Of how many cubes the certificate is that the second text spells, and that refutes the part of the trace of the first. The order of the
/// texts is that of the refusals; the part is made here from the names, so that no text says what it is.
fn recheck_part(
    alloc: Global,
    trace_text: &[u8],
    cert_text: Vec<u8>,
    names_text: &[u8],
) -> Result<u32, Fault>
    ensures { IsSaidByPart trace_text.now cert_text.items names_text.now result }
{
    let trace = read_trace(alloc, trace_text)?;
    let certificate = take_cert(alloc, cert_text)?;
    let names = read_schedule(alloc, limits_for(&trace), names_text)?;
    let part = named_part(alloc, &trace, &names, names_text)?;
    let reduced = reduce(alloc, part.trace())?;
    recheck_reduced(alloc, &reduced, &certificate)
}

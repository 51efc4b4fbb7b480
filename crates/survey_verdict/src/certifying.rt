//! The certificate of what is decided with the help of a survey.
ghost use Rattle.std.specs.Prelude.{◌≡◌, ◌+◌, ◌++◌, IfErr, OnErr, OnOk};
ghost use Rattle.dimacs.specs.Sink.{AppendsFront};
ghost use Rattle.dimacs.specs.SinkFault.{failures_told};
ghost use Rattle.survey_verdict.specs.Surveyed.{survey_certificate};

use crate::surveyed::{ReasonCertificate, Surveyed};
use certificate::write_cert;
use dimacs::{Sink, SinkFault, write_whole};
use std::alloc::Global;
use trace_decision::write_certificate;

/// Writes the text of the certificate of reasons.
fn write_reasons<W: Sink>(reasons: &ReasonCertificate, sink: &mut W) -> Result<(), SinkFault>
    ensures whole { OnOk result (W.written sink.new ≡ W.written sink.old ++ reasons.now.text.items) }
    ensures well { OnOk result (W.failures sink.new ≡ W.failures sink.old) }
    ensures front { OnErr result (AppendsFront (W.written sink.old) (W.written sink.new) reasons.now.text.items) }
    ensures failed { IfErr result (λ fault. W.failures sink.new ≡ W.failures sink.old + failures_told fault) }
    ensures same { W.path sink.new ≡ W.path sink.old }
{
    write_whole(sink, reasons.text.as_slice())?;
    Ok(())
}

/// Writes the certificate if the trace has no legal schedule: that of its core's part if there is a core, that of the whole, or the one of
/// reasons. Else it writes nothing. If memory runs out or the sink fails, the sink has taken a prefix of it.
pub fn write_survey_certificate<W: Sink>(
    alloc: Global,
    surveyed: &Surveyed,
    sink: &mut W,
) -> Result<(), SinkFault>
    ensures whole { OnOk result (W.written sink.new ≡ W.written sink.old ++ survey_certificate surveyed.now) }
    ensures well { OnOk result (W.failures sink.new ≡ W.failures sink.old) }
    ensures front { OnErr result (AppendsFront (W.written sink.old) (W.written sink.new) (survey_certificate surveyed.now)) }
    ensures failed { IfErr result (λ fault. W.failures sink.new ≡ W.failures sink.old + failures_told fault) }
    ensures same { W.path sink.new ≡ W.path sink.old }
{
    match surveyed {
        Surveyed::Decided(decision) => write_certificate(alloc, decision, sink),
        Surveyed::Refuted(core) => write_cert(
            alloc,
            &core.refutation.tree,
            core.refutation.derivations.as_slice(),
            sink,
        ),
        Surveyed::Reasoned(reasons) => write_reasons(reasons, sink),
        Surveyed::Undecided(_) => Ok(()),
    }
}

//! The certificate of what is decided.
ghost use Rattle.std.specs.Prelude.{◌≡◌, ◌+◌, ◌++◌, IfErr, OnErr, OnOk};
ghost use Rattle.dimacs.specs.Sink.{AppendsFront};
ghost use Rattle.dimacs.specs.SinkFault.{failures_told};
ghost use Rattle.trace_decision.specs.Decision.{certificate_text};

use crate::decision::Decision;
use certificate::write_cert;
use dimacs::{Sink, SinkFault};
use std::alloc::Global;

/// Writes the certificate if the trace has no legal schedule, one section after the other, and else nothing. If memory runs out or the sink
/// fails, the sink has taken a prefix of it.
pub fn write_certificate<W: Sink>(
    alloc: Global,
    decision: &Decision,
    sink: &mut W,
) -> Result<(), SinkFault>
    ensures whole { OnOk result (W.written sink.new ≡ W.written sink.old ++ certificate_text decision.now) }
    ensures well { OnOk result (W.failures sink.new ≡ W.failures sink.old) }
    ensures front { OnErr result (AppendsFront (W.written sink.old) (W.written sink.new) (certificate_text decision.now)) }
    ensures failed { IfErr result (λ fault. W.failures sink.new ≡ W.failures sink.old + failures_told fault) }
    ensures same { W.path sink.new ≡ W.path sink.old }
{
    match decision {
        Decision::Inconsistent(refutation) => write_cert(
            alloc,
            &refutation.tree,
            refutation.derivations.as_slice(),
            sink,
        ),
        Decision::Consistent(_) => Ok(()),
        Decision::Unknown(_) => Ok(()),
    }
}

//! The engine that checks LRAT proofs, from bytes to bytes.

ghost use Rattle.std.specs.Prelude.{◌≡◌};
ghost use Rattle.verdict_report.specs.LratEngine.{IsRunOfLrat, IsSaidOfProof, accepted_line, accepted_status};
ghost use Rattle.verdict_report.specs.Engine.{IsRunOfWriting};
ghost use Rattle.verdict_report.specs.Runs.{source_run, sink_run};

use crate::fault::Fault;
use crate::inputs::read_two;
use crate::source::Source;
use crate::status::Status;
use cnf_text::read_cnf;
use dimacs::{Sink, write_whole};
use lrat_check::checker::{Accepted, check};
use lrat_check::lrat_reader::read_lrat;
use std::alloc::Global;

/// Checks the LRAT proof of the second source for the formula of the first, and writes `ACCEPTED`. Then the formula has no
/// model.
///
/// Both texts are read whole, in this order, before either is parsed. The first refusal stands: of a source that fails, an
/// input past the limit, the formula's text, the proof's text, a step of the proof, lack of memory, or the sink.
pub fn run_lrat<C: Source, P: Source, W: Sink>(
    alloc: Global,
    cnf: &mut C,
    proof: &mut P,
    out: &mut W,
) -> Result<Status, Fault>
    ensures run { IsRunOfLrat
        (source_run C.handed_out C.is_at_end C.failures cnf.old cnf.new)
        (source_run P.handed_out P.is_at_end P.failures proof.old proof.new)
        (sink_run W.written W.failures out.old out.new)
        result }
    ensures same_cnf { C.path cnf.new ≡ C.path cnf.old }
    ensures same_proof { P.path proof.new ≡ P.path proof.old }
    ensures same_out { W.path out.new ≡ W.path out.old }
{
    let texts = read_two(alloc, cnf, proof)?;
    let accepted = check_texts(alloc, texts.0.as_slice(), texts.1.as_slice())?;
    write_accepted(accepted, out)
}

/// Checks the proof that the second text spells for the formula that the first one spells.
fn check_texts(alloc: Global, cnf_text: &[u8], proof_text: &[u8]) -> Result<Accepted, Fault>
    ensures { IsSaidOfProof cnf_text.now proof_text.now result }
{
    let formula = read_cnf(alloc, cnf_text)?;
    let derivation = read_lrat(alloc, proof_text)?;
    Ok(check(alloc, &formula, &[], &derivation)?)
}

/// Writes that the proof is accepted. What `check` gave is not looked at: it is taken so that nothing writes this line without a check.
fn write_accepted<W: Sink>(_accepted: Accepted, out: &mut W) -> Result<Status, Fault>
    ensures run { IsRunOfWriting (accepted_line _accepted) (accepted_status _accepted)
        (sink_run W.written W.failures out.old out.new)
        result }
    ensures same { W.path out.new ≡ W.path out.old }
{
    write_whole(out, b"ACCEPTED\n")?;
    Ok(Status::Yes)
}

//! The laws of certificates that were written: they are accepted.
//!
//! A law's body is empty, or calls other laws: what it says is proved in the folder of its name in `proofs/laws`, or needs no
//! answer. Who calls it has what it says in proofs; the call does nothing when run.

ghost use Rattle.std.specs.Prelude.{◌≡◌, true, ℕ, List, Result};
ghost use Rattle.core_recheck.specs.CoreRecheck.{IsAcceptedOf, IsTakenForReasons};
ghost use Rattle.cube_jobs.specs.Options.{OptionsValue};
ghost use Rattle.cube_tree.specs.CubeTree.{leaves};
ghost use Rattle.part_report.specs.PartRecheckEngine.{IsSaidByPart};
ghost use Rattle.reason_text.specs.Header.{begins_reasons};
ghost use Rattle.survey_verdict.specs.declared.surveyed.ReasonCertificate.{ReasonCertificate};
ghost use Rattle.survey_verdict.specs.declared.surveyed.RefutedCore.{RefutedCore};
ghost use Rattle.survey_verdict.specs.declared.surveyed.Surveyed.TheVariants.{Decided, Reasoned, Refuted};
ghost use Rattle.survey_verdict.specs.Surveyed.{IsSurveyed, core_names, survey_certificate};
ghost use Rattle.trace_decision.specs.declared.decision.Decision.TheVariants.{Inconsistent};
ghost use Rattle.trace_decision.specs.declared.refutation.Refutation.{Refutation};
ghost use Rattle.trace_decision.specs.Decision.{IsDecided, certificate_text};
ghost use Rattle.trace_semantics.specs.Trace.{TraceValue, IsTrace};
ghost use Rattle.trace_text.specs.TraceText.{SpellsTrace};
ghost use Rattle.verdict_report.specs.Admitted.{Admits};
ghost use Rattle.verdict_report.specs.declared.fault.Fault.{Fault};
ghost use Rattle.verdict_report.specs.declared.recheck_engine.CertificateSize.{CertificateSize};
ghost use Rattle.verdict_report.specs.RecheckEngine.{AreRefutedByReasons, IsSaidOfCertificate, IsSaidOfEither};

use survey_verdict::laws::core_names_spell;
use trace_decision::laws::certificate_is_accepted;
use trace_part::laws::part_is_one;

/// The certificate that is written of a trace without a legal schedule is accepted with the text of the trace, unless memory runs out.
pub fn certificate_is_rechecked()
    ensures { (options : OptionsValue) (t : TraceValue) (refutation : Refutation) (trace_text : List ℕ) (result : Result ℕ Fault) →
        Admits trace_text t → IsDecided options t (Inconsistent refutation) →
        IsSaidOfCertificate trace_text (certificate_text (Inconsistent refutation)) result →
        IsAcceptedOf (leaves refutation.tree) result }
{
    certificate_is_accepted();
}

/// So is the one that is written with the help of a survey if it is of the whole trace.
pub fn whole_certificate_is_rechecked()
    ensures { (options : OptionsValue) (t : TraceValue) (refutation : Refutation) (trace_text : List ℕ) (result : Result ℕ Fault) →
        IsTrace t → SpellsTrace trace_text t → IsSurveyed options t (Decided (Inconsistent refutation)) →
        IsSaidOfCertificate trace_text (survey_certificate (Decided (Inconsistent refutation))) result →
        IsAcceptedOf (leaves refutation.tree) result }
{
    certificate_is_rechecked();
}

/// The certificate and the names that are written of a core are accepted with the text of the trace, unless memory runs out. For the part
/// that the names make up is the one of which the survey has the refutation.
pub fn core_is_rechecked()
    ensures { (options : OptionsValue) (t : TraceValue) (core : RefutedCore) (trace_text : List ℕ) (result : Result ℕ Fault) →
        IsTrace t → SpellsTrace trace_text t → IsSurveyed options t (Refuted core) →
        IsSaidByPart trace_text (survey_certificate (Refuted core)) (core_names (Refuted core)) result →
        IsAcceptedOf (leaves core.refutation.tree) result }
{
    certificate_is_accepted();
    core_names_spell();
    part_is_one();
}

/// The certificate of reasons that is written of a trace refutes it with the text of the trace, and `recheck` takes it for one of reasons.
pub fn reasons_are_rechecked()
    ensures { (options : OptionsValue) (t : TraceValue) (reasons : ReasonCertificate) (trace_text : List ℕ) →
        IsTrace t → SpellsTrace trace_text t → IsSurveyed options t (Reasoned reasons) →
        AreRefutedByReasons trace_text (survey_certificate (Reasoned reasons)) reasons.clauses × (begins_reasons (survey_certificate (Reasoned reasons)) ≡ true) }
{}

/// With the text of the trace it is taken for one of reasons: neither is the trace refused, nor the certificate as one of a tree. That its
/// reasons are not refused no law says.
pub fn reasons_are_taken()
    ensures { (options : OptionsValue) (t : TraceValue) (reasons : ReasonCertificate) (trace_text : List ℕ) (result : Result CertificateSize Fault) →
        IsTrace t → SpellsTrace trace_text t → IsSurveyed options t (Reasoned reasons) →
        IsSaidOfEither trace_text (survey_certificate (Reasoned reasons)) result → IsTakenForReasons result }
{}

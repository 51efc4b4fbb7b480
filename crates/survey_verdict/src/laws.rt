//! Laws of what is decided with the help of a survey.
//!
//! A law's body is empty, or calls other laws: what it says is proved in the folder of its name in `proofs/laws`, or needs no
//! answer. Who calls it has what it says in proofs; the call does nothing when run.

ghost use Rattle.cube_jobs.specs.Options.{OptionsValue};
ghost use Rattle.schedule_text.specs.ScheduleText.{SpellsSchedule};
ghost use Rattle.trace_semantics.specs.ScheduleLimits.{limits_for};
ghost use Rattle.survey_verdict.specs.declared.surveyed.RefutedCore.{RefutedCore};
ghost use Rattle.survey_verdict.specs.declared.surveyed.Surveyed.TheVariants.{Refuted};
ghost use Rattle.survey_verdict.specs.Surveyed.{IsCertificateFor, IsSurveyed, core_names, core_part, survey_certificate};
ghost use Rattle.trace_semantics.specs.Trace.{IsTrace, TraceValue};
ghost use Rattle.trace_text.specs.TraceText.{SpellsTrace};

use part_law::laws::part_is_a_trace;
use part_text::laws::part_text_spells;
use trace_decision::laws::certificate_is_accepted;

/// The certificate that is written of a core spells one that is accepted for the clauses of its part: it can be read back, and checked
/// again for that part.
pub fn core_certificate_is_accepted()
    ensures { (options : OptionsValue) (t : TraceValue) (core : RefutedCore) → IsSurveyed options t (Refuted core) →
        IsCertificateFor core.part.trace (survey_certificate (Refuted core)) }
{
    certificate_is_accepted();
}

/// The text that is written of a core's part spells the part as a trace.
pub fn core_part_spells()
    ensures { (options : OptionsValue) (t : TraceValue) (core : RefutedCore) → IsTrace t → IsSurveyed options t (Refuted core) →
        SpellsTrace (core_part (Refuted core)) core.part.trace }
{
    part_text_spells();
}

/// The text that is written of a core's names spells them.
pub fn core_names_spell()
    ensures { (options : OptionsValue) (t : TraceValue) (core : RefutedCore) → IsTrace t → IsSurveyed options t (Refuted core) →
        SpellsSchedule (limits_for t) (core_names (Refuted core)) core.names }
{}

/// A core's part is a trace.
pub fn core_part_is_a_trace()
    ensures { (options : OptionsValue) (t : TraceValue) (core : RefutedCore) → IsTrace t → IsSurveyed options t (Refuted core) →
        IsTrace core.part.trace }
{
    part_is_a_trace();
}

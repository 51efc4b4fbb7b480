//! Laws of the texts that are admitted.
//!
//! A text is admitted if it spells a trace of which 160 operations at most are kept. The others are reads that only repeat what the operation directly before
//! them in their process has shown; the formula, its proofs and its certificates are of the kept trace alone.
//!
//! A law's body is empty, or calls other laws: what it says is proved in the folder of its name in `proofs/laws`, or needs no
//! answer. Who calls it has what it says in proofs; the call does nothing when run.

ghost use Rattle.std.specs.Prelude.{◌≡◌, ◌⊎◌, ◌↔◌, ℕ, Bool, List};
ghost use Rattle.certificate.specs.CertText.{SpellsCertificate};
ghost use Rattle.certificate.specs.Rechecked.{IsRechecked};
ghost use Rattle.certificate.specs.declared.certificate.Certificate.{Certificate};
ghost use Rattle.trace_text.specs.declared.trace_fault.TraceCause.{TraceCause};
ghost use Rattle.trace_text.specs.TraceFault.{HasTraceFault};
ghost use Rattle.dimacs.specs.Models.{IsModel};
ghost use Rattle.trace_semantics.specs.declared.operation.OpName.{OpName};
ghost use Rattle.trace_semantics.specs.Legal.{IsLegal};
ghost use Rattle.trace_semantics.specs.Trace.{TraceValue, IsTrace};
ghost use Rattle.schedule_text.specs.ScheduleText.{SpellsSchedule};
ghost use Rattle.trace_semantics.specs.ScheduleLimits.{limits_for};
ghost use Rattle.schedule_text.specs.ScheduleWritten.{canonical_schedule};
ghost use Rattle.reducer.specs.Reduction.{kept_trace};
ghost use Rattle.cnf_text.specs.CnfReading.{SpellsCnf};
ghost use Rattle.clause_blocks.specs.Clauses.{clauses_of, formula_of};
ghost use Rattle.verdict_report.specs.Admitted.{Admits, IsTooLarge, cnf_of};
ghost use Rattle.verdict_report.specs.CnfEngine.{Translates};
ghost use Rattle.verdict_report.specs.LratEngine.{AreAccepted};
ghost use Rattle.verdict_report.specs.Runs.{SourceRun, HandsOut};

use certificate::laws::accepted_has_no_model;
use clause_blocks::laws::formula_is_over_its_variables;

/// The same text gives the same clause list, to the byte.
pub fn one_clause_list()
    ensures { (first second : SourceRun) (text cnf other : List ℕ) →
        HandsOut first text → HandsOut second text → Translates first cnf → Translates second other → cnf ≡ other }
{}

/// Each text is admitted, or spells a trace that is too large, or has a first fault.
pub fn admitted_or_refused()
    ensures { (text : List ℕ) →
        ((value : TraceValue) × Admits text value)
        ⊎ (((left : ℕ) × IsTooLarge text left) ⊎ ((cause : TraceCause) × (line : ℕ) × HasTraceFault text cause line)) }
{}

/// A text that is admitted is not refused.
pub fn never_admitted_and_refused()
    ensures large { (text : List ℕ) (value : TraceValue) (left : ℕ) → Admits text value → IsTooLarge text left → ⊥ }
    ensures faulty { (text : List ℕ) (value : TraceValue) (cause : TraceCause) (line : ℕ) →
        Admits text value → HasTraceFault text cause line → ⊥ }
{}

/// The clauses that are written have a model if and only if the whole trace has a legal schedule.
pub fn satisfiable_exactly_where_schedulable()
    ensures { (text : List ℕ) (value : TraceValue) → Admits text value →
        ((truth : ℕ → Bool) × IsModel truth (clauses_of (kept_trace value))) ↔ ((names : List OpName) × IsLegal value names) }
{}

/// The text that is written of an admitted trace spells the formula of what is kept of it, as a reader of formulas takes it.
pub fn written_text_spells()
    ensures { (text : List ℕ) (value : TraceValue) → Admits text value → SpellsCnf (cnf_of value) (formula_of (kept_trace value)) }
{}

/// The text that is written of a legal schedule of a trace spells it, as a reader of schedules takes it.
pub fn written_schedule_spells()
    ensures { (value : TraceValue) (names : List OpName) → IsTrace value → IsLegal value names → SpellsSchedule (limits_for value) (canonical_schedule names) names }
{}

/// A proof that is accepted for the text that is written of an admitted trace shows that the whole trace has no legal schedule.
pub fn accepted_proof_shows_no_schedule()
    ensures { (text proof : List ℕ) (value : TraceValue) (names : List OpName) → Admits text value → AreAccepted (cnf_of value) proof → IsLegal value names → ⊥ }
{}

/// A certificate that is accepted for the clauses of what is kept of an admitted trace shows that the whole trace has no legal schedule.
pub fn accepted_certificate_shows_no_schedule()
    ensures { (text cert : List ℕ) (value : TraceValue) (certificate : Certificate) (count : ℕ) (names : List OpName) →
        Admits text value → SpellsCertificate cert certificate → IsRechecked (clauses_of (kept_trace value)) certificate count → IsLegal value names → ⊥ }
{
    accepted_has_no_model();
    formula_is_over_its_variables();
}

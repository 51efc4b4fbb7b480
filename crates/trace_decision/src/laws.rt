//! Laws of what is decided.
//!
//! A law's body is empty, or calls other laws: what it says is proved in the folder of its name in `proofs/laws`, or needs no
//! answer. Who calls it has what it says in proofs; the call does nothing when run.

ghost use Rattle.std.specs.Prelude.{List, ℤ};
ghost use Rattle.certificate.specs.CertText.{SpellsCertificate};
ghost use Rattle.certificate.specs.Rechecked.{IsRechecked};
ghost use Rattle.clause_blocks.specs.Clauses.{clauses_of};
ghost use Rattle.cube_jobs.specs.Options.{OptionsValue};
ghost use Rattle.cube_tree.specs.CubeTree.{leaves};
ghost use Rattle.reducer.specs.Reduction.{kept_trace};
ghost use Rattle.trace_semantics.specs.Trace.{IsTrace, TraceValue};
ghost use Rattle.trace_decision.specs.Decision.{HoldModels, IsDecided, certificate_text, certificate_in};
ghost use Rattle.trace_decision.specs.InCube.{HoldSchedules};
ghost use Rattle.trace_decision.specs.declared.decision.Decision.TheVariants.{Inconsistent};
ghost use Rattle.trace_decision.specs.declared.refutation.Refutation.{Refutation};

/// The text that is written of a trace without a legal schedule spells its certificate, and that is accepted for the clauses of what is
/// kept of the trace: it can be read back, and checked again.
pub fn certificate_is_accepted()
    ensures spelled { (options : OptionsValue) (value : TraceValue) (refutation : Refutation) → IsDecided options value (Inconsistent refutation) →
        SpellsCertificate (certificate_text (Inconsistent refutation)) (certificate_in refutation) }
    ensures accepted { (options : OptionsValue) (value : TraceValue) (refutation : Refutation) → IsDecided options value (Inconsistent refutation) →
        IsRechecked (clauses_of (kept_trace value)) (certificate_in refutation) (leaves refutation.tree) }
{}

/// If all models of the clauses of what is kept of a trace are in some cubes, each legal schedule of the trace is in one of them.
pub fn schedules_are_where_models_are()
    ensures { (t : TraceValue) (cubes : List (List ℤ)) → IsTrace t → HoldModels (clauses_of (kept_trace t)) cubes → HoldSchedules t cubes }
{}

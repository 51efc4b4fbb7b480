//! Laws of a trace's text.
//!
//! A law's body is empty, or calls other laws: what it says is proved in the folder of its name in `proofs/trace_laws`, or needs no
//! answer. Who calls it has what it says in proofs; the call does nothing when run.

ghost use Rattle.std.specs.Prelude.{◌≡◌, ◌⊎◌, ℕ, List};
ghost use Rattle.trace_text.specs.declared.trace_fault.TraceCause.{TraceCause};
ghost use Rattle.trace_semantics.specs.Trace.{TraceValue, IsTrace, IsWritten};
ghost use Rattle.trace_text.specs.TraceFault.{HasTraceFault};
ghost use Rattle.trace_text.specs.TraceText.{SpellsTrace};
ghost use Rattle.trace_text.specs.TraceWritten.{canonical_trace};

/// The canonical text of a trace spells it.
pub fn canonical_trace_spells()
    ensures { (t : TraceValue) → IsTrace t → SpellsTrace (canonical_trace t) t }
{}

/// A canonical text is of one trace.
pub fn one_canonical_trace()
    ensures { (s t : TraceValue) → IsWritten s → IsWritten t → canonical_trace s ≡ canonical_trace t → s ≡ t }
{}

/// A text spells at most one trace.
pub fn one_trace()
    ensures { (text : List ℕ) (s t : TraceValue) → IsTrace s → IsTrace t → SpellsTrace text s → SpellsTrace text t → s ≡ t }
{}

/// A text has at most one first fault.
pub fn one_trace_fault()
    ensures { (text : List ℕ) (cause other : TraceCause) (line other_line : ℕ) →
        HasTraceFault text cause line → HasTraceFault text other other_line → (line ≡ other_line) × (cause ≡ other) }
{}

/// A text that spells a trace has no fault.
pub fn never_spelled_and_faulty()
    ensures { (text : List ℕ) (t : TraceValue) (cause : TraceCause) (line : ℕ) →
        IsTrace t → SpellsTrace text t → HasTraceFault text cause line → ⊥ }
{}

/// Each text spells a trace or has a first fault.
pub fn spelled_or_faulty()
    ensures { (text : List ℕ) →
        ((t : TraceValue) × IsTrace t × SpellsTrace text t) ⊎ ((cause : TraceCause) × (line : ℕ) × HasTraceFault text cause line) }
{}

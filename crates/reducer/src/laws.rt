//! Laws of reduction and expansion.
//!
//! Reduction drops plain reads that repeat what the operation directly before them in their process has shown, and of which the trace says nothing more. The
//! kept trace is what is left, under new names. Expansion puts the dropped reads back into a schedule, directly behind what they repeat.
//!
//! A law's body is empty, or calls other laws: what it says is proved in the folder of its name in `proofs/laws`, or needs no
//! answer. Who calls it has what it says in proofs; the call does nothing when run.

ghost use Rattle.std.specs.Prelude.{◌≡◌, ◌↔◌, true, List, IsSome};
ghost use Rattle.std.specs.List.{Contains};
ghost use Rattle.std.specs.Option.{option_map};
ghost use Rattle.trace_semantics.specs.declared.operation.OpName.{OpName};
ghost use Rattle.trace_semantics.specs.Interleaving.{IsInterleaving};
ghost use Rattle.trace_semantics.specs.Legal.{IsLegal};
ghost use Rattle.trace_semantics.specs.Trace.{TraceValue, IsTrace, operation_at};
ghost use Rattle.restriction.specs.Left.{new_name, new_op};
ghost use Rattle.reducer.specs.Expansion.{expanded, expansion};
ghost use Rattle.reducer.specs.Reduction.{kept_op, is_kept, kept_trace};

/// What is kept of a trace is a trace.
pub fn kept_is_a_trace()
    ensures { (t : TraceValue) → IsTrace t → IsTrace (kept_trace t) }
{}

/// The kept trace has each kept operation under its new name.
pub fn kept_has_its_new_name()
    ensures { (t : TraceValue) (n : OpName) → IsTrace t → IsSome (operation_at t n) → is_kept t n ≡ true → operation_at (kept_trace t) (new_name (kept_op t) n) ≡ option_map (new_op (kept_op t)) (operation_at t n) }
{}

/// A name of the kept trace expands to the operations of the whole one that have it as their new name, dropped ones included.
pub fn expands_to_those_of_its_new_name()
    ensures { (t : TraceValue) (x m : OpName) → IsTrace t → IsSome (operation_at (kept_trace t) x) → Contains (expanded t x) m ↔ (IsSome (operation_at t m) × (new_name (kept_op t) m ≡ x)) }
{}

/// With the dropped reads put back, an interleaving of the kept trace is one of the whole trace.
pub fn expansion_is_an_interleaving()
    ensures { (t : TraceValue) (names : List OpName) → IsTrace t → IsInterleaving (kept_trace t) names → IsInterleaving t (expansion t names) }
{}

/// With the dropped reads put back, a legal schedule of the kept trace is one of the whole trace.
pub fn expansion_is_legal()
    ensures { (t : TraceValue) (names : List OpName) → IsTrace t → IsLegal (kept_trace t) names → IsLegal t (expansion t names) }
{}

/// The kept trace has a legal schedule if and only if the whole trace has one.
pub fn schedulable_exactly_where_reduced_is()
    ensures { (t : TraceValue) → IsTrace t → ((names : List OpName) × IsLegal (kept_trace t) names) ↔ ((names : List OpName) × IsLegal t names) }
{}

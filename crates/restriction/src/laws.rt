//! Laws of what remains of a trace.
//!
//! A law's body is empty, or calls other laws: what it says is proved in the folder of its name in `proofs/laws`, or needs no
//! answer. Who calls it has what it says in proofs; the call does nothing when run.

ghost use Rattle.std.specs.Prelude.{◌≡◌, true, List, ℕ, Option, IsSome};
ghost use Rattle.std.specs.Option.{option_map};
ghost use Rattle.trace_semantics.specs.declared.operation.Op.{Op};
ghost use Rattle.trace_semantics.specs.declared.operation.OpName.{OpName};
ghost use Rattle.trace_semantics.specs.Interleaving.{IsInterleaving};
ghost use Rattle.trace_semantics.specs.Trace.{TraceValue, IsTrace, operation_at};
ghost use Rattle.trace_semantics.specs.ValueAfter.{value_after, last_writer};
ghost use Rattle.restriction.specs.LastWriter.{IsLast};
ghost use Rattle.restriction.specs.Left.{is_left, new_name, new_op, restricted};
ghost use Rattle.restriction.specs.Restriction.{AreProcessesLeft, ArePairsLeft, KeepsSpans, StaysAlike};

/// What remains of an operation stands in the new trace under its new name.
pub fn left_has_new_name()
    ensures { (t q : TraceValue) (stays : OpName → Option Op) (n : OpName) → IsTrace t → AreProcessesLeft t stays q → IsSome (operation_at t n) → is_left stays n ≡ true → operation_at q (new_name stays n) ≡ option_map (new_op stays) (stays n) }
{}

/// Each operation of the new trace is what remains of an operation, whose new name is its name.
pub fn new_is_of_old()
    ensures { (t q : TraceValue) (stays : OpName → Option Op) (x : OpName) → IsTrace t → AreProcessesLeft t stays q → IsSome (operation_at q x) → (n : OpName) × IsSome (operation_at t n) × (is_left stays n ≡ true) × (new_name stays n ≡ x) }
{}

/// The restriction of an interleaving of a trace is one of what remains.
pub fn restriction_is_interleaved()
    ensures { (t q : TraceValue) (stays : OpName → Option Op) (names : List OpName) → IsTrace t → AreProcessesLeft t stays q → ArePairsLeft q stays names → KeepsSpans t stays → IsInterleaving t names → IsInterleaving q (restricted stays names) }
{}

/// If the last operation that writes a location remains, or none writes it, the location holds the same after the restriction, written
/// by the same operation.
pub fn same_after_restriction()
    ensures value { (t q : TraceValue) (stays : OpName → Option Op) (location : List ℕ) (names : List OpName) → IsTrace t → AreProcessesLeft t stays q → q.initial ≡ t.initial → StaysAlike t stays → ((w : OpName) (d : ℕ) → IsLast t location names w d → is_left stays w ≡ true) → value_after q location (restricted stays names) ≡ value_after t location names }
    ensures writer { (t q : TraceValue) (stays : OpName → Option Op) (location : List ℕ) (names : List OpName) → IsTrace t → AreProcessesLeft t stays q → q.initial ≡ t.initial → StaysAlike t stays → ((w : OpName) (d : ℕ) → IsLast t location names w d → is_left stays w ≡ true) → last_writer q location (restricted stays names) ≡ option_map (new_name stays) (last_writer t location names) }
{}

//! Laws of the parts that are made.
//!
//! A law's body is empty, or calls other laws: what it says is proved in the folder of its name in `proofs/laws`, or needs no
//! answer. Who calls it has what it says in proofs; the call does nothing when run.

ghost use Rattle.std.specs.Prelude.{◌≡◌, true, List, Some, IsSome};
ghost use Rattle.trace_semantics.specs.declared.operation.OpName.{OpName};
ghost use Rattle.trace_semantics.specs.Judgement.{has_come};
ghost use Rattle.trace_semantics.specs.Legal.{HasNoSchedule};
ghost use Rattle.trace_semantics.specs.Trace.{TraceValue, IsTrace, operation_at};
ghost use Rattle.restriction.specs.Left.{is_left, new_name};
ghost use Rattle.part_law.specs.Part.{stays};
ghost use Rattle.trace_part.specs.TraceParts.{PartValue, IsPart, whole_name};

/// If a part of a trace has no legal schedule, the trace has none.
pub fn unschedulable_where_its_part_is()
    ensures { (t : TraceValue) (names : List OpName) (p : PartValue) → IsTrace t → IsPart t names p → HasNoSchedule p.trace → HasNoSchedule t }
{}

/// The names of some operations of a trace make up one part of it, in whatever order they are listed.
pub fn part_is_one()
    ensures { (t : TraceValue) (names others : List OpName) (p q : PartValue) → IsTrace t → ((n : OpName) → has_come names n ≡ has_come others n) → IsPart t names p → IsPart t others q → p ≡ q }
{}

/// Each operation of a part is what remains of the chosen operation of the trace that its name in the whole names.
pub fn part_is_of_the_chosen()
    ensures { (t : TraceValue) (names : List OpName) (p : PartValue) (x : OpName) → IsTrace t → (given : IsPart t names p) → IsSome (operation_at p.trace x) →
        (n : OpName) × (whole_name t p x ≡ Some n) × (has_come names n ≡ true) × IsSome (operation_at t n) × (is_left (stays t given.ordered (has_come names)) n ≡ true) × (new_name (stays t given.ordered (has_come names)) n ≡ x) }
{}

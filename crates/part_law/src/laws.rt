//! Laws of parts.
//!
//! A law's body is empty, or calls other laws: what it says is proved in the folder of its name in `proofs/laws`, or needs no
//! answer. Who calls it has what it says in proofs; the call does nothing when run.
//!
//! A part is what some chosen operations say by themselves, given an order of operations. By that order a read has possible sources, and it remains only if all
//! of them are chosen; an update of which they are not remains as a write. Restricting a schedule leaves out what does not remain, and counts places anew.

ghost use Rattle.std.specs.Prelude.{◌≡◌, ◌≢◌, true, Bool, List, IsSome};
ghost use Rattle.trace_semantics.specs.declared.operation.OpName.{OpName};
ghost use Rattle.trace_semantics.specs.Interleaving.{StandsBefore};
ghost use Rattle.trace_semantics.specs.Legal.{IsLegal, HasNoSchedule};
ghost use Rattle.trace_semantics.specs.Trace.{TraceValue, IsTrace, operation_at};
ghost use Rattle.part_law.specs.Derived.{IsDerived};
ghost use Rattle.restriction.specs.Left.{restricted};
ghost use Rattle.forced_order.specs.Order.{Agree, Obeys, IsObeyed};
ghost use Rattle.part_law.specs.Part.{stays, part};

/// A legal schedule of a trace that obeys the order, restricted to what remains, is a legal schedule of the part.
pub fn restriction_is_legal()
    ensures { (t : TraceValue) (ordered : OpName → OpName → Bool) (chosen : OpName → Bool) (names : List OpName) → IsTrace t → IsLegal t names → Obeys t names ordered → IsLegal (part t ordered chosen) (restricted (stays t ordered chosen) names) }
{}

/// A trace has no legal schedule if some part of it has none, made by an order that every legal schedule of the trace obeys.
pub fn unschedulable_where_a_part_is()
    ensures { (t : TraceValue) (ordered : OpName → OpName → Bool) (chosen : OpName → Bool) → IsTrace t → IsObeyed t ordered → HasNoSchedule (part t ordered chosen) → HasNoSchedule t }
{}

/// A part of a trace is a trace.
pub fn part_is_a_trace()
    ensures { (t : TraceValue) (ordered : OpName → OpName → Bool) (chosen : OpName → Bool) → IsTrace t → IsTrace (part t ordered chosen) }
{}

/// If a part has no legal schedule that is made by an order which every legal schedule obeys that puts n before m, then every legal
/// schedule puts m before n.
pub fn refuted_order_is_turned()
    ensures { (t : TraceValue) (ordered : OpName → OpName → Bool) (chosen : OpName → Bool) (m n : OpName) → IsTrace t → IsSome (operation_at t m) → IsSome (operation_at t n) → m ≢ n → ((names : List OpName) → IsLegal t names → StandsBefore names n m → Obeys t names ordered) → HasNoSchedule (part t ordered chosen) → (names : List OpName) → IsLegal t names → StandsBefore names m n }
{}

/// A legal schedule that obeys an order also keeps what follows from it and from the only possible source of a reading operation.
pub fn derived_stands()
    ensures { (t : TraceValue) (ordered : OpName → OpName → Bool) (names : List OpName) (m n : OpName) → IsTrace t → IsLegal t names → Obeys t names ordered → IsDerived t ordered m n → StandsBefore names m n }
{}

/// Two orders that agree on the operations of a trace make the same part of it. All forced orders of a trace agree, so the part that `trace_part` makes by
/// one of them is that of each.
pub fn orders_that_agree_make_one_part()
    ensures { (t : TraceValue) (first second : OpName → OpName → Bool) (chosen : OpName → Bool) → IsTrace t → Agree t first second → part t first chosen ≡ part t second chosen }
{}

//! Laws of the forced order.
//!
//! A law's body is empty, or calls other laws: what it says is proved in the folder of its name in `proofs/laws`, or needs no
//! answer. Who calls it has what it says in proofs; the call does nothing when run.

ghost use Rattle.std.specs.Prelude.{Bool, List};
ghost use Rattle.trace_semantics.specs.declared.operation.OpName.{OpName};
ghost use Rattle.trace_semantics.specs.Interleaving.{StandsBefore};
ghost use Rattle.trace_semantics.specs.Legal.{IsLegal};
ghost use Rattle.trace_semantics.specs.Trace.{TraceValue};
ghost use Rattle.forced_order.specs.Order.{Agree, IsClosedForward, IsForced, IsForcedOrder, IsObeyed, IsWithinForced};

/// Every legal schedule keeps the forced order.
pub fn forced_stands()
    ensures { (t : TraceValue) (names : List OpName) (m n : OpName) → IsLegal t names → IsForced t m n → StandsBefore names m n }
{}

/// Every legal schedule obeys an order that says no more than the forced order.
pub fn forced_is_obeyed()
    ensures { (t : TraceValue) (ordered : OpName → OpName → Bool) → IsWithinForced t ordered → IsObeyed t ordered }
{}

/// Of the operations of a trace there is one forced order.
pub fn forced_orders_agree()
    ensures { (t : TraceValue) (first second : OpName → OpName → Bool) → IsForcedOrder t first → IsForcedOrder t second → Agree t first second }
{}

/// What the forced order puts before an operation, it puts before the later ones of that process.
pub fn forced_order_is_closed_forward()
    ensures { (t : TraceValue) (ordered : OpName → OpName → Bool) → IsForcedOrder t ordered → IsClosedForward t ordered }
{}

//! The clause that operations do not stand in a cycle.

ghost use Rattle.std.specs.Prelude.{◌≡◌, ◌<◌, ◌+◌, OnOk, IfErr, length, map, slice_index_or};
ghost use Rattle.order_reasons.specs.Orders.{HoldsOfSchedules};
ghost use Rattle.order_clauses.specs.Numbered.{named, named_orders};
ghost use Rattle.order_clauses.specs.OrderVariables.{nowhere};
ghost use Rattle.reason_clauses.specs.AddedOrders.{AddsOnly, IsOrder};
ghost use Rattle.reason_clauses.specs.CycleRefused.{IsCycleRefused, IsStepRefused, IsTurnedStep};
ghost use Rattle.reason_clauses.specs.Numbered.{Grows};
ghost use Rattle.reason_clauses.specs.RefusedBy.{IsRefusedBy};
ghost use Rattle.reason_clauses.specs.Cycle.{IsTurned};
ghost use Rattle.reason_clauses.specs.Made.{Makes, IsCycleOf};

use crate::cause::{ReasonCause, ReasonRefusal};
use crate::lookups::{are_same, operation_of};
use crate::orders::push_order;
use order_clauses::order_pair::OrderPair;
use trace_semantics::trace::Trace;
use writer_table::operation_place::OperationPlace;

/// Appends that the step from one operation to another is turned round. Only the first is looked up: in a cycle each operation is the first of one step.
fn push_turned(
    trace: &Trace,
    from: OperationPlace,
    to: OperationPlace,
    orders: &mut Vec<OrderPair>,
) -> Result<(), ReasonRefusal>
    ensures grows { OnOk result (Grows orders.old.items orders.new.items) }
    ensures turned { OnOk result (IsTurned trace.now orders.new.items from to) }
    ensures only { OnOk result (AddsOnly orders.old.items orders.new.items (IsOrder to from)) }
    ensures refused { IfErr result (IsRefusedBy (IsStepRefused trace.now from to)) }
{
    trace.recall_invariant();
    if are_same(from, to) {
        return Err(ReasonRefusal::For(ReasonCause::BadCycle));
    }
    let _op = operation_of(trace, from)?;
    push_order(orders, to, from)?;
    Ok(())
}

/// The operation at this place.
fn at(operations: &[OperationPlace], place: usize) -> OperationPlace
    requires { place < length operations.now }
    ensures { result ≡ slice_index_or operations.now place nowhere }
{
    operations[place]
}

/// The operation after the one at this place; after the last comes the first.
fn next_of(operations: &[OperationPlace], place: usize) -> OperationPlace
    requires { place < length operations.now }
    ensures { result ≡ slice_index_or operations.now (place + 1) (slice_index_or operations.now 0 nowhere) }
{
    if place + 1 < operations.len() {
        operations[place + 1]
    } else {
        operations[0]
    }
}

/// Appends the orders of which one stands, since the operations do not stand in a cycle: each step, also that from the last to the
/// first, is turned round.
pub fn cycle_clause(
    trace: &Trace,
    operations: &[OperationPlace],
    orders: &mut Vec<OrderPair>,
) -> Result<(), ReasonRefusal>
    ensures made { OnOk result (Makes trace.now orders.new.items (IsCycleOf trace.now (map (named trace.now) operations.now))) }
    ensures holds { OnOk result (HoldsOfSchedules trace.now (named_orders trace.now orders.new.items)) }
    ensures only { OnOk result (AddsOnly orders.old.items orders.new.items (IsTurnedStep operations.now)) }
    ensures refused { IfErr result (IsRefusedBy (IsCycleRefused trace.now operations.now)) }
{
    let count = operations.len();
    // A single operation is its own next one, and `push_turned` refuses it.
    if count == 0 {
        return Err(ReasonRefusal::For(ReasonCause::BadCycle));
    }
    for place in 0..operations.len() {
        let from = at(operations, place);
        let to = next_of(operations, place);
        push_turned(trace, from, to, orders)?;
    }
    Ok(())
}

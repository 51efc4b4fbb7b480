//! The clause of two operations of which one had ended before the other began.

ghost use Rattle.std.specs.Prelude.{OnOk, IfErr};
ghost use Rattle.order_reasons.specs.Orders.{HoldsOfSchedules};
ghost use Rattle.order_reasons.specs.Reasons.{IsTimesClause};
ghost use Rattle.order_clauses.specs.Numbered.{named, named_orders};
ghost use Rattle.reason_clauses.specs.AddedOrders.{AddsOnly, IsOrder};
ghost use Rattle.reason_clauses.specs.EndedRefused.{IsEndedRefused};
ghost use Rattle.reason_clauses.specs.Made.{Makes};
ghost use Rattle.reason_clauses.specs.RefusedBy.{IsRefusedBy};

use crate::cause::{ReasonCause, ReasonRefusal};
use crate::lookups::operation_of;
use crate::orders::push_order;
use order_clauses::order_pair::OrderPair;
use trace_semantics::known_order::ends_before;
use trace_semantics::trace::Trace;

/// Appends that the first operation stands before the second, if it had ended before the second began.
pub fn ended_clause(
    trace: &Trace,
    order: OrderPair,
    orders: &mut Vec<OrderPair>,
) -> Result<(), ReasonRefusal>
    ensures made { OnOk result (Makes trace.now orders.new.items (λ clause. IsTimesClause trace.now clause (named trace.now order.first) (named trace.now order.second))) }
    ensures holds { OnOk result (HoldsOfSchedules trace.now (named_orders trace.now orders.new.items)) }
    ensures only { OnOk result (AddsOnly orders.old.items orders.new.items (IsOrder order.first order.second)) }
    ensures refused { IfErr result (IsRefusedBy (IsEndedRefused trace.now order)) }
{
    let first = operation_of(trace, order.first)?;
    let second = operation_of(trace, order.second)?;
    if !ends_before(first.span(), second.span()) {
        return Err(ReasonRefusal::For(ReasonCause::NoPair));
    }
    push_order(orders, order.first, order.second)?;
    Ok(())
}

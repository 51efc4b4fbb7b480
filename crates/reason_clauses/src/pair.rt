//! The clause of a before pair.

ghost use Rattle.std.specs.Prelude.{◌≡◌, ◌<◌, true, false, length, slice_index_or, OnOk, IfErr};
ghost use Rattle.std.specs.List.{Contains};
ghost use Rattle.order_reasons.specs.Orders.{HoldsOfSchedules};
ghost use Rattle.order_reasons.specs.Reasons.{IsPairClause};
ghost use Rattle.order_clauses.specs.Numbered.{named, named_order, named_orders, IsKnown};
ghost use Rattle.reason_clauses.specs.AddedOrders.{AddsOnly, IsOrder};
ghost use Rattle.reason_clauses.specs.Made.{Makes};
ghost use Rattle.reason_clauses.specs.PairRefused.{IsPairRefused};
ghost use Rattle.reason_clauses.specs.RefusedBy.{IsRefusedBy};

use crate::cause::{ReasonCause, ReasonRefusal};
use crate::lookups::{is_named, operation_of};
use crate::orders::push_order;
use order_clauses::order_pair::OrderPair;
use trace_semantics::trace::Trace;
use writer_table::operation_place::OperationPlace;

/// Returns whether the before pair at this place of the trace's list is of these operations.
fn is_pair_at(trace: &Trace, place: usize, order: OrderPair) -> bool
    ensures only { result ≡ true → Contains trace.now.before (named_order trace.now order) }
    ensures found { place < length trace.now.before → slice_index_or trace.now.before place (named_order trace.now order) ≡ named_order trace.now order → IsKnown trace.now order.first → IsKnown trace.now order.second → result ≡ true }
{
    let pairs = trace.before();
    if place >= pairs.len() {
        return false;
    }
    let pair = &pairs[place];
    if !is_named(trace, order.first, &pair.0) {
        return false;
    }
    is_named(trace, order.second, &pair.1)
}

/// Returns whether some before pair of the trace is of these operations.
fn find_pair(trace: &Trace, order: OrderPair) -> bool
    ensures only { result ≡ true → Contains trace.now.before (named_order trace.now order) }
    ensures found { Contains trace.now.before (named_order trace.now order) → IsKnown trace.now order.first → IsKnown trace.now order.second → result ≡ true }
{
    let pairs = trace.before();
    for k in 0..pairs.len() {
        if is_pair_at(trace, k, order) {
            return true;
        }
    }
    false
}

/// The same. The pair at this place is looked at first, so that mostly the list is not searched. The place is a hint of the caller and may be wrong.
fn is_pair(trace: &Trace, place: usize, order: OrderPair) -> bool
    ensures only { result ≡ true → Contains trace.now.before (named_order trace.now order) }
    ensures found { Contains trace.now.before (named_order trace.now order) → IsKnown trace.now order.first → IsKnown trace.now order.second → result ≡ true }
{
    if is_pair_at(trace, place, order) {
        return true;
    }
    find_pair(trace, order)
}

/// Appends that the first operation stands before the second, if the trace says so by a before pair, which is looked for first at this place of
/// its list. Both operations are looked up first, so one that the trace lacks is refused as such, and `NoPair` is said only of two that it has.
pub fn pair_clause(
    trace: &Trace,
    place: usize,
    order: OrderPair,
    orders: &mut Vec<OrderPair>,
) -> Result<(), ReasonRefusal>
    ensures made { OnOk result (Makes trace.now orders.new.items (λ clause. IsPairClause trace.now clause (named trace.now order.first) (named trace.now order.second))) }
    ensures holds { OnOk result (HoldsOfSchedules trace.now (named_orders trace.now orders.new.items)) }
    ensures only { OnOk result (AddsOnly orders.old.items orders.new.items (IsOrder order.first order.second)) }
    ensures refused { IfErr result (IsRefusedBy (IsPairRefused trace.now order)) }
{
    let _first = operation_of(trace, order.first)?;
    let _second = operation_of(trace, order.second)?;
    if !is_pair(trace, place, order) {
        return Err(ReasonRefusal::For(ReasonCause::NoPair));
    }
    push_order(orders, order.first, order.second)?;
    Ok(())
}

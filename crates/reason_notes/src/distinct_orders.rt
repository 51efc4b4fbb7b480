//! Orders without repetitions.

ghost use Rattle.std.specs.Prelude.{◌≡◌, ◌⊎◌, true, IfOk, OnOk};
ghost use Rattle.std.specs.List.{Contains};
ghost use Rattle.order_clauses.specs.declared.order_pair.OrderPair.{OrderPair as Order};

use order_clauses::order_pair::OrderPair;
use std::alloc::{AllocError, Global};

/// How many orders at the front no later one repeats: a sentence has its first order, and lists the next twelve. Comparing with these alone
/// keeps the time linear; an order that repeats one further back is counted once more among those that are not listed.
const MOST_DISTINCT: usize = 13;

/// Returns whether both are one order.
fn is_same(first: OrderPair, second: OrderPair) -> bool
    ensures { result ≡ true → first ≡ second }
{
    first.first.process == second.first.process
        && first.first.place == second.first.place
        && first.second.process == second.second.process
        && first.second.place == second.second.place
}

/// Returns whether the order is among the first of these.
fn is_among(orders: &[OrderPair], order: OrderPair) -> bool
    ensures { result ≡ true → Contains orders.now order }
{
    for k in 0..orders.len() {
        if k >= MOST_DISTINCT {
            return false;
        }
        if is_same(orders[k], order) {
            return true;
        }
    }
    false
}

/// Appends the order, unless it is among the first of these.
fn add_order(kept: &mut Vec<OrderPair>, order: OrderPair) -> Result<(), AllocError>
    ensures { OnOk result ((p : Order) → Contains kept.old.items p ⊎ (order ≡ p) → Contains kept.new.items p) }
{
    if !is_among(kept.as_slice(), order) {
        kept.push(order)?;
    }
    Ok(())
}

/// The orders in turn, but for those that repeat one of the first few.
fn distinct_of(alloc: Global, orders: &[OrderPair]) -> Result<Vec<OrderPair>, AllocError>
    ensures { IfOk result (λ kept. (p : Order) → Contains orders.now p → Contains kept.items p) }
{
    let mut kept = Vec::new(alloc);
    for order in orders {
        add_order(&mut kept, *order)?;
    }
    Ok(kept)
}

/// The same of a list, which is let go.
pub fn distinct_orders(alloc: Global, orders: Vec<OrderPair>) -> Result<Vec<OrderPair>, AllocError>
    ensures { IfOk result (λ kept. (p : Order) → Contains orders.items p → Contains kept.items p) }
{
    distinct_of(alloc, orders.as_slice())
}

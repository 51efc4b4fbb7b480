//! The words of the orders of a clause.

ghost use Rattle.std.specs.Prelude.{◌≡◌, ◌++◌, OnOk};
ghost use Rattle.std.specs.List.{flat_map};
ghost use Rattle.reason_notes.specs.Words.{order_text, orders_text, other_text};

use crate::listed::{count_after, first_of, push_more};
use crate::operation_words::push_name;
use order_clauses::order_pair::OrderPair;
use std::alloc::AllocError;
use trace_semantics::trace::Trace;

/// Appends the order as `A before B`.
fn push_order(text: &mut Vec<u8>, trace: &Trace, order: OrderPair) -> Result<(), AllocError>
    ensures { OnOk result (text.new.items ≡ text.old.items ++ order_text trace.now order) }
{
    push_name(text, trace, order.first)?;
    text.extend_from_slice(b" before ")?;
    push_name(text, trace, order.second)
}

/// Appends the orders, each after `, or`.
fn push_others(text: &mut Vec<u8>, trace: &Trace, others: &[OrderPair]) -> Result<(), AllocError>
    ensures { OnOk result (text.new.items ≡ text.old.items ++ flat_map (other_text trace.now) others.now) }
{
    for order in others {
        text.extend_from_slice(b", or ")?;
        push_order(text, trace, *order)?;
    }
    Ok(())
}

/// Appends the orders of which one stands, or that there is none: the first one, up to twelve others, and how many more there are.
pub fn push_orders(
    text: &mut Vec<u8>,
    trace: &Trace,
    orders: &[OrderPair],
) -> Result<(), AllocError>
    ensures { OnOk result (text.new.items ≡ text.old.items ++ orders_text trace.now orders.now) }
{
    let Some((first, others)) = orders.split_first() else {
        text.extend_from_slice(b": contradiction")?;
        return Ok(());
    };
    text.extend_from_slice(b": ")?;
    push_order(text, trace, *first)?;
    push_others(text, trace, first_of(others))?;
    push_more(text, ", or ", count_after(others), " more")
}

//! Orders that a clause says.

ghost use Rattle.std.specs.Prelude.{◌≡◌, OnOk};
ghost use Rattle.reason_clauses.specs.AddedOrders.{AddsOnly, IsOrder};
ghost use Rattle.reason_clauses.specs.Numbered.{Grows, MakesSay};

use order_clauses::order_pair::OrderPair;
use std::alloc::AllocError;
use writer_table::operation_place::OperationPlace;

/// Appends that the first operation stands before the second, unless program order has it otherwise: such an order never stands, so the clause says the
/// same without it. One that program order has is appended; the clause is then always true, and is refused when it is made.
pub fn push_order(
    orders: &mut Vec<OrderPair>,
    first: OperationPlace,
    second: OperationPlace,
) -> Result<(), AllocError>
    ensures grows { OnOk result (Grows orders.old.items orders.new.items) }
    ensures says { OnOk result (MakesSay orders.new.items first second) }
    ensures only { OnOk result (AddsOnly orders.old.items orders.new.items (IsOrder first second)) }
{
    if first.process == second.process && second.place <= first.place {
        return Ok(());
    }
    orders.push(OrderPair { first, second })?;
    Ok(())
}

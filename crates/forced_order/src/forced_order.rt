//! Which operations of a trace are forced to stand before which.

use crate::closing::rows_of;
use crate::numbered::OperationNumber;
use crate::rows::OrderRows;
use std::alloc::{AllocError, Global};
use std::marker::Model;
use trace_semantics::trace::Trace;

/// For each operation and each process, the last place there that is forced to stand before the operation: by program order, by what the trace says
/// in `before` lines and times, and by steps of these one after the other. What is read forces nothing here.
#[derive(Drop)]
pub struct ForcedOrder {
    rows: OrderRows,
}

impl Model for ForcedOrder {
    ghost use Rattle.forced_order.specs.Rows.{OrderValue};

    ghost Value = { OrderValue };

    ghost view = { λ order. order.rows };
}

impl ForcedOrder {
    ghost use Rattle.std.specs.Prelude.{◌≡◌, IfOk};
    ghost use Rattle.forced_order.specs.Order.{IsForcedOrder};
    ghost use Rattle.forced_order.specs.Rows.{last_before, stands_by, ordered_by};

    /// Returns the forced order of a trace.
    pub fn of_trace(alloc: Global, trace: &Trace) -> Result<ForcedOrder, AllocError>
        ensures { IfOk result (λ order. IsForcedOrder trace.now (ordered_by trace.now order)) }
    {
        Ok(ForcedOrder {
            rows: rows_of(alloc, trace)?,
        })
    }

    /// Returns the last place of the process that stands before the operation; 0 if none does.
    pub fn last_before(&self, n: OperationNumber, process: u16) -> u32
        ensures { result ≡ last_before self.now n process }
    {
        self.rows.last_before(n, process)
    }

    /// Returns whether the first is known to stand before the second. The first must be an operation: a place 0 would stand before all.
    pub fn stands(&self, first: OperationNumber, second: OperationNumber) -> bool
        ensures { result ≡ stands_by self.now first second }
    {
        first.place <= self.last_before(second, first.process)
    }
}

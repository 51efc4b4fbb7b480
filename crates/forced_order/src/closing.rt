//! The rows of a trace, raised until they say all that is forced.

ghost use Rattle.std.specs.Prelude.{◌≡◌, ◌+◌, length, map, IfOk};
ghost use Rattle.trace_semantics.specs.declared.trace.Process.{Process as Listed};
ghost use Rattle.trace_semantics.specs.Trace.{IsTrace};
ghost use Rattle.forced_order.specs.Forced.{AreForced, numbered_pairs};
ghost use Rattle.forced_order.specs.Order.{IsForcedOrder};
ghost use Rattle.forced_order.specs.Rows.{HasRows, ordered_by};
ghost use Rattle.forced_order.specs.Times.{AreEnds};

use crate::least_ends::{LeastEnds, ends_of};
use crate::numbered::OperationNumber;
use crate::pairs::pairs_of;
use crate::raising::{raise_all, raise_along, raise_back};
use crate::rows::OrderRows;
use crate::walk::{OrderStep, steps_of};
use std::alloc::{AllocError, Global};
use trace_semantics::trace::Trace;

/// Returns the number of rows of each process: one more than its operations. Places count from 1, so the first row is of no operation.
fn row_counts(alloc: Global, trace: &Trace) -> Result<Vec<usize>, AllocError>
    requires trace { IsTrace trace.now }
    ensures { IfOk result (λ counts. counts.items ≡ map (λ (p : Listed). length p.operations + 1) trace.now.processes) }
{
    let processes = trace.processes();
    let mut counts = Vec::with_capacity(alloc, processes.len())?;
    for p in processes {
        counts.push(p.operations.as_slice().len() + 1)?;
    }
    Ok(counts)
}

/// Raises rows until no step raises any, when they say all that is forced. Once along a walk is enough unless steps are cyclic. `raise_all` alone
/// goes along every step, so it alone decides the end. Each further round has raised a place, and no place rises above the last of its process, so
/// the rounds end.
fn close(
    rows: &mut OrderRows,
    trace: &Trace,
    pairs: &[(OperationNumber, OperationNumber)],
    ends: &[LeastEnds],
    steps: &[OrderStep],
)
    requires trace { IsTrace trace.now }
    requires pairs { pairs.now ≡ numbered_pairs trace.now }
    requires ends { AreEnds trace.now.processes ends.now }
    requires rows { HasRows trace.now.processes rows.old }
    requires forced { AreForced trace.now rows.old }
    ensures { IsForcedOrder trace.now (ordered_by trace.now rows.new) }
{
    loop {
        raise_along(rows, trace, pairs, ends, steps);
        if !raise_all(rows, trace, pairs, ends) {
            return;
        }
        raise_back(rows, trace, pairs, ends, steps);
    }
}

/// Returns the rows of a trace, which say all that is forced.
pub fn rows_of(alloc: Global, trace: &Trace) -> Result<OrderRows, AllocError>
    ensures { IfOk result (λ rows. IsForcedOrder trace.now (ordered_by trace.now rows)) }
{
    trace.recall_invariant();
    let counts = row_counts(alloc, trace)?;
    let numbers = pairs_of(alloc, trace)?;
    let pairs = numbers.as_slice();
    let least = ends_of(alloc, trace)?;
    let ends = least.as_slice();
    let steps = steps_of(alloc, trace, counts.as_slice(), pairs, ends)?;
    let mut rows = OrderRows::zeros(alloc, counts.as_slice())?;
    close(&mut rows, trace, pairs, ends, steps.as_slice());
    Ok(rows)
}

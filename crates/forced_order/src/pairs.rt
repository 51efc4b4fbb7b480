//! The before pairs of a trace by numbers.
//!
//! The rows of the forced order are found by numbers, and are raised along the pairs more than once, so each name is looked up once, before that.
//!
//! A before pair is one of which the trace says that the first operation stands before the second. A row has for an operation the last place of each process
//! that is known to stand before it (`rows.rt`).

ghost use Rattle.std.specs.Prelude.{◌≡◌, ◌≤◌, IfOk, length, map};
ghost use Rattle.forced_order.specs.Forced.{numbered_pair, numbered_pairs};
ghost use Rattle.forced_order.specs.Rows.{numbered};

use crate::numbered::OperationNumber;
use std::alloc::{AllocError, Global};
use trace_semantics::operation::OpName;
use trace_semantics::process_order::order_of;
use trace_semantics::trace::{Process, Trace};

/// Returns the operation by numbers. A process that the trace lacks would get the number after the last one, but pairs of a trace name operations
/// of it alone.
fn number(processes: &[Process], name: &OpName) -> OperationNumber
    requires few { length processes.now ≤ 64 }
    ensures { result ≡ numbered processes.now name.now }
{
    OperationNumber {
        process: order_of(processes, name.process.as_bytes()) as u16,
        place: name.place,
    }
}

/// Returns the pairs, by numbers and in their order.
fn numbered_of(
    alloc: Global,
    processes: &[Process],
    pairs: &[(OpName, OpName)],
) -> Result<Vec<(OperationNumber, OperationNumber)>, AllocError>
    requires few { length processes.now ≤ 64 }
    ensures { IfOk result (λ numbers. numbers.items ≡ map (numbered_pair processes.now) pairs.now) }
{
    let mut numbers = Vec::with_capacity(alloc, pairs.len())?;
    for pair in pairs {
        numbers.push((number(processes, &pair.0), number(processes, &pair.1)))?;
    }
    Ok(numbers)
}

/// Returns the before pairs of a trace, by numbers and in their order.
pub fn pairs_of(
    alloc: Global,
    trace: &Trace,
) -> Result<Vec<(OperationNumber, OperationNumber)>, AllocError>
    ensures { IfOk result (λ pairs. pairs.items ≡ numbered_pairs trace.now) }
{
    trace.recall_invariant();
    numbered_of(alloc, trace.processes(), trace.before())
}

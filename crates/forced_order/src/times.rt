//! When operations were under way, by their numbers.

ghost use Rattle.std.specs.Prelude.{◌≡◌};
ghost use Rattle.std.specs.Option.{option_copied};
ghost use Rattle.trace_semantics.specs.KnownOrder as known_order;
ghost use Rattle.trace_semantics.specs.Trace.{at_place};
ghost use Rattle.forced_order.specs.Times as times;

use crate::numbered::OperationNumber;
use trace_semantics::known_order::ends_before;
use trace_semantics::operation::{Op, Span};
use trace_semantics::trace::Trace;

/// The operation at this place, counted from 1.
fn op_in(ops: &[Op], place: usize) -> Option<&Op>
    ensures { option_copied result ≡ at_place ops.now place }
{
    if place == 0 {
        return None;
    }
    ops.get(place - 1)
}

/// When the operation at this place was under way, if the trace says so.
pub fn span_in(ops: &[Op], place: usize) -> Option<Span>
    ensures { result ≡ times.span_in ops.now place }
{
    match op_in(ops, place) {
        Some(op) => op.span(),
        None => None,
    }
}

/// When the operation of these numbers was under way, if the trace says so.
pub fn span_by_number(trace: &Trace, n: OperationNumber) -> Option<Span>
    ensures { result ≡ times.span_by_number trace.now.processes n }
{
    match trace.processes().get(n.process as usize) {
        Some(process) => span_in(process.operations.as_slice(), n.place as usize),
        None => None,
    }
}

/// Returns whether m had ended before n began.
pub fn ended_before(trace: &Trace, m: OperationNumber, n: OperationNumber) -> bool
    ensures { result ≡ known_order.ends_before (times.span_by_number trace.now.processes m) (times.span_by_number trace.now.processes n) }
{
    ends_before(span_by_number(trace, m), span_by_number(trace, n))
}

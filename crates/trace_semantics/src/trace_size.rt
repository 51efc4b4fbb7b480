//! How large a trace is.

ghost use Rattle.std.specs.Prelude.{◌≡◌};
ghost use Rattle.trace_semantics.specs.ScheduleLimits.{limits_for};
ghost use Rattle.trace_semantics.specs.Trace.{operation_count};

use crate::limits::Limits;
use crate::trace::Trace;

/// Counts the operations of the trace.
pub fn count_operations(trace: &Trace) -> usize
    ensures { result ≡ operation_count trace.now }
{
    trace.recall_invariant();
    let processes = trace.processes();
    let mut count = 0usize;
    for process in processes {
        count += process.operations.as_slice().len();
    }
    count
}

/// Returns the limits of schedules of the trace: those of versions 1 and 2 unless it has more operations.
pub fn limits_for(trace: &Trace) -> Limits
    ensures { result ≡ limits_for trace.now }
{
    if count_operations(trace) <= Limits::Small.max_operations() {
        Limits::Small
    } else {
        Limits::Large
    }
}

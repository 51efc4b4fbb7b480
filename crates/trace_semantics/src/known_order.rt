//! What times say of the order of operations.

ghost use Rattle.std.specs.List.{list_any};
ghost use Rattle.std.specs.Prelude.{◌≡◌};
ghost use Rattle.trace_semantics.specs.KnownOrder.{ends_before, has_span, says_times};

use crate::operation::{Op, Span};
use crate::trace::{Process, Trace};

/// Returns whether there are both spans, and the first ends before the second starts. Equal times say nothing of the order.
pub fn ends_before(earlier: Option<Span>, later: Option<Span>) -> bool
    ensures { result ≡ ends_before earlier later }
{
    match earlier {
        Some(earlier) => match later {
            Some(later) => earlier.end < later.start,
            None => false,
        },
        None => false,
    }
}

fn has_span(op: &Op) -> bool
    ensures { result ≡ has_span op.now }
{
    op.span().is_some()
}

fn process_says_times(process: &Process) -> bool
    ensures { result ≡ list_any has_span process.now.operations }
{
    process.operations.as_slice().iter().any(|op| has_span(op))
}

/// Returns whether the trace says of some operation when it was under way.
pub fn says_times(trace: &Trace) -> bool
    ensures { result ≡ says_times trace.now }
{
    trace
        .processes()
        .iter()
        .any(|process| process_says_times(process))
}

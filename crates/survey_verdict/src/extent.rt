//! The numbers of a survey, of which nothing else is promised.
ghost use Rattle.std.specs.Prelude.{◌≡◌};
ghost use Rattle.survey_verdict.specs.Findings.{extent_within};

use surveyor::Extent;
use trace_semantics::trace::Trace;
use trace_semantics::trace_size::count_operations;

/// Returns the numbers of a survey, of which no more operations are said to be placed than the trace has.
pub(crate) fn within_trace(trace: &Trace, extent: Extent) -> Extent
    ensures { result ≡ extent_within trace.now extent }
{
    let count = count_operations(trace);
    let placed = (extent.placed as usize).min(count) as u32;
    Extent {
        placed,
        undecided: extent.undecided,
        steps: extent.steps,
    }
}

//! Reduced traces.

ghost use Rattle.std.specs.Prelude.{◌≡◌, ◌≤◌, IfOk, IfErr};
ghost use Rattle.reducer.specs.Reduced.{IsReduced, HasReduceFault};
ghost use Rattle.trace_semantics.specs.Trace.{operation_count};
ghost use Rattle.reducer.specs.Reduction as reduction;
ghost use Rattle.reducer.specs.Runs.{AreBounds};
ghost use Rattle.text_lines.specs.Fault.{IsRefusal};

use crate::kept::{count_kept, kept_trace};
use crate::kept_places::{KeptPlaces, all_bounds};
use crate::named::named_ops;
use crate::reduce_fault::{ReduceCause, ReduceFault};
use std::alloc::Global;
use std::marker::Model;
use std::snapshot::Snapshot;
use text_lines::fault::PlacedFault;
use trace_semantics::trace::Trace;

/// Largest number of operations of a kept trace. Transitivity takes two clauses for each three operations, some 1.3 million for that number.
const MAX_KEPT: usize = 160;

/// A trace without its repeated local reads, and the places of these. The whole trace is seen by clauses alone.
pub struct Reduced {
    whole: Snapshot<Trace>,
    kept: Trace,
    bounds: Vec<KeptPlaces>,
}

/// Drops the trace and the bounds in one call. A derived `Drop` would drop each at every exit of a function that owns a reduced trace, which makes its proof longer.
impl Drop for Reduced {
    fn drop(self) {
        let Reduced {
            whole: _whole,
            kept: _kept,
            bounds: _bounds,
        } = self;
    }
}

impl Model for Reduced {
    ghost use Rattle.reducer.specs.Reduced.{ReducedValue, IsReduced};
    ghost use Rattle.reducer.specs.Runs.{AreBounds};

    ghost Value = { ReducedValue };

    ghost view = { λ r. record { whole = r.whole.value; kept = r.kept } };

    ghost invariant = { λ r. IsReduced (record { whole = r.whole.value; kept = r.kept }) × AreBounds r.whole.value r.bounds.items };
}

impl Reduced {
    ghost use Rattle.std.specs.Prelude.{◌≡◌};
    ghost use Rattle.reducer.specs.Reduced.{IsReduced};
    ghost use Rattle.reducer.specs.Runs.{AreBounds};

    /// Returns the kept trace.
    pub fn kept(&self) -> &Trace
        ensures trace { result.now ≡ self.now.kept }
        ensures reduced { IsReduced self.now }
    {
        &self.kept
    }

    /// Returns the bounds of the runs of dropped reads, for each process.
    pub(crate) fn bounds(&self) -> &[KeptPlaces]
        ensures { AreBounds self.now.whole result.now }
    {
        self.bounds.as_slice()
    }
}

/// Returns the trace without its repeated local reads. A plain read is dropped if the operation directly before it in its process
/// leaves its value at its location or is a plain read of it there, if nothing is said of its source and of its times, and if no
/// before pair and no origin names it.
pub fn reduce(alloc: Global, trace: &Trace) -> Result<Reduced, ReduceFault>
    ensures whole { IfOk result (λ reduced. reduced.whole ≡ trace.now) }
    ensures reduced { IfOk result IsReduced }
    ensures refused { IfErr result (IsRefusal (HasReduceFault trace.now)) }
{
    trace.recall_invariant();
    let set = named_ops(alloc, trace)?;
    let bounds = all_bounds(alloc, &set, trace)?;
    let left = count_kept(trace, bounds.as_slice());
    if left > MAX_KEPT {
        return Err(PlacedFault::At(ReduceCause::StillTooLarge, left));
    }
    let kept = kept_trace(alloc, trace, bounds.as_slice())?;
    Ok(Reduced {
        whole: Snapshot::of(trace),
        kept,
        bounds,
    })
}

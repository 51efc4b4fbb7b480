//! The reduction of the trace that a text spells.

ghost use Rattle.verdict_report.specs.Admitted.{IsReducedFrom};

use crate::fault::Fault;
use reducer::reduced::{Reduced, reduce};
use std::alloc::Global;
use trace_text::trace_reader::read_trace;

/// Reads the trace and drops its repeated local reads.
pub fn reduce_text(alloc: Global, text: &[u8]) -> Result<Reduced, Fault>
    ensures { IsReducedFrom text.now result }
{
    let trace = read_trace(alloc, text)?;
    Ok(reduce(alloc, &trace)?)
}

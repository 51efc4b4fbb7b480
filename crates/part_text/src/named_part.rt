//! The part that a text of names makes up.

ghost use Rattle.std.specs.Prelude.{IfOk, IfErr};
ghost use Rattle.text_lines.specs.Fault.{IsRefusal};
ghost use Rattle.schedule_text.specs.ScheduleText.{SpellsSchedule};
ghost use Rattle.trace_semantics.specs.ScheduleLimits.{limits_for};
ghost use Rattle.trace_part.specs.TraceParts.{IsPart};
ghost use Rattle.part_text.specs.NameLine.{HasChoiceFault};

use crate::name_line::line_of_place;
use std::alloc::Global;
use text_lines::fault::PlacedFault;
use trace_part::part::{TracePart, part_of};
use trace_part::part_fault::PartFault;
use trace_semantics::schedule::Schedule;
use trace_semantics::trace::Trace;

/// The part of the trace that the operations of these names make up, which were read from the text. The error has the line of the
/// first name that is not of the trace or stands there before, while `part_of` reports the place among the names, from 1.
pub fn named_part(
    alloc: Global,
    trace: &Trace,
    names: &Schedule,
    text: &[u8],
) -> Result<TracePart, PartFault>
    ensures part { IfOk result (IsPart trace.now names.now) }
    ensures refused { SpellsSchedule (limits_for trace.now) text.now names.now → IfErr result (IsRefusal (HasChoiceFault trace.now names.now text.now)) }
{
    match part_of(alloc, trace, names.names()) {
        Ok(part) => Ok(part),
        Err(PlacedFault::OutOfMemory) => Err(PlacedFault::OutOfMemory),
        Err(PlacedFault::At(cause, place)) => Err(PlacedFault::At(
            cause,
            line_of_place(text, place),
        )),
    }
}

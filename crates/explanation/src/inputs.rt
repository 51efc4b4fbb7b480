//! The inputs of a command, read once more.
//!
//! A command hands on a status and its report, and no trace, so `--explain` reads the texts that were kept again, and the report too. That of a survey, a
//! look over a whole trace, may have a schedule, or a core: the names of operations, mostly few, whose part of the trace has no legal schedule.

use note_text::NamedText;
use schedule_text::schedule_reader::read_schedule;
use std::alloc::{AllocError, Global};
use text_lines::lines::cut_line;
use text_lines::words::first_words;
use trace_semantics::limits::Limits;
use trace_semantics::schedule::Schedule;
use trace_semantics::trace::Trace;
use trace_text::trace_reader::read_trace;
use verdict_notes::ShownPlaces;

/// A trace, and the places under which its operations are named.
pub(crate) struct PlacedTrace {
    pub trace: Trace,
    /// Those in the file, or those in the whole that comments above the operations of a part give.
    pub places: ShownPlaces,
}

/// Drops the trace and the places in one call. A derived `Drop` would drop each at every exit of a function that owns them, which makes its proof longer.
impl Drop for PlacedTrace {
    fn drop(self) {
        let PlacedTrace {
            trace: _trace,
            places: _places,
        } = self;
    }
}

/// The trace that the text spells, if its bytes are at hand and spell one.
pub(crate) fn trace_of(alloc: Global, text: &NamedText<'_>) -> Option<Trace> {
    let Some(bytes) = text.bytes else {
        return None;
    };
    match read_trace(alloc, bytes) {
        Ok(trace) => Some(trace),
        Err(_) => None,
    }
}

/// The schedule that the text spells, if its bytes are at hand and spell one.
pub(crate) fn schedule_of(alloc: Global, text: &NamedText<'_>) -> Option<Schedule> {
    let Some(bytes) = text.bytes else {
        return None;
    };
    match read_schedule(alloc, Limits::Large, bytes) {
        Ok(schedule) => Some(schedule),
        Err(_) => None,
    }
}

/// Returns whether the report of a survey is that on a certificate of reasons, whose first line is `INCONSISTENT operations=N reasons=M`.
pub(crate) fn is_of_reasons(report: &[u8]) -> bool {
    let Some((first, _rest)) = cut_line(report) else {
        return false;
    };
    match first_words(first).as_slice().get(2) {
        Some(word) => word.starts_with(b"reasons="),
        None => false,
    }
}

/// The names of the core that the report of a survey has, if it has one: they stand behind its first line. A report on a certificate of reasons
/// begins alike, so `is_of_reasons` must be asked before.
pub(crate) fn core_of_report(alloc: Global, report: &[u8]) -> Option<Schedule> {
    let (first, rest) = cut_line(report)?;
    if !first.starts_with(b"INCONSISTENT operations=") {
        return None;
    }
    match read_schedule(alloc, Limits::Large, rest) {
        Ok(names) => Some(names),
        Err(_) => None,
    }
}

/// The trace that the text spells, and under which places its operations are named, if its bytes are at hand and spell one.
pub(crate) fn placed_trace_of(
    alloc: Global,
    text: &NamedText<'_>,
) -> Result<Option<PlacedTrace>, AllocError> {
    let Some(bytes) = text.bytes else {
        return Ok(None);
    };
    let Ok(trace) = read_trace(alloc, bytes) else {
        return Ok(None);
    };
    let places = ShownPlaces::of_comments(alloc, bytes)?;
    Ok(Some(PlacedTrace { trace, places }))
}

//! Why a trace has no legal schedule, as a survey finds.

use crate::named_operations::operation_of;
use crate::sentence::Sentence;
use crate::shown_places::ShownPlaces;
use note_text::{Notes, decimal};
use std::alloc::{AllocError, Global};
use surveyor::{Finding, Surveyor};
use trace_semantics::operation::OpName;
use trace_semantics::trace::Trace;

/// The most operations of a core that are shown.
const MAX_SHOWN: u64 = 40;

/// Notes a few operations by which a survey finds that the trace has no legal schedule. The survey is not trusted, and its core is not
/// refuted again.
pub fn explain_by_survey<S: Surveyor>(
    alloc: Global,
    notes: &mut Notes,
    trace: &Trace,
    places: &ShownPlaces,
    surveyor: &S,
) -> Result<(), AllocError> {
    let overview = surveyor.survey(alloc, trace, &[])?;
    match &overview.finding {
        Finding::Core(names) => explain_core(alloc, notes, trace, places, names.as_slice()),
        Finding::Schedule(_) => explain_no_core(notes),
        Finding::Reasons(_) => explain_no_core(notes),
        Finding::Nothing => explain_no_core(notes),
    }
    Ok(())
}

/// Notes that a survey finds no core. A schedule that it says it found is none: the trace has no legal one.
fn explain_no_core(notes: &mut Notes) {
    notes.note(&[b"a short survey finds no few operations that contradict each other"]);
}

/// Returns whether one of these operations works on the location.
fn is_used(trace: &Trace, names: &[OpName], location: &[u8]) -> bool {
    for name in names {
        if let Some(op) = operation_of(trace, name) {
            if op.location().as_bytes() == location {
                return true;
            }
        }
    }
    false
}

/// Notes the initial values of the locations on which these operations work.
fn explain_initial(notes: &mut Notes, trace: &Trace, names: &[OpName]) {
    for entry in trace.initial() {
        let location = entry.0.as_bytes();
        let value = decimal(entry.1);
        if is_used(trace, names, location) {
            notes.note(&[b"init ", location, b" ", value.as_slice()]);
        }
    }
}

/// Notes the operation, with its name.
fn explain_operation(
    alloc: Global,
    notes: &mut Notes,
    trace: &Trace,
    places: &ShownPlaces,
    name: &OpName,
) {
    let Some(op) = operation_of(trace, name) else {
        return;
    };
    let mut sentence = Sentence::new(alloc);
    sentence.add_name(name.process.as_bytes(), places.of_name(trace, name));
    sentence.add(&[b" "]);
    sentence.add_operation(op);
    sentence.note(notes);
}

/// Notes the operations, with the initial values of their locations.
fn explain_operations(
    alloc: Global,
    notes: &mut Notes,
    trace: &Trace,
    places: &ShownPlaces,
    names: &[OpName],
) {
    explain_initial(notes, trace, names);
    for name in names {
        explain_operation(alloc, notes, trace, places, name);
    }
}

/// Notes these words, and behind them how many operations there are.
fn explain_count(notes: &mut Notes, words: &[u8], names: &[OpName]) {
    let count = decimal(names.len() as u64);
    notes.note(&[words, count.as_slice()]);
}

/// Notes the operations of a core that was not refuted.
fn explain_core(
    alloc: Global,
    notes: &mut Notes,
    trace: &Trace,
    places: &ShownPlaces,
    names: &[OpName],
) {
    let number = names.len() as u64;
    if number > MAX_SHOWN {
        let count = decimal(number);
        return notes.note(&[
            b"a survey finds ",
            count.as_slice(),
            b" operations that contradict each other: vsc survey names them",
        ]);
    }
    explain_count(
        notes,
        b"a survey, which nothing checks here, finds these operations in contradiction: ",
        names,
    );
    explain_operations(alloc, notes, trace, places, names);
    notes.note(&[b"fewer may suffice; vsc part writes them as a trace, if a file has their names"]);
    notes.note(&[b"vsc survey finds and refutes such operations"]);
}

/// Notes the operations of a core, which the command has refuted.
pub fn explain_refuted(
    alloc: Global,
    notes: &mut Notes,
    trace: &Trace,
    places: &ShownPlaces,
    names: &[OpName],
) {
    explain_count(
        notes,
        b"the operations that contradict each other, as the proofs show: ",
        names,
    );
    if names.len() as u64 <= MAX_SHOWN {
        explain_operations(alloc, notes, trace, places, names);
    }
}

//! Why a schedule is illegal.

use crate::held_value::held_after;
use crate::illegal_whole::{explain_final, explain_missing};
use crate::named_operations::{
    count_of, has_come, is_named, operation_of, origin_of, place_after, process_of,
};
use crate::sentence::Sentence;
use note_text::{Notes, decimal};
use schedule_judge::judge::judge;
use std::alloc::{AllocError, Global};
use trace_semantics::judgement::{IllegalCause, Judgement};
use trace_semantics::known_order::ends_before;
use trace_semantics::operation::{OpName, Origin};
use trace_semantics::schedule::Schedule;
use trace_semantics::trace::Trace;

/// Notes why the schedule is no legal one of the trace: what its first fault is. Of a legal one there is no note.
pub fn explain_illegal(
    alloc: Global,
    notes: &mut Notes,
    trace: &Trace,
    schedule: &Schedule,
) -> Result<(), AllocError> {
    let names = schedule.names();
    match judge(alloc, trace, schedule)? {
        Judgement::Legal => {}
        Judgement::Illegal(IllegalCause::MissingOp, _) => {
            explain_missing(alloc, notes, trace, names)
        }
        Judgement::Illegal(IllegalCause::WrongFinal, _) => {
            explain_final(alloc, notes, trace, names)
        }
        Judgement::Illegal(cause, place) => {
            explain_place(alloc, notes, trace, names, cause, place)
        }
    }
    Ok(())
}

/// Notes what is wrong with the name at this place, counted from 1.
fn explain_place(
    alloc: Global,
    notes: &mut Notes,
    trace: &Trace,
    names: &[OpName],
    cause: IllegalCause,
    place: usize,
) {
    if place == 0 || place > names.len() {
        return;
    }
    let before = &names[..place - 1];
    let name = &names[place - 1];
    let mut sentence = Sentence::new(alloc);
    sentence.add_op_name(name);
    add_cause(&mut sentence, trace, before, name, cause);
    sentence.note(notes);
}

/// Adds what is wrong with the name after the names before it. The last two causes are of the schedule as a whole, and `explain_illegal` has
/// noted them.
fn add_cause(
    sentence: &mut Sentence,
    trace: &Trace,
    before: &[OpName],
    name: &OpName,
    cause: IllegalCause,
) {
    match cause {
        IllegalCause::UnknownOp => add_unknown(sentence, trace, name),
        IllegalCause::RepeatedOp => add_repeated(sentence, before, name),
        IllegalCause::OutOfProgramOrder => add_early(sentence, before, name),
        IllegalCause::WrongRead => add_wrong_read(sentence, trace, before, name),
        IllegalCause::BeforeBroken => add_broken(sentence, trace, before, name),
        IllegalCause::WrongSource => add_wrong_source(sentence, trace, before, name),
        IllegalCause::MissingOp => {}
        IllegalCause::WrongFinal => {}
    }
}

/// Adds why the trace has no operation of the name.
fn add_unknown(sentence: &mut Sentence, trace: &Trace, name: &OpName) {
    let process = name.process.as_bytes();
    match process_of(trace, process) {
        Some(found) => {
            let count = decimal(found.operations.as_slice().len() as u64);
            sentence.add(&[
                b" is no operation of the trace: process ",
                process,
                b" has ",
            ]);
            sentence.add(&[count.as_slice()])
        }
        None => sentence.add(&[
            b" is no operation of the trace, which has no process ",
            process,
        ]),
    }
}

/// Adds at which place the name stands already.
fn add_repeated(sentence: &mut Sentence, before: &[OpName], name: &OpName) {
    for k in 0..before.len() {
        if is_named(&before[k], name.process.as_bytes(), name.place as u64) {
            let place = decimal(place_after(k));
            return sentence.add(&[b" stands at place ", place.as_slice(), b" already"]);
        }
    }
}

/// Adds which operation of the process has to come first.
fn add_early(sentence: &mut Sentence, before: &[OpName], name: &OpName) {
    let process = name.process.as_bytes();
    for place in 1..name.place as u64 {
        if !has_come(before, process, place) {
            sentence.add(&[b" comes before "]);
            sentence.add_name(process, place);
            return sentence.add(&[b", which stands above it in the process"]);
        }
    }
}

/// Adds what the operation reads and what its location holds. The judge finds this cause only at an operation of the trace that reads, so
/// nothing is left out.
fn add_wrong_read(sentence: &mut Sentence, trace: &Trace, before: &[OpName], name: &OpName) {
    let Some(op) = operation_of(trace, name) else {
        return;
    };
    let Some(read) = op.value_read() else {
        return;
    };
    let location = op.location().as_bytes();
    sentence.add_read(read, location);
    sentence.add(&[b", which "]);
    sentence.add_held(held_after(trace, before, location));
}

/// Adds which operation has to come before it by a pair, or else by times: for the judge both are one cause.
fn add_broken(sentence: &mut Sentence, trace: &Trace, before: &[OpName], name: &OpName) {
    for pair in trace.before() {
        let first = pair.0.process.as_bytes();
        let place = pair.0.place as u64;
        if is_named(&pair.1, name.process.as_bytes(), name.place as u64)
            && !has_come(before, first, place)
        {
            sentence.add(&[b" comes before "]);
            sentence.add_name(first, place);
            return sentence.add(&[b", which a before line puts before it"]);
        }
    }
    add_overtaken(sentence, trace, before, name);
}

/// Adds which operation had ended before it began and comes later. What came of a process are its first operations, as the names before it
/// have no fault.
fn add_overtaken(sentence: &mut Sentence, trace: &Trace, before: &[OpName], name: &OpName) {
    let Some(op) = operation_of(trace, name) else {
        return;
    };
    let span = op.span();
    for process in trace.processes() {
        let ops = process.operations.as_slice();
        for k in count_of(before, process.name.as_bytes())..ops.len() {
            if ends_before(ops[k].span(), span) {
                sentence.add(&[b" comes before "]);
                sentence.add_name(process.name.as_bytes(), place_after(k));
                return sentence.add(&[b", which had ended before it began"]);
            }
        }
    }
}

/// Adds where the operation reads from by its line, and what its location holds.
fn add_wrong_source(sentence: &mut Sentence, trace: &Trace, before: &[OpName], name: &OpName) {
    let Some(op) = operation_of(trace, name) else {
        return;
    };
    let location = op.location().as_bytes();
    match origin_of(op) {
        Some(Origin::Initial) => sentence.add(&[b" reads ", location, b" from init, and "]),
        Some(Origin::Operation(source)) => {
            sentence.add(&[b" reads ", location, b" from "]);
            sentence.add_op_name(source);
            sentence.add(&[b", and "]);
        }
        Some(Origin::Any) => return,
        None => return,
    }
    sentence.add(&[location, b" "]);
    sentence.add_held(held_after(trace, before, location));
}

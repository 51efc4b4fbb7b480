//! What is wrong with a schedule as a whole.

use crate::held_value::held_after;
use crate::named_operations::{has_come, place_after};
use crate::sentence::Sentence;
use note_text::{Notes, decimal};
use std::alloc::Global;
use trace_semantics::operation::OpName;
use trace_semantics::trace::{Process, Trace};

/// The most missing operations that are named.
const MAX_NAMED: u64 = 5;

/// Notes which operations of the process are missing, after `found` missing ones, and how many there are by then.
fn explain_missing_of(
    alloc: Global,
    notes: &mut Notes,
    process: &Process,
    names: &[OpName],
    found: u64,
) -> u64 {
    let mut count = found;
    for k in 0..process.operations.as_slice().len() {
        let place = place_after(k);
        if !has_come(names, process.name.as_bytes(), place) {
            if count < MAX_NAMED {
                let mut sentence = Sentence::new(alloc);
                sentence.add_name(process.name.as_bytes(), place);
                sentence.add(&[b" is not in the schedule"]);
                sentence.note(notes);
            }
            count = count.saturating_add(1);
        }
    }
    count
}

/// Notes which operations are missing: the first ones by name, and how many more there are.
pub fn explain_missing(alloc: Global, notes: &mut Notes, trace: &Trace, names: &[OpName]) {
    let mut count = 0;
    for process in trace.processes() {
        count = explain_missing_of(alloc, notes, process, names, count);
    }
    let rest = decimal(count.saturating_sub(MAX_NAMED));
    if count > MAX_NAMED {
        notes.note(&[b"missing beside these: ", rest.as_slice()]);
    }
}

/// Notes which location does not hold its final value, and what it holds.
pub fn explain_final(alloc: Global, notes: &mut Notes, trace: &Trace, names: &[OpName]) {
    for entry in trace.final_values() {
        let location = entry.0.as_bytes();
        let held = held_after(trace, names, location);
        let is_held = match held {
            Some(held) => held.value == entry.1,
            None => false,
        };
        if !is_held {
            let mut sentence = Sentence::new(alloc);
            sentence.add_final(location, entry.1);
            sentence.add(&[b", and ", location, b" "]);
            sentence.add_held(held);
            return sentence.note(notes);
        }
    }
}

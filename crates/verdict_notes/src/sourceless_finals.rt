//! Final values that no order of the operations leaves.

use crate::held_value::initial_value;
use crate::sentence::Sentence;
use note_text::Notes;
use std::alloc::Global;
use trace_part::sources::leaves;
use trace_part::writers::ChosenWriter;
use trace_semantics::trace::Trace;

/// Returns whether one of these writers leaves the value.
fn is_left(writers: &[ChosenWriter], value: u64) -> bool {
    for writer in writers {
        if leaves(writer, value) {
            return true;
        }
    }
    false
}

/// Returns whether some order of the operations may leave the value at the location, which these write. No order is looked at, so
/// any of them may be the last. The initial value is the final one only if none writes.
pub fn may_be_final(trace: &Trace, writers: &[ChosenWriter], location: &[u8], value: u64) -> bool {
    if writers.is_empty() {
        return initial_value(trace, location) == Some(value);
    }
    is_left(writers, value)
}

/// Notes that the location, which these operations write, does not get the final value.
pub fn explain_final_value(
    alloc: Global,
    notes: &mut Notes,
    trace: &Trace,
    writers: &[ChosenWriter],
    location: &[u8],
    value: u64,
) {
    let mut sentence = Sentence::new(alloc);
    sentence.add_final(location, value);
    if writers.is_empty() {
        sentence.add(&[b", and nothing writes it, and "]);
        sentence.add_initial(trace, location);
    } else {
        sentence.add(&[b", which none of its writes leaves"]);
    }
    sentence.note(notes);
}

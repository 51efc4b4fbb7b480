//! Names of operations that a trace does not have.

use crate::earlier_lines::count_operations;
use crate::names::{cut_at_dot, place_of};
use crate::word_notes::source_place;
use note_text::{GrowingText, Notes, add_quoted, decimal, word_at};
use std::alloc::Global;
use text_lines::words::is_word;

/// Adds how many operations the trace has of the process, if that is fewer than the place. Answers whether it is. A place of
/// 0, which stands for a word that is no place, is never more than the number.
fn note_place(alloc: Global, notes: &mut Notes, trace: &[u8], process: &[u8], place: u64) -> bool {
    let mut quoted = GrowingText::new(alloc);
    add_quoted(&mut quoted, process);
    let Some(count) = count_operations(trace, process) else {
        notes.note_text(&[b"the trace has no process "], &quoted);
        return true;
    };
    if place <= count {
        return false;
    }
    quoted.add(&[b" is ", decimal(count).as_slice()]);
    notes.note_text(&[b"the number of operations of process "], &quoted);
    true
}

/// The same of the operation that the words at this place and after it name.
fn note_pair(alloc: Global, notes: &mut Notes, trace: &[u8], process: &[u8], place: &[u8]) -> bool {
    note_place(alloc, notes, trace, process, place_of(place))
}

/// Adds why an operation that a `before` line names is none of the trace's: of the first one that is none.
fn note_before(alloc: Global, notes: &mut Notes, trace: &[u8], line: &[u8]) {
    if note_pair(alloc, notes, trace, word_at(line, 1), word_at(line, 2)) {
        return;
    }
    let _ = note_pair(alloc, notes, trace, word_at(line, 3), word_at(line, 4));
}

/// Adds why an operation that a `from` names is none of the trace's.
fn note_source(alloc: Global, notes: &mut Notes, trace: &[u8], line: &[u8]) {
    let place = match source_place(line) {
        Some(4) => word_at(line, 5),
        Some(_) => word_at(line, 6),
        None => return,
    };
    let process = match source_place(line) {
        Some(at) => word_at(line, at),
        None => return,
    };
    let _ = note_pair(alloc, notes, trace, process, place);
}

/// Adds why an operation that the line names is none of the trace's.
pub(crate) fn note_missing(alloc: Global, notes: &mut Notes, trace: &[u8], line: &[u8]) {
    if is_word(word_at(line, 0), "before") {
        note_before(alloc, notes, trace, line)
    } else {
        note_source(alloc, notes, trace, line)
    }
}

/// Adds why the trace has no operation of this name.
pub(crate) fn note_unknown(alloc: Global, notes: &mut Notes, trace: &[u8], name: &[u8]) {
    let Some((process, place)) = cut_at_dot(name) else {
        return;
    };
    let _ = note_pair(alloc, notes, trace, process, place);
}

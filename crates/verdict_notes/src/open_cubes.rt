//! The cubes that a report leaves open: how many they are, and the first ones in words.

use crate::kept_operations::kept_ops;
use crate::open_orders::text_of_cube;
use crate::shown_places::ShownPlaces;
use note_text::{Notes, decimal};
use reducer::reduced::{Reduced, reduce};
use std::alloc::{AllocError, Global};
use text_lines::lines::cut_line;
use text_lines::words::{cut_word, is_word};
use trace_semantics::trace::Trace;
use var_layout::layout::Layout;

/// The most open cubes that are shown.
const MAX_SHOWN: u64 = 5;

/// The words after `open` of a line that begins so. `None` for any other line.
fn literals_of(line: &[u8]) -> Option<&[u8]> {
    match cut_word(line) {
        Some((word, rest)) => {
            if is_word(word, "open") {
                Some(rest)
            } else {
                None
            }
        }
        None => None,
    }
}

/// The number of lines of the report that are open cubes.
fn count_open(report: &[u8]) -> u64 {
    let mut count: u64 = 0;
    let mut rest = report;
    // The bound is never reached: each turn takes a line away. The checker sees by it that the loop returns.
    for _ in 0..u64::MAX {
        let Some((line, after)) = cut_line(rest) else {
            break;
        };
        if literals_of(line).is_some() {
            count = count.saturating_add(1);
        }
        rest = after;
    }
    count
}

/// Notes how many cubes are open, and the first ones as orders of operations.
pub fn explain_open_cubes(
    alloc: Global,
    notes: &mut Notes,
    trace: &Trace,
    places: &ShownPlaces,
    report: &[u8],
) -> Result<(), AllocError> {
    let open = count_open(report);
    if open == 0 {
        return Ok(());
    }
    let count = decimal(open);
    notes.note(&[
        b"cubes that are open: ",
        count.as_slice(),
        b"; a legal schedule can only be in one of them",
    ]);
    match reduce(alloc, trace) {
        Ok(reduced) => explain_of_reduced(alloc, notes, trace, places, &reduced, report),
        Err(_) => Ok(()),
    }
}

/// Notes the first open cubes as orders of operations, under their names in the whole trace. The operations that the layout numbers are
/// found again in the trace; if their number is not the layout's, no cube is noted rather than a wrong one.
fn explain_of_reduced(
    alloc: Global,
    notes: &mut Notes,
    trace: &Trace,
    places: &ShownPlaces,
    reduced: &Reduced,
    report: &[u8],
) -> Result<(), AllocError> {
    let layout = Layout::of(alloc, reduced)?;
    let ops = kept_ops(alloc, trace, places)?;
    if ops.len() != layout.operations() {
        return Ok(());
    }
    let mut shown = 0;
    let mut rest = report;
    // The bound is never reached: each turn takes a line away. The checker sees by it that the loop returns.
    for _ in 0..u64::MAX {
        let Some((line, after)) = cut_line(rest) else {
            break;
        };
        if let Some(literals) = literals_of(line) {
            if shown < MAX_SHOWN {
                let text = text_of_cube(alloc, &layout, ops.as_slice(), literals)?;
                notes.note(&[b"open: ", text.as_slice()]);
                shown += 1;
            }
        }
        rest = after;
    }
    Ok(())
}

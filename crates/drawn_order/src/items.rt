//! The boxes of a picture.

use crate::choice::{DrawnChoice, is_same, number_at, number_of};
use crate::item::{ItemKind, PictureItem};
use forced_order::numbered::OperationNumber;
use std::alloc::{AllocError, Global};
use trace_semantics::operation::{Op, OpName};
use trace_semantics::trace::{Process, Trace};

/// The number after this one.
fn after(number: usize) -> usize {
    number.saturating_add(1)
}

/// The box of an operation.
fn operation_item<'t>(
    process: &'t Process,
    number: OperationNumber,
    op: &'t Op,
    is_chosen: bool,
    row: usize,
) -> PictureItem<'t> {
    PictureItem {
        kind: if is_chosen {
            ItemKind::Chosen
        } else {
            ItemKind::Beside
        },
        location: op.location().as_bytes(),
        read: op.value_read(),
        left: op.written_value(),
        column: after(number.process as usize),
        row,
        process: process.name.as_bytes(),
        number,
        op: Some(op),
    }
}

/// The box of an initial value, in the first column, or of a final one.
fn value_item<'t>(
    kind: ItemKind,
    location: &'t [u8],
    value: u64,
    column: usize,
    row: usize,
) -> PictureItem<'t> {
    let (read, left) = match kind {
        ItemKind::Initial => (None, Some(value)),
        _ => (Some(value), None),
    };
    PictureItem {
        kind,
        location,
        read,
        left,
        column,
        row,
        process: b"",
        number: OperationNumber {
            process: 0,
            place: 0,
        },
        op: None,
    }
}

/// Adds the boxes of the process's operations that are drawn, in program order, one below the other from the top of the picture on.
fn add_process<'t>(
    items: &mut Vec<PictureItem<'t>>,
    process: &'t Process,
    number: usize,
    choice: &DrawnChoice,
) -> Result<(), AllocError> {
    let ops = process.operations.as_slice();
    let mut row = 0;
    for k in 0..ops.len() {
        if let Some(name) = number_at(number, k) {
            if let Some(is_chosen) = choice.is_chosen(name) {
                items.push(operation_item(process, name, &ops[k], is_chosen, row))?;
                row = after(row);
            }
        }
    }
    Ok(())
}

/// Returns whether one of the boxes is of the location.
fn is_used(items: &[PictureItem<'_>], location: &[u8]) -> bool {
    for item in items {
        if item.location == location {
            return true;
        }
    }
    false
}

/// The number of rows of the boxes.
pub fn count_rows(items: &[PictureItem<'_>]) -> usize {
    let mut count = 0;
    for item in items {
        count = count.max(after(item.row));
    }
    count
}

/// The number of boxes that are operations that the picture is of, which its title says. Those beside them are there only for what they exclude.
pub fn count_operations(items: &[PictureItem<'_>]) -> u64 {
    let mut count: u64 = 0;
    for item in items {
        if item.is_operation() && !item.is_beside() {
            count = count.saturating_add(1);
        }
    }
    count
}

/// Adds the initial values of the locations that are used. The operations have to be there already, as they say which locations these are.
fn add_initial<'t>(items: &mut Vec<PictureItem<'t>>, trace: &'t Trace) -> Result<(), AllocError> {
    let mut row = 0;
    for entry in trace.initial() {
        let location = entry.0.as_bytes();
        if is_used(items.as_slice(), location) {
            items.push(value_item(ItemKind::Initial, location, entry.1, 0, row))?;
            row = after(row);
        }
    }
    Ok(())
}

/// The number of final values of the locations that are used.
fn count_finals(items: &[PictureItem<'_>], trace: &Trace) -> usize {
    let mut count = 0;
    for entry in trace.final_values() {
        if is_used(items, entry.0.as_bytes()) {
            count = after(count);
        }
    }
    count
}

/// Adds the final values of the locations that are used, in the last column, from this row on.
fn add_finals<'t>(
    items: &mut Vec<PictureItem<'t>>,
    trace: &'t Trace,
    first_row: usize,
) -> Result<(), AllocError> {
    let column = after(trace.processes().len());
    let mut row = first_row;
    for entry in trace.final_values() {
        let location = entry.0.as_bytes();
        if is_used(items.as_slice(), location) {
            items.push(value_item(ItemKind::Final, location, entry.1, column, row))?;
            row = after(row);
        }
    }
    Ok(())
}

/// The boxes of the operations that are drawn, and of the initial and final values of their locations.
pub fn items_of_choice<'t>(
    alloc: Global,
    trace: &'t Trace,
    choice: &DrawnChoice,
) -> Result<Vec<PictureItem<'t>>, AllocError> {
    let mut items = Vec::new(alloc);
    let processes = trace.processes();
    for number in 0..processes.len() {
        add_process(&mut items, &processes[number], number, choice)?;
    }
    add_initial(&mut items, trace)?;
    let count = count_finals(items.as_slice(), trace);
    // So the last final value stands in the last row; if there are more of them than rows, they begin in the first.
    let row = count_rows(items.as_slice()).saturating_sub(count);
    add_finals(&mut items, trace, row)?;
    Ok(items)
}

/// Gives the box of this place in the list the row, if it is of this operation.
fn put_in_row<'t>(items: &mut Vec<PictureItem<'t>>, k: usize, number: OperationNumber, row: usize) {
    if k < items.len() && items[k].is_operation() && is_same(items[k].number, number) {
        items[k].row = row;
    }
}

/// Gives each operation the row of its place in the schedule, from 0. A legal schedule names each once, so no two share a row. Long schedules are not drawn, so
/// the box of each name is looked for among all.
fn place_by_schedule<'t>(items: &mut Vec<PictureItem<'t>>, trace: &Trace, names: &[OpName]) {
    for row in 0..names.len() {
        if let Some(number) = number_of(trace, &names[row]) {
            for k in 0..items.len() {
                put_in_row(items, k, number, row);
            }
        }
    }
}

/// The boxes of all operations, each in the row of its place in the schedule, and of the initial and final values of their locations.
/// Final values stand in rows of their own, so that an arrow to one crosses no box.
pub fn items_of_schedule<'t>(
    alloc: Global,
    trace: &'t Trace,
    names: &[OpName],
) -> Result<Vec<PictureItem<'t>>, AllocError> {
    let choice = DrawnChoice::of_all(alloc, trace)?;
    let mut items = Vec::new(alloc);
    let processes = trace.processes();
    for number in 0..processes.len() {
        add_process(&mut items, &processes[number], number, &choice)?;
    }
    place_by_schedule(&mut items, trace, names);
    add_initial(&mut items, trace)?;
    add_finals(&mut items, trace, names.len())?;
    Ok(items)
}

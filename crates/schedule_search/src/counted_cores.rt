//! Cores of logs that are refuted by counting.

use numbered_log::{LocationId, NumberedLog, OperationId};
use possible_sources::{ClassId, ValueClasses};
use std::alloc::{AllocError, Global};
use total_tables::{at, put, size};

/// The updates of the class, and the last writers of its location, one for each process: one of these is the last write, which takes a
/// source too.
pub(crate) fn takers_of_class(
    alloc: Global,
    log: &NumberedLog,
    classes: &ValueClasses,
    class: ClassId,
) -> Result<Vec<OperationId>, AllocError> {
    let mut is_taker = vec![in alloc; false; log.count() as usize]?;
    for number in log.operation_ids() {
        let operation = log.operation(number);
        if operation.reads
            && operation.writes
            && classes.class(operation.location, operation.needed) == class
        {
            put(is_taker.as_mut_slice(), number.number(), true);
        }
    }
    choose_last(log, classes.location(class), &mut is_taker);
    chosen(alloc, is_taker.as_slice())
}

/// The operations of these takers: updates, and of each last write the last writers of its location, one for each process.
pub(crate) fn operations_of(
    alloc: Global,
    log: &NumberedLog,
    takers: &[OperationId],
) -> Result<Vec<OperationId>, AllocError> {
    let mut is_taker = vec![in alloc; false; log.count() as usize]?;
    for taker in takers {
        put(is_taker.as_mut_slice(), taker.number(), true);
        if log.is_final(*taker) {
            choose_last(log, log.final_location(*taker), &mut is_taker);
        }
    }
    chosen(alloc, is_taker.as_slice())
}

/// Chooses the last writer of the location in each process.
fn choose_last(log: &NumberedLog, location: LocationId, is_chosen: &mut Vec<bool>) {
    for process in log.process_ids() {
        for place in log.last_place(process).down_to_first() {
            let number = log.number(process, place);
            let operation = log.operation(number);
            if operation.writes && operation.location == location {
                put(is_chosen.as_mut_slice(), number.number(), true);
                break;
            }
        }
    }
}

/// Those that are chosen, by rising numbers.
fn chosen(alloc: Global, is_chosen: &[bool]) -> Result<Vec<OperationId>, AllocError> {
    let mut numbers = Vec::new(alloc);
    for number in OperationId::first(size(is_chosen)) {
        if at(is_chosen, number.number(), false) {
            numbers.push(number)?;
        }
    }
    Ok(numbers)
}

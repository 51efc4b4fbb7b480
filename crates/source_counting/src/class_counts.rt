//! Counting by class, in one pass over the log. It comes before all else: a lock whose release is missing has no other small reason.

use numbered_log::{NumberedLog, OperationId};
use possible_sources::{ClassId, ValueClasses};
use std::alloc::{AllocError, Global};
use total_tables::{at, put};

/// A class whose updates, and the last write of its location if it leaves the value of the class, are more than its writers and the initial
/// value. Such a log has no legal schedule, whatever the order.
pub fn crowded_class(
    alloc: Global,
    log: &NumberedLog,
    classes: &ValueClasses,
) -> Result<Option<ClassId>, AllocError> {
    let mut takers: Vec<u32> = vec![in alloc; 0; classes.count() as usize]?;
    for number in log.operation_ids() {
        if takes_source(log, number) {
            let operation = log.operation(number);
            let class = classes.class(operation.location, operation.needed);
            let more = at(takers.as_slice(), class.number(), 0).wrapping_add(1);
            put(takers.as_mut_slice(), class.number(), more);
        }
    }
    for class in classes.class_ids() {
        let count = at(takers.as_slice(), class.number(), 0);
        if count > 0
            && count.wrapping_add(last_of(log, classes, class)) > sources_of(log, classes, class)
        {
            return Ok(Some(class));
        }
    }
    Ok(None)
}

/// Returns 1 if the last write of the location leaves the value of the class, and else 0.
fn last_of(log: &NumberedLog, classes: &ValueClasses, class: ClassId) -> u32 {
    (log.last(classes.location(class)) == Some(classes.value(class))) as u32
}

/// The number of writers of the class, and 1 if its value is the initial one.
fn sources_of(log: &NumberedLog, classes: &ValueClasses, class: ClassId) -> u32 {
    // The runs of a class stand in a row, up to the first run of the next class, and so do its writers.
    let begin = classes.begin(classes.first_run(class));
    let end = classes.begin(classes.first_run(class.next()));
    let initial = log.initial(classes.location(class)) == Some(classes.value(class));
    end.saturating_sub(begin).wrapping_add(initial as u32)
}

/// Returns whether the operation is an update, which takes its source for itself.
pub(crate) fn takes_source(log: &NumberedLog, number: OperationId) -> bool {
    let operation = log.operation(number);
    operation.reads && operation.writes
}

//! The readers of each value of a location.

use crate::value_classes::{ClassId, ValueClasses};
use numbered_log::{NOBODY, NumberedLog, OperationId};
use std::alloc::{AllocError, Global};
use total_tables::{at, first_place, put, sum_up};

/// The reading operations of each class of writers, by rising numbers, so by process and place.
#[derive(Drop)]
pub struct ReaderClasses {
    /// For each class where its readers begin, and where all end.
    begins: Vec<u32>,
    readers: Vec<OperationId>,
}

/// The class that the operation reads. None if it reads nothing, or a value that no operation writes.
fn class_read(log: &NumberedLog, classes: &ValueClasses, number: OperationId) -> ClassId {
    let operation = log.operation(number);
    if operation.reads {
        classes.class(operation.location, operation.needed)
    } else {
        ClassId::NONE
    }
}

impl ReaderClasses {
    /// The readers of the log.
    pub fn new(
        alloc: Global,
        log: &NumberedLog,
        classes: &ValueClasses,
    ) -> Result<ReaderClasses, AllocError> {
        let mut readers = ReaderClasses {
            begins: vec![in alloc; 0; classes.count().wrapping_add(2) as usize]?,
            readers: vec![in alloc; NOBODY; log.count() as usize]?,
        };
        // They are counted two places further on: summed up, the entry one place on is where a class begins, and moves on while it is filled.
        for number in log.operation_ids() {
            let class = class_read(log, classes, number);
            if class != ClassId::NONE {
                let place = class.number().wrapping_add(2);
                let more = at(readers.begins.as_slice(), place, 0).wrapping_add(1);
                put(readers.begins.as_mut_slice(), place, more);
            }
        }
        sum_up(readers.begins.as_mut_slice());
        for number in log.operation_ids() {
            let class = class_read(log, classes, number);
            if class != ClassId::NONE {
                let place = class.next().number();
                let free = at(readers.begins.as_slice(), place, 0);
                put(readers.begins.as_mut_slice(), place, free.wrapping_add(1));
                put(readers.readers.as_mut_slice(), free, number);
            }
        }
        Ok(readers)
    }

    /// The position at which the readers of the class begin.
    #[inline(always)]
    pub fn begin(&self, class: ClassId) -> u32 {
        at(self.begins.as_slice(), class.number(), 0)
    }

    /// The position at which they end.
    #[inline(always)]
    pub fn end(&self, class: ClassId) -> u32 {
        self.begin(class.next())
    }

    #[inline(always)]
    pub fn reader(&self, position: u32) -> OperationId {
        at(self.readers.as_slice(), position, NOBODY)
    }

    /// The first position, from one up to another, whose reader has this number or a larger one, or the end.
    #[inline(always)]
    pub fn first_from(&self, begin: u32, end: u32, number: OperationId) -> u32 {
        first_place(begin, end, |position| self.reader(position) >= number)
    }
}

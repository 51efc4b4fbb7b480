//! What takes a source for itself.
//!
//! Past the end of a table `at` reads as its last argument, and `put` does nothing; so arithmetic may wrap, and a wrong place makes no fault.

use numbered_log::{LocationId, NOBODY, NumberedLog, OperationId, ProcessId};
use order_propagation::Propagation;
use std::alloc::{AllocError, Global};
use total_tables::{at, put, sum_up};

/// The last writers of each location, one for each process.
///
/// One of them is the last of all, and no update reads it.
#[derive(Drop)]
pub(crate) struct LastInProcess {
    /// For each location where its writers begin, and where all end.
    begins: Vec<u32>,
    /// By location, and at one location by rising numbers.
    writers: Vec<OperationId>,
}

impl LastInProcess {
    pub(crate) fn new(alloc: Global, log: &NumberedLog) -> Result<LastInProcess, AllocError> {
        let is_last = last_in_process(alloc, log)?;
        let mut last = LastInProcess {
            begins: vec![in alloc; 0; log.locations().wrapping_add(2) as usize]?,
            writers: vec![in alloc; NOBODY; log.count() as usize]?,
        };
        for number in log.operation_ids() {
            if at(is_last.as_slice(), number.number(), false) {
                // After the sums the entry behind a location is where its writers begin. Placing them moves it to their end, where those of the next
                // location begin.
                let place = log.operation(number).location.number().wrapping_add(2);
                let more = at(last.begins.as_slice(), place, 0).wrapping_add(1);
                put(last.begins.as_mut_slice(), place, more);
            }
        }
        sum_up(last.begins.as_mut_slice());
        for number in log.operation_ids() {
            if at(is_last.as_slice(), number.number(), false) {
                let place = log.operation(number).location.next().number();
                let free = at(last.begins.as_slice(), place, 0);
                put(last.begins.as_mut_slice(), place, free.wrapping_add(1));
                put(last.writers.as_mut_slice(), free, number);
            }
        }
        Ok(last)
    }

    /// The position at which the writers of the location begin.
    pub(crate) fn begin(&self, location: LocationId) -> u32 {
        at(self.begins.as_slice(), location.number(), 0)
    }

    /// The position at which they end.
    pub(crate) fn end(&self, location: LocationId) -> u32 {
        self.begin(location.next())
    }

    pub(crate) fn writer(&self, position: u32) -> OperationId {
        at(self.writers.as_slice(), position, NOBODY)
    }
}

/// For each operation whether it is the last of its process that writes its location. Operations of a process have numbers that follow each other, so it is
/// enough to keep for each location the process that was met last.
fn last_in_process(alloc: Global, log: &NumberedLog) -> Result<Vec<bool>, AllocError> {
    let mut is_last = vec![in alloc; false; log.count() as usize]?;
    let mut seen = vec![in alloc; ProcessId::NONE; log.locations() as usize]?;
    for number in (0..log.count()).rev().map(OperationId::new) {
        let operation = log.operation(number);
        if operation.writes
            && at(
                seen.as_slice(),
                operation.location.number(),
                ProcessId::FIRST,
            ) != operation.process
        {
            put(
                seen.as_mut_slice(),
                operation.location.number(),
                operation.process,
            );
            put(is_last.as_mut_slice(), number.number(), true);
        }
    }
    Ok(is_last)
}

/// The location whose last write takes a source, if the taker is one, and is behind all operations.
pub(crate) fn location_of(order: &Propagation<'_>, taker: OperationId) -> Option<LocationId> {
    if order.log().is_final(taker) {
        Some(order.log().final_location(taker))
    } else {
        None
    }
}

/// The number of the location's initial value among the sources, which stand behind all operations.
pub(crate) fn initial_of(order: &Propagation<'_>, location: LocationId) -> OperationId {
    order.log().final_reader(location)
}

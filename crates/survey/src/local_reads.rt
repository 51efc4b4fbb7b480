//! A log without the reads that repeat what their process has just seen: they can follow it at once in each schedule, and say nothing new.
//!
//! Past the end of a table `at` reads as its last argument, and `put` does nothing; so arithmetic may wrap, and a wrong place makes no fault.

use numbered_log::{
    NOBODY, NumberedLog, NumberedOrigin, NumberedPair, Operation, OperationId, ProcessPlace,
};
use std::alloc::{AllocError, Global};
use total_tables::{at, put, size};

/// A log without repeated local reads.
pub struct ReducedLog {
    pub log: NumberedLog,
    /// For each of its operations its number in the whole.
    numbers: Vec<OperationId>,
}

/// Drops both tables in one call. A derived `Drop` would drop each at every exit of a function that owns a log, which makes its proof longer.
impl Drop for ReducedLog {
    fn drop(self) {
        let ReducedLog {
            log: _log,
            numbers: _numbers,
        } = self;
    }
}

/// The value that the location holds for the process behind the operation.
fn value_seen(operation: Operation) -> u64 {
    if operation.writes {
        operation.left
    } else {
        operation.needed
    }
}

/// For each operation whether an origin or a pair names it. These are kept, so that the numbers in origins and pairs have new ones.
fn named(alloc: Global, log: &NumberedLog) -> Result<Vec<bool>, AllocError> {
    let mut is_named = vec![in alloc; false; log.count() as usize]?;
    for number in log.operation_ids() {
        if let NumberedOrigin::Operation(origin) = log.operation(number).origin {
            put(is_named.as_mut_slice(), origin.number(), true);
        }
    }
    for pair in log.pairs() {
        put(is_named.as_mut_slice(), pair.first.number(), true);
        put(is_named.as_mut_slice(), pair.second.number(), true);
    }
    Ok(is_named)
}

/// Returns whether the operation is a plain read of what the one before it in its process has left or read.
fn repeats(log: &NumberedLog, number: OperationId) -> bool {
    let operation = log.operation(number);
    if operation.place <= ProcessPlace::FIRST || !operation.reads || operation.writes {
        return false;
    }
    let previous = log.operation(number.previous());
    matches!(operation.origin, NumberedOrigin::Any)
        && previous.location == operation.location
        && value_seen(previous) == operation.needed
}

impl ReducedLog {
    /// The log without its repeated local reads, of which those stay that something names.
    pub fn of(alloc: Global, log: &NumberedLog) -> Result<ReducedLog, AllocError> {
        let is_named = named(alloc, log)?;
        let mut reduced = ReducedLog {
            log: NumberedLog::new(alloc, log.locations())?,
            numbers: Vec::new(alloc),
        };
        let mut renamed = vec![in alloc; OperationId::FIRST; log.count() as usize]?;
        for process in log.process_ids() {
            for place in log.places(process) {
                let number = log.number(process, place);
                if at(is_named.as_slice(), number.number(), true) || !repeats(log, number) {
                    let kept = OperationId::new(size(reduced.numbers.as_slice()));
                    put(renamed.as_mut_slice(), number.number(), kept);
                    reduced.numbers.push(number)?;
                    reduced.log.add_operation(log.operation(number))?;
                }
            }
            reduced.log.end_process()?;
        }
        reduced.rename(log, renamed.as_slice())?;
        Ok(reduced)
    }

    /// Takes over values, origins and pairs, by the new numbers.
    fn rename(&mut self, log: &NumberedLog, renamed: &[OperationId]) -> Result<(), AllocError> {
        for location in log.location_ids() {
            self.log.set_initial(location, log.initial(location));
            self.log.set_last(location, log.last(location));
        }
        for number in self.log.operation_ids() {
            if let NumberedOrigin::Operation(origin) = self.log.operation(number).origin {
                let kept = at(renamed, origin.number(), origin);
                self.log.set_origin(number, NumberedOrigin::Operation(kept));
            }
        }
        for pair in log.pairs() {
            self.log.add_pair(NumberedPair {
                first: at(renamed, pair.first.number(), pair.first),
                second: at(renamed, pair.second.number(), pair.second),
                is_timed: pair.is_timed,
            })?;
        }
        Ok(())
    }

    /// The numbers in the whole of some operations.
    pub fn in_whole(
        &self,
        alloc: Global,
        operations: &[OperationId],
    ) -> Result<Vec<OperationId>, AllocError> {
        let mut whole = Vec::with_capacity(alloc, operations.len())?;
        for operation in operations {
            whole.push(at(
                self.numbers.as_slice(),
                operation.number(),
                OperationId::FIRST,
            ))?;
        }
        Ok(whole)
    }

    /// The numbers here of those of the whole's operations that were not left out, in the given order.
    pub fn kept_of(
        &self,
        alloc: Global,
        log: &NumberedLog,
        operations: &[OperationId],
    ) -> Result<Vec<OperationId>, AllocError> {
        let mut renamed = vec![in alloc; NOBODY; log.count() as usize]?;
        for number in OperationId::first(size(self.numbers.as_slice())) {
            let whole = at(self.numbers.as_slice(), number.number(), NOBODY);
            put(renamed.as_mut_slice(), whole.number(), number);
        }
        let mut kept = Vec::new(alloc);
        for operation in operations {
            let number = at(renamed.as_slice(), operation.number(), NOBODY);
            if number != NOBODY {
                kept.push(number)?;
            }
        }
        Ok(kept)
    }

    /// The schedule of the whole in which each read that was left out follows the operation before it at once.
    pub fn expand(
        &self,
        alloc: Global,
        log: &NumberedLog,
        schedule: &[OperationId],
    ) -> Result<Vec<OperationId>, AllocError> {
        let mut whole = Vec::with_capacity(alloc, log.count() as usize)?;
        for operation in schedule {
            let number = at(
                self.numbers.as_slice(),
                operation.number(),
                OperationId::FIRST,
            );
            let process = log.operation(number).process;
            // The reads that were left out stand between this operation and the next one that was kept, or the end of the process.
            let mut end = log.start(process.next());
            let kept = self.log.operation(*operation);
            if kept.place < self.log.last_place(kept.process) {
                end = at(self.numbers.as_slice(), operation.next().number(), end);
            }
            for following in number.up_to(end) {
                whole.push(following)?;
            }
        }
        Ok(whole)
    }
}

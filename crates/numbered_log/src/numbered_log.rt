//! A trace as numbers.

use crate::numbers::{
    LocationId, LocationIds, OperationId, OperationIds, ProcessId, ProcessIds, ProcessPlace,
    ProcessPlaces,
};
use std::alloc::{AllocError, Global};
use total_tables::{at, put, size};

/// The origin of the value of a reading operation, by number.
#[derive(Clone, Copy)]
pub enum NumberedOrigin {
    /// Nothing is known.
    Any,
    /// The initial value.
    Initial,
    /// The operation of this number.
    Operation(OperationId),
}

/// An operation. Its number among all is that of the first one of its process, and its place less one, so that a place gives the number
/// without a table.
#[derive(Clone, Copy)]
pub struct Operation {
    pub process: ProcessId,
    pub place: ProcessPlace,
    pub location: LocationId,
    /// Whether it reads. A read-modify-write reads and writes.
    pub reads: bool,
    pub writes: bool,
    /// The value that it reads; without a meaning if it reads nothing.
    pub needed: u64,
    /// The value that it leaves; without a meaning if it writes nothing.
    pub left: u64,
    pub origin: NumberedOrigin,
}

/// The operation in place of one that is not there. It reads and writes nothing, so a wrong number costs an answer and makes none wrong.
const MISSING: Operation = Operation {
    process: ProcessId::FIRST,
    place: ProcessPlace::START,
    location: LocationId::FIRST,
    reads: false,
    writes: false,
    needed: 0,
    left: 0,
    origin: NumberedOrigin::Any,
};

/// Two operations of which the first stands before the second.
#[derive(Clone, Copy)]
pub struct NumberedPair {
    pub first: OperationId,
    pub second: OperationId,
    /// Whether times say so, and not a pair of the trace: a certificate has another line for it.
    pub is_timed: bool,
}

/// A trace whose processes, locations and operations have numbers, counted from 0.
pub struct NumberedLog {
    operations: Vec<Operation>,
    /// For each process the number of its first operation, and how many there are in all.
    starts: Vec<u32>,
    /// For each location its value before all operations, if it is known.
    initial: Vec<Option<u64>>,
    /// For each location its value in the end, if it is known.
    last: Vec<Option<u64>>,
    pairs: Vec<NumberedPair>,
}

/// Drops the tables in one call. A derived `Drop` would drop each at every exit of a function that owns a log, which makes its proof longer.
impl Drop for NumberedLog {
    fn drop(self) {
        let NumberedLog {
            operations: _operations,
            starts: _starts,
            initial: _initial,
            last: _last,
            pairs: _pairs,
        } = self;
    }
}

impl NumberedLog {
    /// A log of no process, and of this number of locations.
    pub fn new(alloc: Global, locations: u32) -> Result<NumberedLog, AllocError> {
        Ok(NumberedLog {
            operations: Vec::new(alloc),
            starts: vec![in alloc; 0; 1]?,
            initial: vec![in alloc; None; locations as usize]?,
            last: vec![in alloc; None; locations as usize]?,
            pairs: Vec::new(alloc),
        })
    }

    /// Adds an operation to the process at hand. Its process and place are given to it.
    pub fn add_operation(&mut self, operation: Operation) -> Result<(), AllocError> {
        let process = ProcessId::new(self.processes());
        let first = self.start(process).number();
        let place = ProcessPlace::new(self.count().wrapping_sub(first).wrapping_add(1));
        self.operations.push(Operation {
            process,
            place,
            ..operation
        })?;
        Ok(())
    }

    /// Ends the process at hand. The operations that are added from now on are of the next one.
    pub fn end_process(&mut self) -> Result<(), AllocError> {
        let count = self.count();
        self.starts.push(count)?;
        Ok(())
    }

    /// Sets the origin of an operation's value.
    pub fn set_origin(&mut self, number: OperationId, origin: NumberedOrigin) {
        let operation = self.operation(number);
        let changed = Operation {
            origin,
            ..operation
        };
        put(self.operations.as_mut_slice(), number.number(), changed);
    }

    /// Sets the value that the location holds before all operations.
    pub fn set_initial(&mut self, location: LocationId, value: Option<u64>) {
        put(self.initial.as_mut_slice(), location.number(), value);
    }

    /// Sets the value that the location holds in the end.
    pub fn set_last(&mut self, location: LocationId, value: Option<u64>) {
        put(self.last.as_mut_slice(), location.number(), value);
    }

    /// Adds a pair of which the first stands before the second.
    pub fn add_pair(&mut self, pair: NumberedPair) -> Result<(), AllocError> {
        self.pairs.push(pair)?;
        Ok(())
    }

    /// The number of operations.
    #[inline(always)]
    pub fn count(&self) -> u32 {
        size(self.operations.as_slice())
    }

    /// The number of processes that have ended.
    #[inline(always)]
    pub fn processes(&self) -> u32 {
        size(self.starts.as_slice()).wrapping_sub(1)
    }

    pub fn locations(&self) -> u32 {
        size(self.initial.as_slice())
    }

    #[inline(always)]
    pub fn operation(&self, number: OperationId) -> Operation {
        at(self.operations.as_slice(), number.number(), MISSING)
    }

    /// All operations, by rising numbers.
    #[inline(always)]
    pub fn operation_ids(&self) -> OperationIds {
        OperationId::first(self.count())
    }

    /// All processes, by rising numbers.
    #[inline(always)]
    pub fn process_ids(&self) -> ProcessIds {
        ProcessId::first(self.processes())
    }

    /// All locations, by rising numbers.
    #[inline(always)]
    pub fn location_ids(&self) -> LocationIds {
        LocationId::first(self.locations())
    }

    /// The process's first operation, and behind the last process the number of all operations.
    #[inline(always)]
    pub fn start(&self, process: ProcessId) -> OperationId {
        OperationId::new(at(self.starts.as_slice(), process.number(), 0))
    }

    /// The number of the process's operations.
    #[inline(always)]
    pub fn length(&self, process: ProcessId) -> u32 {
        let end = self.start(process.next());
        end.number().saturating_sub(self.start(process).number())
    }

    /// The place of the process's last operation, or the one before the first if it has none.
    #[inline(always)]
    pub fn last_place(&self, process: ProcessId) -> ProcessPlace {
        ProcessPlace::new(self.length(process))
    }

    /// The place behind the process's last operation.
    #[inline(always)]
    pub fn end(&self, process: ProcessId) -> ProcessPlace {
        self.last_place(process).next()
    }

    /// The places of the process's operations.
    #[inline(always)]
    pub fn places(&self, process: ProcessId) -> ProcessPlaces {
        ProcessPlace::FIRST.up_to(self.end(process))
    }

    /// The process's operation at this place, which must be one of its places: others give operations of other processes, or none.
    #[inline(always)]
    pub fn number(&self, process: ProcessId, place: ProcessPlace) -> OperationId {
        self.start(process).at_place(place)
    }

    /// The reader that is the final value of the location.
    #[inline(always)]
    pub fn final_reader(&self, location: LocationId) -> OperationId {
        OperationId::new(self.count().wrapping_add(location.number()))
    }

    /// Returns whether there is an operation of this number.
    #[inline(always)]
    pub fn has_operation(&self, number: OperationId) -> bool {
        number.number() < self.count()
    }

    /// Returns whether the reader is a final value, and no operation.
    #[inline(always)]
    pub fn is_final(&self, reader: OperationId) -> bool {
        reader.number() >= self.count()
    }

    /// The location of which the reader is the final value.
    #[inline(always)]
    pub fn final_location(&self, reader: OperationId) -> LocationId {
        LocationId::new(reader.number().wrapping_sub(self.count()))
    }

    /// The location's value before all operations.
    pub fn initial(&self, location: LocationId) -> Option<u64> {
        at(self.initial.as_slice(), location.number(), None)
    }

    /// The location's value in the end.
    pub fn last(&self, location: LocationId) -> Option<u64> {
        at(self.last.as_slice(), location.number(), None)
    }

    /// The pairs of which the first operation stands before the second.
    pub fn pairs(&self) -> &[NumberedPair] {
        self.pairs.as_slice()
    }
}

//! What is placed, and what memory holds by it.
//!
//! Past the end of a table `at` reads as its last argument, and `put` does nothing; so arithmetic may wrap, and a wrong place makes no fault.

use crate::spare_values::SpareValues;
use numbered_log::{
    Fronts, LocationId, NO_NUMBER, NOBODY, NumberedLog, Operation, OperationId, ProcessId,
    ProcessPlace, UNKNOWN_SOURCE,
};
use order_propagation::Propagation;
use std::alloc::{AllocError, Global};
use total_tables::{at, put, size};

/// The operations that are placed, in order, and what each location holds after them.
pub(crate) struct PlacedMemory {
    pub(crate) placed: Vec<OperationId>,
    /// For each operation the number of those placed before it, or `NO_NUMBER`.
    positions: Vec<u32>,
    fronts: Fronts,
    /// For each location the operation that has written it last, or `NOBODY`.
    held: Vec<OperationId>,
    /// For each placed operation that writes the one that its location held before, so that it is taken back without a search.
    held_before: Vec<OperationId>,
    /// For each reading operation its source, if it has one only. It is `NOBODY` for the initial value, and `UNKNOWN_SOURCE` if there are several.
    sources: Vec<OperationId>,
    /// For each operation the readers that are not placed and have it as their only source.
    unread: Vec<u32>,
    /// The same for the initial value of each location.
    unread_initial: Vec<u32>,
    /// The reading operations that had several sources when the walk began: only what these read can change.
    open: Vec<OperationId>,
    spare: SpareValues,
}

/// Drops each table in one call. A derived `Drop` would drop each at every exit of a function that owns it, which makes its proof longer.
impl Drop for PlacedMemory {
    fn drop(self) {
        let PlacedMemory {
            placed: _placed,
            positions: _positions,
            fronts: _fronts,
            held: _held,
            held_before: _held_before,
            sources: _sources,
            unread: _unread,
            unread_initial: _unread_initial,
            open: _open,
            spare: _spare,
        } = self;
    }
}

/// The source of the reader, as it is noted.
fn source_noted(order: &Propagation<'_>, reader: OperationId) -> OperationId {
    match order.only_source(reader) {
        Some(source) => source,
        None => UNKNOWN_SOURCE,
    }
}

impl PlacedMemory {
    /// Nothing placed.
    pub(crate) fn new(alloc: Global, order: &Propagation<'_>) -> Result<PlacedMemory, AllocError> {
        let log = order.log();
        let count = log.count() as usize;
        let mut memory = PlacedMemory {
            placed: Vec::with_capacity(alloc, count)?,
            positions: vec![in alloc; NO_NUMBER; count]?,
            fronts: Fronts::new(alloc, log.processes())?,
            held: vec![in alloc; NOBODY; log.locations() as usize]?,
            held_before: vec![in alloc; NOBODY; count]?,
            sources: vec![in alloc; UNKNOWN_SOURCE; count]?,
            unread: vec![in alloc; 0; count]?,
            unread_initial: vec![in alloc; 0; log.locations() as usize]?,
            open: Vec::new(alloc),
            spare: SpareValues::new(alloc, order)?,
        };
        for number in log.operation_ids() {
            if order.sources().is_reader(number) {
                let source = source_noted(order, number);
                memory.set_source(log, number, source);
                if source == UNKNOWN_SOURCE {
                    memory.open.push(number)?;
                }
            }
        }
        Ok(memory)
    }

    /// Notes the source of a reader that is not placed.
    fn set_source(&mut self, log: &NumberedLog, reader: OperationId, source: OperationId) {
        put(self.sources.as_mut_slice(), reader.number(), source);
        let location = log.operation(reader).location;
        self.change_unread(source, location, 1);
    }

    /// Adds to the number of readers that the source waits for. A difference below 0 is added as its complement.
    fn change_unread(&mut self, source: OperationId, location: LocationId, difference: u32) {
        if source == NOBODY {
            let count = at(self.unread_initial.as_slice(), location.number(), 0);
            let changed = count.wrapping_add(difference);
            put(
                self.unread_initial.as_mut_slice(),
                location.number(),
                changed,
            );
        } else if source != UNKNOWN_SOURCE {
            let count = at(self.unread.as_slice(), source.number(), 0);
            put(
                self.unread.as_mut_slice(),
                source.number(),
                count.wrapping_add(difference),
            );
        }
    }

    /// Notes the sources anew of the readers that had several. Placed readers are counted again when they are taken back.
    pub(crate) fn note_sources(&mut self, order: &Propagation<'_>) {
        let log = order.log();
        for entry in 0..size(self.open.as_slice()) {
            let reader = at(self.open.as_slice(), entry, NOBODY);
            let source = source_noted(order, reader);
            let old = self.source(reader);
            if source != old {
                put(self.sources.as_mut_slice(), reader.number(), source);
                if !self.is_placed(reader) {
                    let location = log.operation(reader).location;
                    self.change_unread(old, location, u32::MAX);
                    self.change_unread(source, location, 1);
                }
            }
        }
    }

    /// The source of the reader, or `UNKNOWN_SOURCE`.
    #[inline(always)]
    pub(crate) fn source(&self, reader: OperationId) -> OperationId {
        at(self.sources.as_slice(), reader.number(), UNKNOWN_SOURCE)
    }

    /// The number of operations that are placed.
    #[inline(always)]
    pub(crate) fn count(&self) -> u32 {
        size(self.placed.as_slice())
    }

    /// The number of operations placed before this one, or `NO_NUMBER` if it is not placed.
    #[inline(always)]
    pub(crate) fn position(&self, number: OperationId) -> u32 {
        at(self.positions.as_slice(), number.number(), NO_NUMBER)
    }

    /// Returns whether the operation is placed.
    #[inline(always)]
    pub(crate) fn is_placed(&self, number: OperationId) -> bool {
        self.position(number) != NO_NUMBER
    }

    /// The place of the process's next operation.
    #[inline(always)]
    pub(crate) fn front(&self, process: ProcessId) -> ProcessPlace {
        self.fronts.of(process)
    }

    /// The operation that has written the location last, or `NOBODY`.
    #[inline(always)]
    pub(crate) fn held(&self, location: LocationId) -> OperationId {
        at(self.held.as_slice(), location.number(), NOBODY)
    }

    /// Has the location hold what this operation has written.
    fn hold(&mut self, location: LocationId, writer: OperationId) {
        put(self.held.as_mut_slice(), location.number(), writer);
    }

    /// The operation that its location held before this one was placed.
    #[inline(always)]
    pub(crate) fn held_before(&self, writer: OperationId) -> OperationId {
        at(self.held_before.as_slice(), writer.number(), NOBODY)
    }

    /// Number of plain writes that may still come over the value that the location holds.
    pub(crate) fn spare(&self, location: LocationId) -> u32 {
        self.spare.of_held(location, self.held(location))
    }

    /// The number of readers that wait for what the location holds.
    #[inline(always)]
    pub(crate) fn unread(&self, location: LocationId) -> u32 {
        let writer = self.held(location);
        if writer == NOBODY {
            at(self.unread_initial.as_slice(), location.number(), 0)
        } else {
            at(self.unread.as_slice(), writer.number(), 0)
        }
    }

    /// Places the operation. Returns whether what its location holds is another write now, or was read by the last that waited for it.
    pub(crate) fn place(
        &mut self,
        number: OperationId,
        operation: Operation,
    ) -> Result<bool, AllocError> {
        let position = self.count();
        self.placed.push(number)?;
        put(self.positions.as_mut_slice(), number.number(), position);
        self.fronts.set(operation.process, operation.place.next());
        // An update reads before it writes: `unread` speaks of what is held until then.
        let mut is_free = false;
        if operation.reads {
            let source = self.source(number);
            self.change_unread(source, operation.location, u32::MAX);
            is_free = self.unread(operation.location) == 0;
        }
        if operation.writes {
            let held = self.held(operation.location);
            put(self.held_before.as_mut_slice(), number.number(), held);
            self.hold(operation.location, number);
            if !operation.reads {
                self.spare.lose(operation.location, held);
            }
            is_free = true;
        }
        Ok(is_free)
    }

    /// Takes operations back, the last first, until this number is placed.
    pub(crate) fn take_back(&mut self, log: &NumberedLog, left: u32) {
        for _ in left..self.count() {
            let Some(number) = self.placed.pop() else {
                break;
            };
            let operation = log.operation(number);
            put(self.positions.as_mut_slice(), number.number(), NO_NUMBER);
            self.fronts.set(operation.process, operation.place);
            if operation.writes {
                let before = self.held_before(number);
                self.hold(operation.location, before);
                if !operation.reads {
                    self.spare.give_back(operation.location, before);
                }
            }
            if operation.reads {
                let source = self.source(number);
                self.change_unread(source, operation.location, 1);
            }
        }
    }
}

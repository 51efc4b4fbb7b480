//! What is left of a log on some of its operations.
//!
//! What is left of a legal schedule of the log has to be one of the part: then a part without one shows that the log has none. So a read stays only if all
//! its possible sources do, as its value may come from any of them. Initial values always stay.
//!
//! If this is not the part that is made of the trace, the answer is of no use, and nothing worse.
//!
//! Past the end of a table `at` reads as its last argument, and `put` does nothing; so arithmetic may wrap, and a wrong place makes no fault.

use crate::given_order::GivenOrder;
use numbered_log::{
    Budget, LocationId, NOBODY, NumberedLog, NumberedOrigin, NumberedPair, Operation, OperationId,
    ProcessId, ProcessPlace,
};
use std::alloc::{AllocError, Global};
use total_tables::{at, put, size};

/// Some of the operations of a log.
#[derive(Drop)]
pub struct Chosen {
    is_chosen: Vec<bool>,
}

impl Chosen {
    /// A choice of all of this number of operations, or of none.
    pub fn new(alloc: Global, operations: u32, is_chosen: bool) -> Result<Chosen, AllocError> {
        Ok(Chosen {
            is_chosen: vec![in alloc; is_chosen; operations as usize]?,
        })
    }

    /// Returns whether the operation is chosen.
    #[inline(always)]
    pub fn has(&self, operation: OperationId) -> bool {
        at(self.is_chosen.as_slice(), operation.number(), false)
    }

    /// Chooses the operation, or takes it out of the choice.
    #[inline(always)]
    pub fn set(&mut self, operation: OperationId, is_chosen: bool) {
        put(self.is_chosen.as_mut_slice(), operation.number(), is_chosen);
    }

    /// Chooses each of the operations, or takes each out of the choice.
    pub fn set_all(&mut self, operations: &[OperationId], is_chosen: bool) {
        for operation in operations {
            self.set(*operation, is_chosen);
        }
    }

    /// The chosen ones of these operations.
    pub fn among(
        &self,
        alloc: Global,
        operations: &[OperationId],
    ) -> Result<Vec<OperationId>, AllocError> {
        let mut chosen = Vec::new(alloc);
        for operation in operations {
            if self.has(*operation) {
                chosen.push(*operation)?;
            }
        }
        Ok(chosen)
    }

    /// All that are chosen, by rising numbers.
    pub fn all(&self, alloc: Global) -> Result<Vec<OperationId>, AllocError> {
        let mut chosen = Vec::new(alloc);
        for operation in OperationId::first(size(self.is_chosen.as_slice())) {
            if self.has(operation) {
                chosen.push(operation)?;
            }
        }
        Ok(chosen)
    }
}

/// A part of a log.
#[derive(Drop)]
pub struct LogPart {
    pub log: NumberedLog,
    /// For each operation of the part its number in the whole.
    pub numbers: Vec<OperationId>,
}

/// The numbers in the part, by those in the whole.
struct Renaming {
    /// `NOBODY` for those that the part does not have.
    operations: Vec<OperationId>,
    /// `LocationId::NONE` for those on which the part has no operation.
    locations: Vec<LocationId>,
    /// The other way round, for locations.
    old_locations: Vec<LocationId>,
    /// Whether some operation of the part writes the location, by its number in the part.
    is_written: Vec<bool>,
}

/// Drops each table in one call. A derived `Drop` would drop each at every exit of a function that owns a renaming, which makes its proof longer.
impl Drop for Renaming {
    fn drop(self) {
        let Renaming {
            operations: _operations,
            locations: _locations,
            old_locations: _old_locations,
            is_written: _is_written,
        } = self;
    }
}

/// The part of these operations, which stand by rising numbers and are those that are chosen. The order is the one that program order and
/// pairs force, before anything else was derived: what follows from reads that the part loses does not hold in it.
pub fn log_part_of(
    alloc: Global,
    order: &GivenOrder<'_>,
    operations: &[OperationId],
    chosen: &Chosen,
    budget: &mut Budget,
) -> Result<LogPart, AllocError> {
    let log = order.log();
    budget.spend(steps_of(order, operations));
    let mut renaming = Renaming {
        operations: vec![in alloc; NOBODY; log.count() as usize]?,
        locations: vec![in alloc; LocationId::NONE; log.locations() as usize]?,
        old_locations: Vec::new(alloc),
        is_written: Vec::new(alloc),
    };
    renaming.number_locations(log, operations)?;
    let mut part = LogPart {
        log: NumberedLog::new(alloc, size(renaming.old_locations.as_slice()))?,
        numbers: Vec::new(alloc),
    };
    part.set_values(order, &renaming, chosen);
    part.add_operations(order, &mut renaming, operations, chosen)?;
    part.rename_origins(&renaming);
    if !log.pairs().is_empty() {
        part.add_pairs(alloc, order, &renaming)?;
    }
    Ok(part)
}

/// The number of steps that it takes to make the part of these operations.
fn steps_of(order: &GivenOrder<'_>, operations: &[OperationId]) -> u64 {
    let log = order.log();
    let mut steps = log.count().saturating_add(log.locations()) as u64;
    for number in operations {
        let span = order.span(*number);
        steps = steps.saturating_add(span).saturating_add(1);
    }
    for location in log.location_ids() {
        let span = order.span(order.final_reader(location));
        steps = steps.saturating_add(span);
    }
    if !log.pairs().is_empty() {
        let kept = size(operations) as u64;
        steps = steps.saturating_add(kept.saturating_mul(log.processes() as u64));
    }
    steps
}

impl Renaming {
    /// Gives a number to each location on which one of the operations works, and notes which are written.
    fn number_locations(
        &mut self,
        log: &NumberedLog,
        operations: &[OperationId],
    ) -> Result<(), AllocError> {
        for number in operations {
            let location = log.operation(*number).location;
            if at(
                self.locations.as_slice(),
                location.number(),
                LocationId::FIRST,
            ) == LocationId::NONE
            {
                let new_number = LocationId::new(size(self.old_locations.as_slice()));
                put(self.locations.as_mut_slice(), location.number(), new_number);
                self.old_locations.push(location)?;
                self.is_written.push(false)?;
            }
            if log.operation(*number).writes {
                let new_number = at(
                    self.locations.as_slice(),
                    location.number(),
                    LocationId::NONE,
                );
                put(self.is_written.as_mut_slice(), new_number.number(), true);
            }
        }
        Ok(())
    }

    /// The number of the operation in the part, or `NOBODY`.
    fn operation(&self, number: OperationId) -> OperationId {
        at(self.operations.as_slice(), number.number(), NOBODY)
    }
}

/// Returns whether all possible sources of the reader are chosen. They stand as intervals of positions in a table of writers, one interval for each process
/// that has some. What reads nothing, as the final value of a location of which the log gives none, has no intervals and would pass: so that is asked first.
pub fn has_all_sources(order: &GivenOrder<'_>, reader: OperationId, chosen: &Chosen) -> bool {
    if !order.sources().is_reader(reader) {
        return false;
    }
    for run in 0..order.sources().intervals(reader) {
        let low = order.sources().low(reader, run);
        for position in low..order.sources().high(reader, run) {
            if !chosen.has(order.writer(position)) {
                return false;
            }
        }
    }
    true
}

/// Returns whether the reading operation still reads.
fn keeps_read(order: &GivenOrder<'_>, number: OperationId, chosen: &Chosen) -> bool {
    match order.log().operation(number).origin {
        NumberedOrigin::Any => has_all_sources(order, number, chosen),
        NumberedOrigin::Initial => true,
        NumberedOrigin::Operation(origin) => chosen.has(origin)
            && order.log().operation(origin).writes,
    }
}

impl LogPart {
    /// Keeps all initial values of the locations, and the final values whose possible last writers are all chosen, where some writer of
    /// the location is.
    fn set_values(&mut self, order: &GivenOrder<'_>, renaming: &Renaming, chosen: &Chosen) {
        let log = order.log();
        for location in LocationId::first(size(renaming.old_locations.as_slice())) {
            let old = at(
                renaming.old_locations.as_slice(),
                location.number(),
                LocationId::FIRST,
            );
            self.log.set_initial(location, log.initial(old));
            if log.last(old).is_some()
                && has_all_sources(order, order.final_reader(old), chosen)
                && at(renaming.is_written.as_slice(), location.number(), false)
            {
                self.log.set_last(location, log.last(old));
            }
        }
    }

    /// Adds what is left of the operations. Processes without any of them are left out, so those of the part have other numbers.
    fn add_operations(
        &mut self,
        order: &GivenOrder<'_>,
        renaming: &mut Renaming,
        operations: &[OperationId],
        chosen: &Chosen,
    ) -> Result<(), AllocError> {
        let log = order.log();
        let mut process = log.operation(at(operations, 0, OperationId::FIRST)).process;
        for number in operations {
            let operation = log.operation(*number);
            if operation.process != process && !self.numbers.is_empty() {
                self.log.end_process()?;
            }
            process = operation.process;
            let reads = operation.reads && keeps_read(order, *number, chosen);
            if reads || operation.writes {
                let new_number = OperationId::new(size(self.numbers.as_slice()));
                put(
                    renaming.operations.as_mut_slice(),
                    number.number(),
                    new_number,
                );
                self.numbers.push(*number)?;
                self.log.add_operation(Operation {
                    location: at(
                        renaming.locations.as_slice(),
                        operation.location.number(),
                        LocationId::FIRST,
                    ),
                    reads,
                    ..operation
                })?;
            }
        }
        self.log.end_process()
    }

    /// Names origins by their numbers in the part.
    fn rename_origins(&mut self, renaming: &Renaming) {
        for number in self.log.operation_ids() {
            let operation = self.log.operation(number);
            if let NumberedOrigin::Operation(origin) = operation.origin {
                let mut changed = NumberedOrigin::Any;
                if operation.reads {
                    changed = NumberedOrigin::Operation(renaming.operation(origin));
                }
                self.log.set_origin(number, changed);
            }
        }
    }

    /// Adds pairs of the nearest operations that are left. What stands before an operation in another process, by the given order, does so up to a place:
    /// the pair is from the last operation up to there that the part has.
    fn add_pairs(
        &mut self,
        alloc: Global,
        order: &GivenOrder<'_>,
        renaming: &Renaming,
    ) -> Result<(), AllocError> {
        let log = order.log();
        let mut nearest = vec![in alloc; NOBODY; log.count() as usize]?;
        let mut last = NOBODY;
        for number in log.operation_ids() {
            if log.operation(number).place == ProcessPlace::FIRST {
                last = NOBODY;
            }
            if renaming.operation(number) != NOBODY {
                last = renaming.operation(number);
            }
            put(nearest.as_mut_slice(), number.number(), last);
        }
        for process in log.process_ids() {
            self.add_pairs_of(order, process, nearest.as_slice())?;
        }
        Ok(())
    }

    /// Adds the pairs whose first operation is of this process.
    fn add_pairs_of(
        &mut self,
        order: &GivenOrder<'_>,
        process: ProcessId,
        nearest: &[OperationId],
    ) -> Result<(), AllocError> {
        let log = order.log();
        let mut last = NOBODY;
        for second in self.log.operation_ids() {
            let old = at(self.numbers.as_slice(), second.number(), OperationId::FIRST);
            if self.log.operation(second).place == ProcessPlace::FIRST {
                last = NOBODY;
            }
            let place = order.before(old, process);
            if place != ProcessPlace::START && log.operation(old).process != process {
                let first = at(nearest, log.number(process, place).number(), NOBODY);
                // A pair to the same first operation, or an earlier one, follows from the pair before.
                if first != NOBODY && (last == NOBODY || first > last) {
                    self.log.add_pair(NumberedPair {
                        first,
                        second,
                        is_timed: false,
                    })?;
                    last = first;
                }
            }
        }
        Ok(())
    }
}

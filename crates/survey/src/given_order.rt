//! The order that program order and the pairs of a log force, before anything else is derived.
//!
//! By it a part of the log keeps a read: each source that this order leaves possible must be in the part.
//!
//! Past the end of a table `at` reads as its last argument, and `put` does nothing; so arithmetic may wrap, and a wrong place makes no fault.

use closed_rows::{ClosedRows, OrderedPairs, PairReason, Sweeps, close_rows};
use numbered_log::{Budget, LocationId, NOBODY, NumberedLog, OperationId, ProcessId, ProcessPlace};
use possible_sources::{HidingAccesses, LossCause, LostPart, SourceIntervals, Time, ValueClasses};
use std::alloc::{AllocError, Global};
use total_tables::{first_place, put};

/// The order, and the possible sources of readers by it.
pub struct GivenOrder<'a> {
    log: &'a NumberedLog,
    classes: ValueClasses,
    sources: SourceIntervals,
    writers: HidingAccesses,
    rows: ClosedRows,
    /// Whether the pairs of the log are cyclic. Then the rows are of no use, and the sources are those of program order.
    is_cyclic: bool,
}

/// Drops each table in one call. A derived `Drop` would drop each at every exit of a function that owns an order, which makes its proof longer.
impl Drop for GivenOrder<'_> {
    fn drop(self) {
        let GivenOrder {
            log: _,
            classes: _classes,
            sources: _sources,
            writers: _writers,
            rows: _rows,
            is_cyclic: _,
        } = self;
    }
}

/// The cause of each loss, which is not looked at.
const BY_THE_ORDER: LossCause = LossCause {
    writer: NOBODY,
    witness: NOBODY,
    time: Time::START,
};

/// For each operation whether it writes.
fn writers_of(alloc: Global, log: &NumberedLog) -> Result<Vec<bool>, AllocError> {
    let mut writes = vec![in alloc; false; log.count() as usize]?;
    for number in log.operation_ids() {
        put(
            writes.as_mut_slice(),
            number.number(),
            log.operation(number).writes,
        );
    }
    Ok(writes)
}

impl<'a> GivenOrder<'a> {
    /// The order of the log. If its pairs are cyclic, the sources are those of program order.
    pub fn new(
        alloc: Global,
        log: &'a NumberedLog,
        budget: &mut Budget,
    ) -> Result<GivenOrder<'a>, AllocError> {
        let readers = log.count().wrapping_add(log.locations()) as u64;
        budget.spend(readers.saturating_mul(log.processes() as u64));
        let classes = ValueClasses::new(alloc, log)?;
        let sources = SourceIntervals::new(alloc, log, &classes)?;
        let writes = writers_of(alloc, log)?;
        let mut order = GivenOrder {
            log,
            classes,
            sources,
            writers: HidingAccesses::new(alloc, log, writes.as_slice())?,
            rows: ClosedRows::new(alloc, log)?,
            is_cyclic: false,
        };
        if !log.pairs().is_empty() {
            budget.spend(
                readers
                    .saturating_mul(log.processes() as u64)
                    .saturating_mul(32),
            );
            order.close(alloc)?;
        }
        Ok(order)
    }

    /// Makes the rows of the log's pairs, and takes from readers the sources that are not possible by them.
    fn close(&mut self, alloc: Global) -> Result<(), AllocError> {
        let log = self.log;
        let mut pairs = OrderedPairs::new(alloc, log.count())?;
        for pair in log.pairs() {
            pairs.add(pair.first, pair.second, PairReason::Given, (Time::START, 0))?;
        }
        if close_rows(alloc, log, &pairs, &mut self.rows)? == Sweeps::Cyclic {
            self.is_cyclic = true;
            return Ok(());
        }
        for reader in log.operation_ids() {
            for run in 0..self.sources.intervals(reader) {
                self.narrow(reader, run)?;
            }
        }
        for location in log.location_ids() {
            self.narrow_last(location)?;
        }
        Ok(())
    }

    /// Takes from the interval the writers that are hidden from the reader or stand after it.
    fn narrow(&mut self, reader: OperationId, run: u32) -> Result<(), AllocError> {
        let low = self.sources.low(reader, run);
        let high = self.sources.high(reader, run);
        let first = self.first_visible(reader, low, high);
        if first > low {
            let hidden = LostPart::Before(first);
            self.sources.narrow(reader, run, hidden, BY_THE_ORDER)?;
        }
        let end = self.first_late(reader, first, high);
        if end < high {
            let late = LostPart::From(end);
            self.sources.narrow(reader, run, late, BY_THE_ORDER)?;
        }
        Ok(())
    }

    /// The first position of a run, from one up to another, whose writer is not hidden from the reader. What hides a writer hides those before it in its
    /// process.
    fn first_visible(&self, reader: OperationId, begin: u32, end: u32) -> u32 {
        first_place(begin, end, |position| {
            self.hider(self.classes.writer(position), reader).is_none()
        })
    }

    /// The first position of a run, from one up to another, whose writer stands after the reader. Those behind it stand after the reader too.
    fn first_late(&self, reader: OperationId, begin: u32, end: u32) -> u32 {
        first_place(begin, end, |position| {
            self.stands_before(reader, self.classes.writer(position))
        })
    }

    /// Takes from the final value of the location the writers that another one stands after.
    fn narrow_last(&mut self, location: LocationId) -> Result<(), AllocError> {
        let reader = self.final_reader(location);
        for run in 0..self.sources.intervals(reader) {
            let low = self.sources.low(reader, run);
            let writer = self.classes.writer(low);
            if low < self.sources.high(reader, run)
                && self.later_writer(location, writer).is_some()
            {
                // An interval of a final value has one writer, the last of its process, so this empties it.
                let hidden = LostPart::Before(low.wrapping_add(1));
                self.sources.narrow(reader, run, hidden, BY_THE_ORDER)?;
            }
        }
        Ok(())
    }

    /// The log.
    pub fn log(&self) -> &'a NumberedLog {
        self.log
    }

    /// The possible sources, as intervals of positions.
    pub fn sources(&self) -> &SourceIntervals {
        &self.sources
    }

    /// The writer at this position.
    pub fn writer(&self, position: u32) -> OperationId {
        self.classes.writer(position)
    }

    /// The number of writers that a look at the sources of the reader goes over.
    pub fn span(&self, reader: OperationId) -> u64 {
        let mut span: u64 = 0;
        for run in 0..self.sources.intervals(reader) {
            let low = self.sources.low(reader, run);
            let width = self.sources.high(reader, run).saturating_sub(low);
            span = span.wrapping_add(width as u64).wrapping_add(1);
        }
        span
    }

    /// Returns whether the pairs of the log are cyclic.
    pub fn is_cyclic(&self) -> bool {
        self.is_cyclic
    }

    /// Returns whether the first operation stands before the second.
    #[inline(always)]
    pub fn stands_before(&self, first: OperationId, second: OperationId) -> bool {
        self.rows.stands_before(self.log, first, second)
    }

    /// The place of the process's first operation that stands after this one. If there is none, it is the place behind its last one.
    #[inline(always)]
    pub fn after(&self, number: OperationId, process: ProcessId) -> ProcessPlace {
        self.rows.after(number, process)
    }

    /// The place of the process's last operation that stands before this one, or `START`.
    #[inline(always)]
    pub fn before(&self, number: OperationId, process: ProcessId) -> ProcessPlace {
        self.rows.before(number, process)
    }

    /// The place of the process's first writer of the location from this place on, or one behind all.
    #[inline(always)]
    pub fn next_writer(
        &self,
        process: ProcessId,
        location: LocationId,
        place: ProcessPlace,
    ) -> ProcessPlace {
        self.writers.next_of_any(process, location, place)
    }

    /// The number of the final value of the location among the readers: it counts as one, numbered behind all operations, and its possible sources are the
    /// possible last writers of the location.
    pub fn final_reader(&self, location: LocationId) -> OperationId {
        self.log.final_reader(location)
    }

    /// A writer of the reader's location that stands between the two operations. The reader must be an operation, since its location is looked up: for
    /// a final value there is `later_writer`.
    pub fn hider(&self, source: OperationId, reader: OperationId) -> Option<OperationId> {
        let location = self.log.operation(reader).location;
        for process in self.log.process_ids() {
            let from = self.after(source, process);
            let to = self.before(reader, process);
            if from <= to {
                let place = self.next_writer(process, location, from);
                if place <= to {
                    return Some(self.log.number(process, place));
                }
            }
        }
        None
    }

    /// A writer of the location that stands after this operation.
    pub fn later_writer(&self, location: LocationId, source: OperationId) -> Option<OperationId> {
        for process in self.log.process_ids() {
            let from = self.after(source, process);
            let place = self.next_writer(process, location, from);
            if place <= self.log.last_place(process) {
                return Some(self.log.number(process, place));
            }
        }
        None
    }
}

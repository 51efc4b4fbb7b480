//! What a reader says of the order.
//!
//! Places of a process count from 1; `START` is before all of them and `FAR` behind. `rows.before(o, p)` is the place of the last operation of p that
//! stands before o, or `START`, and `rows.after(o, p)` that of the first one that stands after it, or the place behind the last of p.
//!
//! `accesses.next` gives the place of a process's first access of a location, from a place on, that is no plain read of a value, and `accesses.previous` that
//! of the last one up to a place. Both pass over plain reads that had one source from the start, as what these say follows from that source. A pair with this
//! access is enough: by program order it holds for those behind it, or before it, too.

use crate::conflict::{Conflict, Stop};
use crate::propagation::Propagation;
use closed_rows::{PairReason, RowKind};
use numbered_log::{LocationId, NOBODY, OperationId, ProcessId, ProcessPlace};
use possible_sources::{HidingQuery, LostPart};
use std::alloc::AllocError;
use total_tables::{at, put};

impl<'a> Propagation<'a> {
    /// Derives what follows from the reader.
    pub(crate) fn look_at(&mut self, reader: OperationId) -> Result<(), Stop> {
        self.budget
            .spend((self.rows.width() as u64).wrapping_mul(8));
        if self.log.is_final(reader) {
            return self.look_at_final(reader);
        }
        // If an only source is hidden or comes too late, what follows of it closes a cycle, so it is not looked for here.
        if self.sources.count(reader) != 1 {
            self.narrow(reader)?;
        }
        match self.only_source(reader) {
            Some(NOBODY) => self.follow_initial(reader),
            Some(source) => self.follow_source(reader, source),
            None => {
                self.find_common(reader);
                self.add_common(reader)
            }
        }
    }

    /// The reader reads the initial value, so all accesses that are no read of it stand after the reader.
    fn follow_initial(&mut self, reader: OperationId) -> Result<(), Stop> {
        let operation = self.log.operation(reader);
        for process in ProcessId::first(self.rows.width()) {
            let query = HidingQuery::of_read(process, operation);
            let place = self.accesses.next(query, ProcessPlace::FIRST);
            self.add_behind(reader, process, place)?;
        }
        Ok(())
    }

    /// The reader reads this source: the source stands before it, and each access that is no read of its value stands before the source or
    /// after the reader.
    fn follow_source(&mut self, reader: OperationId, source: OperationId) -> Result<(), Stop> {
        if !self.stands_before(source, reader) {
            self.add(source, reader, PairReason::BeforeReader(reader))?;
        }
        let operation = self.log.operation(reader);
        for process in ProcessId::first(self.rows.width()) {
            let from = self.rows.after(source, process);
            if from < self.rows.after(reader, process) {
                let query = HidingQuery::of_read(process, operation);
                let place = self.accesses.next(query, from);
                self.add_behind(reader, process, place)?;
            }
        }
        self.follow_back(reader, source)
    }

    /// Adds that what stands before the reader and is not its source stands before the source.
    fn follow_back(&mut self, reader: OperationId, source: OperationId) -> Result<(), Stop> {
        let operation = self.log.operation(reader);
        let writer = self.log.operation(source);
        for process in ProcessId::first(self.rows.width()) {
            let known = self.rows.nearest(RowKind::Before, source, writer, process);
            let place = self.rows.before(reader, process);
            if place > known {
                let query = HidingQuery::of_read(process, operation);
                let found = self.accesses.previous(query, place);
                if found > known {
                    let access = self.log.number(process, found);
                    if access != source && !self.stands_before(access, source) {
                        self.add(access, source, PairReason::BeforeSource(reader))?;
                    }
                }
            }
        }
        Ok(())
    }

    /// Adds that the process's operation at this place stands after the reader, unless it is the reader, there is none, or the rows say so.
    ///
    /// The analysis of a conflict asks of such a pair again what each source of the reader says of it, so the reader alone is noted as its reason. A
    /// pair that is left out here costs the search something, and makes no answer wrong.
    fn add_behind(
        &mut self,
        reader: OperationId,
        process: ProcessId,
        place: ProcessPlace,
    ) -> Result<(), Stop> {
        if place >= self.rows.after(reader, process) || place > self.log.last_place(process) {
            return Ok(());
        }
        let other = self.log.number(process, place);
        if other == reader {
            return Ok(());
        }
        self.add(reader, other, PairReason::AfterReader(reader))
    }

    /// Finds for each process up to where all stands before each source of the reader, and from where all stands after each of them.
    fn find_common(&mut self, reader: OperationId) {
        let has_initial = self.sources.has_initial(reader);
        for process in ProcessId::first(self.rows.width()) {
            // This is for no source: each run of sources then lowers the one and raises the other.
            let mut low = ProcessPlace::FAR;
            let mut high = ProcessPlace::START;
            if has_initial {
                // Nothing stands before the initial value, and each operation after it.
                low = ProcessPlace::START;
                high = ProcessPlace::FIRST;
            }
            put(self.lows.as_mut_slice(), process.number(), low);
            put(self.highs.as_mut_slice(), process.number(), high);
        }
        for run in 0..self.sources.intervals(reader) {
            let low = self.sources.low(reader, run);
            let high = self.sources.high(reader, run);
            if low < high {
                let first = self.classes.writer(low);
                let last = self.classes.writer(high.wrapping_sub(1));
                self.widen(first, last);
            }
        }
    }

    /// The place of the process up to which all stands before each source.
    #[inline(always)]
    fn common_low(&self, process: ProcessId) -> ProcessPlace {
        at(self.lows.as_slice(), process.number(), ProcessPlace::START)
    }

    /// The place of the process from which on all stands after each source.
    #[inline(always)]
    fn common_high(&self, process: ProcessId) -> ProcessPlace {
        at(self.highs.as_slice(), process.number(), ProcessPlace::FAR)
    }

    /// Takes a run of sources, from the first to the last, to what `find_common` finds. All stands before the run that stands before its
    /// first one, and after it what stands after its last one.
    #[inline(always)]
    fn widen(&mut self, first: OperationId, last: OperationId) {
        let earliest = self.log.operation(first);
        for process in ProcessId::first(self.rows.width()) {
            let mut before = self.rows.before(first, process);
            if process == earliest.process {
                before = earliest.place;
            }
            if before < self.common_low(process) {
                put(self.lows.as_mut_slice(), process.number(), before);
            }
            let after = self.rows.after(last, process);
            if after > self.common_high(process) {
                put(self.highs.as_mut_slice(), process.number(), after);
            }
        }
        self.budget.spend(self.rows.width() as u64);
    }

    /// Adds that what stands before all sources stands before the reader, and that what stands after all and is no read of its value stands
    /// after it.
    fn add_common(&mut self, reader: OperationId) -> Result<(), Stop> {
        let operation = self.log.operation(reader);
        for process in ProcessId::first(self.rows.width()) {
            let low = self.common_low(process);
            if low != ProcessPlace::FAR && low > self.rows.before(reader, process) {
                let earlier = self.log.number(process, low);
                if earlier != reader {
                    self.add(earlier, reader, PairReason::BeforeReader(reader))?;
                }
            }
            let high = self.common_high(process);
            if high < self.rows.after(reader, process) {
                let query = HidingQuery::of_read(process, operation);
                let place = self.accesses.next(query, high);
                self.add_behind(reader, process, place)?;
            }
        }
        Ok(())
    }

    /// Takes from a final value the last writers that something else of the location stands after, and if one is left, adds that all else
    /// stands before it.
    fn look_at_final(&mut self, reader: OperationId) -> Result<(), Stop> {
        let location = self.log.final_location(reader);
        self.find_last_accesses(location)?;
        let mut count: u32 = 0;
        let mut only = NOBODY;
        for run in 0..self.sources.intervals(reader) {
            let low = self.sources.low(reader, run);
            if low < self.sources.high(reader, run) {
                let writer = self.classes.writer(low);
                let witness = self.last_access_after(writer);
                if witness == NOBODY {
                    count = count.wrapping_add(1);
                    only = writer;
                } else {
                    let cause = self.cause_of(writer, witness);
                    let hidden = LostPart::Before(low.wrapping_add(1));
                    self.sources.narrow(reader, run, hidden, cause)?;
                }
            }
        }
        if self.sources.has_initial(reader) {
            count = count.wrapping_add(1);
            only = NOBODY;
        }
        self.sources.set_count(reader, count);
        if count == 0 {
            self.conflict = Conflict::NoSource(reader);
            return Err(Stop::Conflict);
        }
        if count == 1 && only != NOBODY {
            return self.put_last(reader, only);
        }
        Ok(())
    }

    /// Finds for each process its last access of the location that is no read of the final value.
    fn find_last_accesses(&mut self, location: LocationId) -> Result<(), AllocError> {
        self.hiders.clear();
        let Some(value) = self.log.last(location) else {
            return Ok(());
        };
        for process in ProcessId::first(self.rows.width()) {
            let last = self.log.last_place(process);
            let query = HidingQuery::new(process, location, value);
            let place = self.accesses.previous(query, last);
            if place != ProcessPlace::START {
                let access = self.log.number(process, place);
                self.hiders.push(access)?;
            }
        }
        Ok(())
    }

    /// One of the last accesses that stands after the writer, or `NOBODY`.
    fn last_access_after(&self, writer: OperationId) -> OperationId {
        for access in self.hiders.as_slice() {
            if *access != writer && self.stands_before(writer, *access) {
                return *access;
            }
        }
        NOBODY
    }

    /// Adds that each of the last accesses stands before the only last writer.
    fn put_last(&mut self, reader: OperationId, writer: OperationId) -> Result<(), Stop> {
        for number in 0..self.hiders.len() {
            let access = at(
                self.hiders.as_slice(),
                (number & 0xffff_ffff) as u32,
                writer,
            );
            if access != writer && !self.stands_before(access, writer) {
                self.add(access, writer, PairReason::BeforeLast(reader))?;
            }
        }
        Ok(())
    }
}

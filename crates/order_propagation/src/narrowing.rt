//! The loss of sources that have become impossible.
//!
//! Places of a process count from 1; `START` is before all of them and `FAR` behind. `rows.before(o, p)` is the place of the last operation of p that
//! stands before o, or `START`, and `rows.after(o, p)` that of the first one that stands after it, or the place behind the last of p.
//!
//! Writers are sorted by their class, which is a location and a value, then by process and place. A position is a place in this table, from 0; a run is
//! what one process has of a class. A reader has an interval of positions for each run of its class, numbered from 0, whose upper end is excluded.

use crate::conflict::{Conflict, Stop};
use crate::propagation::Propagation;
use numbered_log::{NOBODY, OperationId, ProcessId, ProcessPlace};
use possible_sources::{HidingQuery, LossCause, LostPart};
use std::alloc::AllocError;
use total_tables::{at, first_place};

impl<'a> Propagation<'a> {
    /// Takes from the reading operation the sources that are hidden or stand after it. The count is set at the end, since each loss notes the count
    /// before it.
    pub(crate) fn narrow(&mut self, reader: OperationId) -> Result<(), Stop> {
        self.find_hiders(reader)?;
        let mut count: u32 = 0;
        for run in 0..self.sources.intervals(reader) {
            count = count.wrapping_add(self.narrow_interval(reader, run)?);
        }
        if self.sources.has_initial(reader) {
            // The initial value stands before all accesses, so any hider hides it.
            let hider = at(self.hiders.as_slice(), 0, NOBODY);
            if hider == NOBODY {
                count = count.wrapping_add(1);
            } else {
                let cause = self.cause_of(NOBODY, hider);
                self.sources.hide_initial(reader, cause)?;
            }
        }
        self.sources.set_count(reader, count);
        if count == 0 {
            self.conflict = Conflict::NoSource(reader);
            return Err(Stop::Conflict);
        }
        Ok(())
    }

    /// Finds for each process its last access of the reader's location that stands before the reader and is no read of its value: what
    /// stands before that access is hidden. One of each process is enough, since an earlier one hides nothing more.
    fn find_hiders(&mut self, reader: OperationId) -> Result<(), AllocError> {
        let operation = self.log.operation(reader);
        self.hiders.clear();
        for process in ProcessId::first(self.rows.width()) {
            let place = self.rows.before(reader, process);
            if place != ProcessPlace::START {
                let query = HidingQuery::of_read(process, operation);
                let found = self.accesses.previous(query, place);
                if found != ProcessPlace::START {
                    let hider = self.log.number(process, found);
                    self.hiders.push(hider)?;
                }
            }
        }
        self.budget
            .spend((self.rows.width() as u64).wrapping_mul(8));
        Ok(())
    }

    /// Narrows the reader's interval of this number, counted from 0, and returns how many sources are left in it. Its ends are positions among the
    /// writers of `classes`, and the upper one is behind its last source.
    fn narrow_interval(&mut self, reader: OperationId, run: u32) -> Result<u32, AllocError> {
        let mut low = self.sources.low(reader, run);
        let mut high = self.sources.high(reader, run);
        if low >= high {
            return Ok(0);
        }
        let process = self.sources.process(&self.classes, reader, run);
        let (floor, witness) = self.hidden_up_to(process);
        if self.place_at(low) <= floor {
            low = self.first_behind(low, high, floor);
            let writer = self.classes.writer(low.wrapping_sub(1));
            let cause = self.cause_of(writer, witness);
            self.sources
                .narrow(reader, run, LostPart::Before(low), cause)?;
        }
        let ceiling = self.rows.after(reader, process);
        if low < high && self.place_at(high.wrapping_sub(1)) >= ceiling {
            high = self.first_behind(low, high, ceiling.previous());
            let writer = self.classes.writer(high);
            let cause = self.cause_of(writer, reader);
            self.sources
                .narrow(reader, run, LostPart::From(high), cause)?;
        }
        Ok(high.saturating_sub(low))
    }

    /// The cause of a loss, at a new time: an explanation of the loss takes only what has earlier ones.
    pub(crate) fn cause_of(&mut self, writer: OperationId, witness: OperationId) -> LossCause {
        self.now = self.now.next();
        LossCause {
            writer,
            witness,
            time: self.now,
        }
    }

    /// The place in the process up to which all stands before one of the hiders, and that hider; `START` and `NOBODY` if there is none. A hider does
    /// not hide itself: it may be a writer of the value.
    fn hidden_up_to(&mut self, process: ProcessId) -> (ProcessPlace, OperationId) {
        let mut floor = ProcessPlace::START;
        let mut witness = NOBODY;
        for hider in self.hiders.as_slice() {
            let place = self.rows.before(*hider, process);
            if place > floor {
                floor = place;
                witness = *hider;
            }
        }
        self.budget
            .spend((self.hiders.len() as u64).saturating_add(8));
        (floor, witness)
    }

    /// The place of the writer at this position.
    #[inline(always)]
    fn place_at(&self, position: u32) -> ProcessPlace {
        self.log.operation(self.classes.writer(position)).place
    }

    /// The first position, from one up to another of a run, whose writer stands behind this place, or the end.
    fn first_behind(&self, begin: u32, end: u32, place: ProcessPlace) -> u32 {
        first_place(begin, end, |position| self.place_at(position) > place)
    }
}

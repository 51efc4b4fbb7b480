//! Which readers a changed row may say something new to.
//!
//! Writers are sorted by their class, which is a location and a value, then by process and place. A position is a place in this table, from 0; a run is
//! what one process has of a class. A reader has an interval of positions for each run of its class, numbered from 0, whose upper end is excluded.

use crate::propagation::Propagation;
use numbered_log::{NOBODY, Operation, OperationId, ProcessId};
use total_tables::{at, first_place};

/// The number of readers of a class up to which all are looked at. Among more it is sooner to look for those that are concerned, by halves.
const FEW_READERS: u32 = 24;

/// The steps that looks at this number of entries of a table cost.
#[inline(always)]
pub(crate) fn cost_of(entries: u32) -> u64 {
    (entries as u64).wrapping_mul(4)
}

impl<'a> Propagation<'a> {
    /// Has no other reading operation be looked at than those of which that is wanted, by number. It is called when nothing waits, and holds until
    /// the next round.
    pub fn look_only_at(&mut self, is_wanted: &[bool]) {
        for number in self.log.operation_ids() {
            if !at(is_wanted, number.number(), true) {
                self.agenda.let_sleep(number);
            }
        }
    }

    /// Has those of these operations wait that read, unless they are never looked at: what wakes a reader may be missed.
    pub fn look_again_at(&mut self, operations: &[OperationId]) {
        for operation in operations {
            if self.log.operation(*operation).reads {
                self.agenda.add(*operation);
            }
        }
    }

    /// Wakes the readers to which it may be news that more stands before the operation: itself, if it reads, and those that may read from it.
    #[inline(always)]
    pub(crate) fn wake_raised(
        &mut self,
        number: OperationId,
        operation: Operation,
        has_news: bool,
    ) {
        if self.is_out_of_reach(operation) {
            return;
        }
        if operation.reads && has_news {
            self.agenda.add(number);
        }
        if operation.writes && at(self.is_open_source.as_slice(), number.number(), false) {
            self.wake_readers(number, false);
        }
    }

    /// Wakes the readers to which it may be news that more stands after the operation: the same, and the final value of its location.
    #[inline(always)]
    pub(crate) fn wake_lowered(
        &mut self,
        number: OperationId,
        operation: Operation,
        has_news: bool,
    ) {
        if self.is_out_of_reach(operation) {
            return;
        }
        if operation.reads && self.sources.has_several(number) {
            self.agenda.add(number);
        }
        if operation.writes
            && (has_news || at(self.is_open_source.as_slice(), number.number(), false))
        {
            self.wake_readers(number, has_news);
        }
        if at(self.is_near_end.as_slice(), number.number(), false) {
            let reader = self.final_reader(operation.location);
            if self.sources.is_reader(reader) {
                self.agenda.add(reader);
            }
        }
    }

    /// Wakes the readers that have the writer at an end of their interval, all of them or those of several sources: what lies within an
    /// interval says nothing.
    pub(crate) fn wake_readers(&mut self, writer: OperationId, all: bool) {
        let class = self.classes.class_of(writer);
        let begin = self.readers.begin(class);
        let end = self.readers.end(class);
        if end.saturating_sub(begin) <= FEW_READERS {
            for position in begin..end {
                self.wake_at(position, writer, all);
            }
            self.budget.spend(cost_of(end.saturating_sub(begin)));
            return;
        }
        if self.is_reaching() {
            return self.wake_in_reach(writer, (begin, end), all);
        }
        let mut position = begin;
        for _ in 0..self.log.processes() {
            if position >= end {
                break;
            }
            let process = self.log.operation(self.readers.reader(position)).process;
            let next = self.log.start(process.next());
            let behind = self.readers.first_from(position, end, next);
            self.wake_of_process(writer, process, (position, behind), all);
            position = behind;
        }
    }

    /// Wakes such readers of one process. As rows rise along a process, they are two runs: those of which the writer is the last source,
    /// and those of which it is the first.
    fn wake_of_process(
        &mut self,
        writer: OperationId,
        process: ProcessId,
        positions: (u32, u32),
        all: bool,
    ) {
        let (begin, end) = positions;
        let place = self.rows.before(writer, process);
        let first = self.log.number(process, place.next());
        let mut position = self.readers.first_from(begin, end, first);
        let own = self.classes.position_of(writer);
        self.budget.spend(24);
        for _ in position..end {
            let (low, high) = self.ends_at(position, writer);
            // An interval that has the writer at neither end ends the first run. An empty one does so only if it begins behind the writer.
            if low > own || (low < high && high.wrapping_sub(1) != own && low != own) {
                break;
            }
            self.wake_at(position, writer, all);
            self.budget.spend(4);
            position = position.wrapping_add(1);
        }
        if position < end && self.ends_at(position, writer).0 <= own {
            position = self.first_low(position, end, writer, own);
            for _ in position..end {
                if self.ends_at(position, writer).0 != own {
                    break;
                }
                self.wake_at(position, writer, all);
                self.budget.spend(4);
                position = position.wrapping_add(1);
            }
        }
    }

    /// The first position, from one up to another, whose reader has no source before the writer in its run, or the end. `own` is the position of the
    /// writer.
    fn first_low(&self, begin: u32, end: u32, writer: OperationId, own: u32) -> u32 {
        first_place(begin, end, |position| {
            self.ends_at(position, writer).0 >= own
        })
    }

    /// The ends of the interval in which the writer may stand, of the reader at this position. The upper one is behind its last source.
    #[inline(always)]
    fn ends_at(&self, position: u32, writer: OperationId) -> (u32, u32) {
        let reader = self.readers.reader(position);
        let class = self.classes.class_of(writer);
        let run = self
            .classes
            .run_of(writer)
            .wrapping_sub(self.classes.first_run(class));
        (
            self.sources.low(reader, run),
            self.sources.high(reader, run),
        )
    }

    /// Wakes the reader at this position if the writer is at an end of its interval.
    #[inline(always)]
    pub(crate) fn wake_at(&mut self, position: u32, writer: OperationId, all: bool) {
        let reader = self.readers.reader(position);
        if reader == NOBODY || !(all || self.sources.has_several(reader)) {
            return;
        }
        let (low, high) = self.ends_at(position, writer);
        let own = self.classes.position_of(writer);
        if low < high && (low == own || high.wrapping_sub(1) == own) {
            self.wake(reader);
        }
    }
}

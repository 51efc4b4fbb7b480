//! Readers that are too far from what a walk places next to be looked at.
//!
//! Places of a process count from 1; `START` is before all of them and `FAR` behind. `rows.before(o, p)` is the place of the last operation of p that
//! stands before o, or `START`, and `rows.after(o, p)` that of the first one that stands after it, or the place behind the last of p.

use crate::propagation::Propagation;
use closed_rows::{RowEntry, RowKind};
use numbered_log::{Fronts, Operation, OperationId, ProcessId, ProcessPlace};
use std::alloc::{AllocError, Global};

/// The next operation of each process, and how far from it readers are looked at while decisions stand. What lies far ahead
/// says little of what comes next, and most decisions are taken back before it does.
#[derive(Drop)]
pub(crate) struct Reach {
    fronts: Fronts,
    /// A number of places; 0 if all are in reach.
    width: u32,
}

impl Reach {
    /// All is in reach, of this number of processes.
    pub(crate) fn new(alloc: Global, processes: u32) -> Result<Reach, AllocError> {
        Ok(Reach {
            fronts: Fronts::new(alloc, processes)?,
            width: 0,
        })
    }

    /// The process's last place in reach.
    #[inline(always)]
    fn last(&self, process: ProcessId) -> ProcessPlace {
        self.fronts.of(process).ahead(self.width)
    }

    /// Returns whether the operation lies behind the last place in reach.
    #[inline(always)]
    fn is_ahead(&self, operation: Operation) -> bool {
        operation.place > self.last(operation.process)
    }

    /// Returns whether the operation lies further before its front than the reach is wide.
    #[inline(always)]
    fn is_behind(&self, operation: Operation) -> bool {
        operation.place.ahead(self.width) < self.fronts.of(operation.process)
    }
}

impl<'a> Propagation<'a> {
    /// Has readers be looked at while decisions stand only this number of places from the fronts, which are at the first operations; or all of
    /// them, if it is 0.
    pub fn set_reach(&mut self, width: u32) {
        self.reach.width = width;
        for process in self.log.process_ids() {
            self.reach.fronts.set(process, ProcessPlace::FIRST);
        }
    }

    /// Sets the place of the process's next operation.
    pub fn set_front(&mut self, process: ProcessId, place: ProcessPlace) {
        self.reach.fronts.set(process, place);
    }

    /// Sets the place of the process's next operation, one further on. What comes into reach is looked at.
    pub fn move_front(
        &mut self,
        process: ProcessId,
        place: ProcessPlace,
    ) -> Result<(), AllocError> {
        self.set_front(process, place);
        let last = self.reach.last(process);
        if self.reach.width == 0 || last > self.log.last_place(process) {
            return Ok(());
        }
        let number = self.log.number(process, last);
        let operation = self.log.operation(number);
        // While it was out of reach its row was left as it was. That of the one before it is complete.
        if last > ProcessPlace::FIRST {
            self.raise_to_earlier(number, number.previous())?;
        }
        if operation.reads {
            self.agenda.add(number);
        }
        if operation.writes {
            self.wake_readers(number, true);
        }
        Ok(())
    }

    /// Raises the row of what stands before the operation to that of one before it in its process.
    fn raise_to_earlier(
        &mut self,
        number: OperationId,
        earlier: OperationId,
    ) -> Result<(), AllocError> {
        let own = self.log.operation(number).process;
        for process in ProcessId::first(self.rows.width()) {
            let place = self.rows.before(earlier, process);
            if process != own && place > self.rows.before(number, process) {
                self.rows
                    .change(RowKind::Before, number, RowEntry { process, place })?;
            }
        }
        self.budget.spend(self.rows.width() as u64);
        Ok(())
    }

    /// Raises the row of what stands before the operation, if it is too far ahead of the front, to that of the last one in reach.
    #[inline(always)]
    pub(crate) fn catch_up(&mut self, number: OperationId) -> Result<(), AllocError> {
        let operation = self.log.operation(number);
        if self.is_reaching() && self.reach.is_ahead(operation) {
            let last = self.reach.last(operation.process);
            let earlier = self.log.number(operation.process, last);
            return self.raise_to_earlier(number, earlier);
        }
        Ok(())
    }

    /// The place behind the process's last operation in reach, or behind this place, if that is later; behind all if no decision stands.
    #[inline(always)]
    pub(crate) fn end_of_reach(&self, process: ProcessId, place: ProcessPlace) -> ProcessPlace {
        let end = self.log.end(process);
        if !self.is_reaching() {
            return end;
        }
        end.earlier(self.reach.last(process).later(place).ahead(1))
    }

    /// Wakes the readers in reach that have the writer at an end of their interval, of these positions of its class: all of them, or those alone that have
    /// several sources. Readers of a class stand by their numbers, and so by processes, so those of a process in reach are found by one search. To wake a
    /// reader is to have it looked at again: one that is left out makes what follows weaker, and nothing wrong.
    pub(crate) fn wake_in_reach(&mut self, writer: OperationId, positions: (u32, u32), all: bool) {
        let (begin, end) = positions;
        let mut position = begin;
        for process in self.log.process_ids() {
            let first = self.log.number(process, self.reach.fronts.of(process));
            let last = self
                .log
                .number(process, self.end_of_reach(process, ProcessPlace::START));
            position = self.readers.first_from(position, end, first);
            for _ in position..end {
                if self.readers.reader(position) >= last {
                    break;
                }
                self.wake_at(position, writer, all);
                self.budget.spend(4);
                position = position.wrapping_add(1);
            }
        }
        self.budget
            .spend((self.log.processes() as u64).wrapping_mul(8));
    }

    /// Has all readers in reach wait, from the fronts on up to this number of places. Walks call it when they have learned from a conflict, since
    /// `forget_waiting` and `set_front` leave readers without a look; and for the next operations alone, if none of them can come.
    pub fn wake_from_fronts(&mut self, places: u32) {
        for process in self.log.process_ids() {
            let front = self.reach.fronts.of(process);
            let end = self.log.end(process);
            for place in front.up_to(end.earlier(front.ahead(places))) {
                let number = self.log.number(process, place);
                if self.log.operation(number).reads {
                    self.agenda.add(number);
                }
            }
        }
    }

    /// Number of places ahead of its front up to which readers of a process are looked at while decisions stand.
    pub fn reach(&self) -> u32 {
        self.reach.width
    }

    /// Returns whether the walk looks only at what is in reach.
    #[inline(always)]
    pub(crate) fn is_reaching(&self) -> bool {
        self.reach.width != 0 && self.decisions() != 0
    }

    /// Returns whether readers wait for a look. Those of a round do not count: when `propagate` has ended, all of them have had their turn.
    pub fn has_waiting(&self) -> bool {
        self.agenda.has_waiting()
    }

    /// Returns whether the operation is too far from the front for a look.
    #[inline(always)]
    pub(crate) fn is_out_of_reach(&self, operation: Operation) -> bool {
        self.is_reaching() && (self.reach.is_ahead(operation) || self.reach.is_behind(operation))
    }

    /// Has the reading operation wait, unless it is too far ahead of the front.
    #[inline(always)]
    pub(crate) fn wake(&mut self, reader: OperationId) {
        if self.is_reaching() && self.reach.is_ahead(self.log.operation(reader)) {
            return;
        }
        self.agenda.add(reader);
    }
}

//! A state, and what can come next in it.
//!
//! Past the end of a table `at` reads as its last argument, and `put` does nothing; so arithmetic may wrap, and a wrong place makes no fault.

use crate::classed_log::ClassedLog;
use crate::ways::Ways;
use closed_rows::ClosedRows;
use numbered_log::{Fronts, LocationId, LocationIds, NOBODY, OperationId, ProcessId, ProcessIds};
use possible_sources::ClassId;
use std::alloc::{AllocError, Global};
use total_tables::{at, put, size};

/// The gain of each plain read, and of each update, that is placed. All gains and costs are in units of worth, of which twice as many ways have 14
/// (`ways.rt`).
const READ: i64 = 14;

const UPDATE: i64 = 14;

/// What is placed of each process, and what each location holds.
pub(crate) struct State {
    /// The place of a process of which all is placed is the one behind its last.
    pub(crate) fronts: Fronts,
    /// For each location the class of what it holds. `ClassId::NONE` is what is held before the first write if the initial value is not known; no reader
    /// fits it.
    pub(crate) held: Vec<ClassId>,
    /// What was gained by the operations that are placed, less what their order has cost.
    pub(crate) gain: i64,
    pub(crate) ways: Ways,
    /// The operations that were placed, in their order, if they are kept. Layers do not have them, so a state that is loaded from one keeps what stands
    /// here. They are kept only while a schedule is read off.
    placed: Vec<OperationId>,
    keeps_placed: bool,
}

/// Drops each table in one call. A derived `Drop` would drop each at every exit of a function that owns a state, which makes its proof longer.
impl Drop for State {
    fn drop(self) {
        let State {
            fronts: _fronts,
            held: _held,
            gain: _,
            ways: _,
            placed: _placed,
            keeps_placed: _,
        } = self;
    }
}

impl State {
    /// The state in which nothing is placed.
    pub(crate) fn new(
        alloc: Global,
        log: &ClassedLog,
        processes: u32,
    ) -> Result<State, AllocError> {
        Ok(State {
            fronts: Fronts::new(alloc, processes)?,
            held: Vec::from_slice(alloc, log.initial())?,
            gain: 0,
            ways: Ways::FIRST,
            placed: Vec::new(alloc),
            keeps_placed: false,
        })
    }

    /// The operations that were placed and kept, in their order.
    pub(crate) fn placed(&self) -> &[OperationId] {
        self.placed.as_slice()
    }

    /// Keeps the operations that are placed from now on.
    pub(crate) fn keep_placed(&mut self) {
        self.keeps_placed = true;
    }

    /// All processes, by rising numbers.
    #[inline(always)]
    pub(crate) fn process_ids(&self) -> ProcessIds {
        ProcessId::first(self.processes())
    }

    /// All locations, by rising numbers.
    #[inline(always)]
    pub(crate) fn location_ids(&self) -> LocationIds {
        LocationId::first(size(self.held.as_slice()))
    }

    #[inline(always)]
    pub(crate) fn processes(&self) -> u32 {
        size(self.fronts.places())
    }

    /// The class of what the location holds.
    #[inline(always)]
    pub(crate) fn held(&self, location: LocationId) -> ClassId {
        at(self.held.as_slice(), location.number(), ClassId::NONE)
    }

    /// The process's next operation, or `NOBODY` if all are placed.
    #[inline(always)]
    pub(crate) fn next(&self, log: &ClassedLog, process: ProcessId) -> OperationId {
        log.number(process, self.fronts.of(process))
    }

    /// Returns whether the process's next operation can come: it reads what its location holds, and what is known to stand before it is placed.
    #[inline(always)]
    pub(crate) fn can_come(
        &self,
        log: &ClassedLog,
        rows: &ClosedRows,
        process: ProcessId,
        number: OperationId,
    ) -> bool {
        if number == NOBODY {
            return false;
        }
        let needed = log.needed(number);
        if needed != ClassId::NONE && needed != self.held(log.location(number)) {
            return false;
        }
        !log.is_bound(number) || self.has_all_before(rows, process, number)
    }

    /// Returns whether what is known to stand before the process's operation is placed.
    fn has_all_before(&self, rows: &ClosedRows, process: ProcessId, number: OperationId) -> bool {
        for other in self.process_ids() {
            if other != process && rows.before(number, other) >= self.fronts.of(other) {
                return false;
            }
        }
        true
    }

    /// Places the process's next operation, which has this number. A plain write gains nothing: the states of a layer, which are compared, have as many writers
    /// placed, so what differs is how many reads and updates are. The ways stay as they are, since each of them goes on by this operation.
    pub(crate) fn place(
        &mut self,
        log: &ClassedLog,
        process: ProcessId,
        number: OperationId,
    ) -> Result<(), AllocError> {
        let front = self.fronts.of(process).next();
        self.fronts.set(process, front);
        let left = log.left(number);
        if left == ClassId::NONE {
            self.gain = self.gain.wrapping_add(READ);
        } else {
            put(
                self.held.as_mut_slice(),
                log.location(number).number(),
                left,
            );
            if log.needed(number) != ClassId::NONE {
                self.gain = self.gain.wrapping_add(UPDATE);
            }
        }
        if self.keeps_placed {
            self.placed.push(number)?;
        }
        Ok(())
    }

    /// Places what can come and changes nothing: plain reads, and updates that leave what they read. To place these at once is right in any
    /// case: to other operations they only matter if they are known to stand before them. It ends after some rounds, so one that waits for many
    /// others in turn may be left; it is placed as a writer is then.
    pub(crate) fn settle(&mut self, log: &ClassedLog, rows: &ClosedRows) -> Result<(), AllocError> {
        // A round goes over all processes, and what it places may let others come in the next one.
        for _ in 0..self.processes().wrapping_add(1) {
            let mut is_news = false;
            for process in self.process_ids() {
                if self.settle_process(log, rows, process)? {
                    is_news = true;
                }
            }
            if !is_news {
                break;
            }
        }
        Ok(())
    }

    /// Does this for one process. Returns whether an operation was placed.
    fn settle_process(
        &mut self,
        log: &ClassedLog,
        rows: &ClosedRows,
        process: ProcessId,
    ) -> Result<bool, AllocError> {
        let mut is_news = false;
        for _ in 0..log.length(process) {
            let number = self.next(log, process);
            let needed = log.needed(number);
            let left = log.left(number);
            // `NOBODY`, past the last operation, needs and leaves nothing: it ends the loop as a plain write does.
            let is_idle = needed != ClassId::NONE && (left == ClassId::NONE || left == needed);
            if !is_idle || !self.can_come(log, rows, process, number) {
                break;
            }
            self.place(log, process, number)?;
            is_news = true;
        }
        Ok(is_news)
    }

    /// Returns whether all operations are placed, and the final values are as they have to be.
    pub(crate) fn is_complete(&self, log: &ClassedLog) -> bool {
        for process in self.process_ids() {
            if self.fronts.of(process) <= log.last_place(process) {
                return false;
            }
        }
        for location in self.location_ids() {
            let last = log.last(location);
            if last != ClassId::NONE && last != self.held(location) {
                return false;
            }
        }
        true
    }

    /// The number of operations that are placed.
    pub(crate) fn placed_in_all(&self) -> u32 {
        let mut placed: u32 = 0;
        for process in self.process_ids() {
            placed = placed.wrapping_add(self.fronts.of(process).previous().number());
        }
        placed
    }

    /// The number of the process's operations that are not placed.
    #[inline(always)]
    pub(crate) fn left_of(&self, log: &ClassedLog, process: ProcessId) -> u64 {
        let end = log.length(process).wrapping_add(1);
        end.saturating_sub(self.fronts.of(process).number()) as u64
    }

    /// The number of operations that are not placed.
    pub(crate) fn left_in_all(&self, log: &ClassedLog) -> u64 {
        let mut left: u64 = 0;
        for process in self.process_ids() {
            left = left.wrapping_add(self.left_of(log, process));
        }
        left
    }

    /// The process's share of the operations that are left, by its length.
    #[inline(always)]
    pub(crate) fn share_of(&self, log: &ClassedLog, process: ProcessId, left: u64) -> u64 {
        left.wrapping_mul(log.length(process) as u64) / log.count().max(1)
    }

    /// A number that is the same of the same fronts and classes held, and mostly differs otherwise. Two states of one number are taken for one,
    /// which can lose a schedule, and makes none wrong. What is left of classes follows from both, so it is not mixed in.
    pub(crate) fn mixed(&self) -> u64 {
        let mut mixed: u64 = 0x9e37_79b9_7f4a_7c15;
        for process in self.process_ids() {
            mixed = mix(mixed, self.fronts.of(process).number());
        }
        for location in self.location_ids() {
            mixed = mix(mixed, self.held(location).number());
        }
        mixed
    }
}

/// Mixes a further entry into the number.
#[inline(always)]
pub(crate) fn mix(mixed: u64, entry: u32) -> u64 {
    let sum = (mixed ^ (mixed >> 29)).wrapping_add(entry as u64);
    sum.wrapping_mul(0xbf58_476d_1ce4_e5b9)
}

//! Processes of which none can go on before another of them does: a conflict.

use crate::placing_walk::PlacingWalk;
use numbered_log::{NO_NUMBER, NOBODY, OperationId, ProcessId};
use order_propagation::Propagation;
use std::alloc::AllocError;

impl PlacingWalk {
    /// Finds the smallest set of processes whose next operations are each behind the next operation of another of them, or read only what these
    /// processes have still to write: fewer reasons make a shorter clause. Asks why that is so. Returns whether there is one.
    pub(crate) fn ask_closed_set(
        &mut self,
        order: &mut Propagation<'_>,
    ) -> Result<bool, AllocError> {
        let processes = order.log().processes();
        let mut smallest = NO_NUMBER;
        let mut best = ProcessId::NONE;
        for process in ProcessId::first(processes) {
            if self.head(order, process) != NOBODY {
                let count = self.close(order, process)?;
                if count != 0 && count < smallest {
                    smallest = count;
                    best = process;
                }
            }
        }
        if best == ProcessId::NONE {
            return Ok(false);
        }
        // The set is that of the last process that was tried, so that of the best is made once more.
        self.close(order, best)?;
        self.learning.analysis.begin();
        for process in ProcessId::first(processes) {
            if self.closed_set.has(process) {
                self.ask_head(order, process)?;
            }
        }
        Ok(true)
    }

    /// The next operation of the process, or `NOBODY`.
    fn head(&self, order: &Propagation<'_>, process: ProcessId) -> OperationId {
        let front = self.memory.front(process);
        if front <= order.log().last_place(process) {
            order.log().number(process, front)
        } else {
            NOBODY
        }
    }

    /// A process whose next operation stands before this one, one of the set if there is one, or none.
    fn blocking(&self, order: &Propagation<'_>, number: OperationId) -> ProcessId {
        let mut found = ProcessId::NONE;
        let own = order.log().operation(number).process;
        for process in order.log().process_ids() {
            let is_before = order.rows().before(number, process) >= self.memory.front(process);
            if is_before && process != own {
                if self.closed_set.has(process) {
                    return process;
                }
                if found == ProcessId::NONE {
                    found = process;
                }
            }
        }
        found
    }

    /// Closes the set of this process alone. Returns the number of its processes, or 0 if one of them can go on.
    fn close(
        &mut self,
        order: &mut Propagation<'_>,
        process: ProcessId,
    ) -> Result<u32, AllocError> {
        self.closed_set.begin(process)?;
        let processes = order.log().processes();
        for _ in 0..processes {
            let Some(next) = self.closed_set.take_due() else {
                break;
            };
            order.spend(processes as u64);
            if !self.join_needed(order, next)? {
                return Ok(0);
            }
        }
        Ok(self.closed_set.count())
    }

    /// Has the processes join the set that have to go on before this one can. Returns whether it needs any.
    fn join_needed(
        &mut self,
        order: &Propagation<'_>,
        process: ProcessId,
    ) -> Result<bool, AllocError> {
        let number = self.head(order, process);
        let blocking = self.blocking(order, number);
        if blocking != ProcessId::NONE {
            self.closed_set.join(blocking)?;
            return Ok(true);
        }
        if !order.log().operation(number).reads || order.sources().has_initial(number) {
            return Ok(false);
        }
        for run in 0..order.sources().intervals(number) {
            let low = order.sources().low(number, run);
            if low < order.sources().high(number, run) {
                let other = order.sources().process(order.classes(), number, run);
                let writer = order.log().operation(order.classes().writer(low));
                // The first source is placed, or is of the reader's own process, or its process is at its end: then what the others do does not keep the
                // reader waiting.
                if other == process
                    || self.head(order, other) == NOBODY
                    || self.memory.front(other) > writer.place
                {
                    return Ok(false);
                }
                self.closed_set.join(other)?;
            }
        }
        Ok(true)
    }

    /// Asks why the next operation of the process cannot come before others of the set.
    fn ask_head(&mut self, order: &Propagation<'_>, process: ProcessId) -> Result<(), AllocError> {
        let number = self.head(order, process);
        let blocking = self.blocking(order, number);
        if blocking == ProcessId::NONE {
            return self
                .learning
                .analysis
                .ask_sources(order, number, order.later());
        }
        let first = self.head(order, blocking);
        self.learning.analysis.name(number)?;
        self.learning.analysis.name(first)?;
        self.learning
            .analysis
            .ask(order, first, number, order.later())
    }
}

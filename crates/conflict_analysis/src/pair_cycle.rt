//! A cycle of pairs and program order.
//!
//! Past the end of a table `at` reads as its last argument, and `put` does nothing; so arithmetic may wrap, and a wrong place makes no fault.

use crate::process_chain::ProcessChain;
use closed_rows::PairsBySecond;
use numbered_log::{Fronts, NO_NUMBER, ProcessId};
use order_propagation::Propagation;
use std::alloc::{AllocError, Global};
use total_tables::{at, put};

/// The operations that stand behind no cycle: those before the next one of each process.
struct PassedFronts {
    by_second: PairsBySecond,
    fronts: Fronts,
}

/// Drops each table in one call. A derived `Drop` would drop each at every exit of a function that owns them, which makes its proof longer.
impl Drop for PassedFronts {
    fn drop(self) {
        let PassedFronts {
            by_second: _by_second,
            fronts: _fronts,
        } = self;
    }
}

/// The numbers of the pairs of a cycle that the pairs make with program order; none if there is no cycle. They stand backwards: the first operation of each
/// is of the process to which the second of the next one belongs, at that place or behind it.
pub fn pairs_of_cycle(alloc: Global, order: &Propagation<'_>) -> Result<Vec<u32>, AllocError> {
    let mut fronts = PassedFronts::new(alloc, order)?;
    fronts.pass_all(order);
    fronts.find_cycle(alloc, order)
}

impl PassedFronts {
    fn new(alloc: Global, order: &Propagation<'_>) -> Result<PassedFronts, AllocError> {
        let log = order.log();
        Ok(PassedFronts {
            by_second: PairsBySecond::new(alloc, log.count(), order.pairs())?,
            fronts: Fronts::new(alloc, log.processes())?,
        })
    }

    /// A pair that the next operation of the process waits for, as its first operation was not passed, or `NO_NUMBER`.
    fn awaited(&self, order: &Propagation<'_>, process: ProcessId) -> u32 {
        let log = order.log();
        let front = self.fronts.of(process);
        if front > log.last_place(process) {
            return NO_NUMBER;
        }
        let mut pair = self.by_second.last_of(log.number(process, front));
        for _ in 0..order.pairs().count() {
            if pair == NO_NUMBER {
                break;
            }
            let first = log.operation(order.pairs().pair(pair).first);
            if !self.fronts.has_passed(first) {
                return pair;
            }
            pair = self.by_second.previous(pair);
        }
        NO_NUMBER
    }

    /// Passes operations of the process up to the first that has to wait. Returns whether there were any.
    fn pass(&mut self, order: &Propagation<'_>, process: ProcessId) -> bool {
        let begin = self.fronts.of(process);
        let end = order.log().end(process);
        for place in begin.up_to(end) {
            if self.awaited(order, process) != NO_NUMBER {
                return place > begin;
            }
            self.fronts.set(process, place.next());
        }
        begin < end
    }

    /// Passes all operations that stand behind no cycle. Each round passes an operation or is the last one, so in the end each process that is not at its
    /// end waits for such a process.
    fn pass_all(&mut self, order: &Propagation<'_>) {
        for _ in 0..order.log().count() {
            let mut passes = false;
            for process in order.log().process_ids() {
                passes |= self.pass(order, process);
            }
            if !passes {
                break;
            }
        }
    }

    /// A process whose next operation waits. `ProcessId::NONE` if there is none, of which tables have no entry, so no chain begins.
    fn first_waiting(&self, order: &Propagation<'_>) -> ProcessId {
        for process in order.log().process_ids() {
            if self.awaited(order, process) != NO_NUMBER {
                return process;
            }
        }
        ProcessId::NONE
    }

    /// Goes from a process that waits to the one that it waits for, until one comes again. So a cycle has at most as many pairs as there are
    /// processes, and few reasons.
    fn find_cycle(&self, alloc: Global, order: &Propagation<'_>) -> Result<Vec<u32>, AllocError> {
        let processes = order.log().processes();
        let mut chain = ProcessChain::new(alloc, processes)?;
        let mut process = self.first_waiting(order);
        for _ in 0..processes {
            if chain.has(process) {
                break;
            }
            let pair = self.awaited(order, process);
            chain.add(process, pair)?;
            let first = order.pairs().pair(pair).first;
            process = order.log().operation(first).process;
        }
        Vec::from_slice(alloc, chain.ring(process))
    }
}

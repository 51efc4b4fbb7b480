//! Rows of many pairs at once, by two topological sweeps.

use crate::closed_rows::ClosedRows;
use crate::ordered_pairs::OrderedPairs;
use crate::pairs_by_second::PairsBySecond;
use numbered_log::{Fronts, NO_NUMBER, NOBODY, NumberedLog, OperationId, ProcessId};
use std::alloc::{AllocError, Global};
use total_tables::{at, put, size};

/// The result of two sweeps.
#[derive(Clone, Copy, PartialEq, Eq)]
pub enum Sweeps {
    /// The rows have what follows from the pairs, and nothing else.
    Closed,
    /// The pairs are cyclic. The rows are of no use.
    Cyclic,
}

/// A sweep over the operations in an order in which each comes behind all that stand before it.
struct Sweep {
    by_second: PairsBySecond,
    fronts: Fronts,
    /// For each process the operation that its next one waits for, or `NOBODY`: one look says whether it still has to wait.
    awaited: Vec<OperationId>,
    /// The operations that were passed.
    passed: Vec<OperationId>,
}

/// Drops each table in one call. A derived `Drop` would drop each at every exit of a function that owns a sweep, which makes its proof longer.
impl Drop for Sweep {
    fn drop(self) {
        let Sweep {
            by_second: _by_second,
            fronts: _fronts,
            awaited: _awaited,
            passed: _passed,
        } = self;
    }
}

impl Sweep {
    fn new(alloc: Global, log: &NumberedLog, pairs: &OrderedPairs) -> Result<Sweep, AllocError> {
        Ok(Sweep {
            by_second: PairsBySecond::new(alloc, log.count(), pairs)?,
            fronts: Fronts::new(alloc, log.processes())?,
            awaited: vec![in alloc; NOBODY; log.processes() as usize]?,
            passed: Vec::with_capacity(alloc, log.count() as usize)?,
        })
    }

    /// An operation that stands before this one by a pair and was not passed yet, or `NOBODY`.
    fn missing(&self, log: &NumberedLog, pairs: &OrderedPairs, number: OperationId) -> OperationId {
        let mut pair = self.by_second.last_of(number);
        for _ in 0..pairs.count() {
            if pair == NO_NUMBER {
                break;
            }
            let first = pairs.pair(pair).first;
            if !self.fronts.has_passed(log.operation(first)) {
                return first;
            }
            pair = self.by_second.previous(pair);
        }
        NOBODY
    }

    /// Makes the row of what stands before the operation.
    fn make_row(
        &self,
        log: &NumberedLog,
        pairs: &OrderedPairs,
        rows: &mut ClosedRows,
        number: OperationId,
    ) {
        rows.begin_before(log, number);
        let mut pair = self.by_second.last_of(number);
        for _ in 0..pairs.count() {
            if pair == NO_NUMBER {
                break;
            }
            rows.raise_to(log, number, pairs.pair(pair).first);
            pair = self.by_second.previous(pair);
        }
    }

    /// Passes operations of the process up to the first that has to wait. Returns whether there were any.
    fn pass_process(
        &mut self,
        log: &NumberedLog,
        pairs: &OrderedPairs,
        rows: &mut ClosedRows,
        process: ProcessId,
    ) -> Result<bool, AllocError> {
        let awaited = at(self.awaited.as_slice(), process.number(), NOBODY);
        if awaited != NOBODY && !self.fronts.has_passed(log.operation(awaited)) {
            return Ok(false);
        }
        let begin = self.fronts.of(process);
        let mut passes = false;
        for place in begin.up_to(log.end(process)) {
            let number = log.number(process, place);
            let missing = self.missing(log, pairs, number);
            put(self.awaited.as_mut_slice(), process.number(), missing);
            if missing != NOBODY {
                break;
            }
            self.make_row(log, pairs, rows, number);
            self.passed.push(number)?;
            self.fronts.set(process, place.next());
            passes = true;
        }
        Ok(passes)
    }

    /// Passes all operations, unless there is a cycle. Each turn passes one at least, so there are no more turns than operations.
    fn pass_all(
        &mut self,
        log: &NumberedLog,
        pairs: &OrderedPairs,
        rows: &mut ClosedRows,
    ) -> Result<(), AllocError> {
        for _ in 0..log.count() {
            let mut passes = false;
            for process in log.process_ids() {
                passes |= self.pass_process(log, pairs, rows, process)?;
            }
            if !passes {
                break;
            }
        }
        Ok(())
    }

    /// Makes the rows of what stands after each operation, from the last that was passed on.
    fn sweep_back(&self, log: &NumberedLog, pairs: &OrderedPairs, rows: &mut ClosedRows) {
        for number in self.passed.as_slice().iter().rev() {
            rows.begin_after(log, *number);
            let mut pair = pairs.last_of(*number);
            for _ in 0..pairs.count() {
                if pair == NO_NUMBER {
                    break;
                }
                let met = pairs.pair(pair);
                rows.lower_to(log, *number, met.second);
                pair = met.previous;
            }
        }
    }
}

/// Makes all rows anew: of program order and the pairs. Each pair and each operation takes a look at one row of either kind, while a pair
/// that is added by itself may change as many rows as there are operations.
pub fn close_rows(
    alloc: Global,
    log: &NumberedLog,
    pairs: &OrderedPairs,
    rows: &mut ClosedRows,
) -> Result<Sweeps, AllocError> {
    let mut sweep = Sweep::new(alloc, log, pairs)?;
    sweep.pass_all(log, pairs, rows)?;
    if size(sweep.passed.as_slice()) < log.count() {
        return Ok(Sweeps::Cyclic);
    }
    sweep.sweep_back(log, pairs, rows);
    Ok(Sweeps::Closed)
}

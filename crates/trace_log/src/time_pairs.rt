//! The order that times give, as pairs: for each operation and each process the last operation there that had ended before this one began.
//!
//! What follows from other pairs is left out, so that most operations have few.

use numbered_log::{NumberedLog, NumberedPair, OperationId, ProcessId, ProcessPlace};
use std::alloc::{AllocError, Global};
use total_tables::{at, put, size};
use trace_semantics::trace::Trace;

/// The most pairs of a log. A log of 64 processes that all go on at once has some 40 for each operation: in a large one those of its end are left
/// out, so that a schedule may break them, which is judged.
const MOST_PAIRS: usize = 1 << 24;

/// The times of all operations, by number.
#[derive(Drop)]
struct OperationTimes {
    /// When each began, 0 for one without times: nothing had ended before.
    starts: Vec<u64>,
    /// The least end of the operation and of those behind it in its process, the latest time there is for one without times. So ends rise along a process,
    /// which halving needs; and what began after one behind the operation had ended stands after the operation too.
    least_ends: Vec<u64>,
    /// Whether in each process no operation began before an earlier one did.
    rise: bool,
    /// Whether any operation has times.
    has_any: bool,
}

impl OperationTimes {
    /// Reads the times. Ends become least ends once all of a process are there.
    fn of(alloc: Global, trace: &Trace) -> Result<OperationTimes, AllocError> {
        let mut times = OperationTimes {
            starts: Vec::new(alloc),
            least_ends: Vec::new(alloc),
            rise: true,
            has_any: false,
        };
        for process in trace.processes() {
            let begin = OperationId::new(size(times.starts.as_slice()));
            let mut latest = 0;
            for op in process.operations.as_slice() {
                let mut start = 0;
                let mut end = u64::MAX;
                if let Some(span) = op.span() {
                    start = span.start;
                    end = span.end;
                    times.has_any = true;
                    times.rise &= start >= latest;
                    latest = start.max(latest);
                }
                times.starts.push(start)?;
                times.least_ends.push(end)?;
            }
            times.lower_ends(begin);
        }
        Ok(times)
    }

    /// Makes least ends of the ends from this operation on, which are those of one process.
    fn lower_ends(&mut self, begin: OperationId) {
        let mut least = u64::MAX;
        for number in (begin.number()..size(self.least_ends.as_slice())).rev() {
            least = least.min(self.least_end(OperationId::new(number)));
            put(self.least_ends.as_mut_slice(), number, least);
        }
    }

    fn start(&self, number: OperationId) -> u64 {
        at(self.starts.as_slice(), number.number(), 0)
    }

    fn least_end(&self, number: OperationId) -> u64 {
        at(self.least_ends.as_slice(), number.number(), u64::MAX)
    }

    /// Returns whether the operation, or one behind it in its process, had ended before this time.
    fn had_ended(&self, number: OperationId, start: u64) -> bool {
        self.least_end(number) < start
    }

    /// The place of the last operation of the process that had ended before this time, if it is behind the place that is known, else that one.
    fn last_ended(
        &self,
        log: &NumberedLog,
        process: ProcessId,
        known: ProcessPlace,
        start: u64,
    ) -> ProcessPlace {
        // The answer is mostly near, so steps are doubled before they are halved. All places up to `low` had ended, or are known, and none behind `high` had.
        let mut low = known.number();
        let mut high = log.length(process);
        let mut step: u32 = 1;
        for _ in 0..32 {
            let place = low.saturating_add(step);
            if place > high {
                break;
            }
            if !self.had_ended(log.number(process, ProcessPlace::new(place)), start) {
                high = place.wrapping_sub(1);
                break;
            }
            low = place;
            step = step.saturating_mul(2);
        }
        for _ in 0..32 {
            if low >= high {
                break;
            }
            // It is rounded up, so that `low` moves.
            let middle = high.wrapping_sub(high.wrapping_sub(low) / 2);
            if self.had_ended(log.number(process, ProcessPlace::new(middle)), start) {
                low = middle;
            } else {
                high = middle.wrapping_sub(1);
            }
        }
        ProcessPlace::new(low)
    }
}

/// What is known at an operation: the last operations that had ended before it or before an earlier one of its process began.
#[derive(Drop)]
struct EndedFronts {
    /// For each process a place, or `START`.
    fronts: Vec<ProcessPlace>,
    /// The operations that are news at the operation at hand.
    news: Vec<OperationId>,
    /// A time before which all that had ended stands before something that stands before the operation at hand.
    covered: u64,
}

impl EndedFronts {
    fn new(alloc: Global, log: &NumberedLog) -> Result<EndedFronts, AllocError> {
        Ok(EndedFronts {
            fronts: vec![in alloc; ProcessPlace::START; log.processes() as usize]?,
            news: Vec::new(alloc),
            covered: 0,
        })
    }

    /// Begins a process, at whose first operation nothing is known.
    fn clear(&mut self) {
        for process in 0..size(self.fronts.as_slice()) {
            put(self.fronts.as_mut_slice(), process, ProcessPlace::START);
        }
        self.covered = 0;
    }

    /// Goes on to the operation, which has times. In its own process only what stands behind it is news: then program order is turned round.
    fn look_at(
        &mut self,
        log: &NumberedLog,
        times: &OperationTimes,
        number: OperationId,
    ) -> Result<(), AllocError> {
        let operation = log.operation(number);
        let start = times.start(number);
        self.news.clear();
        for process in log.process_ids() {
            let mut known = at(
                self.fronts.as_slice(),
                process.number(),
                ProcessPlace::START,
            );
            if process == operation.process {
                known = known.later(operation.place);
            }
            let last = times.last_ended(log, process, known, start);
            if last > known {
                self.news.push(log.number(process, last))?;
                put(self.fronts.as_mut_slice(), process.number(), last);
            }
            if last != ProcessPlace::START && process != operation.process && times.rise {
                self.covered = self.covered.max(times.start(log.number(process, last)));
            }
        }
        Ok(())
    }

    /// Adds the pairs of what is news at the operation, but for what had ended before one of these began, or before an earlier operation of its
    /// process did.
    fn add_pairs(
        &mut self,
        log: &mut NumberedLog,
        times: &OperationTimes,
        second: OperationId,
    ) -> Result<(), AllocError> {
        for first in self.news.as_slice() {
            // What had ended before that time stands before the second operation by other pairs.
            if times.least_end(*first) >= self.covered && log.pairs().len() < MOST_PAIRS {
                log.add_pair(NumberedPair {
                    first: *first,
                    second,
                    is_timed: true,
                })?;
            }
        }
        if times.rise {
            self.covered = self.covered.max(times.start(second));
        }
        Ok(())
    }
}

/// Adds the pairs to the log, which has all operations of the trace.
pub(crate) fn add_times(
    alloc: Global,
    trace: &Trace,
    log: &mut NumberedLog,
) -> Result<(), AllocError> {
    let times = OperationTimes::of(alloc, trace)?;
    if !times.has_any {
        return Ok(());
    }
    let mut fronts = EndedFronts::new(alloc, log)?;
    for number in log.operation_ids() {
        if log.operation(number).place == ProcessPlace::FIRST {
            fronts.clear();
        }
        // Nothing had ended before 0, and what has no times begins there.
        if times.start(number) != 0 {
            fronts.look_at(log, &times, number)?;
            fronts.add_pairs(log, &times, number)?;
        }
    }
    Ok(())
}

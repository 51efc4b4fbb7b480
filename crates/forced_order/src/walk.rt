//! A walk over the operations of a trace, each after those that are forced to stand before it, unless steps are cyclic.
//!
//! The order of its steps decides how soon the rows are complete. No property of the rows rests on it.
//!
//! The row of an operation has for each process the last place there that is known to stand before it. `closing` raises the rows along the steps of the
//! walk: each is then complete before another one takes it in, so once along the walk is enough unless steps are cyclic.

use crate::least_ends::LeastEnds;
use crate::numbered::OperationNumber;
use crate::times::span_by_number;
use std::alloc::{AllocError, Global};
use trace_semantics::trace::Trace;

/// A step of the forced order.
#[derive(Clone, Copy, Drop)]
pub enum OrderStep {
    /// From the operation to the next of its process.
    Next(OperationNumber),
    /// From the first of the pair under this number to the second.
    Pair(usize),
    /// To the operation from those that had ended before it began.
    Times(OperationNumber),
}

/// The state of the walk in one process.
#[derive(Drop)]
struct Front {
    /// For each place, the number of pairs that put an operation before it from which the walk has not yet gone on. Element 0 is of no operation,
    /// since places count from 1.
    waits: Vec<u32>,
    /// The last place that was visited, or 0.
    visited: u32,
    /// The number of the next pair from an operation of this process. A trace keeps its pairs in the order of their first operations, so those from
    /// one process stand side by side, rising by place.
    next_pair: usize,
}

impl Front {
    /// Returns whether an operation is left that waits for no other, or, if `forced`, any operation.
    fn may_visit(&self, forced: bool) -> bool {
        let next = self.visited as usize + 1;
        next < self.waits.len() && (forced || self.waits[next] == 0)
    }

    /// Returns how many operations are left.
    fn left(&self) -> usize {
        self.waits
            .len()
            .saturating_sub(1)
            .saturating_sub(self.visited as usize)
    }

    /// Notes one more pair that puts an operation before this place.
    fn add_wait(&mut self, place: u32) {
        let k = place as usize;
        if k < self.waits.len() {
            self.waits[k] = self.waits[k].saturating_add(1);
        }
    }

    /// Notes that the walk has gone on from the first operation of such a pair.
    fn remove_wait(&mut self, place: u32) {
        let k = place as usize;
        if k < self.waits.len() {
            self.waits[k] = self.waits[k].saturating_sub(1);
        }
    }
}

/// The walk: its fronts, and the steps that were made.
#[derive(Drop)]
struct FrontWalk<'a> {
    trace: &'a Trace,
    pairs: &'a [(OperationNumber, OperationNumber)],
    ends: &'a [LeastEnds],
    fronts: Vec<Front>,
    steps: Vec<OrderStep>,
}

/// Returns the number of the first pair whose first operation is of this process, or of no pair.
fn first_pair_of(pairs: &[(OperationNumber, OperationNumber)], process: usize) -> usize {
    pairs
        .iter()
        .position(|pair| pair.0.process as usize == process)
        .unwrap_or(pairs.len())
}

impl<'a> FrontWalk<'a> {
    /// Returns a walk before its first step, over the given number of places of each process.
    fn new(
        alloc: Global,
        trace: &'a Trace,
        counts: &[usize],
        pairs: &'a [(OperationNumber, OperationNumber)],
        ends: &'a [LeastEnds],
    ) -> Result<FrontWalk<'a>, AllocError> {
        let mut fronts = Vec::with_capacity(alloc, counts.len())?;
        for k in 0..counts.len() {
            fronts.push(Front {
                waits: vec![in alloc; 0; counts[k]]?,
                visited: 0,
                next_pair: first_pair_of(pairs, k),
            })?;
        }
        let mut walk = FrontWalk {
            trace,
            pairs,
            ends,
            fronts,
            steps: Vec::new(alloc),
        };
        for pair in pairs {
            walk.add_wait(pair.1);
        }
        Ok(walk)
    }

    fn add_wait(&mut self, n: OperationNumber) {
        let k = n.process as usize;
        if k < self.fronts.len() {
            self.fronts[k].add_wait(n.place);
        }
    }

    fn remove_wait(&mut self, n: OperationNumber) {
        let k = n.process as usize;
        if k < self.fronts.len() {
            self.fronts[k].remove_wait(n.place);
        }
    }

    /// Returns whether the process has a next operation that waits neither for a pair nor for times; or, if `forced`, whether it has a next one.
    fn may_visit(&self, process: usize, forced: bool) -> bool {
        process < self.fronts.len()
            && self.fronts[process].may_visit(forced)
            && (forced || self.is_due(process))
    }

    /// Returns the next operation of the process.
    fn next_of(&self, process: usize) -> OperationNumber {
        let mut place = 0;
        if process < self.fronts.len() {
            place = self.fronts[process].visited.saturating_add(1);
        }
        OperationNumber {
            // a trace has at most 64 processes, so the mask changes nothing: it shows that the cast loses nothing
            process: (process & 0xffff) as u16,
            place,
        }
    }

    /// Returns whether no operation is left that had ended before the next one of the process began. Its own end is among those that are left, but
    /// is not below its start, so it does not wait for itself.
    fn is_due(&self, process: usize) -> bool {
        match span_by_number(self.trace, self.next_of(process)) {
            Some(span) => span.start <= self.first_end(),
            None => true,
        }
    }

    /// Returns the least end of the operations that are left. If none of them has times, that is `u64::MAX`, below no start.
    fn first_end(&self) -> u64 {
        let mut least = u64::MAX;
        for k in 0..self.fronts.len() {
            if k < self.ends.len() {
                least = least.min(self.ends[k].of_last(self.fronts[k].left()));
            }
        }
        least
    }

    /// Goes on to the next operation of the process.
    fn advance(&mut self, process: usize) -> OperationNumber {
        let next = self.next_of(process);
        if process < self.fronts.len() {
            self.fronts[process].visited = next.place;
        }
        next
    }

    /// Returns the next pair, if it is one from this operation. It relies on the order of the pairs: a pair that stood out of order would not be
    /// taken, and its second operation would wait until `break_cycle` visits it.
    fn take_pair(&mut self, n: OperationNumber) -> Option<usize> {
        let pairs = self.pairs;
        let process = n.process as usize;
        if process < self.fronts.len() {
            let k = self.fronts[process].next_pair;
            if k < pairs.len() && pairs[k].0.process == n.process && pairs[k].0.place == n.place {
                self.fronts[process].next_pair = k + 1;
                return Some(k);
            }
        }
        None
    }

    /// Visits the next operation of the process, and makes the steps of times to it and the other steps from it. The steps of times come first,
    /// since the other steps hand on the row of the operation, which must be raised by then.
    fn visit(&mut self, process: usize) -> Result<(), AllocError> {
        let pairs = self.pairs;
        let n = self.advance(process);
        if span_by_number(self.trace, n).is_some() {
            self.steps.push(OrderStep::Times(n))?;
        }
        self.steps.push(OrderStep::Next(n))?;
        for _ in 0..pairs.len() {
            let Some(k) = self.take_pair(n) else {
                break;
            };
            self.steps.push(OrderStep::Pair(k))?;
            if k < pairs.len() {
                self.remove_wait(pairs[k].1);
            }
        }
        Ok(())
    }

    /// Visits operations of each process as long as they wait for no other, and returns whether there was one. Each visit makes a step, so the
    /// number of steps shows whether there was one. The inner loop's bound is above the number of operations of any trace: `may_visit` ends it.
    fn go_on(&mut self) -> Result<bool, AllocError> {
        let before = self.steps.len();
        for process in 0..self.fronts.len() {
            for _ in 0..u32::MAX {
                if !self.may_visit(process, false) {
                    break;
                }
                self.visit(process)?;
            }
        }
        Ok(self.steps.len() > before)
    }

    /// Visits an operation that waits for others, as all that are left do, and returns whether there is one. That happens only if before pairs,
    /// times and program order are cyclic. Any of them would do; the first process that has one is taken.
    fn break_cycle(&mut self) -> Result<bool, AllocError> {
        for process in 0..self.fronts.len() {
            if self.may_visit(process, true) {
                self.visit(process)?;
                return Ok(true);
            }
        }
        Ok(false)
    }
}

/// Returns the steps of a walk over all operations. Each round of the loop but the last visits an operation, so its bound is never reached. `counts` has for
/// each process one more than its operations.
pub fn steps_of<'a>(
    alloc: Global,
    trace: &'a Trace,
    counts: &[usize],
    pairs: &'a [(OperationNumber, OperationNumber)],
    ends: &'a [LeastEnds],
) -> Result<Vec<OrderStep>, AllocError> {
    let mut walk = FrontWalk::new(alloc, trace, counts, pairs, ends)?;
    for _ in 0..u32::MAX {
        if !walk.go_on()? && !walk.break_cycle()? {
            break;
        }
    }
    Ok(walk.steps)
}

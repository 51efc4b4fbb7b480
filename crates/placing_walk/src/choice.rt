//! Which operation comes next.

use crate::placing_walk::{Deciding, PlacingWalk};
use crate::waiting::Awaited;
use numbered_log::{LocationId, Operation, OperationId, ProcessId};
use order_propagation::Propagation;
use total_tables::at;

/// Operations of another process up to which one on the same location is looked for.
const SIGHT: u32 = 12;

/// Costs and gains are on one scale, and only their differences count: the writer with the highest sum comes next. This is the cost if the order to some
/// other operation has to be decided, since each decision may have to be turned round.
const OPEN: i64 = 100_500;

/// The cost of each reader of the value that is there, since it would come too late.
const LOSS: i64 = 3000;

/// The gain of each reader that waits for the new value.
const GAIN: i64 = 1500;

/// The cost of a plain write over a value of which no write can be spared.
const NEEDED: i64 = 1_000_000_000;

/// The cost if one write can be spared. It is a part of that if more can.
const SCARCE: u64 = 1_000_000;

/// The cost of an estimated place that lies `PROGRESS_LENGTH` operations behind another, or as many as the log has, if these are fewer.
const PROGRESS: u64 = 2000;

const PROGRESS_LENGTH: u32 = 4096;

/// The cost of an estimated place in a log of this number of operations. It is below 2^32, as the place is one of the log, so the mask changes nothing; without it
/// the cast from 64 bits without a sign would have to be shown to fit.
fn cost_of_place(estimate: u32, count: u32) -> i64 {
    let length = count.min(PROGRESS_LENGTH);
    if length == 0 {
        return 0;
    }
    let cost = (estimate as u64).wrapping_mul(PROGRESS) / (length as u64);
    ((cost & 0xffff_ffff) as u32) as i64
}

impl PlacingWalk {
    /// The next operation: a plain read that can come, since it changes nothing for others, or else a writer.
    pub(crate) fn next_operation(&self, order: &mut Propagation<'_>) -> Option<OperationId> {
        let log = order.log();
        let mut best = None;
        let mut most = i64::MIN;
        for process in log.process_ids() {
            if at(self.awaited.as_slice(), process.number(), Awaited::Never) == Awaited::Nothing {
                let number = log.number(process, self.memory.front(process));
                if !log.operation(number).writes {
                    return Some(number);
                }
                let worth = self.worth(order, number);
                if best.is_none() || worth > most {
                    best = Some(number);
                    most = worth;
                }
            }
        }
        best
    }

    /// The worth of the writer as the next operation; the highest is placed. If the walk decides only when it is stuck, the one with the lowest
    /// estimated place is.
    fn worth(&self, order: &mut Propagation<'_>, number: OperationId) -> i64 {
        let estimate = at(self.estimates.as_slice(), number.number(), 0);
        let log = order.log();
        let operation = log.operation(number);
        let loss = self.cost_of_loss(operation);
        if self.deciding == Deciding::WhenStuck {
            return 0i64.wrapping_sub(estimate as i64).wrapping_sub(loss);
        }
        let held = self.held_value(order, operation.location);
        let mut worth: i64 = 0i64.wrapping_sub(loss);
        let mut is_open = false;
        for process in log.process_ids() {
            if process != operation.process {
                let Some(other) = self.in_sight(order, process, operation.location) else {
                    continue;
                };
                let met = log.operation(other);
                let is_after = order.stands_before(number, other);
                is_open |= !is_after;
                worth = worth.wrapping_add(self.gain(operation, met));
                if met.reads && !is_after && held == Some(met.needed) {
                    worth = worth.wrapping_sub(LOSS);
                }
            }
        }
        order.spend((log.processes() as u64).wrapping_mul(SIGHT as u64));
        if is_open {
            worth = worth.wrapping_sub(OPEN);
        }
        worth.wrapping_sub(cost_of_place(estimate, log.count()))
    }

    /// The cost of a plain write over what its location holds, since updates may need all writes of that value which are left. The mask is that of
    /// `cost_of_place`.
    fn cost_of_loss(&self, operation: Operation) -> i64 {
        if operation.reads {
            return 0;
        }
        let spare = self.memory.spare(operation.location);
        if spare == 0 {
            return NEEDED;
        }
        if self.deciding == Deciding::WhenStuck {
            return 0;
        }
        let cost = SCARCE / (spare as u64);
        ((cost & 0xffff_ffff) as u32) as i64
    }

    /// The gain by a reader that waits for the value of the writer.
    fn gain(&self, operation: Operation, met: Operation) -> i64 {
        let waits = met.reads
            && met.place == self.memory.front(met.process)
            && met.needed == operation.left;
        if waits { GAIN } else { 0 }
    }

    /// The value that the location holds.
    fn held_value(&self, order: &Propagation<'_>, location: LocationId) -> Option<u64> {
        let held = self.memory.held(location);
        if order.log().has_operation(held) {
            Some(order.log().operation(held).left)
        } else {
            order.log().initial(location)
        }
    }

    /// The process's next operation on the location, if it is in sight. It is looked for in each process, for each writer that can come next, so a short
    /// look has to do. `next_rival` goes on to the end of a process, but is asked for the chosen writer alone.
    #[inline(always)]
    fn in_sight(
        &self,
        order: &Propagation<'_>,
        process: ProcessId,
        location: LocationId,
    ) -> Option<OperationId> {
        let log = order.log();
        let front = self.memory.front(process);
        let end = log.end(process).earlier(front.ahead(SIGHT));
        for place in front.up_to(end) {
            let number = log.number(process, place);
            if log.operation(number).location == location {
                return Some(number);
            }
        }
        None
    }

    /// The process's next operation that must come after this one: on its location, and a writer where this one is no writer.
    pub(crate) fn next_rival(
        &self,
        order: &mut Propagation<'_>,
        operation: Operation,
        process: ProcessId,
    ) -> Option<OperationId> {
        let log = order.log();
        let front = self.memory.front(process);
        for place in front.up_to(log.end(process)) {
            let number = log.number(process, place);
            let other = log.operation(number);
            order.spend(1);
            if other.location == operation.location && (operation.writes || other.writes) {
                return Some(number);
            }
        }
        None
    }
}

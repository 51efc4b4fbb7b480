//! How good a state is.

use crate::beam::Beam;
use crate::classed_log::ClassedLog;
use crate::next_writers::NextWriters;
use crate::state::{State, mix};
use numbered_log::{NO_NUMBER, NOBODY, OperationId, ProcessId};
use possible_sources::ClassId;

/// The gain of each operation that a process can do next by itself, and the most of each process that are looked at.
const FREE: i64 = 10;

const MOST_FREE: u32 = 3;

/// The cost of each operation up to the nearest writer of what a process waits for.
const DISTANCE: i64 = 4;

/// The low 32 bits of the number, as a signed one that is never below 0. Larger numbers lose their upper bits.
#[inline(always)]
pub(crate) fn signed(number: u64) -> i64 {
    ((number & 0xffff_ffff) as u32) as i64
}

impl State {
    /// The worth of the state but for the ways that lead to it, or none if no schedule comes of it. A higher one is better.
    pub(crate) fn worth(&self, log: &ClassedLog, next: &NextWriters, beam: Beam) -> Option<i64> {
        let mut worth = self.gain.wrapping_sub(self.imbalance(log, beam));
        worth = worth.wrapping_add(self.chance(beam));
        for process in self.process_ids() {
            let number = self.next(log, process);
            if number == NOBODY {
                continue;
            }
            let free = self.free_operations(log, process);
            if free != 0 {
                worth = worth.wrapping_add(signed(free as u64).wrapping_mul(FREE));
                continue;
            }
            let distance = self.nearest_writer(log, next, process, number);
            if distance == NO_NUMBER {
                return None;
            }
            worth = worth.wrapping_sub(signed(distance as u64).wrapping_mul(DISTANCE));
        }
        Some(worth)
    }

    /// The number of operations, up to a few, that the process can do next by itself from what memory holds. The known order is not heeded.
    fn free_operations(&self, log: &ClassedLog, process: ProcessId) -> u32 {
        let front = self.fronts.of(process);
        for ahead in 0..MOST_FREE {
            let number = log.number(process, front.ahead(ahead));
            if number == NOBODY || !self.finds_its_value(log, number, ahead) {
                return ahead;
            }
        }
        MOST_FREE
    }

    /// Returns whether the operation finds the value that it reads once the operations of its process before it, of which this many are not
    /// placed, are placed.
    fn finds_its_value(&self, log: &ClassedLog, number: OperationId, ahead: u32) -> bool {
        let needed = log.needed(number);
        if needed == ClassId::NONE {
            return true;
        }
        let location = log.location(number);
        // Backwards, so that the last writer before it is met first. Numbers of a process follow each other.
        for back in 1..ahead.wrapping_add(1) {
            let earlier = number.back(back);
            let left = log.left(earlier);
            if left != ClassId::NONE && log.location(earlier) == location {
                return left == needed;
            }
        }
        self.held(location) == needed
    }

    /// The number of operations of another process up to the nearest writer of what this one's next operation reads, or `NO_NUMBER`. It is not
    /// counted through processes that wait themselves: with that beams came no further (0.44 of a log for 0.46).
    fn nearest_writer(
        &self,
        log: &ClassedLog,
        next: &NextWriters,
        process: ProcessId,
        number: OperationId,
    ) -> u32 {
        let needed = log.needed(number);
        let mut nearest = NO_NUMBER;
        for other in self.process_ids() {
            if other != process {
                nearest = nearest.min(next.distance(other, self.fronts.of(other), needed));
            }
        }
        nearest
    }

    /// The cost of what is left of each process: the sum of the squared differences from its share, times the beam's cost, divided by the mean plus 1.
    /// Few orders keep a process far behind to the end, when the others have placed the writers of what it reads.
    fn imbalance(&self, log: &ClassedLog, beam: Beam) -> i64 {
        let all = self.left_in_all(log);
        let mut squares: u64 = 0;
        for process in self.process_ids() {
            let left = self.left_of(log, process);
            let share = self.share_of(log, process, all);
            let difference = left.max(share).wrapping_sub(left.min(share));
            squares = squares.wrapping_add(difference.wrapping_mul(difference));
        }
        let mean = all / (self.processes().max(1) as u64);
        let cost = squares.wrapping_mul(beam.imbalance as u64);
        signed(cost / mean.saturating_add(1))
    }

    /// A random number below 10, the same for the same state and beam.
    fn chance(&self, beam: Beam) -> i64 {
        let mixed = mix(self.mixed(), beam.seed);
        signed((mixed >> 40) % 10)
    }
}

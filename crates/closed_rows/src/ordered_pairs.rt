//! The pairs of which the first operation stands before the second, with their reasons.

use numbered_log::{NO_NUMBER, NOBODY, OperationId};
use possible_sources::Time;
use std::alloc::{AllocError, Global};
use total_tables::{at, put, size};

#[derive(Clone, Copy, PartialEq, Eq)]
pub enum PairReason {
    /// The trace has it.
    Given,
    /// By the trace's times the first operation had ended before the second began.
    Timed,
    /// The first operation is the only source of this reader, or stands before all its sources, and the reader is the second.
    BeforeReader(OperationId),
    /// The second operation comes after all sources of this reader, which is the first, and is no read of what it reads.
    AfterReader(OperationId),
    /// The first operation stands before this reader, and the second is its only source.
    BeforeSource(OperationId),
    /// The second operation is the only last writer of this final value's location.
    BeforeLast(OperationId),
    Decided,
    /// It is what the learned clause of this number leaves.
    Learned(u32),
    /// It was guessed, so nothing that rests on it is of the trace.
    Guessed,
}

/// Two operations of which the first stands before the second.
#[derive(Clone, Copy)]
pub struct OrderedPair {
    pub first: OperationId,
    pub second: OperationId,
    pub reason: PairReason,
    pub time: Time,
    /// The number of decisions that stood when it was added.
    pub level: u32,
    /// The number of the pair before this one with the same first operation, or `NO_NUMBER`: when this one is taken back, it is the last again.
    pub previous: u32,
}

/// No pair.
pub const NO_PAIR: OrderedPair = OrderedPair {
    first: NOBODY,
    second: NOBODY,
    reason: PairReason::Given,
    time: Time::START,
    level: 0,
    previous: NO_NUMBER,
};

/// All pairs, in the order of their times.
#[derive(Drop)]
pub struct OrderedPairs {
    pairs: Vec<OrderedPair>,
    /// For each operation the number of the last pair of which it is the first, or `NO_NUMBER`.
    heads: Vec<u32>,
    /// The most pairs.
    most: u32,
}

/// The number of pairs, at 40 bytes each, that any log may have.
const FEW_PAIRS: u32 = 1 << 21;

/// The number of pairs for each operation that a large log may have. Mostly there are fewer than two, and in a window one for each process.
const PAIRS_OF_EACH: u32 = 16;

impl OrderedPairs {
    /// No pair, for a log of this number of operations.
    pub fn new(alloc: Global, operations: u32) -> Result<OrderedPairs, AllocError> {
        Ok(OrderedPairs {
            pairs: Vec::new(alloc),
            heads: vec![in alloc; NO_NUMBER; operations as usize]?,
            most: operations.saturating_mul(PAIRS_OF_EACH).max(FEW_PAIRS),
        })
    }

    /// Adds the pair at this time, when this number of decisions stands.
    pub fn add(
        &mut self,
        first: OperationId,
        second: OperationId,
        reason: PairReason,
        at_time: (Time, u32),
    ) -> Result<(), AllocError> {
        let number = self.count();
        let previous = at(self.heads.as_slice(), first.number(), NO_NUMBER);
        self.pairs.push(OrderedPair {
            first,
            second,
            reason,
            time: at_time.0,
            level: at_time.1,
            previous,
        })?;
        put(self.heads.as_mut_slice(), first.number(), number);
        Ok(())
    }

    /// The number of pairs.
    #[inline(always)]
    pub fn count(&self) -> u32 {
        size(self.pairs.as_slice())
    }

    /// Returns whether there is no room for more.
    pub fn is_full(&self) -> bool {
        self.count() >= self.most
    }

    #[inline(always)]
    pub fn pair(&self, number: u32) -> OrderedPair {
        at(self.pairs.as_slice(), number, NO_PAIR)
    }

    /// The number of the last pair with this first operation, or `NO_NUMBER`.
    #[inline(always)]
    pub fn last_of(&self, first: OperationId) -> u32 {
        at(self.heads.as_slice(), first.number(), NO_NUMBER)
    }

    /// Takes pairs away, the last first, until this number is left.
    pub fn take_back(&mut self, left: u32) {
        for _ in left..self.count() {
            let Some(pair) = self.pairs.pop() else {
                break;
            };
            put(
                self.heads.as_mut_slice(),
                pair.first.number(),
                pair.previous,
            );
        }
    }
}

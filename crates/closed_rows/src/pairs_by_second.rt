//! The pairs by their second operations.

use crate::ordered_pairs::OrderedPairs;
use numbered_log::{NO_NUMBER, OperationId};
use std::alloc::{AllocError, Global};
use total_tables::{at, put};

/// The pairs that have each operation as their second one, as lists of their numbers, the last first. By its first operation `OrderedPairs` itself
/// finds a pair.
#[derive(Drop)]
pub struct PairsBySecond {
    /// For each operation the last pair of which it is the second, or `NO_NUMBER`.
    heads: Vec<u32>,
    /// For each pair the one before it with the same second operation.
    next: Vec<u32>,
}

impl PairsBySecond {
    /// The lists of all these pairs, of this number of operations.
    pub fn new(
        alloc: Global,
        operations: u32,
        pairs: &OrderedPairs,
    ) -> Result<PairsBySecond, AllocError> {
        let mut lists = PairsBySecond {
            heads: vec![in alloc; NO_NUMBER; operations as usize]?,
            next: vec![in alloc; NO_NUMBER; pairs.count() as usize]?,
        };
        for number in 0..pairs.count() {
            let second = pairs.pair(number).second;
            let head = lists.last_of(second);
            put(lists.next.as_mut_slice(), number, head);
            put(lists.heads.as_mut_slice(), second.number(), number);
        }
        Ok(lists)
    }

    /// The number of the last pair with this second operation, or `NO_NUMBER`.
    #[inline(always)]
    pub fn last_of(&self, second: OperationId) -> u32 {
        at(self.heads.as_slice(), second.number(), NO_NUMBER)
    }

    /// The number of the pair before this one with the same second operation, or `NO_NUMBER`.
    #[inline(always)]
    pub fn previous(&self, pair: u32) -> u32 {
        at(self.next.as_slice(), pair, NO_NUMBER)
    }
}

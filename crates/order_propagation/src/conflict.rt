//! How propagation ends.

use closed_rows::OrderedPair;
use numbered_log::OperationId;
use std::alloc::AllocError;

/// The conflict in which propagation ended.
#[derive(Clone, Copy)]
pub enum Conflict {
    None,
    /// The pair would be added, and its second operation stands before its first.
    Cycle(OrderedPair),
    /// The pairs that were stored before a sweep are cyclic.
    CyclicPairs,
    /// The reader has no possible source.
    NoSource(OperationId),
}

/// The reason why work ends before it is done. It stands as an error, so that a `?` leaves all rules that are at work.
#[derive(Clone, Copy)]
pub enum Stop {
    OutOfMemory,
    /// The conflict is kept.
    Conflict,
}

impl From<AllocError> for Stop {
    fn from(_error: AllocError) -> Stop {
        Stop::OutOfMemory
    }
}

/// The result of propagation.
#[derive(Clone, Copy, PartialEq, Eq)]
pub enum Propagated {
    /// Nothing more follows.
    Done,
    /// There is a conflict.
    Conflict,
    /// The budget is spent.
    Spent,
}

//! The words of lines of reasons.

use numbered_log::{LocationId, OperationId};

/// A word of a line of reasons.
#[derive(Clone, Copy, PartialEq, Eq)]
pub enum ReasonWord {
    /// The letter that says what a line or a piece is.
    Letter(u8),
    Operation(OperationId),
    Location(LocationId),
}

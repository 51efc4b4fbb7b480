//! What a process waits for.

use numbered_log::{LocationId, ProcessId, ProcessPlace};

/// What the next operation of a process waits for.
#[derive(Clone, Copy, PartialEq, Eq)]
pub(crate) enum Awaited {
    /// Nothing: it can be placed.
    Nothing,
    /// The process is at its end.
    Never,
    /// The process of this number, up to this place. That operation has to be placed too.
    Process(ProcessId, ProcessPlace),
    /// Another value of the location.
    Value(LocationId),
    /// Readers of what the location holds, which have to come before it is written.
    Readers(LocationId),
}

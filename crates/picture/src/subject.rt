//! What a picture is of.

use trace_semantics::trace::Trace;

/// The most operations that a picture is of. Those that `drawn_order` puts beside them do not count.
pub(crate) const MAX_DRAWN: u64 = 100;

/// What the operations of a picture are.
#[derive(Clone, Copy)]
pub(crate) enum PictureSubject {
    /// All operations, which have no legal schedule.
    Whole,
    /// Operations that a survey found to have none by themselves.
    Core,
    /// Operations that need more sources than there are.
    TooFew,
    /// All operations, in the order of a legal schedule.
    InOrder,
}

impl PictureSubject {
    /// Returns whether the rows are those of a schedule.
    pub fn is_in_order(&self) -> bool {
        match self {
            PictureSubject::InOrder => true,
            _ => false,
        }
    }
}

/// The number of operations of the trace.
pub(crate) fn count_all(trace: &Trace) -> u64 {
    let mut count: u64 = 0;
    for process in trace.processes() {
        count = count.saturating_add(process.operations.as_slice().len() as u64);
    }
    count
}

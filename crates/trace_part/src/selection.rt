//! Some operations of a trace, with what is known of the trace.

use crate::writer_table::WriterTable;
use forced_order::forced_order::ForcedOrder;
use trace_semantics::op_set::OpSet;
use trace_semantics::trace::Trace;

/// A trace, an order that is known of its operations, the operations that are selected, and the writers of each location.
pub struct Selection<'a> {
    pub trace: &'a Trace,
    pub order: ForcedOrder,
    /// The operations that are selected, by their names in the whole trace.
    pub set: OpSet<'a>,
    /// Each writer has a mark if it is in `set`.
    pub writers: WriterTable<'a>,
}

/// Drops the tables in one call. A derived `Drop` would drop each at every exit of a function that owns a selection, which makes its proof longer.
impl Drop for Selection<'_> {
    fn drop(self) {
        let Selection {
            trace: _,
            order: _order,
            set: _set,
            writers: _writers,
        } = self;
    }
}

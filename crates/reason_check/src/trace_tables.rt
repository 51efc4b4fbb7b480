//! What lines of a certificate ask of a trace.

ghost use Rattle.std.specs.Prelude.{◌≡◌, IfOk};
ghost use Rattle.reason_clauses.specs.Tables.{HoldTables};
ghost use Rattle.reason_text.specs.OperationNumbers.{HoldsTrace};

use crate::before_places::BeforePlaces;
use reason_clauses::writer_tables::WriterTables;
use reason_text::operation_table::OperationTable;
use std::alloc::{AllocError, Global};
use trace_semantics::trace::Trace;

/// The operations, the before pairs and the writers of a trace.
#[derive(Drop)]
pub struct TraceTables<'a> {
    pub operations: OperationTable<'a>,
    pub before: BeforePlaces,
    pub writers: WriterTables<'a>,
}

/// The tables of the trace, which a check makes once for all lines. Nothing is promised of the places of the before pairs: who relies on one looks at the
/// trace's list again.
pub fn tables_of<'a>(alloc: Global, trace: &'a Trace) -> Result<TraceTables<'a>, AllocError>
    ensures operations { IfOk result (λ tables. tables.operations.trace.now ≡ trace.now) }
    ensures holds { IfOk result (λ tables. HoldsTrace tables.operations) }
    ensures writers { IfOk result (λ tables. HoldTables trace.now tables.writers) }
{
    let operations = OperationTable::of(alloc, trace)?;
    let before = BeforePlaces::of(alloc, trace, &operations)?;
    let writers = WriterTables::of(alloc, trace)?;
    Ok(TraceTables {
        operations,
        before,
        writers,
    })
}

//! The tables of writers that the makers of clauses ask.

use std::alloc::{AllocError, Global};
use trace_semantics::trace::Trace;
use writer_table::trace_writers::TraceWriters;

/// The operations of a trace that write, by location and value, and by location.
#[derive(Drop)]
pub struct WriterTables<'a> {
    /// Those that leave a value at a location: the possible sources of a reader in other processes.
    pub by_value: TraceWriters<'a>,
    /// All that write a location: asked for the last writers, of a process or before a reader.
    pub by_location: TraceWriters<'a>,
}

impl<'a> WriterTables<'a> {
    ghost use Rattle.std.specs.Prelude.{IfOk};
    ghost use Rattle.reason_clauses.specs.Tables.{HoldTables};

    /// The tables of the trace.
    pub fn of(alloc: Global, trace: &'a Trace) -> Result<WriterTables<'a>, AllocError>
        ensures { IfOk result (HoldTables trace.now) }
    {
        let by_value = TraceWriters::of(alloc, trace, true)?;
        let by_location = TraceWriters::of(alloc, trace, false)?;
        Ok(WriterTables {
            by_value,
            by_location,
        })
    }
}

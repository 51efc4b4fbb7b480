//! The table of the operations of a trace that write.

ghost use Rattle.std.specs.Prelude.{◌≡◌, IfOk, OnOk, MatchOption, length};
ghost use Rattle.writer_table.specs.PlaceTable.{HasOneMoreIn, HasFirst};

use crate::place_table::PlaceTable;
use crate::runs::Run;
use crate::writer_classes::WriterClasses;
use std::alloc::{AllocError, Global};
use trace_semantics::trace::{Process, Trace};

/// The operations of a trace that write, by location, or by location and value, and by process.
#[derive(Drop)]
pub struct TraceWriters<'a> {
    classes: WriterClasses<'a>,
    table: PlaceTable,
}

/// Adds the operation to its class, if it has one.
fn add_class(
    alloc: Global,
    table: &mut PlaceTable,
    process: u32,
    place: u32,
    class: Option<usize>,
) -> Result<(), AllocError>
    ensures { OnOk result (MatchOption class (table.new ≡ table.old) (λ number. HasOneMoreIn table.old table.new number process place)) }
{
    if let Some(number) = class {
        table.add(alloc, number, process, place)?;
    }
    Ok(())
}

/// Adds the operations of a process that have a class. The classes are of its operations from the first on, whose place is 1.
fn add_classes(
    alloc: Global,
    table: &mut PlaceTable,
    process: u32,
    classes: &[Option<usize>],
) -> Result<(), AllocError>
    ensures { OnOk result (HasFirst table.old table.new process classes.now (length classes.now)) }
{
    for k in 0..classes.len() {
        let place = narrow(k + 1)?;
        add_class(alloc, table, process, place, classes[k])?;
    }
    Ok(())
}

/// The count as a number of 32 bits. Nothing that lies in memory is counted further.
fn narrow(count: usize) -> Result<u32, AllocError>
    ensures { IfOk result (λ number. number ≡ count) }
{
    match u32::try_from(count) {
        Ok(number) => Ok(number),
        Err(_) => Err(AllocError),
    }
}

impl<'a> TraceWriters<'a> {
    ghost use Rattle.std.specs.List.{All};
    ghost use Rattle.writer_table.specs.WriterClasses.{AreNumbersApart, HasNumber};
    ghost use Rattle.writer_table.specs.Writers.{HoldsFirst, HoldsWriters, runs_at};

    /// The classes of what the processes write.
    fn classes_of(
        alloc: Global,
        processes: &'a [Process],
        by_value: bool,
    ) -> Result<WriterClasses<'a>, AllocError>
        ensures kind { IfOk result (λ classes. classes.by_value ≡ by_value) }
        ensures apart { IfOk result AreNumbersApart }
        ensures have { IfOk result (λ classes. All (λ process. All (HasNumber classes) process.operations) processes.now) }
    {
        let mut classes = WriterClasses::new(alloc, by_value);
        for process in processes {
            classes.add_all(process.operations.as_slice())?;
        }
        Ok(classes)
    }

    /// The table of what the processes write, by these classes.
    fn table_of(
        alloc: Global,
        processes: &[Process],
        classes: &WriterClasses,
    ) -> Result<PlaceTable, AllocError>
        ensures { IfOk result (λ table. HoldsFirst processes.now classes.now table (length processes.now)) }
    {
        let mut table = PlaceTable::new(alloc);
        for q in 0..processes.len() {
            let left = classes.classes_left(alloc, processes[q].operations.as_slice())?;
            add_classes(alloc, &mut table, narrow(q)?, left.as_slice())?;
        }
        Ok(table)
    }

    /// The operations of the trace that write, by location, and by value too if this is asked for.
    pub fn of(
        alloc: Global,
        trace: &'a Trace,
        by_value: bool,
    ) -> Result<TraceWriters<'a>, AllocError>
        ensures holds { IfOk result (HoldsWriters trace.now) }
        ensures kind { IfOk result (λ writers. writers.classes.by_value ≡ by_value) }
    {
        let processes = trace.processes();
        let classes = TraceWriters::classes_of(alloc, processes, by_value)?;
        let table = TraceWriters::table_of(alloc, processes, &classes)?;
        Ok(TraceWriters { classes, table })
    }

    /// The operations that leave the value at the location; in a table by location, those that write the location, whatever value is given. The runs
    /// stand in the order of processes, one for each that has such an operation.
    pub fn runs(&self, location: &[u8], value: u64) -> &[Run]
        ensures { result.now ≡ runs_at self.now location.now value }
    {
        self.table.runs(self.classes.class(location, value))
    }
}

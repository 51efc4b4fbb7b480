//! Lists the writers of each location, in one pass over the operations.

ghost use Rattle.std.specs.Prelude.{◌≡◌, ◌<◌, ◌≤◌, ◌+◌, [], ◌++◌, ℕ, List, length, IfOk, OnOk};
ghost use Rattle.std.specs.List.{cons_option};
ghost use Rattle.trace_semantics.specs.OpSet.{has};
ghost use Rattle.trace_part.specs.Rows.{row_in, rows_in};
ghost use Rattle.trace_part.specs.WriterTables.{AreNumbersOwn, IsTable, writers_at};
ghost use Rattle.trace_semantics.specs.declared.limits.Limits.TheVariants.{Large};
ghost use Rattle.trace_semantics.specs.Limits.{max_operations};

use crate::writer_table::WriterTable;
use crate::writers::row_at;
use std::alloc::{AllocError, Global};
use trace_semantics::op_set::OpSet;
use trace_semantics::trace::{Process, Trace};

/// Lists the operation at a place, if it writes.
fn list_op<'a>(
    alloc: Global,
    table: &mut WriterTable<'a>,
    set: &OpSet<'a>,
    process: &'a Process,
    number: u16,
    k: usize,
) -> Result<(), AllocError>
    requires own { AreNumbersOwn table.old }
    requires within { k < length process.now.operations }
    requires few { length process.now.operations ≤ max_operations Large }
    ensures own { OnOk result (AreNumbersOwn table.new) }
    ensures rows { OnOk result ((q : List ℕ) → writers_at table.new q ≡ writers_at table.old q ++ cons_option (row_in process.now number (has set.now) q (record { process = process.now.name; place = k + 1 })) []) }
{
    let location = process.operations.as_slice()[k].location().as_bytes();
    match row_at(set, process, number, k, location) {
        Some(row) => table.push(alloc, location, row),
        None => Ok(()),
    }
}

/// Lists the operations of a process that write.
fn list_process<'a>(
    alloc: Global,
    table: &mut WriterTable<'a>,
    set: &OpSet<'a>,
    process: &'a Process,
    number: u16,
) -> Result<(), AllocError>
    requires own { AreNumbersOwn table.old }
    requires few { length process.now.operations ≤ max_operations Large }
    ensures own { OnOk result (AreNumbersOwn table.new) }
    ensures rows { OnOk result ((q : List ℕ) → writers_at table.new q ≡ writers_at table.old q ++ rows_in process.now number (has set.now) q) }
{
    for k in 0..process.operations.as_slice().len() {
        list_op(alloc, table, set, process, number, k)?;
    }
    Ok(())
}

/// Returns the writers of each location.
pub fn writer_table<'a>(
    alloc: Global,
    trace: &'a Trace,
    set: &OpSet<'a>,
) -> Result<WriterTable<'a>, AllocError>
    ensures { IfOk result (IsTable trace.now (has set.now)) }
{
    trace.recall_invariant();
    let processes = trace.processes();
    let mut table = WriterTable::new(alloc);
    for k in 0..processes.len() {
        // a trace has at most 64 processes, so the cast loses nothing
        list_process(alloc, &mut table, set, &processes[k], k as u16)?;
    }
    Ok(table)
}

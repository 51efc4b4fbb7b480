//! The lines of transitivity's clauses, made in memory.

ghost use Rattle.std.specs.Prelude.{◌≡◌, ◌<◌, ◌≤◌, ◌-◌, ◌++◌, OnOk};
ghost use Rattle.std.specs.List.{flat_map, range_with_len};
ghost use Rattle.dimacs.specs.CnfText.{clause_line};
ghost use Rattle.trace_semantics.specs.Trace.{operation_count};
ghost use Rattle.var_layout.specs.OrderVariables.{numbers_above};
ghost use Rattle.clause_blocks.specs.Blocks.{no_cycle};
ghost use Rattle.clause_blocks.specs.Blocks as blocks;

use dimacs::{ClauseLines, VariableTable};
use std::alloc::AllocError;
use var_layout::layout::Layout;

/// Appends the lines of the clauses of a pair i below j and each operation above j.
fn append_of_pair(
    layout: &Layout,
    table: &VariableTable,
    i: usize,
    j: usize,
    lines: &mut ClauseLines,
) -> Result<(), AllocError>
    requires rising { i < j }
    requires within { j < operation_count layout.now }
    ensures { OnOk result (lines.new ≡ lines.old ++ flat_map clause_line (flat_map (no_cycle (operation_count layout.now) i j) (numbers_above (operation_count layout.now) j))) }
{
    let ij = layout.order_lit(i, j);
    for k in j + 1..layout.operations() {
        let jk = layout.order_lit(j, k);
        let ik = layout.order_lit(i, k);
        lines.put_agreement(ij, jk, ik, table)?;
    }
    Ok(())
}

/// Appends the lines of the clauses of three operations of which this one is the lowest.
fn append_from(
    layout: &Layout,
    table: &VariableTable,
    i: usize,
    lines: &mut ClauseLines,
) -> Result<(), AllocError>
    ensures { OnOk result (lines.new ≡ lines.old ++ flat_map clause_line (blocks.transitivity_from (operation_count layout.now) i)) }
{
    layout.recall_limits();
    let operations = layout.operations();
    if operations <= i {
        return Ok(());
    }
    for j in i + 1..operations {
        append_of_pair(layout, table, i, j, lines)?;
    }
    Ok(())
}

/// Appends the lines of the clauses of three operations of which the lowest is one of these neighbours.
pub(crate) fn append_of_neighbours(
    layout: &Layout,
    table: &VariableTable,
    first: usize,
    end: usize,
    lines: &mut ClauseLines,
) -> Result<(), AllocError>
    ensures { OnOk result (lines.new ≡ lines.old ++ flat_map clause_line (flat_map (blocks.transitivity_from (operation_count layout.now)) (range_with_len first (end - first)))) }
{
    if end <= first {
        return Ok(());
    }
    for i in first..end {
        append_from(layout, table, i, lines)?;
    }
    Ok(())
}

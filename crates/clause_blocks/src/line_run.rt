//! A run of neighbouring operations, and the lines of the clauses of transitivity of which the lowest operation is one of them.

ghost use Rattle.std.specs.Prelude.{◌≡◌, ◌-◌, IsTrue};
ghost use Rattle.std.specs.List.{flat_map, range_with_len};
ghost use Rattle.dimacs.specs.CnfText.{clause_line};
ghost use Rattle.trace_semantics.specs.Trace.{operation_count};
ghost use Rattle.clause_blocks.specs.Blocks as blocks;
ghost use Rattle.clause_blocks.specs.LineRuns.{lines_in, neighbours_in};

use crate::transitivity_lines::append_of_neighbours;
use dimacs::{ClauseLines, VariableTable};
use std::alloc::Global;
use var_layout::layout::Layout;

/// A run. It keeps its memory from one turn to the next.
#[derive(Drop)]
pub(crate) struct LineRun {
    first: usize,
    /// The operation after the last one of the run.
    end: usize,
    lines: ClauseLines,
    /// Whether memory sufficed at the last `make`. What a thread runs returns nothing, so its caller asks for this.
    is_whole: bool,
}

impl LineRun {
    /// A run of no operations.
    pub(crate) fn new(alloc: Global) -> LineRun {
        LineRun {
            first: 0,
            end: 0,
            lines: ClauseLines::new(alloc),
            is_whole: true,
        }
    }

    /// Becomes the run from one operation to the one before another.
    pub(crate) fn begin(&mut self, first: usize, end: usize)
        ensures { neighbours_in self.new ≡ range_with_len first (end - first) }
    {
        self.first = first;
        self.end = end;
    }

    /// Makes the lines.
    pub(crate) fn make(&mut self, layout: &Layout, table: &VariableTable)
        ensures { IsTrue self.new.is_whole → lines_in self.new ≡ flat_map clause_line (flat_map (blocks.transitivity_from (operation_count layout.now)) (neighbours_in self.old)) }
    {
        self.lines.clear();
        let made = append_of_neighbours(layout, table, self.first, self.end, &mut self.lines);
        self.is_whole = made.is_ok();
    }

    /// Returns whether memory sufficed for all lines.
    pub(crate) fn is_whole(&self) -> bool
        ensures { result ≡ self.now.is_whole }
    {
        self.is_whole
    }

    /// The lines that were made.
    pub(crate) fn lines(&self) -> &[u8]
        ensures { result.now ≡ lines_in self.now }
    {
        self.lines.as_slice()
    }
}

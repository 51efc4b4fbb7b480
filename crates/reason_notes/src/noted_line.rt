//! Lines of a certificate that are noted.

ghost use Rattle.std.specs.Prelude.{◌≡◌, IfOk};
ghost use Rattle.text_lines.specs.Words.{words_of};
ghost use Rattle.reason_clauses.specs.Tables.{HoldTables};
ghost use Rattle.reason_notes.specs.Noted.{IsLineNote};

use crate::line_orders::{LineOrders, orders_of_line};
use order_clauses::order_pair::OrderPair;
use reason_check::trace_tables::TraceTables;
use reason_clauses::cause::ReasonRefusal;
use reason_text::reason_line::{ReasonLine, read_reason_line};
use std::alloc::Global;
use trace_semantics::trace::Trace;

/// A line that makes a clause, and the orders of which one stands.
#[derive(Drop)]
pub struct NotedLine<'a> {
    pub line: ReasonLine<'a>,
    /// The literals of its clause, without repetitions among the first; none if the line is a contradiction by itself.
    pub orders: Vec<OrderPair>,
}

/// What came of a line.
#[derive(Drop)]
pub enum LineNote<'a> {
    /// Nothing is noted of it: it is empty, a comment, or numbers a pair.
    Passed,
    /// It is noted.
    Noted(NotedLine<'a>),
    /// A derivation follows, which has no lines of this kind: reading ends here.
    End,
}

/// Reads the line, and makes its clause.
pub fn note_line<'a>(
    alloc: Global,
    trace: &'a Trace,
    tables: &TraceTables<'a>,
    line: &'a [u8],
) -> Result<LineNote<'a>, ReasonRefusal>
    requires operations { tables.now.operations.trace.now ≡ trace.now }
    requires writers { HoldTables trace.now tables.now.writers }
    ensures { IfOk result (IsLineNote trace.now (words_of line.now)) }
{
    let read = read_reason_line(alloc, &tables.operations, line)?;
    match orders_of_line(alloc, trace, tables, &read)? {
        LineOrders::Silent => Ok(LineNote::Passed),
        LineOrders::Made(orders) => Ok(LineNote::Noted(NotedLine { line: read, orders })),
        LineOrders::Derivation => Ok(LineNote::End),
    }
}

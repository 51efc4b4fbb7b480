//! The orders that a line's clause has.
//!
//! The line is of an accepted certificate of reasons over orders, and its note, a sentence of `--explain`, names these orders. They are made by the calls
//! that the check makes, so the note and the check speak of the same clause.
//!
//! A clause may have an order more than once, as when one witness bars sources in several processes. A sentence says it once: `distinct_orders` leaves out
//! each order that repeats one of the first, which are those that a sentence lists.

ghost use Rattle.std.specs.Prelude.{◌≡◌, [], map, IfOk};
ghost use Rattle.order_clauses.specs.Numbered.{named};
ghost use Rattle.order_reasons.specs.Reasons.{IsPairClause, IsTimesClause};
ghost use Rattle.order_reasons.specs.Sources.{IsSourceClause};
ghost use Rattle.reason_clauses.specs.Made.{IsCycleOf, IsLastOf};
ghost use Rattle.reason_clauses.specs.Tables.{HoldTables};
ghost use Rattle.reason_counting.specs.Counts.{AreTooFew};
ghost use Rattle.reason_check.specs.LineClauses.{IsCountingOf, IsWaitingOf};
ghost use Rattle.reason_notes.specs.Noted.{AreMadeFor, AreOrdersOf};

use crate::distinct_orders::distinct_orders;
use order_clauses::order_pair::OrderPair;
use reason_check::before_places::BeforePlaces;
use reason_check::gathered_pieces::{gather, gather_late, gather_members, gather_waiters};
use reason_check::trace_tables::TraceTables;
use reason_clauses::cause::ReasonRefusal;
use reason_clauses::cycle::cycle_clause;
use reason_clauses::ended::ended_clause;
use reason_clauses::last::last_clause;
use reason_clauses::pair::pair_clause;
use reason_clauses::source::source_clause;
use reason_clauses::writer_tables::WriterTables;
use reason_counting::counted_members::counting_clause;
use reason_counting::counting::too_few_sources;
use reason_counting::waiting::waiting_clause;
use reason_text::member_part::MemberPart;
use reason_text::reason_line::ReasonLine;
use reason_text::source_piece::SourcePiece;
use std::alloc::Global;
use trace_semantics::trace::Trace;
use writer_table::operation_place::OperationPlace;

/// What comes of a line.
#[derive(Drop)]
pub enum LineOrders {
    /// It makes no clause.
    Silent,
    /// The orders of which one stands in each legal schedule.
    Made(Vec<OrderPair>),
    /// A derivation follows.
    Derivation,
}

/// Those by which the operations do not stand in a cycle.
fn cycle_orders(
    alloc: Global,
    trace: &Trace,
    operations: &[OperationPlace],
) -> Result<LineOrders, ReasonRefusal>
    ensures { IfOk result (AreMadeFor trace.now (IsCycleOf trace.now (map (named trace.now) operations.now))) }
{
    let mut orders = Vec::new(alloc);
    cycle_clause(trace, operations, &mut orders)?;
    let kept = distinct_orders(alloc, orders)?;
    Ok(LineOrders::Made(kept))
}

/// That of a before pair, if the trace has it; else the line is refused. The place at which the table has it in the trace's list is looked at
/// first, which saves a search of the list.
fn pair_orders(
    alloc: Global,
    trace: &Trace,
    before: &BeforePlaces,
    pair: OrderPair,
) -> Result<LineOrders, ReasonRefusal>
    ensures { IfOk result (AreMadeFor trace.now (λ clause. IsPairClause trace.now clause (named trace.now pair.first) (named trace.now pair.second))) }
{
    let mut orders = Vec::new(alloc);
    pair_clause(trace, before.place(pair), pair, &mut orders)?;
    let kept = distinct_orders(alloc, orders)?;
    Ok(LineOrders::Made(kept))
}

/// That of two operations of which one had ended before the other began.
fn ended_orders(alloc: Global, trace: &Trace, pair: OrderPair) -> Result<LineOrders, ReasonRefusal>
    ensures { IfOk result (AreMadeFor trace.now (λ clause. IsTimesClause trace.now clause (named trace.now pair.first) (named trace.now pair.second))) }
{
    let mut orders = Vec::new(alloc);
    ended_clause(trace, pair, &mut orders)?;
    let kept = distinct_orders(alloc, orders)?;
    Ok(LineOrders::Made(kept))
}

/// Those by which the operation has a source.
fn source_orders(
    alloc: Global,
    trace: &Trace,
    writers: &WriterTables,
    reader: OperationPlace,
    pieces: &[SourcePiece],
) -> Result<LineOrders, ReasonRefusal>
    requires { HoldTables trace.now writers.now }
    ensures { IfOk result (AreMadeFor trace.now (λ clause. IsSourceClause trace.now clause (named trace.now reader))) }
{
    let gathered = gather(alloc, pieces)?;
    let mut orders = Vec::new(alloc);
    source_clause(trace, writers, reader, &gathered, &mut orders)?;
    let kept = distinct_orders(alloc, orders)?;
    Ok(LineOrders::Made(kept))
}

/// Those by which the location has a last writer.
fn last_orders(
    alloc: Global,
    trace: &Trace,
    writers: &WriterTables,
    location: &[u8],
    pieces: &[SourcePiece],
) -> Result<LineOrders, ReasonRefusal>
    requires { HoldTables trace.now writers.now }
    ensures { IfOk result (AreMadeFor trace.now (IsLastOf trace.now location.now)) }
{
    let gathered = gather_late(alloc, pieces)?;
    let mut orders = Vec::new(alloc);
    last_clause(trace, writers, location, &gathered, &mut orders)?;
    let kept = distinct_orders(alloc, orders)?;
    Ok(LineOrders::Made(kept))
}

/// Those by which members that are more than their sources have another source.
fn counting_orders<'a>(
    alloc: Global,
    trace: &'a Trace,
    writers: &WriterTables,
    parts: &[MemberPart<'a>],
) -> Result<LineOrders, ReasonRefusal>
    requires { HoldTables trace.now writers.now }
    ensures { IfOk result (AreMadeFor trace.now (IsCountingOf trace.now)) }
{
    let members = gather_members(alloc, parts)?;
    let mut orders = Vec::new(alloc);
    counting_clause(alloc, trace, writers, members.as_slice(), &mut orders)?;
    let kept = distinct_orders(alloc, orders)?;
    Ok(LineOrders::Made(kept))
}

/// Those by which one of the operations that wait comes first.
fn waiting_orders(
    alloc: Global,
    trace: &Trace,
    writers: &WriterTables,
    parts: &[MemberPart<'_>],
) -> Result<LineOrders, ReasonRefusal>
    requires { HoldTables trace.now writers.now }
    ensures { IfOk result (AreMadeFor trace.now (IsWaitingOf trace.now)) }
{
    let waiters = gather_waiters(alloc, parts)?;
    let mut orders = Vec::new(alloc);
    waiting_clause(alloc, trace, writers, waiters.as_slice(), &mut orders)?;
    let kept = distinct_orders(alloc, orders)?;
    Ok(LineOrders::Made(kept))
}

/// None, if updates of the location that read the value are more than the sources of it: the clause is empty, which is a contradiction. If
/// they are not more, the line is refused.
fn too_few_orders(
    alloc: Global,
    trace: &Trace,
    location: &[u8],
    value: u64,
) -> Result<LineOrders, ReasonRefusal>
    ensures { IfOk result (AreMadeFor trace.now (λ clause. (clause ≡ []) × AreTooFew trace.now location.now value)) }
{
    too_few_sources(trace, location, value)?;
    Ok(LineOrders::Made(Vec::new(alloc)))
}

/// The orders of the line's clause, which follows from the trace, if it makes one. Orders that program order denies are left out of the clause
/// by those that make it, so a clause without orders is a contradiction.
pub fn orders_of_line<'a>(
    alloc: Global,
    trace: &'a Trace,
    tables: &TraceTables,
    line: &ReasonLine<'a>,
) -> Result<LineOrders, ReasonRefusal>
    requires { HoldTables trace.now tables.now.writers }
    ensures { IfOk result (AreOrdersOf trace.now line.now) }
{
    let writers = &tables.writers;
    match line {
        ReasonLine::Cycle(operations) => cycle_orders(alloc, trace, operations.as_slice()),
        ReasonLine::Before(pair) => pair_orders(alloc, trace, &tables.before, *pair),
        ReasonLine::Ended(pair) => ended_orders(alloc, trace, *pair),
        ReasonLine::Source(reader, pieces) => {
            source_orders(alloc, trace, writers, *reader, pieces.as_slice())
        }
        ReasonLine::Last(location, pieces) => {
            last_orders(alloc, trace, writers, location, pieces.as_slice())
        }
        ReasonLine::TooFew(location, value) => too_few_orders(alloc, trace, location, *value),
        ReasonLine::Counting(parts) => { counting_orders(alloc, trace, writers, parts.as_slice()) }
        ReasonLine::Waiting(parts) => waiting_orders(alloc, trace, writers, parts.as_slice()),
        ReasonLine::Skipped => Ok(LineOrders::Silent),
        ReasonLine::Variable(_pair) => Ok(LineOrders::Silent),
        ReasonLine::Derivation => Ok(LineOrders::Derivation),
    }
}

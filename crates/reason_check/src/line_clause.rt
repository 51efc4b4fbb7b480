//! The clause of a line of a certificate of reasons.

ghost use Rattle.std.specs.Prelude.{◌≡◌, ◌≢◌, ◌↔◌, ◌⊎◌, [], map, OnOk, IfOk, IfErr};
ghost use Rattle.order_clauses.specs.Appended.{IsAppended};
ghost use Rattle.order_clauses.specs.Numbered.{named};
ghost use Rattle.order_clauses.specs.declared.reason_list.ClauseOutcome.TheVariants.{Made, AlwaysTrue, TooManyVariables};
ghost use Rattle.order_reasons.specs.Reasons.{IsPairClause, IsTimesClause};
ghost use Rattle.order_reasons.specs.Sources.{IsSourceClause};
ghost use Rattle.reason_clauses.specs.AddedOrders.{IsOrder};
ghost use Rattle.reason_clauses.specs.CycleRefused.{IsCycleRefused, IsTurnedStep};
ghost use Rattle.reason_clauses.specs.EndedRefused.{IsEndedRefused};
ghost use Rattle.reason_clauses.specs.Made.{IsCycleOf, IsLastOf};
ghost use Rattle.reason_clauses.specs.PairRefused.{IsPairRefused};
ghost use Rattle.reason_clauses.specs.RefusedBy.{IsRefusedBy};
ghost use Rattle.reason_clauses.specs.Tables.{HoldTables};
ghost use Rattle.reason_clauses.specs.declared.cause.ReasonCause.TheVariants.{AlwaysTrue as NeverFalse, TooManyVariables as TooMany};
ghost use Rattle.reason_counting.specs.Counts.{AreTooFew};
ghost use Rattle.reason_check.specs.LineClauses.{IsCountingOf, IsWaitingOf};
ghost use Rattle.reason_check.specs.RefusedByTrace.{IsCountingLineRefused, IsEnough, IsLastLineRefused, IsNoClause, IsNumberingRefused, IsRefusedByTrace, IsSourceLineRefused, IsUnmade, IsWaitingLineRefused};
ghost use Rattle.reason_check.specs.Taken.{HasNext, IsPassed, IsTaken};
ghost use Rattle.reason_check.specs.declared.line_clause.LineOutcome.TheVariants.{Derivation, Refuted};

use crate::before_places::BeforePlaces;
use crate::gathered_pieces::{gather, gather_late, gather_members, gather_waiters};
use crate::trace_tables::TraceTables;
use order_clauses::order_pair::OrderPair;
use order_clauses::reason_list::{ClauseOutcome, ReasonList};
use reason_clauses::cause::{ReasonCause, ReasonRefusal};
use reason_clauses::cycle::cycle_clause;
use reason_clauses::ended::ended_clause;
use reason_clauses::last::last_clause;
use reason_clauses::pair::pair_clause;
use reason_clauses::source::source_clause;
use reason_clauses::writer_tables::WriterTables;
use reason_counting::counted_members::counting_clause;
use reason_counting::counting::too_few_sources;
use reason_counting::waiting::waiting_clause;
use reason_text::member_part::MemberPart;
use reason_text::reason_line::ReasonLine;
use reason_text::source_piece::SourcePiece;
use std::alloc::Global;
use trace_semantics::trace::Trace;
use writer_table::operation_place::OperationPlace;

/// What came of a line.
#[derive(Clone, Copy, Debug, PartialEq, Eq)]
pub enum LineOutcome {
    /// Further lines are wanted.
    More,
    /// Its clause is empty: the trace has no legal schedule.
    Refuted,
    /// A derivation follows.
    Derivation,
}

/// The refusal of what was to be made a clause, unless it was made.
fn refuse_outcome(outcome: ClauseOutcome) -> Result<(), ReasonRefusal>
    ensures made { OnOk result (outcome ≡ Made) }
    ensures refused { IfErr result (IsRefusedBy (λ cause. ((outcome ≡ AlwaysTrue) × (cause ≡ NeverFalse)) ⊎ ((outcome ≡ TooManyVariables) × (cause ≡ TooMany)))) }
{
    match outcome {
        ClauseOutcome::Made => Ok(()),
        ClauseOutcome::AlwaysTrue => Err(ReasonRefusal::For(ReasonCause::AlwaysTrue)),
        ClauseOutcome::TooManyVariables => {
            Err(ReasonRefusal::For(ReasonCause::TooManyVariables))
        }
    }
}

/// Appends the clause that one of the orders stands. If there are none, no schedule is legal. Each order gives the clause a literal, so it is empty
/// only then.
fn add_orders(
    alloc: Global,
    orders: &[OrderPair],
    list: &mut ReasonList,
) -> Result<LineOutcome, ReasonRefusal>
    ensures appended { OnOk result (IsAppended list.old list.new orders.now) }
    ensures outcome { IfOk result (λ outcome. ((outcome ≡ Refuted) ↔ (orders.now ≡ [])) × (outcome ≢ Derivation)) }
    ensures refused { IfErr result (IsRefusedBy (IsUnmade orders.now list.new.variables)) }
    ensures none { orders.now ≡ [] → IfErr result (IsRefusedBy (λ cause. ⊥)) }
{
    let outcome = list.add(alloc, orders)?;
    refuse_outcome(outcome)?;
    if orders.is_empty() {
        Ok(LineOutcome::Refuted)
    } else {
        Ok(LineOutcome::More)
    }
}

/// Adds the clause that the operations do not stand in a cycle.
fn add_cycle(
    alloc: Global,
    trace: &Trace,
    operations: &[OperationPlace],
    list: &mut ReasonList,
) -> Result<LineOutcome, ReasonRefusal>
    ensures made { IfOk result (HasNext trace.now (IsCycleOf trace.now (map (named trace.now) operations.now)) list.old list.new) }
    ensures refused { IfErr result (IsRefusedBy (λ cause. IsCycleRefused trace.now operations.now cause ⊎ IsNoClause (IsTurnedStep operations.now) cause)) }
{
    let mut orders = Vec::new(alloc);
    cycle_clause(trace, operations, &mut orders)?;
    add_orders(alloc, orders.as_slice(), list)
}

/// Adds the clause of a before pair.
fn add_before(
    alloc: Global,
    trace: &Trace,
    before: &BeforePlaces,
    pair: OrderPair,
    list: &mut ReasonList,
) -> Result<LineOutcome, ReasonRefusal>
    ensures made { IfOk result (HasNext trace.now (λ clause. IsPairClause trace.now clause (named trace.now pair.first) (named trace.now pair.second)) list.old list.new) }
    ensures refused { IfErr result (IsRefusedBy (λ cause. IsPairRefused trace.now pair cause ⊎ IsNoClause (IsOrder pair.first pair.second) cause)) }
{
    let mut orders = Vec::new(alloc);
    pair_clause(trace, before.place(pair), pair, &mut orders)?;
    add_orders(alloc, orders.as_slice(), list)
}

/// Adds the clause that what had ended stands before what began after it.
fn add_ended(
    alloc: Global,
    trace: &Trace,
    pair: OrderPair,
    list: &mut ReasonList,
) -> Result<LineOutcome, ReasonRefusal>
    ensures made { IfOk result (HasNext trace.now (λ clause. IsTimesClause trace.now clause (named trace.now pair.first) (named trace.now pair.second)) list.old list.new) }
    ensures refused { IfErr result (IsRefusedBy (λ cause. IsEndedRefused trace.now pair cause ⊎ IsNoClause (IsOrder pair.first pair.second) cause)) }
{
    let mut orders = Vec::new(alloc);
    ended_clause(trace, pair, &mut orders)?;
    add_orders(alloc, orders.as_slice(), list)
}

/// Adds the clause that the operation has a source, by pieces.
fn add_source(
    alloc: Global,
    trace: &Trace,
    writers: &WriterTables,
    reader: OperationPlace,
    pieces: &[SourcePiece],
    list: &mut ReasonList,
) -> Result<LineOutcome, ReasonRefusal>
    requires tables { HoldTables trace.now writers.now }
    ensures made { IfOk result (HasNext trace.now (λ clause. IsSourceClause trace.now clause (named trace.now reader)) list.old list.new) }
    ensures refused { IfErr result (IsRefusedBy (IsSourceLineRefused trace.now reader pieces.now)) }
{
    let gathered = gather(alloc, pieces)?;
    let mut orders = Vec::new(alloc);
    source_clause(trace, writers, reader, &gathered, &mut orders)?;
    add_orders(alloc, orders.as_slice(), list)
}

/// Adds the clause that the location has a last writer, by pieces.
fn add_last(
    alloc: Global,
    trace: &Trace,
    writers: &WriterTables,
    location: &[u8],
    pieces: &[SourcePiece],
    list: &mut ReasonList,
) -> Result<LineOutcome, ReasonRefusal>
    requires tables { HoldTables trace.now writers.now }
    ensures made { IfOk result (HasNext trace.now (IsLastOf trace.now location.now) list.old list.new) }
    ensures refused { IfErr result (IsRefusedBy (IsLastLineRefused trace.now location.now pieces.now)) }
{
    let gathered = gather_late(alloc, pieces)?;
    let mut orders = Vec::new(alloc);
    last_clause(trace, writers, location, &gathered, &mut orders)?;
    add_orders(alloc, orders.as_slice(), list)
}

/// Adds the clause of updates and ends of locations that are more than their sources, by pieces.
fn add_counting<'a>(
    alloc: Global,
    trace: &'a Trace,
    writers: &WriterTables,
    parts: &[MemberPart<'a>],
    list: &mut ReasonList,
) -> Result<LineOutcome, ReasonRefusal>
    requires tables { HoldTables trace.now writers.now }
    ensures made { IfOk result (HasNext trace.now (IsCountingOf trace.now) list.old list.new) }
    ensures refused { IfErr result (IsRefusedBy (IsCountingLineRefused trace.now parts.now)) }
{
    let members = gather_members(alloc, parts)?;
    let mut orders = Vec::new(alloc);
    counting_clause(alloc, trace, writers, members.as_slice(), &mut orders)?;
    add_orders(alloc, orders.as_slice(), list)
}

/// Adds the clause that of operations of which each waits for one of them one comes first.
fn add_waiting(
    alloc: Global,
    trace: &Trace,
    writers: &WriterTables,
    parts: &[MemberPart<'_>],
    list: &mut ReasonList,
) -> Result<LineOutcome, ReasonRefusal>
    requires tables { HoldTables trace.now writers.now }
    ensures made { IfOk result (HasNext trace.now (IsWaitingOf trace.now) list.old list.new) }
    ensures refused { IfErr result (IsRefusedBy (IsWaitingLineRefused trace.now parts.now)) }
{
    let waiters = gather_waiters(alloc, parts)?;
    let mut orders = Vec::new(alloc);
    waiting_clause(alloc, trace, writers, waiters.as_slice(), &mut orders)?;
    add_orders(alloc, orders.as_slice(), list)
}

/// Adds the empty clause, if updates of the location that read the value are more than the sources of it.
fn add_too_few(
    alloc: Global,
    trace: &Trace,
    location: &[u8],
    value: u64,
    list: &mut ReasonList,
) -> Result<LineOutcome, ReasonRefusal>
    ensures made { IfOk result (HasNext trace.now (λ clause. (clause ≡ []) × AreTooFew trace.now location.now value) list.old list.new) }
    ensures refused { IfErr result (IsRefusedBy (IsEnough trace.now location.now value)) }
{
    too_few_sources(trace, location, value)?;
    add_orders(alloc, &[], list)
}

/// Numbers a pair beforehand.
fn number_pair(pair: OrderPair, list: &mut ReasonList) -> Result<LineOutcome, ReasonRefusal>
    ensures passed { IfOk result (IsPassed list.old list.new) }
    ensures refused { IfErr result (IsRefusedBy (IsNumberingRefused pair)) }
{
    if pair.first.process == pair.second.process {
        return Err(ReasonRefusal::For(ReasonCause::OneProcess));
    }
    let outcome = list.number(pair)?;
    refuse_outcome(outcome)?;
    Ok(LineOutcome::More)
}

/// Takes a line: adds the clause that it makes of the trace.
pub fn take_line<'a>(
    alloc: Global,
    trace: &'a Trace,
    tables: &TraceTables,
    line: ReasonLine<'a>,
    list: &mut ReasonList,
) -> Result<LineOutcome, ReasonRefusal>
    requires tables { HoldTables trace.now tables.now.writers }
    ensures taken { IfOk result (IsTaken trace.now line.entry list.old list.new) }
    ensures refused { IfErr result (IsRefusedBy (IsRefusedByTrace trace.now line.entry)) }
{
    match line {
        ReasonLine::Skipped => Ok(LineOutcome::More),
        ReasonLine::Cycle(operations) => add_cycle(alloc, trace, operations.as_slice(), list),
        ReasonLine::Before(pair) => add_before(alloc, trace, &tables.before, pair, list),
        ReasonLine::Ended(pair) => add_ended(alloc, trace, pair, list),
        ReasonLine::Source(reader, pieces) => add_source(
            alloc,
            trace,
            &tables.writers,
            reader,
            pieces.as_slice(),
            list,
        ),
        ReasonLine::Last(location, pieces) => add_last(
            alloc,
            trace,
            &tables.writers,
            location,
            pieces.as_slice(),
            list,
        ),
        ReasonLine::Counting(parts) => {
            add_counting(alloc, trace, &tables.writers, parts.as_slice(), list)
        }
        ReasonLine::Waiting(parts) => {
            add_waiting(alloc, trace, &tables.writers, parts.as_slice(), list)
        }
        ReasonLine::TooFew(location, value) => add_too_few(alloc, trace, location, value, list),
        ReasonLine::Variable(pair) => number_pair(pair, list),
        ReasonLine::Derivation => Ok(LineOutcome::Derivation),
    }
}

//! What pieces leave of the last writers of a location.

ghost use Rattle.std.specs.Prelude.{◌≡◌, ℕ, List, OnOk, IfOk, IfErr};
ghost use Rattle.std.specs.Bool.{MatchBool};
ghost use Rattle.trace_semantics.specs.declared.operation.OpName.{OpName};
ghost use Rattle.trace_semantics.specs.Trace.{value_of};
ghost use Rattle.order_reasons.specs.Sources.{BarsLastWriters};
ghost use Rattle.reason_clauses.specs.AddedOrders.{AddsOnly};
ghost use Rattle.reason_clauses.specs.LastBarred.{AreWriterRuns, HasWriter, IsUnwrittenBy, IsWriterRun};
ghost use Rattle.reason_clauses.specs.LastRefused.{IsLastOrder};
ghost use Rattle.reason_clauses.specs.Numbered.{Grows, AreIn, at_number};
ghost use Rattle.reason_clauses.specs.RefusedBy.{IsRefusedBy};
ghost use Rattle.reason_clauses.specs.Tables.{HoldTables};
ghost use Rattle.reason_counting.specs.Left.{AreMore, IsLeft, IsLeftAt, KeepsOnly};
ghost use Rattle.reason_counting.specs.LeftEnds.{AreLastRunsLeft, AreOtherEnds, IsEndRefused, IsEndTakenRefused, IsLastRunLeft, IsOneStretch, IsOtherEnd};

use crate::left_sources::{LeftSources, LeftStretch};
use order_clauses::order_pair::OrderPair;
use reason_clauses::cause::{ReasonCause, ReasonRefusal};
use reason_clauses::held_at::value_at;
use reason_clauses::last::{EndWithPieces, late_witness, may_be_final, want_late_pieces};
use reason_clauses::lookups::are_same;
use reason_clauses::orders::push_order;
use reason_clauses::own::{last_of, left_there};
use reason_clauses::pieces::SourcePieces;
use reason_clauses::writer_tables::WriterTables;
use std::alloc::{AllocError, Global};
use trace_semantics::trace::Trace;
use writer_table::operation_place::OperationPlace;
use writer_table::runs::Run;

/// Keeps the operation, which leaves this value.
fn keep_one(left: &mut Vec<LeftStretch>, n: OperationPlace, value: u64) -> Result<(), AllocError>
    ensures more { OnOk result (AreMore left.old.items left.new.items) }
    ensures kept { OnOk result (IsLeftAt left.new.items value n.process n.place) }
    ensures only { OnOk result (KeepsOnly left.old.items left.new.items (IsOneStretch n value)) }
{
    left.push(LeftStretch {
        process: n.process,
        value,
        first: n.place,
        last: n.place,
    })?;
    Ok(())
}

/// Bars what may be the last writer in a run, if a piece takes it, and else keeps it: the last of the run, if it leaves the final value or
/// there is none. An earlier one of the run is never the last writer. Returns whether the run has an operation.
fn bar_taken_last(
    trace: &Trace,
    end: &EndWithPieces,
    run: &Run,
    orders: &mut Vec<OrderPair>,
    left: &mut Vec<LeftStretch>,
) -> Result<bool, ReasonRefusal>
    requires final_value { value_of trace.now.final_values end.now.location.now ≡ end.now.final_value }
    requires run { IsWriterRun trace.now end.now.location.now run.now }
    ensures grows { OnOk result (Grows orders.old.items orders.new.items) }
    ensures more { OnOk result (AreMore left.old.items left.new.items) }
    ensures bars { OnOk result (IsLastRunLeft trace.now orders.new.items left.new.items end.now.location.now end.now.pieces.now run.now) }
    ensures writes { IfOk result (λ does. MatchBool does (HasWriter trace.now end.now.location.now) ((k : ℕ) → IsUnwrittenBy trace.now end.now.location.now (at_number run.now.process k))) }
    ensures only { OnOk result (AddsOnly orders.old.items orders.new.items (IsLastOrder trace.now end.now.location.now end.now.pieces.now)) }
    ensures left { OnOk result (KeepsOnly left.old.items left.new.items (IsOtherEnd trace.now end.now.location.now end.now.pieces.now)) }
    ensures refused { IfErr result (IsRefusedBy (IsEndTakenRefused trace.now end.now.location.now end.now.pieces.now)) }
{
    trace.recall_invariant();
    let bound = OperationPlace {
        process: run.process,
        place: last_of(&run.places),
    };
    let Some(value) = left_there(trace, bound, end.location) else {
        return Ok(false);
    };
    if !may_be_final(end.final_value, value) {
        return Ok(true);
    }
    let Some(x) = late_witness(end.pieces, bound) else {
        keep_one(left, bound, value)?;
        return Ok(true);
    };
    if are_same(x, bound) {
        return Err(ReasonRefusal::For(ReasonCause::HidesItself));
    }
    push_order(orders, x, bound)?;
    Ok(true)
}

/// Bars what may be the last writer in these runs, if a piece takes it, and else keeps it. Returns whether they have an operation.
fn bar_taken_lasts(
    trace: &Trace,
    end: &EndWithPieces,
    runs: &[Run],
    orders: &mut Vec<OrderPair>,
    left: &mut Vec<LeftStretch>,
) -> Result<bool, ReasonRefusal>
    requires final_value { value_of trace.now.final_values end.now.location.now ≡ end.now.final_value }
    requires runs { AreWriterRuns trace.now end.now.location.now runs.now }
    ensures grows { OnOk result (Grows orders.old.items orders.new.items) }
    ensures bars { OnOk result (AreLastRunsLeft trace.now orders.new.items left.new.items end.now.location.now end.now.pieces.now runs.now) }
    ensures writes { IfOk result (λ does. MatchBool does (HasWriter trace.now end.now.location.now) (HasWriter trace.now end.now.location.now → ⊥)) }
    ensures only { OnOk result (AddsOnly orders.old.items orders.new.items (IsLastOrder trace.now end.now.location.now end.now.pieces.now)) }
    ensures left { OnOk result (KeepsOnly left.old.items left.new.items (IsOtherEnd trace.now end.now.location.now end.now.pieces.now)) }
    ensures refused { IfErr result (IsRefusedBy (IsEndTakenRefused trace.now end.now.location.now end.now.pieces.now)) }
{
    let mut is_written = false;
    for run in runs {
        let writes = bar_taken_last(trace, end, run, orders, left)?;
        is_written |= writes;
    }
    Ok(is_written)
}

/// Appends what bars the last writers of the location that a piece takes, and returns the others. A location that no operation writes is refused.
pub fn left_ends<'a>(
    alloc: Global,
    trace: &Trace,
    writers: &WriterTables,
    location: &'a [u8],
    pieces: &SourcePieces,
    orders: &mut Vec<OrderPair>,
) -> Result<LeftSources<'a>, ReasonRefusal>
    requires { HoldTables trace.now writers.now }
    ensures grows { OnOk result (Grows orders.old.items orders.new.items) }
    ensures bars { IfOk result (λ left. (clause : List (OpName × OpName)) → AreIn trace.now orders.new.items clause → BarsLastWriters trace.now clause location.now (IsLeft trace.now writers.now.by_value left)) }
    ensures only { OnOk result (AddsOnly orders.old.items orders.new.items (IsLastOrder trace.now location.now pieces.now)) }
    ensures left { IfOk result (AreOtherEnds trace.now location.now pieces.now) }
    ensures refused { IfErr result (IsRefusedBy (IsEndRefused trace.now location.now pieces.now)) }
{
    trace.recall_invariant();
    let final_value = value_at(trace.final_values(), location);
    want_late_pieces(trace, pieces, location, final_value)?;
    // A table by location asks for no value, so 0 stands for any.
    let runs = writers.by_location.runs(location, 0);
    let end = EndWithPieces {
        location,
        final_value,
        pieces,
    };
    let mut stretches = Vec::new(alloc);
    let is_written = bar_taken_lasts(trace, &end, runs, orders, &mut stretches)?;
    if !is_written {
        return Err(ReasonRefusal::For(ReasonCause::NoWriter));
    }
    Ok(LeftSources {
        location,
        stretches,
        is_initial_left: false,
    })
}

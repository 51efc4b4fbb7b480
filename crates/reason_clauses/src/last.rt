//! The clause that a location has a last writer.
//!
//! A *witness* writes the location, or reads another value there than the final one, so it stands before the last writer, or is it. For each operation that
//! may be the last writer the clause has the order that a witness, another operation, stands before it; one of these stands. The *pieces* of a line of a
//! certificate name the witnesses: one for what is in a process up to a bound, and that of the *main piece* for all others. A writer that
//! has its order is barred.

ghost use Rattle.std.specs.Prelude.{◌≡◌, ◌≢◌, true, false, ℕ, List, Some, IfSome, OnOk, IfOk, IfErr};
ghost use Rattle.std.specs.Bool.{MatchBool};
ghost use Rattle.std.specs.List.{All};
ghost use Rattle.trace_semantics.specs.Trace.{TraceValue, value_of};
ghost use Rattle.writer_table.specs.declared.operation_place.OperationPlace.{OperationPlace as Place};
ghost use Rattle.order_reasons.specs.Orders.{HoldsOfSchedules};
ghost use Rattle.order_clauses.specs.Numbered.{named_orders};
ghost use Rattle.reason_clauses.specs.AddedOrders.{AddsOnly};
ghost use Rattle.reason_clauses.specs.LastBarred.{AreGivenLate, AreLastsBarred, AreWriterRuns, DoesHideLate, HasWriter, IsGivenLate, IsLastOfProcessBarred, IsUnwrittenBy, IsWriterRun, MayBeFinal, witness_of};
ghost use Rattle.reason_clauses.specs.LastRefused.{AreNotGivenLate, IsLastOrder, IsLastRefused, IsLastWriterRefused, IsNoLateWitness, IsPossibleLast, IsWitnessOf, late_taker};
ghost use Rattle.reason_clauses.specs.Made.{Makes, IsLastOf};
ghost use Rattle.reason_clauses.specs.Numbered.{Grows, at_number};
ghost use Rattle.reason_clauses.specs.RefusedBy.{IsRefusedBy};
ghost use Rattle.reason_clauses.specs.Tables.{HoldTables};
ghost use Rattle.reason_clauses.specs.declared.cause.ReasonCause.TheVariants.{NoWriter};

use crate::barring::MainPiece;
use crate::cause::{ReasonCause, ReasonRefusal};
use crate::held_at::{is_held_at, value_at};
use crate::lookups::{are_same, operation_of};
use crate::orders::push_order;
use crate::own::{last_of, left_there};
use crate::pieces::{ProcessPieces, SourcePieces};
use crate::writer_tables::WriterTables;
use order_clauses::order_pair::OrderPair;
use trace_semantics::operation::Op;
use trace_semantics::trace::Trace;
use writer_table::operation_place::OperationPlace;
use writer_table::runs::Run;

/// The end of a location, and the pieces of a line that take its last writers.
#[derive(Clone, Copy)]
pub struct EndWithPieces<'a> {
    pub location: &'a [u8],
    /// None if the trace says none.
    pub final_value: Option<u64>,
    pub pieces: &'a SourcePieces,
}

/// Returns whether the operation writes the location, or reads another value there than the final one, if there is one. After the last writer no
/// operation does either.
fn hides_late(op: &Op, location: &[u8], final_value: Option<u64>) -> bool
    ensures only { result ≡ true → DoesHideLate location.now final_value op.now }
    ensures found { DoesHideLate location.now final_value op.now → result ≡ true }
{
    if op.location().as_bytes() != location {
        return false;
    }
    if op.written_value().is_some() {
        return true;
    }
    let Some(value) = final_value else {
        return false;
    };
    match op.value_read() {
        Some(read) => read != value,
        None => false,
    }
}

/// Refuses an operation that is no witness against a last writer of the location.
fn want_late(
    trace: &Trace,
    witness: OperationPlace,
    location: &[u8],
    final_value: Option<u64>,
) -> Result<(), ReasonRefusal>
    ensures given { OnOk result (value_of trace.now.final_values location.now ≡ final_value → IsGivenLate trace.now location.now witness) }
    ensures refused { IfErr result (IsRefusedBy (λ cause. value_of trace.now.final_values location.now ≡ final_value → IsNoLateWitness trace.now location.now witness cause)) }
{
    let op = operation_of(trace, witness)?;
    if !hides_late(op, location, final_value) {
        return Err(ReasonRefusal::For(ReasonCause::NoWitness));
    }
    Ok(())
}

/// The same, if an operation is given.
fn want_late_front(
    trace: &Trace,
    witness: Option<OperationPlace>,
    location: &[u8],
    final_value: Option<u64>,
) -> Result<(), ReasonRefusal>
    ensures given { OnOk result (value_of trace.now.final_values location.now ≡ final_value → IfSome witness (IsGivenLate trace.now location.now)) }
    ensures refused { IfErr result (IsRefusedBy (λ cause. value_of trace.now.final_values location.now ≡ final_value → (x : Place) × (witness ≡ Some x) × IsNoLateWitness trace.now location.now x cause)) }
{
    match witness {
        Some(x) => want_late(trace, x, location, final_value),
        None => Ok(()),
    }
}

/// Refuses what is no witness among those of the processes.
fn want_late_fronts(
    trace: &Trace,
    pieces: &[ProcessPieces],
    location: &[u8],
    final_value: Option<u64>,
) -> Result<(), ReasonRefusal>
    ensures given { OnOk result (value_of trace.now.final_values location.now ≡ final_value → All (λ p. IfSome p.witness (IsGivenLate trace.now location.now)) pieces.now) }
    ensures refused { IfErr result (IsRefusedBy (λ cause. value_of trace.now.final_values location.now ≡ final_value → (x : Place) × IsWitnessOf pieces.now x × IsNoLateWitness trace.now location.now x cause)) }
{
    for piece in pieces {
        want_late_front(trace, piece.witness, location, final_value)?;
    }
    Ok(())
}

/// The witness of the main piece, if it has one.
fn main_witness(pieces: &SourcePieces) -> Option<OperationPlace>
    ensures { result ≡ witness_of pieces.now.main }
{
    match pieces.others() {
        MainPiece::Witness(x) => Some(x),
        MainPiece::Plain => None,
        MainPiece::Between(_between) => None,
    }
}

/// Refuses pieces with a witness that is none.
pub fn want_late_pieces(
    trace: &Trace,
    pieces: &SourcePieces,
    location: &[u8],
    final_value: Option<u64>,
) -> Result<(), ReasonRefusal>
    ensures given { OnOk result (value_of trace.now.final_values location.now ≡ final_value → AreGivenLate trace.now location.now pieces.now) }
    ensures refused { IfErr result (IsRefusedBy (λ cause. value_of trace.now.final_values location.now ≡ final_value → AreNotGivenLate trace.now location.now pieces.now cause)) }
{
    want_late_fronts(trace, pieces.processes(), location, final_value)?;
    want_late_front(trace, main_witness(pieces), location, final_value)?;
    Ok(())
}

/// The witness of the piece that takes the operation, if one does: that of its process up to the bound, and else that of the main piece. A bound of 0
/// takes nothing, since places are counted from 1.
pub fn late_witness(pieces: &SourcePieces, n: OperationPlace) -> Option<OperationPlace>
    ensures given { (t : TraceValue) (location : List ℕ) → AreGivenLate t location pieces.now → IfSome result (IsGivenLate t location) }
    ensures taker { result ≡ late_taker pieces.now n }
{
    let piece = pieces.of_process(n.process);
    if n.place <= piece.bound {
        return piece.witness;
    }
    main_witness(pieces)
}

/// Returns whether the value may be the final one.
pub fn may_be_final(final_value: Option<u64>, left: u64) -> bool
    ensures found { result ≡ false → MayBeFinal final_value left → ⊥ }
    ensures only { result ≡ true → MayBeFinal final_value left }
{
    match final_value {
        Some(value) => value == left,
        None => true,
    }
}

/// Bars what may be the last writer in a process: the last of its run, if it leaves the final value or there is none. Returns whether the
/// run has an operation. A run has the places at which a process writes the location; of an empty one the last is 0, and places count from 1.
fn bar_last(
    trace: &Trace,
    end: &EndWithPieces,
    run: &Run,
    orders: &mut Vec<OrderPair>,
) -> Result<bool, ReasonRefusal>
    requires final_value { value_of trace.now.final_values end.now.location.now ≡ end.now.final_value }
    requires run { IsWriterRun trace.now end.now.location.now run.now }
    ensures grows { OnOk result (Grows orders.old.items orders.new.items) }
    ensures bars { OnOk result (IsLastOfProcessBarred trace.now orders.new.items end.now.location.now end.now.pieces.now run.now.process) }
    ensures writes { IfOk result (λ does. MatchBool does (HasWriter trace.now end.now.location.now) ((k : ℕ) → IsUnwrittenBy trace.now end.now.location.now (at_number run.now.process k))) }
    ensures only { OnOk result (AddsOnly orders.old.items orders.new.items (IsLastOrder trace.now end.now.location.now end.now.pieces.now)) }
    ensures refused { IfErr result (IsRefusedBy (λ cause. (w : Place) × IsPossibleLast trace.now end.now.location.now w × IsLastWriterRefused end.now.pieces.now w cause)) }
{
    trace.recall_invariant();
    let bound = OperationPlace {
        process: run.process,
        place: last_of(&run.places),
    };
    let Some(left) = left_there(trace, bound, end.location) else {
        return Ok(false);
    };
    if !may_be_final(end.final_value, left) {
        return Ok(true);
    }
    let Some(x) = late_witness(end.pieces, bound) else {
        return Err(ReasonRefusal::For(ReasonCause::LastLeft));
    };
    if are_same(x, bound) {
        return Err(ReasonRefusal::For(ReasonCause::HidesItself));
    }
    push_order(orders, x, bound)?;
    Ok(true)
}

/// Bars what may be the last writer in these runs, and returns whether they have an operation.
fn bar_lasts(
    trace: &Trace,
    end: &EndWithPieces,
    runs: &[Run],
    orders: &mut Vec<OrderPair>,
) -> Result<bool, ReasonRefusal>
    requires final_value { value_of trace.now.final_values end.now.location.now ≡ end.now.final_value }
    requires runs { AreWriterRuns trace.now end.now.location.now runs.now }
    ensures bars { OnOk result (AreLastsBarred trace.now orders.new.items end.now.location.now end.now.pieces.now runs.now) }
    ensures writes { IfOk result (λ does. MatchBool does (HasWriter trace.now end.now.location.now) (HasWriter trace.now end.now.location.now → ⊥)) }
    ensures only { OnOk result (AddsOnly orders.old.items orders.new.items (IsLastOrder trace.now end.now.location.now end.now.pieces.now)) }
    ensures refused { IfErr result (IsRefusedBy (λ cause. (w : Place) × IsPossibleLast trace.now end.now.location.now w × IsLastWriterRefused end.now.pieces.now w cause)) }
{
    let mut is_written = false;
    for run in runs {
        let writes = bar_last(trace, end, run, orders)?;
        is_written |= writes;
    }
    Ok(is_written)
}

/// Refuses a location whose final value is the initial one, or that has none.
fn want_lost(trace: &Trace, location: &[u8], final_value: Option<u64>) -> Result<(), ReasonRefusal>
    ensures lost { OnOk result ((d : ℕ) × (final_value ≡ Some d) × (value_of trace.now.initial location.now ≢ Some d)) }
    ensures refused { IfErr result (IsRefusedBy (λ cause. ((d : ℕ) → final_value ≡ Some d → value_of trace.now.initial location.now ≡ Some d) × (cause ≡ NoWriter))) }
{
    let Some(value) = final_value else {
        return Err(ReasonRefusal::For(ReasonCause::NoWriter));
    };
    if is_held_at(trace.initial(), location, value) {
        return Err(ReasonRefusal::For(ReasonCause::NoWriter));
    }
    Ok(())
}

/// Appends the orders of which one stands, since the location has a last writer: the pieces say of each possible one what bars it. There are
/// none if no operation writes the location and its final value is not its initial one.
pub fn last_clause(
    trace: &Trace,
    writers: &WriterTables,
    location: &[u8],
    pieces: &SourcePieces,
    orders: &mut Vec<OrderPair>,
) -> Result<(), ReasonRefusal>
    requires { HoldTables trace.now writers.now }
    ensures made { OnOk result (Makes trace.now orders.new.items (IsLastOf trace.now location.now)) }
    ensures holds { OnOk result (HoldsOfSchedules trace.now (named_orders trace.now orders.new.items)) }
    ensures only { OnOk result (AddsOnly orders.old.items orders.new.items (IsLastOrder trace.now location.now pieces.now)) }
    ensures refused { IfErr result (IsRefusedBy (IsLastRefused trace.now location.now pieces.now)) }
{
    trace.recall_invariant();
    let final_value = value_at(trace.final_values(), location);
    want_late_pieces(trace, pieces, location, final_value)?;
    // A table by location asks for no value, so 0 stands for any.
    let runs = writers.by_location.runs(location, 0);
    let end = EndWithPieces {
        location,
        final_value,
        pieces,
    };
    let is_written = bar_lasts(trace, &end, runs, orders)?;
    if is_written {
        return Ok(());
    }
    want_lost(trace, location, final_value)?;
    Ok(())
}

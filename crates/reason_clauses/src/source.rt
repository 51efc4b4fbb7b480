//! The clause that a reading operation has a source. It says: one of the orders that would bar all of its possible sources does not hold.
//!
//! A source is barred if it stands behind the reader, or if a *witness* stands between them: another operation that writes the location, or reads another value there,
//! behind which no operation reads the value of the source. The *pieces* of a line say how the sources of each process are barred, stretch by stretch, and the *main piece*
//! how all others are.

ghost use Rattle.std.specs.Prelude.{◌≡◌, ◌≤◌, true, ℕ, Some, List, OnOk, IfErr};
ghost use Rattle.std.specs.List.{All, Contains};
ghost use Rattle.trace_semantics.specs.declared.operation.Origin.{Origin as Said};
ghost use Rattle.trace_semantics.specs.Trace.{TraceValue};
ghost use Rattle.writer_table.specs.declared.operation_place.OperationPlace.{OperationPlace as Place};
ghost use Rattle.order_reasons.specs.Orders.{HoldsOfSchedules};
ghost use Rattle.order_reasons.specs.Sources.{AllowsInitial, AllowsWriter, IsSourceClause};
ghost use Rattle.order_clauses.specs.Numbered.{named, named_orders, IsKnown};
ghost use Rattle.reason_clauses.specs.AddedOrders.{AddsOnly};
ghost use Rattle.reason_clauses.specs.Barred.{IsPlaceBarred, IsRunBarred, AreRunsBarred, IsStartBarred, AreSourcesBarred};
ghost use Rattle.reason_clauses.specs.Made.{Makes};
ghost use Rattle.reason_clauses.specs.Mains.{IsGivenMain};
ghost use Rattle.reason_clauses.specs.Numbered.{Grows, IsGivenFront, IsTaken, AreUpTo, at_number};
ghost use Rattle.reason_clauses.specs.Pieces.{AreGiven};
ghost use Rattle.reason_clauses.specs.LastRefused.{IsWitnessOf};
ghost use Rattle.reason_clauses.specs.RefusedBy.{IsRefusedBy};
ghost use Rattle.reason_clauses.specs.PossibleSources.{AreWholeRuns, IsInitialPossible, IsOtherRun, IsOwnExact, IsWholeRun};
ghost use Rattle.reason_clauses.specs.SourceRefused.{AreNotGiven, IsInitialOrder, IsInitialWitness, IsMainNotGiven, IsNoWitness, IsReaderOrder, IsReaderRefused, IsSourceOrder, IsSourceRefused, IsStretchOrder};
ghost use Rattle.reason_clauses.specs.StretchOrders.{AreStretchesOf};
ghost use Rattle.reason_clauses.specs.Tables.{HoldTables};

use crate::barring::{MainPiece, bar_process};
use crate::cause::{ReasonCause, ReasonRefusal};
use crate::held_at::is_held_at;
use crate::lookups::{is_named, operation_of, want_front, want_witness};
use crate::orders::push_order;
use crate::own::{last_to, own_source};
use crate::pieces::{ProcessPieces, SourcePieces};
use crate::reader::{ReadValue, ReaderWithPieces, value_read_by};
use crate::stretches::{Stretches, no_stretches, stretches_of, stretches_of_one};
use crate::writer_tables::WriterTables;
use order_clauses::order_pair::OrderPair;
use trace_semantics::operation::{OpName, Origin};
use trace_semantics::trace::Trace;
use writer_table::operation_place::OperationPlace;
use writer_table::runs::Run;

/// Refuses what is no witness among those of the processes.
fn want_fronts(
    trace: &Trace,
    reader: OperationPlace,
    location: &[u8],
    value: u64,
    pieces: &[ProcessPieces],
) -> Result<(), ReasonRefusal>
    ensures given { OnOk result (IsKnown trace.now reader → All (λ p. IsGivenFront trace.now location.now value reader p.witness) pieces.now) }
    ensures refused { IfErr result (IsRefusedBy (λ cause. (x : Place) × IsWitnessOf pieces.now x × IsNoWitness trace.now location.now value reader x cause)) }
{
    for piece in pieces {
        want_front(trace, reader, piece.witness, location, value)?;
    }
    Ok(())
}

/// Refuses a main piece whose witness is none, or whose operation the trace has not.
fn want_main(
    trace: &Trace,
    reader: OperationPlace,
    location: &[u8],
    value: u64,
    main: MainPiece,
) -> Result<(), ReasonRefusal>
    ensures given { OnOk result (IsKnown trace.now reader → IsGivenMain trace.now location.now value reader main) }
    ensures refused { IfErr result (IsRefusedBy (IsMainNotGiven trace.now location.now value reader main)) }
{
    match main {
        MainPiece::Plain => Ok(()),
        MainPiece::Witness(x) => want_witness(trace, reader, x, location, value),
        MainPiece::Between(u) => {
            let _op = operation_of(trace, u)?;
            Ok(())
        }
    }
}

/// Refuses pieces with a witness that is none, or an operation that the trace has not.
pub fn want_pieces(
    trace: &Trace,
    reader: OperationPlace,
    location: &[u8],
    value: u64,
    pieces: &SourcePieces,
) -> Result<(), ReasonRefusal>
    ensures given { OnOk result (IsKnown trace.now reader → AreGiven trace.now location.now value reader pieces.now) }
    ensures refused { IfErr result (IsRefusedBy (AreNotGiven trace.now location.now value reader pieces.now)) }
{
    want_fronts(trace, reader, location, value, pieces.processes())?;
    want_front(trace, reader, pieces.initial(), location, value)?;
    want_main(trace, reader, location, value, pieces.others())?;
    Ok(())
}

/// The stretches of the named operation, if the run has it: if its process is that of the run, and its place is one of the run's places.
fn stretches_named(trace: &Trace, name: &OpName, run: &Run, piece: ProcessPieces) -> Stretches
    ensures taken { (k : ℕ) → IsKnown trace.now (at_number run.now.process k) → Contains run.now.places k → named trace.now (at_number run.now.process k) ≡ name.now → IsTaken result k }
    ensures most { (n : ℕ) → All (λ p. p ≤ n) run.now.places → AreUpTo result n }
    ensures only { AreStretchesOf (λ k. Contains run.now.places k × (named trace.now (at_number run.now.process k) ≡ name.now)) piece.bound piece.limit result }
{
    let place = u32::from(name.place);
    let n = OperationPlace {
        process: run.process,
        place,
    };
    if place != 0 && is_named(trace, n, name) && last_to(&run.places, place) == place {
        stretches_of_one(place, piece.bound, piece.limit)
    } else {
        no_stretches()
    }
}

/// The stretches of what a reader may read from in a run, by what is said of where its value comes from.
pub fn stretches_allowed(
    trace: &Trace,
    origin: &Origin,
    run: &Run,
    piece: ProcessPieces,
) -> Stretches
    ensures taken { All (λ p. 1 ≤ p) run.now.places → (k : ℕ) → IsKnown trace.now (at_number run.now.process k) → Contains run.now.places k → AllowsWriter origin.now (named trace.now (at_number run.now.process k)) → IsTaken result k }
    ensures most { (n : ℕ) → All (λ p. p ≤ n) run.now.places → AreUpTo result n }
    ensures only { AreStretchesOf (λ k. Contains run.now.places k × AllowsWriter origin.now (named trace.now (at_number run.now.process k))) piece.bound piece.limit result }
{
    match origin {
        Origin::Any => stretches_of(&run.places, piece.bound, piece.limit),
        Origin::Initial => no_stretches(),
        Origin::Operation(name) => stretches_named(trace, name, run, piece),
    }
}

/// Bars the source in the reader's own process, of which this is the place, or 0.
fn bar_own(
    trace: &Trace,
    reader: &ReaderWithPieces<'_, '_>,
    own: u32,
    orders: &mut Vec<OrderPair>,
) -> Result<(), ReasonRefusal>
    ensures grows { OnOk result (Grows orders.old.items orders.new.items) }
    ensures bars { OnOk result (IsPlaceBarred trace.now orders.new.items reader.now.operation reader.now.pieces.now (at_number reader.now.operation.process own)) }
    ensures only { OnOk result ((origin : Said) (location : List ℕ) (d : ℕ) → IsOwnExact trace.now reader.now.operation origin location d own → AddsOnly orders.old.items orders.new.items (IsStretchOrder trace.now reader.now.operation reader.now.pieces.now origin location d)) }
    ensures refused { IfErr result (IsRefusedBy (λ cause. (origin : Said) (location : List ℕ) (d : ℕ) → IsOwnExact trace.now reader.now.operation origin location d own → IsReaderRefused trace.now reader.now.operation reader.now.pieces.now origin location d cause)) }
{
    trace.recall_invariant();
    if own == 0 {
        return Ok(());
    }
    let piece = reader.pieces.of_process(reader.operation.process);
    let s = stretches_of_one(own, piece.bound, piece.limit);
    bar_process(
        orders,
        reader.operation,
        reader.operation.process,
        s,
        piece.witness,
        reader.pieces.others(),
    )?;
    Ok(())
}

/// Bars the sources in a run.
fn bar_other(
    trace: &Trace,
    reader: &ReaderWithPieces<'_, '_>,
    run: &Run,
    orders: &mut Vec<OrderPair>,
) -> Result<(), ReasonRefusal>
    ensures grows { OnOk result (Grows orders.old.items orders.new.items) }
    ensures bars { OnOk result ((own : ℕ) → IsRunBarred trace.now orders.new.items reader.now.operation reader.now.read.origin.now own reader.now.pieces.now run.now) }
    ensures only { OnOk result ((location : List ℕ) (d : ℕ) → IsOtherRun trace.now reader.now.operation location d run.now → AddsOnly orders.old.items orders.new.items (IsStretchOrder trace.now reader.now.operation reader.now.pieces.now reader.now.read.origin.now location d)) }
    ensures refused { IfErr result (IsRefusedBy (λ cause. (location : List ℕ) (d : ℕ) → IsOtherRun trace.now reader.now.operation location d run.now → IsReaderRefused trace.now reader.now.operation reader.now.pieces.now reader.now.read.origin.now location d cause)) }
{
    trace.recall_invariant();
    let piece = reader.pieces.of_process(run.process);
    let s = stretches_allowed(trace, reader.read.origin, run, piece);
    bar_process(
        orders,
        reader.operation,
        run.process,
        s,
        piece.witness,
        reader.pieces.others(),
    )?;
    Ok(())
}

/// Bars the sources in a run; in the reader's own process that is the one of this place, or none. If that place is not 0, the run
/// has it, since the runs are of the writers of the value.
fn bar_run(
    trace: &Trace,
    reader: &ReaderWithPieces<'_, '_>,
    own: u32,
    run: &Run,
    orders: &mut Vec<OrderPair>,
) -> Result<(), ReasonRefusal>
    ensures grows { OnOk result (Grows orders.old.items orders.new.items) }
    ensures bars { OnOk result (IsRunBarred trace.now orders.new.items reader.now.operation reader.now.read.origin.now own reader.now.pieces.now run.now) }
    ensures only { OnOk result ((location : List ℕ) (d : ℕ) → IsWholeRun trace.now location d run.now → IsOwnExact trace.now reader.now.operation reader.now.read.origin.now location d own → AddsOnly orders.old.items orders.new.items (IsStretchOrder trace.now reader.now.operation reader.now.pieces.now reader.now.read.origin.now location d)) }
    ensures refused { IfErr result (IsRefusedBy (λ cause. (location : List ℕ) (d : ℕ) → IsWholeRun trace.now location d run.now → IsOwnExact trace.now reader.now.operation reader.now.read.origin.now location d own → IsReaderRefused trace.now reader.now.operation reader.now.pieces.now reader.now.read.origin.now location d cause)) }
{
    if run.process == reader.operation.process {
        bar_own(trace, reader, own, orders)?;
    } else {
        bar_other(trace, reader, run, orders)?;
    }
    Ok(())
}

/// Bars the sources in these runs.
fn bar_runs(
    trace: &Trace,
    reader: &ReaderWithPieces<'_, '_>,
    own: u32,
    runs: &[Run],
    orders: &mut Vec<OrderPair>,
) -> Result<(), ReasonRefusal>
    ensures grows { OnOk result (Grows orders.old.items orders.new.items) }
    ensures bars { OnOk result (AreRunsBarred trace.now orders.new.items reader.now.operation reader.now.read.origin.now own reader.now.pieces.now runs.now) }
    ensures only { OnOk result ((location : List ℕ) (d : ℕ) → AreWholeRuns trace.now location d runs.now → IsOwnExact trace.now reader.now.operation reader.now.read.origin.now location d own → AddsOnly orders.old.items orders.new.items (IsStretchOrder trace.now reader.now.operation reader.now.pieces.now reader.now.read.origin.now location d)) }
    ensures refused { IfErr result (IsRefusedBy (λ cause. (location : List ℕ) (d : ℕ) → AreWholeRuns trace.now location d runs.now → IsOwnExact trace.now reader.now.operation reader.now.read.origin.now location d own → IsReaderRefused trace.now reader.now.operation reader.now.pieces.now reader.now.read.origin.now location d cause)) }
{
    for run in runs {
        bar_run(trace, reader, own, run, orders)?;
    }
    Ok(())
}

/// Returns whether a value may be the initial one, by what is said of it.
pub fn is_from_start(origin: &Origin) -> bool
    ensures found { AllowsInitial origin.now → result ≡ true }
    ensures only { result ≡ true → AllowsInitial origin.now }
{
    match origin {
        Origin::Any => true,
        Origin::Initial => true,
        Origin::Operation(_name) => false,
    }
}

/// Returns whether a reader may read the value as the initial one, by what is said of where it comes from.
fn may_be_initial(trace: &Trace, read: &ReadValue) -> bool
    ensures found { IsInitialPossible trace.now read.now.origin.now read.now.location.now read.now.value → result ≡ true }
    ensures only { result ≡ true → IsInitialPossible trace.now read.now.origin.now read.now.location.now read.now.value }
{
    if !is_from_start(read.origin) {
        return false;
    }
    is_held_at(trace.initial(), read.location, read.value)
}

/// The witness of the pieces against the initial value: that of its own piece, and else that of a main piece by a witness, which takes it with all
/// others.
fn start_witness(pieces: &SourcePieces) -> Option<OperationPlace>
    ensures given { (t : TraceValue) (location : List ℕ) (d : ℕ) (r : Place) → AreGiven t location d r pieces.now → IsGivenFront t location d r result }
    ensures found { (x : Place) → IsInitialWitness pieces.now x → result ≡ Some x }
    ensures only { (x : Place) → result ≡ Some x → IsInitialWitness pieces.now x }
{
    if pieces.initial().is_some() {
        return pieces.initial();
    }
    match pieces.others() {
        MainPiece::Witness(x) => Some(x),
        MainPiece::Plain => None,
        MainPiece::Between(_between) => None,
    }
}

/// Bars the initial value by a witness after the reader, if the reader may read it.
fn bar_start(
    trace: &Trace,
    reader: &ReaderWithPieces<'_, '_>,
    orders: &mut Vec<OrderPair>,
) -> Result<(), ReasonRefusal>
    ensures grows { OnOk result (Grows orders.old.items orders.new.items) }
    ensures bars { OnOk result (IsStartBarred trace.now orders.new.items reader.now.operation reader.now.read.origin.now reader.now.pieces.now reader.now.read.location.now reader.now.read.value) }
    ensures only { OnOk result (AddsOnly orders.old.items orders.new.items (IsInitialOrder trace.now reader.now.operation reader.now.pieces.now reader.now.read.origin.now reader.now.read.location.now reader.now.read.value)) }
    ensures refused { IfErr result (IsRefusedBy (IsReaderRefused trace.now reader.now.operation reader.now.pieces.now reader.now.read.origin.now reader.now.read.location.now reader.now.read.value)) }
{
    if !may_be_initial(trace, &reader.read) {
        return Ok(());
    }
    let Some(x) = start_witness(reader.pieces) else {
        return Err(ReasonRefusal::For(ReasonCause::InitialLeft));
    };
    push_order(orders, reader.operation, x)?;
    Ok(())
}

/// Bars all sources of the reader. The source in its own process is found in the table by location, since a later writer of another value hides those
/// before it.
fn bar_sources(
    trace: &Trace,
    writers: &WriterTables,
    reader: &ReaderWithPieces<'_, '_>,
    orders: &mut Vec<OrderPair>,
) -> Result<(), ReasonRefusal>
    requires { HoldTables trace.now writers.now }
    ensures bars { OnOk result (AreSourcesBarred trace.now orders.new.items reader.now.operation reader.now.read.origin.now reader.now.pieces.now reader.now.read.location.now reader.now.read.value) }
    ensures only { OnOk result (AddsOnly orders.old.items orders.new.items (IsReaderOrder trace.now reader.now.operation reader.now.pieces.now reader.now.read.origin.now reader.now.read.location.now reader.now.read.value)) }
    ensures refused { IfErr result (IsRefusedBy (IsReaderRefused trace.now reader.now.operation reader.now.pieces.now reader.now.read.origin.now reader.now.read.location.now reader.now.read.value)) }
{
    trace.recall_invariant();
    let own = own_source(
        trace,
        &writers.by_location,
        reader.operation,
        reader.read.location,
        reader.read.value,
        reader.read.origin,
    );
    let runs = writers
        .by_value
        .runs(reader.read.location, reader.read.value);
    bar_runs(trace, reader, own, runs, orders)?;
    bar_start(trace, reader, orders)?;
    Ok(())
}

/// Appends the orders of which one stands, since the reader has a source: the pieces say of each possible one what bars it.
pub fn source_clause(
    trace: &Trace,
    writers: &WriterTables,
    reader: OperationPlace,
    pieces: &SourcePieces,
    orders: &mut Vec<OrderPair>,
) -> Result<(), ReasonRefusal>
    requires { HoldTables trace.now writers.now }
    ensures made { OnOk result (Makes trace.now orders.new.items (λ clause. IsSourceClause trace.now clause (named trace.now reader))) }
    ensures holds { OnOk result (HoldsOfSchedules trace.now (named_orders trace.now orders.new.items)) }
    ensures only { OnOk result (AddsOnly orders.old.items orders.new.items (IsSourceOrder trace.now reader pieces.now)) }
    ensures refused { IfErr result (IsRefusedBy (IsSourceRefused trace.now reader pieces.now)) }
{
    let read = value_read_by(trace, reader)?;
    want_pieces(trace, reader, read.location, read.value, pieces)?;
    let reader_with_pieces = ReaderWithPieces {
        operation: reader,
        read,
        pieces,
    };
    bar_sources(trace, writers, &reader_with_pieces, orders)?;
    Ok(())
}

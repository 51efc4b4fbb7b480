//! What pieces leave of the sources of a reader.
//!
//! A piece of a line of a certificate takes a stretch of the possible sources in one process, or the initial value, and bars them: it appends orders of which
//! one stands if the reader reads from there. What no piece takes is left; of a process that is the main stretch, which an `s` line bars too (docs/REASONS.md).
//!
//! In its own process a reader has one possible source or none: the last writer of the location before it, if that leaves the value. In each other process all
//! writers of the value are possible, if the trace does not say from where it reads.
//!
//! A run has the places of these writers in one process, in order: pieces take those up to a bound, by a witness that hides them, and those from a limit on,
//! and the main stretch is what lies between. `bar_taken_other` is for runs of other processes than the reader's.

ghost use Rattle.std.specs.Prelude.{◌≡◌, ◌⊎◌, true, ℕ, List, OnOk, IfOk, IfErr};
ghost use Rattle.trace_semantics.specs.declared.operation.OpName.{OpName};
ghost use Rattle.trace_semantics.specs.declared.operation.Origin.{Origin as Source};
ghost use Rattle.order_clauses.specs.Numbered.{named};
ghost use Rattle.order_reasons.specs.Sources.{BarsSources};
ghost use Rattle.reason_clauses.specs.AddedOrders.{AddsOnly};
ghost use Rattle.reason_clauses.specs.Numbered.{Grows, AreIn, AreTaken, BarsPlaces, IsGivenFront, at_number};
ghost use Rattle.reason_clauses.specs.Mains.{IsGivenMain};
ghost use Rattle.reason_clauses.specs.PossibleSources.{AreWholeRuns, IsOtherRun, IsOwnExact, IsWholeRun};
ghost use Rattle.reason_clauses.specs.RefusedBy.{IsRefusedBy};
ghost use Rattle.reason_clauses.specs.SourceRefused.{IsInitialOrder, IsPartlyRefused, IsPieceOrder};
ghost use Rattle.reason_clauses.specs.StretchOrders.{IsTakenOrder, IsTakenRefused};
ghost use Rattle.reason_clauses.specs.Tables.{HoldTables};
ghost use Rattle.reason_clauses.specs.declared.barring.MainPiece.TheVariants.{Plain};
ghost use Rattle.reason_counting.specs.Left.{AreMore, AreRunsLeft, AreSourcesLeft, IsLeft, IsMainLeft, IsMainStretch, KeepsOnly, IsPlaceLeft, IsRunLeft, IsStartLeft, without_main};
ghost use Rattle.reason_counting.specs.OtherSources.{AreOthers, IsInitialOther, IsOtherStretch, IsPartOrder, IsPartRefused, TakesOnly};

use order_clauses::order_pair::OrderPair;
use reason_clauses::barring::{MainPiece, bar_process};
use reason_clauses::cause::ReasonRefusal;
use reason_clauses::held_at::is_held_at;
use reason_clauses::orders::push_order;
use reason_clauses::own::own_source;
use reason_clauses::pieces::SourcePieces;
use reason_clauses::reader::{ReaderWithPieces, value_read_by};
use reason_clauses::source::{is_from_start, stretches_allowed, want_pieces};
use reason_clauses::stretches::{Stretches, stretches_of_one};
use reason_clauses::writer_tables::WriterTables;
use std::alloc::{AllocError, Global};
use trace_semantics::trace::Trace;
use writer_table::operation_place::OperationPlace;
use writer_table::runs::Run;

/// Writers of a value in one process, from the first place to the last. Both are counted from 1 and belong to it. Of the operations between them only those
/// count that leave the value at the location of the `LeftSources`.
#[derive(Clone, Copy, Debug, PartialEq, Eq)]
pub struct LeftStretch {
    pub process: u32,
    pub value: u64,
    pub first: u32,
    pub last: u32,
}

/// What pieces leave of the sources at a location.
#[derive(Drop)]
pub struct LeftSources<'a> {
    pub location: &'a [u8],
    pub stretches: Vec<LeftStretch>,
    /// Whether the initial value is a source that no piece takes.
    pub is_initial_left: bool,
}

/// Keeps the main stretch of the process, if it has one.
fn keep_main(
    left: &mut Vec<LeftStretch>,
    value: u64,
    process: u32,
    s: Stretches,
) -> Result<(), AllocError>
    ensures more { OnOk result (AreMore left.old.items left.new.items) }
    ensures kept { OnOk result (IsMainLeft left.new.items value process s) }
    ensures only { OnOk result (KeepsOnly left.old.items left.new.items (IsMainStretch value process s)) }
{
    if s.first == 0 {
        return Ok(());
    }
    left.push(LeftStretch {
        process,
        value,
        first: s.first,
        last: s.last,
    })?;
    Ok(())
}

/// Bars what a piece takes of a process, and keeps the main stretch: `bar_process` gets the stretches without it, so the main piece that is named there
/// bars nothing.
fn bar_taken(
    orders: &mut Vec<OrderPair>,
    reader: &ReaderWithPieces<'_, '_>,
    process: u32,
    s: Stretches,
    witness: Option<OperationPlace>,
    left: &mut Vec<LeftStretch>,
) -> Result<(), ReasonRefusal>
    ensures grows { OnOk result (Grows orders.old.items orders.new.items) }
    ensures more { OnOk result (AreMore left.old.items left.new.items) }
    ensures bars { OnOk result (BarsPlaces orders.new.items reader.now.operation process (λ t location d. IsGivenFront t location d reader.now.operation witness × IsGivenMain t location d reader.now.operation Plain) (AreTaken (without_main s))) }
    ensures kept { OnOk result (IsMainLeft left.new.items reader.now.read.value process s) }
    ensures only { OnOk result (AddsOnly orders.old.items orders.new.items (IsTakenOrder reader.now.operation process s witness)) }
    ensures left { OnOk result (KeepsOnly left.old.items left.new.items (IsMainStretch reader.now.read.value process s)) }
    ensures refused { IfErr result (IsRefusedBy (IsTakenRefused process s witness)) }
{
    let taken = Stretches {
        hidden: s.hidden,
        later: s.later,
        first: 0,
        last: 0,
    };
    bar_process(
        orders,
        reader.operation,
        process,
        taken,
        witness,
        MainPiece::Plain,
    )?;
    keep_main(left, reader.read.value, process, s)?;
    Ok(())
}

/// Bars the source in the reader's own process, of which this is the place, or 0, or keeps it.
fn bar_taken_own(
    trace: &Trace,
    reader: &ReaderWithPieces<'_, '_>,
    own: u32,
    orders: &mut Vec<OrderPair>,
    left: &mut Vec<LeftStretch>,
) -> Result<(), ReasonRefusal>
    ensures grows { OnOk result (Grows orders.old.items orders.new.items) }
    ensures more { OnOk result (AreMore left.old.items left.new.items) }
    ensures bars { OnOk result (IsPlaceLeft trace.now orders.new.items left.new.items reader.now.read.value reader.now.operation reader.now.pieces.now (at_number reader.now.operation.process own)) }
    ensures only { OnOk result ((origin : Source) (location : List ℕ) → IsOwnExact trace.now reader.now.operation origin location reader.now.read.value own → TakesOnly trace.now reader.now.operation reader.now.pieces.now origin location reader.now.read.value orders.old.items orders.new.items left.old.items left.new.items) }
    ensures refused { IfErr result (IsRefusedBy (λ cause. (origin : Source) (location : List ℕ) → IsOwnExact trace.now reader.now.operation origin location reader.now.read.value own → IsPartlyRefused trace.now reader.now.operation reader.now.pieces.now origin location reader.now.read.value cause)) }
{
    trace.recall_invariant();
    if own == 0 {
        return Ok(());
    }
    let piece = reader.pieces.of_process(reader.operation.process);
    let s = stretches_of_one(own, piece.bound, piece.limit);
    bar_taken(
        orders,
        reader,
        reader.operation.process,
        s,
        piece.witness,
        left,
    )?;
    Ok(())
}

/// Bars the sources in a run that a piece takes, and keeps the others.
fn bar_taken_other(
    trace: &Trace,
    reader: &ReaderWithPieces<'_, '_>,
    run: &Run,
    orders: &mut Vec<OrderPair>,
    left: &mut Vec<LeftStretch>,
) -> Result<(), ReasonRefusal>
    ensures grows { OnOk result (Grows orders.old.items orders.new.items) }
    ensures more { OnOk result (AreMore left.old.items left.new.items) }
    ensures bars { OnOk result ((own : ℕ) → IsRunLeft trace.now orders.new.items left.new.items reader.now.read.value reader.now.operation reader.now.read.origin.now own reader.now.pieces.now run.now) }
    ensures only { OnOk result ((location : List ℕ) → IsOtherRun trace.now reader.now.operation location reader.now.read.value run.now → TakesOnly trace.now reader.now.operation reader.now.pieces.now reader.now.read.origin.now location reader.now.read.value orders.old.items orders.new.items left.old.items left.new.items) }
    ensures refused { IfErr result (IsRefusedBy (λ cause. (location : List ℕ) → IsOtherRun trace.now reader.now.operation location reader.now.read.value run.now → IsPartlyRefused trace.now reader.now.operation reader.now.pieces.now reader.now.read.origin.now location reader.now.read.value cause)) }
{
    trace.recall_invariant();
    let piece = reader.pieces.of_process(run.process);
    let s = stretches_allowed(trace, reader.read.origin, run, piece);
    bar_taken(orders, reader, run.process, s, piece.witness, left)?;
    Ok(())
}

/// The same; in the reader's own process that is the source at this place, or none if it is 0.
fn bar_taken_run(
    trace: &Trace,
    reader: &ReaderWithPieces<'_, '_>,
    own: u32,
    run: &Run,
    orders: &mut Vec<OrderPair>,
    left: &mut Vec<LeftStretch>,
) -> Result<(), ReasonRefusal>
    ensures grows { OnOk result (Grows orders.old.items orders.new.items) }
    ensures more { OnOk result (AreMore left.old.items left.new.items) }
    ensures bars { OnOk result (IsRunLeft trace.now orders.new.items left.new.items reader.now.read.value reader.now.operation reader.now.read.origin.now own reader.now.pieces.now run.now) }
    ensures only { OnOk result ((location : List ℕ) → IsOwnExact trace.now reader.now.operation reader.now.read.origin.now location reader.now.read.value own → IsWholeRun trace.now location reader.now.read.value run.now → TakesOnly trace.now reader.now.operation reader.now.pieces.now reader.now.read.origin.now location reader.now.read.value orders.old.items orders.new.items left.old.items left.new.items) }
    ensures refused { IfErr result (IsRefusedBy (λ cause. (location : List ℕ) → IsOwnExact trace.now reader.now.operation reader.now.read.origin.now location reader.now.read.value own → IsWholeRun trace.now location reader.now.read.value run.now → IsPartlyRefused trace.now reader.now.operation reader.now.pieces.now reader.now.read.origin.now location reader.now.read.value cause)) }
{
    if run.process == reader.operation.process {
        bar_taken_own(trace, reader, own, orders, left)?;
    } else {
        bar_taken_other(trace, reader, run, orders, left)?;
    }
    Ok(())
}

/// Bars the sources in these runs that a piece takes, and keeps the others.
fn bar_taken_runs(
    trace: &Trace,
    reader: &ReaderWithPieces<'_, '_>,
    own: u32,
    runs: &[Run],
    orders: &mut Vec<OrderPair>,
    left: &mut Vec<LeftStretch>,
) -> Result<(), ReasonRefusal>
    ensures grows { OnOk result (Grows orders.old.items orders.new.items) }
    ensures bars { OnOk result (AreRunsLeft trace.now orders.new.items left.new.items reader.now.read.value reader.now.operation reader.now.read.origin.now own reader.now.pieces.now runs.now) }
    ensures only { OnOk result ((location : List ℕ) → IsOwnExact trace.now reader.now.operation reader.now.read.origin.now location reader.now.read.value own → AreWholeRuns trace.now location reader.now.read.value runs.now → TakesOnly trace.now reader.now.operation reader.now.pieces.now reader.now.read.origin.now location reader.now.read.value orders.old.items orders.new.items left.old.items left.new.items) }
    ensures refused { IfErr result (IsRefusedBy (λ cause. (location : List ℕ) → IsOwnExact trace.now reader.now.operation reader.now.read.origin.now location reader.now.read.value own → AreWholeRuns trace.now location reader.now.read.value runs.now → IsPartlyRefused trace.now reader.now.operation reader.now.pieces.now reader.now.read.origin.now location reader.now.read.value cause)) }
{
    for run in runs {
        bar_taken_run(trace, reader, own, run, orders, left)?;
    }
    Ok(())
}

/// Bars the initial value, if the reader may read it and a piece takes it. Returns whether it is left.
fn bar_taken_start(
    trace: &Trace,
    reader: &ReaderWithPieces<'_, '_>,
    orders: &mut Vec<OrderPair>,
) -> Result<bool, ReasonRefusal>
    ensures grows { OnOk result (Grows orders.old.items orders.new.items) }
    ensures bars { IfOk result (λ is_left. IsStartLeft trace.now orders.new.items is_left reader.now.operation reader.now.read.origin.now reader.now.pieces.now reader.now.read.location.now reader.now.read.value) }
    ensures only { OnOk result (AddsOnly orders.old.items orders.new.items (IsInitialOrder trace.now reader.now.operation reader.now.pieces.now reader.now.read.origin.now reader.now.read.location.now reader.now.read.value)) }
    ensures left { IfOk result (λ is_left. is_left ≡ true → IsInitialOther trace.now reader.now.pieces.now reader.now.read.origin.now reader.now.read.location.now reader.now.read.value) }
    ensures refused { IfErr result (IsRefusedBy (λ cause. ⊥)) }
{
    if !is_from_start(reader.read.origin)
        || !is_held_at(trace.initial(), reader.read.location, reader.read.value)
    {
        return Ok(false);
    }
    let Some(x) = reader.pieces.initial() else {
        return Ok(true);
    };
    push_order(orders, reader.operation, x)?;
    Ok(false)
}

/// Bars the sources of the reader that a piece takes, and keeps the others. Returns whether the initial value is left.
fn bar_taken_sources(
    trace: &Trace,
    writers: &WriterTables,
    reader: &ReaderWithPieces<'_, '_>,
    orders: &mut Vec<OrderPair>,
    left: &mut Vec<LeftStretch>,
) -> Result<bool, ReasonRefusal>
    requires { HoldTables trace.now writers.now }
    ensures grows { OnOk result (Grows orders.old.items orders.new.items) }
    ensures bars { IfOk result (λ is_left. AreSourcesLeft trace.now writers.now.by_value orders.new.items left.new.items is_left reader.now.operation reader.now.read.origin.now reader.now.pieces.now reader.now.read.location.now reader.now.read.value) }
    ensures only { OnOk result (AddsOnly orders.old.items orders.new.items (λ o. IsPieceOrder trace.now reader.now.operation reader.now.pieces.now reader.now.read.origin.now reader.now.read.location.now reader.now.read.value o ⊎ IsInitialOrder trace.now reader.now.operation reader.now.pieces.now reader.now.read.origin.now reader.now.read.location.now reader.now.read.value o)) }
    ensures stretches { OnOk result (KeepsOnly left.old.items left.new.items (IsOtherStretch trace.now reader.now.operation reader.now.pieces.now reader.now.read.origin.now reader.now.read.location.now reader.now.read.value)) }
    ensures left { IfOk result (λ is_left. is_left ≡ true → IsInitialOther trace.now reader.now.pieces.now reader.now.read.origin.now reader.now.read.location.now reader.now.read.value) }
    ensures refused { IfErr result (IsRefusedBy (IsPartlyRefused trace.now reader.now.operation reader.now.pieces.now reader.now.read.origin.now reader.now.read.location.now reader.now.read.value)) }
{
    trace.recall_invariant();
    let own = own_source(
        trace,
        &writers.by_location,
        reader.operation,
        reader.read.location,
        reader.read.value,
        reader.read.origin,
    );
    let runs = writers
        .by_value
        .runs(reader.read.location, reader.read.value);
    bar_taken_runs(trace, reader, own, runs, orders, left)?;
    let is_left = bar_taken_start(trace, reader, orders)?;
    Ok(is_left)
}

/// Appends what bars the sources of the reader that a piece takes, and returns the others. A main piece takes none here: the makers of lines that call
/// this have no such piece.
pub fn left_sources<'a>(
    alloc: Global,
    trace: &'a Trace,
    writers: &WriterTables,
    reader: OperationPlace,
    pieces: &SourcePieces,
    orders: &mut Vec<OrderPair>,
) -> Result<LeftSources<'a>, ReasonRefusal>
    requires { HoldTables trace.now writers.now }
    ensures grows { OnOk result (Grows orders.old.items orders.new.items) }
    ensures bars { IfOk result (λ left. (clause : List (OpName × OpName)) → AreIn trace.now orders.new.items clause → BarsSources trace.now clause (named trace.now reader) (IsLeft trace.now writers.now.by_value left)) }
    ensures only { OnOk result (AddsOnly orders.old.items orders.new.items (IsPartOrder trace.now reader pieces.now)) }
    ensures left { IfOk result (AreOthers trace.now reader pieces.now) }
    ensures refused { IfErr result (IsRefusedBy (IsPartRefused trace.now reader pieces.now)) }
{
    let read = value_read_by(trace, reader)?;
    want_pieces(trace, reader, read.location, read.value, pieces)?;
    let reader_with_pieces = ReaderWithPieces {
        operation: reader,
        read,
        pieces,
    };
    let mut stretches = Vec::new(alloc);
    let is_initial_left = bar_taken_sources(
        trace,
        writers,
        &reader_with_pieces,
        orders,
        &mut stretches,
    )?;
    Ok(LeftSources {
        location: read.location,
        stretches,
        is_initial_left,
    })
}

//! The clause that of some operations one comes first.
//!
//! A waiting set is operations of which each has to wait for one of them, unless an order of the clause stands; since one of them comes first, some order does.
//! A piece takes a stretch of a reader's possible sources, or the initial value, and bars them: of its orders one stands if the reader reads from there.

ghost use Rattle.std.specs.Prelude.{◌≡◌, ◌≤◌, ◌<◌, ◌⊎◌, true, false, ◌∷◌, ◌++◌, [], List, length, map, OnOk, IfOk, IfErr, slice_index_or};
ghost use Rattle.writer_table.specs.declared.operation_place.OperationPlace.{OperationPlace as Place};
ghost use Rattle.order_clauses.specs.Numbered.{named, named_orders, IsKnown};
ghost use Rattle.order_reasons.specs.Orders.{HoldsOfSchedules};
ghost use Rattle.order_reasons.specs.Waiting.{IsBehindOne, IsWaitingClause};
ghost use Rattle.reason_clauses.specs.AddedOrders.{AddsOnly, IsOrder};
ghost use Rattle.reason_clauses.specs.Made.{Makes};
ghost use Rattle.reason_clauses.specs.Numbered.{Grows, at_number};
ghost use Rattle.reason_clauses.specs.RefusedBy.{IsRefusedBy};
ghost use Rattle.reason_clauses.specs.Tables.{HoldTables};
ghost use Rattle.reason_counting.specs.OtherSources.{IsPartOrder};
ghost use Rattle.reason_counting.specs.WaitingRefused.{IsAwaitedOrder, IsAwaitedRefused, IsBehindRefused, IsSomeBehindRefused, IsSourceWaitRefused, IsWaitRefused, IsWaitingOrder, IsWaitingRefused};
ghost use Rattle.reason_counting.specs.WaitingSet.{AreBehind, AreFirst, AreFirstKnown, HoldMembers, IsStretchBehind, MustWait, operations_of};

use crate::left_sources::{LeftStretch, left_sources};
use order_clauses::order_pair::OrderPair;
use order_reasons::laws::one_comes_first;
use reason_clauses::cause::{ReasonCause, ReasonRefusal};
use reason_clauses::lookups::{are_same, operation_of};
use reason_clauses::orders::push_order;
use reason_clauses::pieces::SourcePieces;
use reason_clauses::writer_tables::WriterTables;
use std::alloc::{AllocError, Global};
use trace_semantics::trace::Trace;
use writer_table::operation_place::OperationPlace;

/// Why an operation is not the first of its waiting set.
#[derive(Drop)]
pub enum WaitsFor {
    /// This operation, which is not first, stands before it.
    Operation(OperationPlace),
    /// It reads, and its sources that no piece takes are not first.
    Source(SourcePieces),
}

/// An operation of a waiting set.
#[derive(Drop)]
pub struct Waiter {
    pub operation: OperationPlace,
    pub awaited: WaitsFor,
}

/// Operations of a trace that wait, by the first of each process.
#[derive(Clone, Copy)]
struct WaitingSet<'a> {
    trace: &'a Trace,
    /// For each process the place of its first operation that waits, or 0 if none waits.
    first: &'a [u32],
}

/// Returns whether a place comes before another one, or there is no other one. Places are counted from 1.
fn is_earlier(place: u32, other: u32) -> bool
    ensures earlier { result ≡ true → (1 ≤ place) × ((other ≡ 0) ⊎ (place < other)) }
    ensures later { result ≡ false → 1 ≤ place → (1 ≤ other) × (other ≤ place) }
{
    place != 0 && (other == 0 || place < other)
}

/// Keeps the place of the operation, if it is the first of its process.
fn keep_first(first: &mut Vec<u32>, n: OperationPlace)
    ensures held { (members : List Place) → HoldMembers members first.old.items → HoldMembers (members ++ n ∷ []) first.new.items }
    ensures first { (members : List Place) → AreFirst members first.old.items → AreFirst (members ++ n ∷ []) first.new.items }
    ensures long { length first.new.items ≡ length first.old.items }
{
    let q = n.process as usize;
    if q < first.len() && is_earlier(n.place, first[q]) {
        first[q] = n.place;
    }
}

/// For each process the place of the first operation that waits, or 0 if none waits.
fn first_waiting(
    alloc: Global,
    processes: usize,
    waiters: &[Waiter],
) -> Result<Vec<u32>, AllocError>
    ensures held { IfOk result (λ first. HoldMembers (operations_of waiters.now) first.items) }
    ensures first { IfOk result (λ first. AreFirst (operations_of waiters.now) first.items) }
    ensures long { IfOk result (λ first. length first.items ≡ processes) }
{
    let mut first = vec![in alloc; 0; processes]?;
    for k in 0..waiters.len() {
        keep_first(&mut first, waiters[k].operation);
    }
    Ok(first)
}

/// The place of the first operation of the process that waits, or 0 if none waits.
fn first_in(first: &[u32], process: u32) -> u32
    ensures { result ≡ slice_index_or first.now process 0 }
{
    let q = process as usize;
    if q < first.len() { first[q] } else { 0 }
}

/// Refuses an operation that may come before all of its waiting set: one in whose process no operation waits at its place
/// or before it.
fn want_behind(waiting: &WaitingSet, n: OperationPlace) -> Result<(), ReasonRefusal>
    ensures known { OnOk result (IsKnown waiting.now.trace.now n) }
    ensures behind { OnOk result ((members : List Place) → HoldMembers members waiting.now.first.now → IsBehindOne waiting.now.trace.now (map (named waiting.now.trace.now) members) (named waiting.now.trace.now n)) }
    ensures refused { IfErr result (IsRefusedBy (λ cause. (members : List Place) → AreFirstKnown waiting.now.trace.now members waiting.now.first.now → IsBehindRefused waiting.now.trace.now members n cause)) }
{
    waiting.trace.recall_invariant();
    let _op = operation_of(waiting.trace, n)?;
    let place = first_in(waiting.first, n.process);
    if place == 0 || n.place < place {
        return Err(ReasonRefusal::For(ReasonCause::SourceBefore));
    }
    Ok(())
}

/// Appends that the operation stands before the other one, which may not come before all of the waiting set.
fn wait_for_operation(
    waiting: &WaitingSet,
    operation: OperationPlace,
    other: OperationPlace,
    orders: &mut Vec<OrderPair>,
) -> Result<(), ReasonRefusal>
    ensures grows { OnOk result (Grows orders.old.items orders.new.items) }
    ensures waits { OnOk result ((members : List Place) → HoldMembers members waiting.now.first.now → MustWait waiting.now.trace.now orders.new.items members operation) }
    ensures only { OnOk result (AddsOnly orders.old.items orders.new.items (IsOrder operation other)) }
    ensures refused { IfErr result (IsRefusedBy (λ cause. (members : List Place) → AreFirstKnown waiting.now.trace.now members waiting.now.first.now → IsWaitRefused waiting.now.trace.now members operation other cause)) }
{
    waiting.trace.recall_invariant();
    if are_same(operation, other) {
        return Err(ReasonRefusal::For(ReasonCause::BadCycle));
    }
    let _op = operation_of(waiting.trace, operation)?;
    want_behind(waiting, other)?;
    push_order(orders, operation, other)?;
    Ok(())
}

/// Refuses a stretch whose operations may come before all of the waiting set. Its first one is asked alone, since the others stand after it.
fn want_stretch_behind(waiting: &WaitingSet, stretch: &LeftStretch) -> Result<(), ReasonRefusal>
    ensures behind { OnOk result ((members : List Place) → HoldMembers members waiting.now.first.now → IsStretchBehind waiting.now.trace.now members stretch.now) }
    ensures refused { IfErr result (IsRefusedBy (λ cause. (members : List Place) → AreFirstKnown waiting.now.trace.now members waiting.now.first.now → IsBehindRefused waiting.now.trace.now members (at_number stretch.now.process stretch.now.first) cause)) }
{
    let n = OperationPlace {
        process: stretch.process,
        place: stretch.first,
    };
    want_behind(waiting, n)
}

/// Refuses stretches of which one's operations may come before all of the waiting set.
fn want_all_behind(waiting: &WaitingSet, stretches: &[LeftStretch]) -> Result<(), ReasonRefusal>
    ensures behind { OnOk result ((members : List Place) → HoldMembers members waiting.now.first.now → AreBehind waiting.now.trace.now members stretches.now) }
    ensures refused { IfErr result (IsRefusedBy (λ cause. (members : List Place) → AreFirstKnown waiting.now.trace.now members waiting.now.first.now → IsSomeBehindRefused waiting.now.trace.now members stretches.now cause)) }
{
    for stretch in stretches {
        want_stretch_behind(waiting, stretch)?;
    }
    Ok(())
}

/// Appends what bars the sources of the reader that a piece takes. The others may not come before all of the waiting set. So if the reader may read
/// the initial value, which is there before all operations, a piece must take that.
fn wait_for_source(
    alloc: Global,
    waiting: &WaitingSet,
    writers: &WriterTables,
    reader: OperationPlace,
    pieces: &SourcePieces,
    orders: &mut Vec<OrderPair>,
) -> Result<(), ReasonRefusal>
    requires { HoldTables waiting.now.trace.now writers.now }
    ensures grows { OnOk result (Grows orders.old.items orders.new.items) }
    ensures waits { OnOk result ((members : List Place) → HoldMembers members waiting.now.first.now → MustWait waiting.now.trace.now orders.new.items members reader) }
    ensures only { OnOk result (AddsOnly orders.old.items orders.new.items (IsPartOrder waiting.now.trace.now reader pieces.now)) }
    ensures refused { IfErr result (IsRefusedBy (λ cause. (members : List Place) → AreFirstKnown waiting.now.trace.now members waiting.now.first.now → IsSourceWaitRefused waiting.now.trace.now members reader pieces.now cause)) }
{
    let left = left_sources(alloc, waiting.trace, writers, reader, pieces, orders)?;
    if left.is_initial_left {
        return Err(ReasonRefusal::For(ReasonCause::InitialLeft));
    }
    want_all_behind(waiting, left.stretches.as_slice())?;
    Ok(())
}

/// Appends the orders of which one stands if the operation is the first of the waiting set.
fn wait_for(
    alloc: Global,
    waiting: &WaitingSet,
    writers: &WriterTables,
    waiter: &Waiter,
    orders: &mut Vec<OrderPair>,
) -> Result<(), ReasonRefusal>
    requires { HoldTables waiting.now.trace.now writers.now }
    ensures grows { OnOk result (Grows orders.old.items orders.new.items) }
    ensures waits { OnOk result ((members : List Place) → HoldMembers members waiting.now.first.now → MustWait waiting.now.trace.now orders.new.items members waiter.now.operation) }
    ensures only { OnOk result (AddsOnly orders.old.items orders.new.items (IsAwaitedOrder waiting.now.trace.now waiter.now.operation waiter.now.awaited)) }
    ensures refused { IfErr result (IsRefusedBy (λ cause. (members : List Place) → AreFirstKnown waiting.now.trace.now members waiting.now.first.now → IsAwaitedRefused waiting.now.trace.now members waiter.now.operation waiter.now.awaited cause)) }
{
    match &waiter.awaited {
        WaitsFor::Operation(other) => {
            wait_for_operation(waiting, waiter.operation, *other, orders)?;
            Ok(())
        }
        WaitsFor::Source(pieces) => {
            wait_for_source(alloc, waiting, writers, waiter.operation, pieces, orders)?;
            Ok(())
        }
    }
}

/// Appends the orders of which one stands, since one of the operations comes first: of each they say what stands if it does.
pub fn waiting_clause(
    alloc: Global,
    trace: &Trace,
    writers: &WriterTables,
    waiters: &[Waiter],
    orders: &mut Vec<OrderPair>,
) -> Result<(), ReasonRefusal>
    requires { HoldTables trace.now writers.now }
    ensures made { OnOk result (Makes trace.now orders.new.items (λ clause. IsWaitingClause trace.now clause (map (named trace.now) (operations_of waiters.now)))) }
    ensures holds { OnOk result (HoldsOfSchedules trace.now (named_orders trace.now orders.new.items)) }
    ensures only { OnOk result (AddsOnly orders.old.items orders.new.items (IsWaitingOrder trace.now waiters.now)) }
    ensures refused { IfErr result (IsRefusedBy (IsWaitingRefused trace.now waiters.now)) }
{
    one_comes_first();
    let count = waiters.len();
    // No orders would make the empty clause, which says that the trace has no legal schedule.
    if count == 0 {
        return Err(ReasonRefusal::For(ReasonCause::BadLine));
    }
    let first = first_waiting(alloc, trace.processes().len(), waiters)?;
    for k in 0..waiters.len() {
        let waiting = WaitingSet {
            trace,
            first: first.as_slice(),
        };
        wait_for(alloc, &waiting, writers, &waiters[k], orders)?;
    }
    Ok(())
}

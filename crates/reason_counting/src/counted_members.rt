//! The clause of updates and ends of locations that are more than their sources, by pieces.
//!
//! A piece of a line of a certificate takes a stretch of the sources that a member may have, or of the last writers of its location, and bars them: it appends
//! orders of which one stands if it is one of those. What no piece takes is left, and is counted against the members (docs/REASONS.md).

ghost use Rattle.std.specs.Prelude.{◌≡◌, ◌≤◌, ◌<◌, ◌+◌, ◌⊎◌, true, false, ℕ, List, IsSome, length, slice_index_or, OnOk, IfOk, IfErr};
ghost use Rattle.std.specs.List.{All, Contains};
ghost use Rattle.trace_semantics.specs.Trace.{TraceValue};
ghost use Rattle.trace_semantics.specs.ValueAfter.{value_left_at};
ghost use Rattle.writer_table.specs.Writers.{runs_at};
ghost use Rattle.order_clauses.specs.Numbered.{named, named_orders, IsKnown};
ghost use Rattle.order_reasons.specs.Counting.{IsCountingClause};
ghost use Rattle.order_reasons.specs.Orders.{HoldsOfSchedules};
ghost use Rattle.order_reasons.specs.Sources.{ValueSource, BarsSources};
ghost use Rattle.reason_clauses.specs.AddedOrders.{AddsOnly};
ghost use Rattle.reason_clauses.specs.Made.{Makes};
ghost use Rattle.reason_clauses.specs.Numbered.{Grows, at_number};
ghost use Rattle.reason_clauses.specs.RefusedBy.{IsRefusedBy};
ghost use Rattle.reason_clauses.specs.Tables.{HoldTables};
ghost use Rattle.reason_clauses.specs.declared.cause.ReasonCause.TheVariants.{EnoughSources};
ghost use Rattle.reason_counting.specs.CountedMembers.{AreDistinct, AreFirstBarred, AreTwo, BarsMember, IsMemberBarred, IsMemberKnown, IsOfPlaces, IsOfRuns, IsOfStretches, IsRunKept, IsStretchKept, needs_listed};
ghost use Rattle.reason_counting.specs.CountingRefused.{AreEnoughLeft, AreLeftTo, IsCountingOrder, IsCountingRefused, IsInitialToSome, IsLeftInitial, IsLeftOperation, IsLeftToSome, IsMemberOrder, IsMemberRefused, IsNoWriting, IsSameMember, IsSomeMemberRefused, IsTwiceRefused};
ghost use Rattle.reason_counting.specs.DistinctSources.{AreNone, HasAll, HasLocation, KeptOnly, sources_kept};
ghost use Rattle.reason_counting.specs.Left.{IsLeft};
ghost use Rattle.reason_counting.specs.OtherSources.{AreOthers, IsPartOrder, IsPartRefused};
ghost use Rattle.reason_counting.specs.declared.counted_members.CountedMember.{CountedMember as Member};

use crate::distinct_sources::{DistinctSources, is_one_location};
use crate::left_ends::left_ends;
use crate::left_sources::{LeftSources, LeftStretch, left_sources};
use order_clauses::order_pair::OrderPair;
use order_reasons::laws::too_few_sources;
use reason_clauses::cause::{ReasonCause, ReasonRefusal};
use reason_clauses::lookups::{are_same, operation_of};
use reason_clauses::pieces::SourcePieces;
use reason_clauses::writer_tables::WriterTables;
use restriction::left_value::left_at;
use std::alloc::{AllocError, Global};
use trace_semantics::trace::Trace;
use writer_table::operation_place::OperationPlace;
use writer_table::runs::Run;
use writer_table::trace_writers::TraceWriters;

/// What needs a source of its own, with its pieces.
#[derive(Drop)]
pub enum CountedMember<'a> {
    /// An update.
    Update(OperationPlace, SourcePieces),
    /// The end of a location.
    End(&'a [u8], SourcePieces),
}

/// Keeps the operation at this place of the process, if it is in the stretch.
fn keep_place(
    process: u32,
    place: u32,
    stretch: LeftStretch,
    kept: &mut DistinctSources,
) -> Result<(), AllocError>
    ensures more { OnOk result (HasAll kept.old kept.new) }
    ensures there { OnOk result (stretch.first ≤ place → place ≤ stretch.last → Contains kept.new.operations.items (at_number process place)) }
    ensures only { OnOk result (KeptOnly kept.old kept.new (λ n. (n ≡ at_number process place) × (stretch.first ≤ place) × (place ≤ stretch.last)) (λ a. ⊥)) }
{
    if place < stretch.first {
        return Ok(());
    }
    if stretch.last < place {
        return Ok(());
    }
    kept.keep(OperationPlace { process, place })?;
    Ok(())
}

/// Keeps those at these places of the process that are in the stretch.
fn keep_places(
    process: u32,
    places: &[u32],
    stretch: LeftStretch,
    kept: &mut DistinctSources,
) -> Result<(), AllocError>
    ensures more { OnOk result (HasAll kept.old kept.new) }
    ensures there { OnOk result (All (λ k. stretch.first ≤ k → k ≤ stretch.last → Contains kept.new.operations.items (at_number process k)) places.now) }
    ensures only { OnOk result (KeptOnly kept.old kept.new (IsOfPlaces stretch process places.now) (λ a. ⊥)) }
{
    for place in places {
        keep_place(process, *place, stretch, kept)?;
    }
    Ok(())
}

/// Keeps the operations of the run that are in the stretch.
fn keep_run(run: &Run, stretch: LeftStretch, kept: &mut DistinctSources) -> Result<(), AllocError>
    ensures more { OnOk result (HasAll kept.old kept.new) }
    ensures there { OnOk result (IsRunKept kept.new stretch run.now) }
    ensures only { OnOk result (KeptOnly kept.old kept.new (λ n. (run.now.process ≡ stretch.process) × IsOfPlaces stretch run.now.process run.now.places n) (λ a. ⊥)) }
{
    if run.process != stretch.process {
        return Ok(());
    }
    keep_places(run.process, run.places.as_slice(), stretch, kept)?;
    Ok(())
}

/// Keeps the operations of these runs that are in the stretch.
fn keep_runs(
    runs: &[Run],
    stretch: LeftStretch,
    kept: &mut DistinctSources,
) -> Result<(), AllocError>
    ensures more { OnOk result (HasAll kept.old kept.new) }
    ensures there { OnOk result (All (IsRunKept kept.new stretch) runs.now) }
    ensures only { OnOk result (KeptOnly kept.old kept.new (IsOfRuns stretch runs.now) (λ a. ⊥)) }
{
    for run in runs {
        keep_run(run, stretch, kept)?;
    }
    Ok(())
}

/// Keeps the writers of the location in the stretch, as a table by value has them: those that leave the stretch's value.
fn keep_stretch(
    writers: &TraceWriters,
    location: &[u8],
    stretch: LeftStretch,
    kept: &mut DistinctSources,
) -> Result<(), AllocError>
    ensures more { OnOk result (HasAll kept.old kept.new) }
    ensures there { OnOk result (IsStretchKept writers.now location.now kept.new stretch) }
    ensures only { OnOk result (KeptOnly kept.old kept.new (IsOfRuns stretch (runs_at writers.now location.now stretch.value)) (λ a. ⊥)) }
{
    let runs = writers.runs(location, stretch.value);
    keep_runs(runs, stretch, kept)?;
    Ok(())
}

/// Keeps the writers of the location in these stretches.
fn keep_stretches(
    writers: &TraceWriters,
    location: &[u8],
    stretches: &[LeftStretch],
    kept: &mut DistinctSources,
) -> Result<(), AllocError>
    ensures more { OnOk result (HasAll kept.old kept.new) }
    ensures there { OnOk result (All (IsStretchKept writers.now location.now kept.new) stretches.now) }
    ensures only { OnOk result (KeptOnly kept.old kept.new (IsOfStretches writers.now location.now stretches.now) (λ a. ⊥)) }
{
    for stretch in stretches {
        keep_stretch(writers, location, *stretch, kept)?;
    }
    Ok(())
}

/// Keeps the initial value, if it is left.
fn keep_start<'a>(left: &LeftSources<'a>, kept: &mut DistinctSources<'a>) -> Result<(), AllocError>
    ensures more { OnOk result (HasAll kept.old kept.new) }
    ensures there { OnOk result (left.now.is_initial_left ≡ true → HasLocation kept.new.locations.items left.now.location.now) }
    ensures only { OnOk result (KeptOnly kept.old kept.new (λ n. ⊥) (λ a. (left.now.is_initial_left ≡ true) × (a ≡ left.now.location.now))) }
{
    if !left.is_initial_left {
        return Ok(());
    }
    kept.keep_initial(left.location)?;
    Ok(())
}

/// Keeps what is left of sources.
fn keep_left<'a>(
    writers: &TraceWriters,
    left: &LeftSources<'a>,
    kept: &mut DistinctSources<'a>,
) -> Result<(), AllocError>
    ensures more { OnOk result (HasAll kept.old kept.new) }
    ensures there { OnOk result ((t : TraceValue) (s : ValueSource) → IsLeft t writers.now left.now s → Contains (sources_kept t kept.new) s) }
    ensures only { OnOk result (KeptOnly kept.old kept.new (IsOfStretches writers.now left.now.location.now left.now.stretches.items) (λ a. (left.now.is_initial_left ≡ true) × (a ≡ left.now.location.now))) }
{
    keep_stretches(writers, left.location, left.stretches.as_slice(), kept)?;
    keep_start(left, kept)?;
    Ok(())
}

/// Refuses an operation that writes nothing. One that reads, too, is an update; that it reads is asked by `left_sources`.
fn want_writing(trace: &Trace, n: OperationPlace) -> Result<(), ReasonRefusal>
    ensures writes { OnOk result (IsKnown trace.now n × ((location : List ℕ) × IsSome (value_left_at trace.now location (named trace.now n)))) }
    ensures refused { IfErr result (IsRefusedBy (IsNoWriting trace.now n)) }
{
    let op = operation_of(trace, n)?;
    let location = op.location().as_bytes();
    let Some(_value) = left_at(op, location) else {
        return Err(ReasonRefusal::For(ReasonCause::NoReader));
    };
    Ok(())
}

/// Appends what bars the sources of the update that a piece takes, and returns the others.
fn left_of_update<'a>(
    alloc: Global,
    trace: &'a Trace,
    writers: &WriterTables,
    n: OperationPlace,
    pieces: &SourcePieces,
    orders: &mut Vec<OrderPair>,
) -> Result<LeftSources<'a>, ReasonRefusal>
    requires { HoldTables trace.now writers.now }
    ensures grows { OnOk result (Grows orders.old.items orders.new.items) }
    ensures bars { IfOk result (λ left. IsKnown trace.now n × Makes trace.now orders.new.items (λ clause. ((location : List ℕ) × IsSome (value_left_at trace.now location (named trace.now n))) × BarsSources trace.now clause (named trace.now n) (IsLeft trace.now writers.now.by_value left))) }
    ensures only { OnOk result (AddsOnly orders.old.items orders.new.items (IsPartOrder trace.now n pieces.now)) }
    ensures left { IfOk result (AreOthers trace.now n pieces.now) }
    ensures refused { IfErr result (IsRefusedBy (λ cause. IsNoWriting trace.now n cause ⊎ IsPartRefused trace.now n pieces.now cause)) }
{
    want_writing(trace, n)?;
    let left = left_sources(alloc, trace, writers, n, pieces, orders)?;
    Ok(left)
}

/// Appends what bars the sources of the member that a piece takes, and returns the others.
fn left_of_member<'a>(
    alloc: Global,
    trace: &'a Trace,
    writers: &WriterTables,
    member: &CountedMember<'a>,
    orders: &mut Vec<OrderPair>,
) -> Result<LeftSources<'a>, ReasonRefusal>
    requires { HoldTables trace.now writers.now }
    ensures grows { OnOk result (Grows orders.old.items orders.new.items) }
    ensures bars { IfOk result (λ left. IsMemberKnown trace.now member.now × Makes trace.now orders.new.items (λ clause. BarsMember trace.now clause (IsLeft trace.now writers.now.by_value left) member.now)) }
    ensures only { OnOk result (AddsOnly orders.old.items orders.new.items (IsMemberOrder trace.now member.now)) }
    ensures left { IfOk result (AreLeftTo trace.now member.now) }
    ensures refused { IfErr result (IsRefusedBy (IsMemberRefused trace.now member.now)) }
{
    match member {
        CountedMember::Update(n, pieces) => {
            left_of_update(alloc, trace, writers, *n, pieces, orders)
        }
        CountedMember::End(location, pieces) => {
            left_ends(alloc, trace, writers, location, pieces, orders)
        }
    }
}

/// Appends what bars the sources of the member that a piece takes, and keeps the others.
fn bar_member<'a>(
    alloc: Global,
    trace: &'a Trace,
    writers: &WriterTables,
    member: &CountedMember<'a>,
    orders: &mut Vec<OrderPair>,
    kept: &mut DistinctSources<'a>,
) -> Result<(), ReasonRefusal>
    requires { HoldTables trace.now writers.now }
    ensures grows { OnOk result (Grows orders.old.items orders.new.items) }
    ensures more { OnOk result (HasAll kept.old kept.new) }
    ensures bars { OnOk result (IsMemberBarred trace.now orders.new.items kept.new member.now) }
    ensures only { OnOk result (AddsOnly orders.old.items orders.new.items (IsMemberOrder trace.now member.now)) }
    ensures keeps { OnOk result (KeptOnly kept.old kept.new (IsLeftOperation trace.now member.now) (IsLeftInitial trace.now member.now)) }
    ensures refused { IfErr result (IsRefusedBy (IsMemberRefused trace.now member.now)) }
{
    trace.recall_invariant();
    let left = left_of_member(alloc, trace, writers, member, orders)?;
    keep_left(&writers.by_value, &left, kept)?;
    Ok(())
}

/// Refuses sources that are not fewer than this.
fn want_fewer(kept: &DistinctSources, count: usize) -> Result<(), ReasonRefusal>
    ensures fewer { OnOk result (length kept.now.operations.items + length kept.now.locations.items < count) }
    ensures refused { IfErr result (IsRefusedBy (λ cause. (cause ≡ EnoughSources) × (count ≤ length kept.now.operations.items + length kept.now.locations.items))) }
{
    if kept.are_fewer(count) {
        Ok(())
    } else {
        Err(ReasonRefusal::For(ReasonCause::EnoughSources))
    }
}

/// Does so for each member, as long as fewer sources are kept than there are members. This is asked after each of them, so that no time is spent
/// on further sources once the line is refused.
fn bar_members<'a>(
    alloc: Global,
    trace: &'a Trace,
    writers: &WriterTables,
    members: &[CountedMember<'a>],
    orders: &mut Vec<OrderPair>,
    kept: &mut DistinctSources<'a>,
) -> Result<(), ReasonRefusal>
    requires { HoldTables trace.now writers.now }
    ensures barred { OnOk result (AreFirstBarred trace.now orders.new.items kept.new members.now (length members.now)) }
    ensures only { OnOk result (AddsOnly orders.old.items orders.new.items (IsCountingOrder trace.now members.now)) }
    ensures keeps { OnOk result (KeptOnly kept.old kept.new (IsLeftToSome trace.now members.now) (IsInitialToSome trace.now members.now)) }
    ensures refused { IfErr result (IsRefusedBy (λ cause. IsSomeMemberRefused trace.now members.now cause ⊎ ((cause ≡ EnoughSources) × (AreNone kept.old → AreEnoughLeft trace.now members.now)))) }
{
    for k in 0..members.len() {
        bar_member(alloc, trace, writers, &members[k], orders, kept)?;
        want_fewer(kept, members.len())?;
    }
    Ok(())
}

/// Returns whether both need one source.
fn is_one_member(x: &CountedMember, y: &CountedMember) -> bool
    ensures apart { result ≡ false → AreTwo x.now y.now }
    ensures same { result ≡ true → IsSameMember x.now y.now }
{
    match x {
        CountedMember::Update(m, _pieces) => match y {
            CountedMember::Update(n, _others) => are_same(*m, *n),
            CountedMember::End(_location, _others) => false,
        },
        CountedMember::End(a, _pieces) => match y {
            CountedMember::Update(_n, _others) => false,
            CountedMember::End(b, _others) => is_one_location(a, b),
        },
    }
}

/// Refuses a member that is one of those before it.
fn want_new(members: &[CountedMember], k: usize) -> Result<(), ReasonRefusal>
    requires { k < length members.now }
    ensures apart { OnOk result ((j : ℕ) (d : Member) → j < k → AreTwo (slice_index_or members.now j d) (slice_index_or members.now k d)) }
    ensures refused { IfErr result (IsRefusedBy (IsTwiceRefused members.now)) }
{
    for j in 0..k {
        if is_one_member(&members[j], &members[k]) {
            return Err(ReasonRefusal::For(ReasonCause::SecondPiece));
        }
    }
    Ok(())
}

/// Refuses members of which two need one source: counted twice, they would be more than their sources where they are not.
fn want_distinct(members: &[CountedMember]) -> Result<(), ReasonRefusal>
    ensures distinct { OnOk result (AreDistinct members.now (length members.now)) }
    ensures refused { IfErr result (IsRefusedBy (IsTwiceRefused members.now)) }
{
    for k in 0..members.len() {
        want_new(members, k)?;
    }
    Ok(())
}

/// Appends what the pieces of the members say, of which one stands, since the members are more than the sources that no piece takes.
pub fn counting_clause<'a>(
    alloc: Global,
    trace: &'a Trace,
    writers: &WriterTables,
    members: &[CountedMember<'a>],
    orders: &mut Vec<OrderPair>,
) -> Result<(), ReasonRefusal>
    requires { HoldTables trace.now writers.now }
    ensures made { OnOk result ((left : List ValueSource) × Makes trace.now orders.new.items (λ clause. IsCountingClause trace.now clause (needs_listed trace.now members.now) left)) }
    ensures holds { OnOk result (HoldsOfSchedules trace.now (named_orders trace.now orders.new.items)) }
    ensures only { OnOk result (AddsOnly orders.old.items orders.new.items (IsCountingOrder trace.now members.now)) }
    ensures refused { IfErr result (IsRefusedBy (IsCountingRefused trace.now members.now)) }
{
    too_few_sources();
    trace.recall_invariant();
    want_distinct(members)?;
    let mut kept = DistinctSources::new(alloc);
    bar_members(alloc, trace, writers, members, orders, &mut kept)?;
    // This refuses a line without members.
    want_fewer(&kept, members.len())?;
    Ok(())
}

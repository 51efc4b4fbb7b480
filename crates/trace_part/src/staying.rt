//! What stays of the operations that are chosen.

ghost use Rattle.std.specs.Prelude.{◌≡◌, ◌<◌, ◌≤◌, ◌+◌, ◌&&◌, length, is_some, IsSome, IfOk, if◌then◌else◌};
ghost use Rattle.std.specs.List.{list_all, slice_get};
ghost use Rattle.trace_semantics.specs.declared.operation.Op.TheVariants.{Read, Write, Update};
ghost use Rattle.std.specs.Option.{option_copied, option_and_then};
ghost use Rattle.trace_semantics.specs.declared.operation.OpName.{OpName as Named};
ghost use Rattle.trace_semantics.specs.Operation.{written_value};
ghost use Rattle.trace_semantics.specs.Trace.{at_place, process_named, operation_at};
ghost use Rattle.trace_semantics.specs.OpSet.{has};
ghost use Rattle.part_law.specs.Part as part;
ghost use Rattle.forced_order.specs.Rows.{numbered};
ghost use Rattle.trace_part.specs.Selections.{IsSelection, ordered_in, chosen_in, stays_in};
ghost use Rattle.trace_semantics.specs.declared.limits.Limits.TheVariants.{Large};
ghost use Rattle.trace_semantics.specs.Limits.{max_operations};

use crate::selection::Selection;
use crate::sources::sources_chosen;
use forced_order::numbered::OperationNumber;
use std::alloc::{AllocError, Global};
use trace_semantics::name::Name;
use trace_semantics::op_set::OpSet;
use trace_semantics::operation::{Op, OpName, Origin, Span};
use trace_semantics::trace::{Process, Trace};

/// Returns the process of this name.
pub(crate) fn process_of<'a>(trace: &'a Trace, name: &[u8]) -> Option<&'a Process>
    ensures { option_copied result ≡ process_named trace.now name.now }
{
    trace.processes().iter().find(|p| p.name.as_bytes() == name)
}

/// Returns whether the operation at this place writes.
fn writes_here(process: &Process, place: usize) -> bool
    ensures { result ≡ is_some (option_and_then written_value (at_place process.now.operations place)) }
{
    let ops = process.operations.as_slice();
    1 <= place && place <= ops.len() && ops[place - 1].written_value().is_some()
}

/// Returns whether the operation of this name writes.
fn is_writer(trace: &Trace, name: &OpName) -> bool
    ensures { result ≡ is_some (option_and_then written_value (operation_at trace.now name.now)) }
{
    match process_of(trace, name.process.as_bytes()) {
        Some(process) => writes_here(process, name.place as usize),
        None => false,
    }
}

/// Returns whether the operation is one of those of which the part is made.
fn is_chosen(set: &OpSet, name: &OpName) -> bool
    ensures { result ≡ has set.now name.now }
{
    set.contains(name.process.as_bytes(), name.place as usize)
}

/// Returns whether the operation of this name is chosen and writes.
fn is_chosen_writer(trace: &Trace, set: &OpSet, name: &OpName) -> bool
    ensures { result ≡ (has set.now name.now && is_some (option_and_then written_value (operation_at trace.now name.now))) }
{
    is_chosen(set, name) && is_writer(trace, name)
}

/// Returns whether all possible sources are selected of an operation that reads this value at the location.
fn are_sources_selected<'a>(
    alloc: Global,
    selection: &Selection<'a>,
    reader: OperationNumber,
    location: &'a [u8],
    value: u64,
) -> Result<bool, AllocError>
    requires selection { IsSelection selection.now }
    ensures { IfOk result (λ all. (n : Named) → IsSome (operation_at selection.now.trace.now n) → numbered selection.now.trace.now.processes n ≡ reader → all ≡ list_all (chosen_in selection.now) (part.sources selection.now.trace.now (ordered_in selection.now) n location.now value)) }
{
    selection.trace.recall_invariant();
    let writers = selection.writers.writers_at(location);
    sources_chosen(alloc, &selection.order, writers, reader, value)
}

/// Returns whether the part says what the operation reads. A value that is said to be the initial one stays without a condition: no operation
/// writes the location before the read, and in the part there are no more operations.
fn keeps_read<'a>(
    alloc: Global,
    selection: &Selection<'a>,
    reader: OperationNumber,
    location: &'a [u8],
    value: u64,
    origin: &'a Origin,
) -> Result<bool, AllocError>
    requires selection { IsSelection selection.now }
    ensures { IfOk result (λ kept. (n : Named) → IsSome (operation_at selection.now.trace.now n) → numbered selection.now.trace.now.processes n ≡ reader → kept ≡ part.keeps_read selection.now.trace.now (ordered_in selection.now) (chosen_in selection.now) n location.now value origin.now) }
{
    match origin {
        Origin::Any => are_sources_selected(alloc, selection, reader, location, value),
        Origin::Initial => Ok(true),
        Origin::Operation(name) => Ok(is_chosen_writer(selection.trace, &selection.set, name)),
    }
}

fn copy_of_name(alloc: Global, name: &OpName) -> Result<OpName, AllocError>
    ensures { IfOk result (λ new. new ≡ name.now) }
{
    Ok(OpName {
        process: Name::copy_of(alloc, name.process.as_bytes())?,
        place: name.place,
    })
}

fn copy_of_origin(alloc: Global, origin: &Origin) -> Result<Origin, AllocError>
    ensures { IfOk result (λ new. new ≡ origin.now) }
{
    match origin {
        Origin::Any => Ok(Origin::Any),
        Origin::Initial => Ok(Origin::Initial),
        Origin::Operation(name) => Ok(Origin::Operation(copy_of_name(alloc, name)?)),
    }
}

/// Returns a read of the part. Origins keep the names of the whole trace here, and get new ones in `renamed`.
fn new_read(
    alloc: Global,
    location: &Name,
    value: u64,
    origin: &Origin,
    span: Option<Span>,
) -> Result<Op, AllocError>
    ensures { IfOk result (λ op. op ≡ Read location.now value origin.now span) }
{
    Ok(Op::Read {
        location: Name::copy_of(alloc, location.as_bytes())?,
        value,
        origin: copy_of_origin(alloc, origin)?,
        span,
    })
}

fn new_write(
    alloc: Global,
    location: &Name,
    value: u64,
    span: Option<Span>,
) -> Result<Op, AllocError>
    ensures { IfOk result (λ op. op ≡ Write location.now value span) }
{
    Ok(Op::Write {
        location: Name::copy_of(alloc, location.as_bytes())?,
        value,
        span,
    })
}

/// The values of an update: what it reads, and what it leaves.
#[derive(Clone, Copy)]
struct UpdateValues {
    read: u64,
    left: u64,
}

fn new_update(
    alloc: Global,
    location: &Name,
    values: UpdateValues,
    origin: &Origin,
    span: Option<Span>,
) -> Result<Op, AllocError>
    ensures { IfOk result (λ op. op ≡ Update location.now values.read values.left origin.now span) }
{
    Ok(Op::Update {
        location: Name::copy_of(alloc, location.as_bytes())?,
        read: values.read,
        left: values.left,
        origin: copy_of_origin(alloc, origin)?,
        span,
    })
}

/// Returns what stays of a chosen read.
fn read_stays(
    alloc: Global,
    keeps: bool,
    location: &Name,
    value: u64,
    origin: &Origin,
    span: Option<Span>,
) -> Result<Option<Op>, AllocError>
    ensures { IfOk result (λ left. left ≡ (if keeps then Some (Read location.now value origin.now span) else None)) }
{
    if keeps {
        Ok(Some(new_read(alloc, location, value, origin, span)?))
    } else {
        Ok(None)
    }
}

/// Returns what stays of a chosen update. One whose read is not kept still writes, so a write stays of it.
fn update_stays(
    alloc: Global,
    keeps: bool,
    location: &Name,
    values: UpdateValues,
    origin: &Origin,
    span: Option<Span>,
) -> Result<Op, AllocError>
    ensures { IfOk result (λ op. op ≡ (if keeps then Update location.now values.read values.left origin.now span else Write location.now values.left span)) }
{
    if keeps {
        new_update(alloc, location, values, origin, span)
    } else {
        new_write(alloc, location, values.left, span)
    }
}

/// Returns what stays of a chosen operation.
fn stays_of<'a>(
    alloc: Global,
    selection: &Selection<'a>,
    reader: OperationNumber,
    op: &'a Op,
) -> Result<Option<Op>, AllocError>
    requires selection { IsSelection selection.now }
    ensures { IfOk result (λ left. (n : Named) → IsSome (operation_at selection.now.trace.now n) → numbered selection.now.trace.now.processes n ≡ reader → left ≡ part.stays_of selection.now.trace.now (ordered_in selection.now) (chosen_in selection.now) n op.now) }
{
    match op {
        Op::Read {
            location,
            value,
            origin,
            span,
        } => {
            let name = location.as_bytes();
            let keeps = keeps_read(alloc, selection, reader, name, *value, origin)?;
            read_stays(alloc, keeps, location, *value, origin, *span)
        }
        Op::Write {
            location,
            value,
            span,
        } => Ok(Some(new_write(alloc, location, *value, *span)?)),
        Op::Update {
            location,
            read,
            left,
            origin,
            span,
        } => {
            let name = location.as_bytes();
            let keeps = keeps_read(alloc, selection, reader, name, *read, origin)?;
            let values = UpdateValues {
                read: *read,
                left: *left,
            };
            let new = update_stays(alloc, keeps, location, values, origin, *span)?;
            Ok(Some(new))
        }
    }
}

/// Returns what stays of the operation at this place. `number` is that of the process, and k counts from 0, so the place is k + 1. Nothing stays of
/// an operation that is not chosen.
pub fn stays_at<'a>(
    alloc: Global,
    selection: &Selection<'a>,
    process: &'a Process,
    number: u16,
    k: usize,
) -> Result<Option<Op>, AllocError>
    requires selection { IsSelection selection.now }
    requires listed { slice_get selection.now.trace.now.processes number ≡ Some process.now }
    requires within { k < length process.now.operations }
    requires few { length process.now.operations ≤ max_operations Large }
    ensures { IfOk result (λ left. left ≡ stays_in selection.now (record { process = process.now.name; place = k + 1 })) }
{
    selection.trace.recall_invariant();
    if !selection.set.contains(process.name.as_bytes(), k + 1) {
        return Ok(None);
    }
    let reader = OperationNumber {
        process: number,
        place: (k + 1) as u32,
    };
    stays_of(alloc, selection, reader, &process.operations.as_slice()[k])
}

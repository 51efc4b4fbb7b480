//! Whether all operations are chosen from which a value may be read.

ghost use Rattle.std.specs.Prelude.{◌≡◌, ◌<◌, ◌+◌, ◌++◌, ◌||◌, not, length, IfOk, OnOk};
ghost use Rattle.std.specs.List.{list_any, list_all, slice_get};
ghost use Rattle.std.specs.Option.{option_copied};
ghost use Rattle.trace_semantics.specs.Judgement.{is_held};
ghost use Rattle.forced_order.specs.Rows.{stands_by};
ghost use Rattle.trace_part.specs.Latest as latest;
ghost use Rattle.trace_part.specs.Latest.{AreLatest, IsForwardAmong};
ghost use Rattle.trace_part.specs.Rows as rows;
ghost use Rattle.trace_part.specs.declared.writers.ChosenWriter.{ChosenWriter as Row};

use crate::writers::ChosenWriter;
use forced_order::forced_order::ForcedOrder;
use forced_order::numbered::OperationNumber;
use std::alloc::{AllocError, Global};

/// Returns whether the writer leaves this value.
pub fn leaves(writer: &ChosenWriter, value: u64) -> bool
    ensures { result ≡ is_held writer.now.value value }
{
    match writer.value {
        Some(left) => left == value,
        None => false,
    }
}

/// Returns whether both are the same operation.
fn is_same(first: OperationNumber, second: OperationNumber) -> bool
    ensures { result ≡ rows.is_same first second }
{
    first.process == second.process && first.place == second.place
}

/// Returns the writer after this one in the list. The list has the writers by process and then by place, so that is the next of its process, if
/// there is one.
fn next_writer(writers: &[ChosenWriter], k: usize) -> Option<&ChosenWriter>
    requires within { k < length writers.now }
    ensures { option_copied result ≡ slice_get writers.now (k + 1) }
{
    writers.get(k + 1)
}

/// Returns whether the next writer takes the writer's place: it is of the same process, no earlier, and stands before the reader too. Process and
/// place are compared here, so no answer rests on the order of the list: in another order only more writers would count as the latest.
fn follows(
    order: &ForcedOrder,
    writer: &ChosenWriter,
    next: Option<&ChosenWriter>,
    reader: OperationNumber,
) -> bool
    ensures { result ≡ latest.follows_by order.now reader writer.now (option_copied next.entry) }
{
    match next {
        Some(next) => {
            next.name.process == writer.name.process
                && writer.name.place <= next.name.place
                && order.stands(next.name, reader)
        }
        None => false,
    }
}

/// Returns whether the writer stands before the reader, and the next one does not take its place.
fn is_latest(
    order: &ForcedOrder,
    writer: &ChosenWriter,
    next: Option<&ChosenWriter>,
    reader: OperationNumber,
) -> bool
    ensures { result ≡ latest.is_latest order.now reader writer.now (option_copied next.entry) }
{
    order.stands(writer.name, reader) && !follows(order, writer, next, reader)
}

/// Appends the writer's name if it stands before the reader and the next one does not take its place.
fn push_latest(
    names: &mut Vec<OperationNumber>,
    order: &ForcedOrder,
    writer: &ChosenWriter,
    next: Option<&ChosenWriter>,
    reader: OperationNumber,
) -> Result<(), AllocError>
    ensures { OnOk result (names.new.items ≡ names.old.items ++ latest.latest_of order.now reader writer.now (option_copied next.entry)) }
{
    if is_latest(order, writer, next, reader) {
        names.push(writer.name)?;
    }
    Ok(())
}

/// Returns the last writers of the processes that stand before the reader. Whether a writer is overwritten need be asked of these alone: what
/// stands before an earlier writer stands before the later ones of its process too.
fn latest_before(
    alloc: Global,
    order: &ForcedOrder,
    writers: &[ChosenWriter],
    reader: OperationNumber,
) -> Result<Vec<OperationNumber>, AllocError>
    ensures { IfOk result (λ names. AreLatest order.now writers.now reader names.items) }
{
    let mut names = Vec::new(alloc);
    for k in 0..writers.len() {
        push_latest(
            &mut names,
            order,
            &writers[k],
            next_writer(writers, k),
            reader,
        )?;
    }
    Ok(names)
}

/// Returns whether the writer stands before one of these.
fn is_overwritten(order: &ForcedOrder, names: &[OperationNumber], first: OperationNumber) -> bool
    ensures { result ≡ list_any (stands_by order.now first) names.now }
{
    names.iter().any(|x| order.stands(first, *x))
}

/// Returns whether the reader may read this value from the writer. `names` are the latest writers before the reader. An update is a writer too, but
/// does not read what it leaves itself.
fn may_be_source(
    order: &ForcedOrder,
    names: &[OperationNumber],
    writer: &ChosenWriter,
    reader: OperationNumber,
    value: u64,
) -> bool
    ensures { result ≡ latest.is_source_by order.now names.now reader value writer.now }
{
    leaves(writer, value)
        && !is_same(writer.name, reader)
        && !order.stands(reader, writer.name)
        && !is_overwritten(order, names, writer.name)
}

/// Returns whether all writers are chosen from which the reader may read this value. The initial value is no writer: each part has all initial
/// values.
fn are_sources_chosen(
    order: &ForcedOrder,
    writers: &[ChosenWriter],
    names: &[OperationNumber],
    reader: OperationNumber,
    value: u64,
) -> bool
    ensures { result ≡ list_all (λ (w : Row). w.chosen || not (latest.is_source_by order.now names.now reader value w)) writers.now }
{
    writers.iter().all(|w| w.chosen || !may_be_source(order, names, w, reader, value))
}

/// Returns whether all writers of a location are chosen from which the reader may read this value there.
pub fn sources_chosen(
    alloc: Global,
    order: &ForcedOrder,
    writers: &[ChosenWriter],
    reader: OperationNumber,
    value: u64,
) -> Result<bool, AllocError>
    requires forward { IsForwardAmong order.now writers.now }
    ensures { IfOk result (λ all. all ≡ list_all (λ (w : Row). w.chosen || not (rows.row_is_source order.now writers.now reader value w)) writers.now) }
{
    let names = latest_before(alloc, order, writers, reader)?;
    Ok(are_sources_chosen(order, writers, names.as_slice(), reader, value))
}

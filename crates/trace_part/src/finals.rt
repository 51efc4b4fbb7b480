//! The initial and final values of a part.

ghost use Rattle.std.specs.Prelude.{◌≡◌, ◌==◌, ◌&&◌, ◌||◌, not, length, IfOk};
ghost use Rattle.std.specs.List.{filter, list_all, list_any};
ghost use Rattle.forced_order.specs.Rows.{stands_by};
ghost use Rattle.part_law.specs.Part as part;
ghost use Rattle.trace_part.specs.Rows.{row_is_last};
ghost use Rattle.trace_part.specs.Selections.{IsSelection, ordered_in, chosen_in};
ghost use Rattle.trace_part.specs.declared.writers.ChosenWriter.{ChosenWriter as Row};

use crate::selection::Selection;
use crate::sources::leaves;
use crate::writers::ChosenWriter;
use forced_order::forced_order::ForcedOrder;
use forced_order::numbered::OperationNumber;
use std::alloc::{AllocError, Global};
use trace_semantics::name::Name;
use trace_semantics::trace::Trace;

fn copy_of(alloc: Global, entry: &(Name, u64)) -> Result<(Name, u64), AllocError>
    ensures { IfOk result (λ new. new ≡ entry.now) }
{
    Ok((Name::copy_of(alloc, entry.0.as_bytes())?, entry.1))
}

/// Returns whether a writer stands after this one.
fn is_followed(order: &ForcedOrder, writers: &[ChosenWriter], first: OperationNumber) -> bool
    ensures { result ≡ list_any (λ (x : Row). stands_by order.now first x.name) writers.now }
{
    writers.iter().any(|x| order.stands(first, x.name))
}

/// Returns whether the final value of the location may be what this writer has left. It leaves that value, and no writer of the location stands
/// after it.
fn may_be_last(
    order: &ForcedOrder,
    writers: &[ChosenWriter],
    writer: &ChosenWriter,
    value: u64,
) -> bool
    ensures { result ≡ row_is_last order.now writers.now value writer.now }
{
    leaves(writer, value) && !is_followed(order, writers, writer.name)
}

/// Returns whether all writers are chosen that may have left this final value.
fn are_last_chosen(order: &ForcedOrder, writers: &[ChosenWriter], value: u64) -> bool
    ensures { result ≡ list_all (λ (w : Row). w.chosen || not (row_is_last order.now writers.now value w)) writers.now }
{
    writers
        .iter()
        .all(|w| w.chosen || !may_be_last(order, writers, w, value))
}

/// Returns whether one of the writers is among the operations of which the part is made.
fn is_some_chosen(writers: &[ChosenWriter]) -> bool
    ensures { result ≡ list_any (λ (w : Row). w.chosen) writers.now }
{
    writers.iter().any(|w| w.chosen)
}

/// Returns whether a final value stays, by the writers of its location. If the location has writers and none is chosen, the part would compare the
/// final value with the initial one, so it does not stay.
fn stays_by(order: &ForcedOrder, writers: &[ChosenWriter], value: u64) -> bool
    ensures { result ≡ (list_all (λ (w : Row). w.chosen || not (row_is_last order.now writers.now value w)) writers.now && (list_any (λ (w : Row). w.chosen) writers.now || (length writers.now == 0))) }
{
    are_last_chosen(order, writers, value) && (is_some_chosen(writers) || writers.len() == 0)
}

/// Returns whether this final value stays.
fn final_stays<'a>(selection: &Selection<'a>, entry: &'a (Name, u64)) -> bool
    requires selection { IsSelection selection.now }
    ensures { result ≡ part.stays_final selection.now.trace.now (ordered_in selection.now) (chosen_in selection.now) entry.now }
{
    let writers = selection.writers.writers_at(entry.0.as_bytes());
    stays_by(&selection.order, writers, entry.1)
}

/// Returns the final values that stay.
pub fn finals_left<'a>(
    alloc: Global,
    selection: &Selection<'a>,
) -> Result<Vec<(Name, u64)>, AllocError>
    requires selection { IsSelection selection.now }
    ensures { IfOk result (λ left. left.items ≡ filter (part.stays_final selection.now.trace.now (ordered_in selection.now) (chosen_in selection.now)) selection.now.trace.now.final_values) }
{
    let all = selection.trace.final_values();
    let mut left = Vec::new(alloc);
    for k in 0..all.len() {
        let entry = &all[k];
        if final_stays(selection, entry) {
            left.push(copy_of(alloc, entry)?)?;
        }
    }
    Ok(left)
}

/// Returns the initial values: all of them.
pub fn initial_copied(alloc: Global, trace: &Trace) -> Result<Vec<(Name, u64)>, AllocError>
    ensures { IfOk result (λ all. all.items ≡ trace.now.initial) }
{
    let old = trace.initial();
    let mut all = Vec::new(alloc);
    for k in 0..old.len() {
        all.push(copy_of(alloc, &old[k])?)?;
    }
    Ok(all)
}

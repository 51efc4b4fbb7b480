//! The before pairs of a part.
//!
//! A part of a trace is what some chosen operations say by themselves; they have new places in it. What led from one of them to another in the whole may be
//! left out, so the pairs are made of the whole trace's forced order, and not of its own pairs alone.

ghost use Rattle.std.specs.Prelude.{◌≡◌, ◌<◌, ◌+◌, ◌++◌, length, map, take, Option, Some, IfOk, OnOk};
ghost use Rattle.std.specs.List.{filter, find, slice_get};
ghost use Rattle.trace_semantics.specs.declared.operation.Op.{Op as Old};
ghost use Rattle.trace_semantics.specs.declared.operation.OpName.{OpName as Named};
ghost use Rattle.trace_semantics.specs.declared.trace.Process.{Process as Listed};
ghost use Rattle.restriction.specs.Left.{new_pair};
ghost use Rattle.forced_order.specs.Order.{IsClosedForward};
ghost use Rattle.forced_order.specs.Rows.{ordered_by, stands_by};
ghost use Rattle.part_law.specs.Part.{is_told, left_pairs};
ghost use Rattle.trace_part.specs.Rows.{Leaves};
ghost use Rattle.trace_part.specs.Told as told;
ghost use Rattle.trace_part.specs.declared.left_names.LeftName.{LeftName as Row};

use crate::left::Left;
use crate::left_names::{LeftName, left_groups};
use forced_order::forced_order::ForcedOrder;
use forced_order::times::ended_before;
use plain_lists::PlainList;
use std::alloc::{AllocError, Global};
use trace_semantics::name::Name;
use trace_semantics::operation::OpName;
use trace_semantics::trace::Trace;

/// Returns how many names of the group come before the first that the order puts after m. This is a bisection: what stands before a name stands
/// before the later ones of its process, so these come last in the group.
fn count_before(order: &ForcedOrder, m: LeftName, group: &[LeftName]) -> usize
    requires forward { told.IsForwardFrom order.now m group.now }
    ensures { find (λ (n : Row). stands_by order.now m.name n.name) group.now ≡ slice_get group.now result }
{
    group.partition_point(|n| !order.stands(m.name, n.name))
}

/// Returns the first of the names that the order puts after m.
fn first_after(order: &ForcedOrder, m: LeftName, group: &[LeftName]) -> Option<LeftName>
    requires forward { told.IsForwardFrom order.now m group.now }
    ensures { result ≡ find (λ (n : Row). stands_by order.now m.name n.name) group.now }
{
    group.get(count_before(order, m, group)).copied()
}

/// Returns whether the order puts this name, if there is one, before n.
fn is_before(order: &ForcedOrder, next: Option<LeftName>, n: LeftName) -> bool
    ensures { result ≡ told.is_before order.now next n }
{
    match next {
        Some(next) => order.stands(next.name, n.name),
        None => false,
    }
}

/// Returns whether m and n make a before pair of the part, if n is the first of its process that the order puts after m. If the name after m in its
/// process stands before n too, the pair of m and n follows from that one's pair and program order.
fn is_told(order: &ForcedOrder, m: LeftName, next: Option<LeftName>, n: LeftName) -> bool
    ensures { result ≡ told.is_told_first order.now m next n }
{
    m.name.process != n.name.process && !is_before(order, next, n)
}

/// Appends the pair of m and one of the names of a process, if there is one. The name after m in its process is `next`. Of the group only the first
/// that the order puts after m is looked at: the pairs with the later ones follow from that one and program order.
fn push_told_in(
    pairs: &mut Vec<(LeftName, LeftName)>,
    order: &ForcedOrder,
    m: LeftName,
    next: Option<LeftName>,
    group: &[LeftName],
) -> Result<(), AllocError>
    requires forward { told.IsForwardFrom order.now m group.now }
    ensures { OnOk result (pairs.new.items ≡ pairs.old.items ++ told.told_in order.now m next group.now) }
{
    match first_after(order, m, group) {
        Some(n) => {
            if is_told(order, m, next, n) {
                pairs.push((m, n))?;
            }
            Ok(())
        }
        None => Ok(()),
    }
}

/// Appends the pairs of which m is the first.
fn push_told_of(
    pairs: &mut Vec<(LeftName, LeftName)>,
    order: &ForcedOrder,
    m: LeftName,
    next: Option<LeftName>,
    groups: &[PlainList<LeftName>],
) -> Result<(), AllocError>
    requires forward { told.AreForwardFrom order.now m groups.now }
    ensures { OnOk result (pairs.new.items ≡ pairs.old.items ++ told.told_of order.now m next groups.now) }
{
    for k in 0..groups.len() {
        push_told_in(pairs, order, m, next, groups[k].as_slice())?;
    }
    Ok(())
}

/// Returns the name after this one in the list.
fn next_name(group: &[LeftName], k: usize) -> Option<LeftName>
    requires within { k < length group.now }
    ensures { result ≡ slice_get group.now (k + 1) }
{
    group.get(k + 1).copied()
}

/// Appends the pairs of which a name of this process is the first.
fn push_told_from(
    pairs: &mut Vec<(LeftName, LeftName)>,
    order: &ForcedOrder,
    group: &[LeftName],
    groups: &[PlainList<LeftName>],
) -> Result<(), AllocError>
    requires forward { told.IsGroupForward order.now groups.now group.now }
    ensures { OnOk result (pairs.new.items ≡ pairs.old.items ++ told.told_from order.now groups.now group.now) }
{
    for k in 0..group.len() {
        push_told_of(pairs, order, group[k], next_name(group, k), groups)?;
    }
    Ok(())
}

/// Returns the pairs of these names, which are grouped by process.
fn told_pairs(
    alloc: Global,
    order: &ForcedOrder,
    groups: &[PlainList<LeftName>],
) -> Result<Vec<(LeftName, LeftName)>, AllocError>
    requires forward { told.AreForward order.now groups.now }
    ensures { IfOk result (λ pairs. pairs.items ≡ told.told_pairs order.now groups.now) }
{
    let mut pairs = Vec::new(alloc);
    for k in 0..groups.len() {
        push_told_from(&mut pairs, order, groups[k].as_slice(), groups)?;
    }
    Ok(pairs)
}

/// Returns the name of a row in the part.
fn new_name(alloc: Global, trace: &Trace, row: LeftName) -> Result<OpName, AllocError>
    ensures { IfOk result (λ new. (p : Listed) → slice_get trace.now.processes row.name.process ≡ Some p → new ≡ record { process = p.name; place = row.new }) }
{
    let number = row.name.process as usize;
    if number < trace.processes().len() {
        Ok(OpName {
            process: Name::copy_of(alloc, trace.processes()[number].name.as_bytes())?,
            place: row.new,
        })
    } else {
        // never reached: `left_groups` numbers the processes of this trace, and some error must be returned
        Err(AllocError)
    }
}

/// Returns the names of a pair of rows in the part.
fn new_names(
    alloc: Global,
    trace: &Trace,
    pair: &(LeftName, LeftName),
) -> Result<(OpName, OpName), AllocError>
    ensures first { IfOk result (λ new. (p : Listed) → slice_get trace.now.processes pair.now.0.name.process ≡ Some p → new.0 ≡ record { process = p.name; place = pair.now.0.new }) }
    ensures second { IfOk result (λ new. (p : Listed) → slice_get trace.now.processes pair.now.1.name.process ≡ Some p → new.1 ≡ record { process = p.name; place = pair.now.1.new }) }
{
    let first = new_name(alloc, trace, pair.0)?;
    let second = new_name(alloc, trace, pair.1)?;
    Ok((first, second))
}

/// Returns whether it does not follow from times that the first stands before the second.
fn is_untimed(trace: &Trace, pair: (LeftName, LeftName)) -> bool
    ensures { result ≡ told.is_untimed trace.now.processes pair }
{
    !ended_before(trace, pair.0.name, pair.1.name)
}

/// Returns the pairs that do not follow from times. The part keeps the times of its operations, so they say the other pairs again.
fn untimed_pairs(
    alloc: Global,
    trace: &Trace,
    pairs: &[(LeftName, LeftName)],
) -> Result<Vec<(LeftName, LeftName)>, AllocError>
    ensures { IfOk result (λ left. left.items ≡ filter (told.is_untimed trace.now.processes) pairs.now) }
{
    let mut left = Vec::new(alloc);
    for pair in pairs {
        if is_untimed(trace, *pair) {
            left.push(*pair)?;
        }
    }
    Ok(left)
}

/// The most pairs that a part has. It is the limit of `before` lines of versions 1 and 2. Pairs may be left out: a part with fewer has no fewer
/// legal schedules. The definition `part` of `part_law` has the same number.
const MAX_TOLD: usize = 4096;

/// Returns the first 4,096 pairs.
pub fn pairs_left(
    alloc: Global,
    trace: &Trace,
    order: &ForcedOrder,
    all: &[Left],
) -> Result<Vec<(OpName, OpName)>, AllocError>
    requires long { length all.now ≡ length trace.now.processes }
    requires forward { IsClosedForward trace.now (ordered_by trace.now order.now) }
    requires left { (stays : Named → Option Old) × Leaves trace.now stays all.now }
    ensures { IfOk result (λ pairs. (stays : Named → Option Old) → Leaves trace.now stays all.now → pairs.items ≡ map (new_pair stays) (take 4096 (filter (is_told trace.now (ordered_by trace.now order.now) stays) (left_pairs trace.now stays)))) }
{
    trace.recall_invariant();
    let groups = left_groups(alloc, trace, all)?;
    let nearest = told_pairs(alloc, order, groups.as_slice())?;
    let told = untimed_pairs(alloc, trace, nearest.as_slice())?;
    let few = told.as_slice();
    let count = few.len().min(MAX_TOLD);
    let mut pairs = Vec::new(alloc);
    for k in 0..count {
        pairs.push(new_names(alloc, trace, &few[k])?)?;
    }
    Ok(pairs)
}

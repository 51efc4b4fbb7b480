//! The kept trace.

ghost use Rattle.std.specs.Prelude.{◌≡◌, map, IfOk};
ghost use Rattle.std.specs.List.{Contains};
ghost use Rattle.trace_semantics.specs.Trace.{operation_count};
ghost use Rattle.restriction.specs.Left.{left_process, new_pair};
ghost use Rattle.restriction.specs.PlacesLeft.{ArePlacesLeft};
ghost use Rattle.reducer.specs.Reduction as reduction;
ghost use Rattle.reducer.specs.Runs.{bounds_of, AreBounds};

use crate::kept_places::{KeptPlaces, places_left};
use restriction::left_places::LeftPlaces;
use restriction::renamed::{new_name, new_op};
use std::alloc::{AllocError, Global};
use trace_semantics::name::Name;
use trace_semantics::operation::{Op, OpName};
use trace_semantics::trace::{Operations, Process, Trace};

/// Returns the number of kept operations.
pub fn count_kept(trace: &Trace, all: &[KeptPlaces]) -> usize
    requires { AreBounds trace.now all.now }
    ensures { result ≡ operation_count (reduction.kept_trace trace.now) }
{
    trace.recall_invariant();
    let mut count = 0;
    for bounds in all {
        // the last bound is no operation, and is always there
        count += bounds.as_slice().len() - 1;
    }
    count
}

/// Returns the kept operations of a process.
fn kept_operations<'a>(
    alloc: Global,
    trace: &Trace,
    left: &'a [LeftPlaces<'a>],
    process: &Process,
    places: &[u32],
) -> Result<Vec<Op>, AllocError>
    requires left { ArePlacesLeft trace.now (reduction.kept_op trace.now) left.now }
    requires listed { Contains trace.now.processes process.now }
    requires places { places.now ≡ bounds_of trace.now process.now }
    ensures { IfOk result (λ ops. ops.items ≡ (left_process (reduction.kept_op trace.now) process.now).operations) }
{
    trace.recall_invariant();
    let old = process.operations.as_slice();
    let count = places.len() - 1;
    let mut ops = Vec::with_capacity(alloc, count)?;
    for k in 0..count {
        let op = &old[places[k] as usize - 1];
        ops.push(new_op(alloc, trace, left, op)?)?;
    }
    Ok(ops)
}

/// Returns the process with its kept operations. `bounds` are those of this process; `left` has the places of all, by which the origins of its
/// operations get new names.
fn kept_process<'a>(
    alloc: Global,
    trace: &Trace,
    left: &'a [LeftPlaces<'a>],
    process: &Process,
    bounds: &KeptPlaces,
) -> Result<Process, AllocError>
    requires left { ArePlacesLeft trace.now (reduction.kept_op trace.now) left.now }
    requires listed { Contains trace.now.processes process.now }
    requires places { bounds.now ≡ bounds_of trace.now process.now }
    ensures { IfOk result (λ new. new ≡ left_process (reduction.kept_op trace.now) process.now) }
{
    let name = Name::copy_of(alloc, process.name.as_bytes())?;
    let ops = kept_operations(alloc, trace, left, process, bounds.as_slice())?;
    Ok(Process {
        name,
        operations: Operations::new(ops),
    })
}

fn kept_processes<'a>(
    alloc: Global,
    trace: &Trace,
    left: &'a [LeftPlaces<'a>],
    all: &[KeptPlaces],
) -> Result<Vec<Process>, AllocError>
    requires bounds { AreBounds trace.now all.now }
    requires left { ArePlacesLeft trace.now (reduction.kept_op trace.now) left.now }
    ensures { IfOk result (λ new. new.items ≡ map (left_process (reduction.kept_op trace.now)) trace.now.processes) }
{
    let processes = trace.processes();
    let mut new = Vec::with_capacity(alloc, processes.len())?;
    for k in 0..processes.len() {
        new.push(kept_process(alloc, trace, left, &processes[k], &all[k])?)?;
    }
    Ok(new)
}

/// Returns the before pairs, by the new names.
fn new_pairs<'a>(
    alloc: Global,
    trace: &Trace,
    left: &'a [LeftPlaces<'a>],
) -> Result<Vec<(OpName, OpName)>, AllocError>
    requires { ArePlacesLeft trace.now (reduction.kept_op trace.now) left.now }
    ensures { IfOk result (λ new. new.items ≡ map (new_pair (reduction.kept_op trace.now)) trace.now.before) }
{
    let pairs = trace.before();
    let mut new = Vec::with_capacity(alloc, pairs.len())?;
    for k in 0..pairs.len() {
        let pair = &pairs[k];
        let first = new_name(alloc, trace, left, &pair.0)?;
        let second = new_name(alloc, trace, left, &pair.1)?;
        new.push((first, second))?;
    }
    Ok(new)
}

fn copy_of(alloc: Global, values: &[(Name, u64)]) -> Result<Vec<(Name, u64)>, AllocError>
    ensures { IfOk result (λ new. new.items ≡ values.now) }
{
    let mut new = Vec::with_capacity(alloc, values.len())?;
    for entry in values {
        new.push((Name::copy_of(alloc, entry.0.as_bytes())?, entry.1))?;
    }
    Ok(new)
}

/// Returns the kept trace, by the bounds of the runs.
pub fn kept_trace(alloc: Global, trace: &Trace, all: &[KeptPlaces]) -> Result<Trace, AllocError>
    requires { AreBounds trace.now all.now }
    ensures { IfOk result (λ kept. kept ≡ reduction.kept_trace trace.now) }
{
    trace.recall_invariant();
    let places = places_left(alloc, all)?;
    let left = places.as_slice();
    let processes = kept_processes(alloc, trace, left, all)?;
    let initial = copy_of(alloc, trace.initial())?;
    let final_values = copy_of(alloc, trace.final_values())?;
    let before = new_pairs(alloc, trace, left)?;
    Ok(Trace::new(processes, initial, final_values, before))
}

//! The places of the runs of dropped reads in the processes.

ghost use Rattle.std.specs.Prelude.{◌≡◌, ◌<◌, ◌≤◌, ◌+◌, length, map, IfOk, position};
ghost use Rattle.std.specs.List.{slice_get};
ghost use Rattle.std.specs.Option.{option_copied, option_and_then};
ghost use Rattle.std.specs.Str.{bytes_eq};
ghost use Rattle.trace_semantics.specs.declared.trace.Process.{Process as Listed};
ghost use Rattle.trace_semantics.specs.declared.limits.Limits.TheVariants.{Large};
ghost use Rattle.trace_semantics.specs.Limits.{max_operations};
ghost use Rattle.trace_semantics.specs.Trace.{at_place};
ghost use Rattle.reducer.specs.Named.{HasNamed};
ghost use Rattle.reducer.specs.Reduction as reduction;
ghost use Rattle.reducer.specs.Runs.{bounds_by, keeps, without_last, AreBounds};

use restriction::left_places::LeftPlaces;
use std::alloc::{AllocError, Global};
use std::marker::Model;
use trace_semantics::op_set::OpSet;
use trace_semantics::operation::{Op, Origin};
use trace_semantics::process_order::find_process;
use trace_semantics::trace::{Process, Trace};

/// The places of the kept operations of a process, and then one more than its last place.
#[derive(Drop)]
pub struct KeptPlaces {
    /// Element k is the old place of the operation at place k + 1 of the kept trace. The dropped reads after it stand directly behind it, up to the
    /// place before element k + 1.
    places: Vec<u32>,
}

impl Model for KeptPlaces {
    ghost use Rattle.std.specs.Prelude.{List, ℕ};

    ghost Value = { List ℕ };

    ghost view = { λ bounds. bounds.places.items };
}

impl KeptPlaces {
    ghost use Rattle.std.specs.Prelude.{◌≡◌};
    ghost use Rattle.reducer.specs.Runs.{without_last};

    /// Returns the bounds as a slice.
    pub fn as_slice(&self) -> &[u32]
        ensures { result.now ≡ self.now }
    {
        self.places.as_slice()
    }

    /// Returns the places of the kept operations. The list is never empty; `saturating_sub` spares a contract that says so.
    fn places(&self) -> &[u32]
        ensures { result.now ≡ without_last self.now }
    {
        let bounds = self.places.as_slice();
        &bounds[..bounds.len().saturating_sub(1)]
    }
}

/// Returns what the operation's location holds directly after it.
fn value_behind(op: &Op) -> u64
    ensures { result ≡ reduction.value_behind op.now }
{
    match op {
        Op::Read { value, .. } => *value,
        Op::Write { value, .. } => *value,
        Op::Update { left, .. } => *left,
    }
}

/// Returns whether the second is a plain read of what its location holds directly after the first, and nothing is said of its
/// source and of its times.
pub fn is_repeat(earlier: &Op, op: &Op) -> bool
    ensures { result ≡ reduction.is_repeat earlier.now op.now }
{
    match op {
        Op::Read {
            location,
            value,
            origin: Origin::Any,
            span: None,
        } => {
            earlier.location().as_bytes() == location.as_bytes() && value_behind(earlier) == *value
        }
        _ => false,
    }
}

/// Returns whether the operation repeats the one directly before it. k counts from 0. The earlier operation may be a dropped read itself: then both
/// repeat the last kept one before them.
fn repeats_previous(operations: &[Op], k: usize) -> bool
    requires { k < length operations.now }
    ensures { result ≡ reduction.repeats (at_place operations.now k) (at_place operations.now (k + 1)) }
{
    0 < k && is_repeat(&operations[k - 1], &operations[k])
}

/// Returns whether the operation is kept. k counts from 0, and the set has places, which count from 1. The set has the operations that pairs and
/// origins name: they are kept even if they repeat.
fn is_kept<'a>(set: &OpSet<'a>, process: &'a Process, k: usize) -> bool
    requires { k < length process.now.operations }
    ensures { result ≡ keeps set.now process.now (record { process = process.now.name; place = k + 1 }) }
{
    !repeats_previous(process.operations.as_slice(), k)
        || set.contains(process.name.as_bytes(), k + 1)
}

/// Returns the bounds of the runs of a process.
fn bounds_in<'a>(
    alloc: Global,
    set: &OpSet<'a>,
    process: &'a Process,
) -> Result<KeptPlaces, AllocError>
    requires { length process.now.operations ≤ max_operations Large }
    ensures { IfOk result (λ bounds. bounds ≡ bounds_by (keeps set.now process.now) process.now) }
{
    let mut places = Vec::new(alloc);
    let count = process.operations.as_slice().len();
    for k in 0..count {
        if is_kept(set, process, k) {
            places.push((k + 1) as u32)?;
        }
    }
    places.push((count + 1) as u32)?;
    Ok(KeptPlaces { places })
}

/// Returns the bounds of the runs of each process, if the set has the operations that are named.
pub fn all_bounds<'a>(
    alloc: Global,
    set: &OpSet<'a>,
    trace: &'a Trace,
) -> Result<Vec<KeptPlaces>, AllocError>
    requires { HasNamed trace.now set.now }
    ensures { IfOk result (λ bounds. AreBounds trace.now bounds.items) }
{
    trace.recall_invariant();
    let processes = trace.processes();
    let mut all = Vec::new(alloc);
    for process in processes {
        all.push(bounds_in(alloc, set, process)?)?;
    }
    Ok(all)
}

/// Returns the bounds of the process of this name.
pub fn bounds_at<'a>(
    processes: &[Process],
    all: &'a [KeptPlaces],
    name: &[u8],
) -> Option<&'a KeptPlaces>
    ensures { option_copied result ≡ option_and_then (slice_get all.now) (position (λ (p : Listed). bytes_eq p.name name.now) processes.now) }
{
    match find_process(processes, name) {
        Some(k) => all.get(k),
        None => None,
    }
}

/// Returns the places of the kept operations of each process, which are its bounds without the last.
pub fn places_left<'a>(
    alloc: Global,
    all: &'a [KeptPlaces],
) -> Result<Vec<LeftPlaces<'a>>, AllocError>
    ensures { IfOk result (λ left. left.items ≡ map without_last all.now) }
{
    let mut left = Vec::with_capacity(alloc, all.len())?;
    for k in 0..all.len() {
        left.push(LeftPlaces::new(all[k].places()))?;
    }
    Ok(left)
}

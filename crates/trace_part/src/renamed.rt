//! The part's processes, by the new names.

ghost use Rattle.std.specs.Prelude.{◌≡◌, length, map, Option, IfOk};
ghost use Rattle.trace_semantics.specs.declared.operation.Op.{Op as Old};
ghost use Rattle.trace_semantics.specs.declared.operation.OpName.{OpName as Named};
ghost use Rattle.restriction.specs.Left as naming;
ghost use Rattle.restriction.specs.PlacesLeft.{ArePlacesLeft};
ghost use Rattle.trace_part.specs.Rows.{AreLeft, Leaves, LeftValue, left_value};

use crate::left::Left;
use restriction::left_places::LeftPlaces;
use restriction::renamed::new_op;
use std::alloc::{AllocError, Global};
use trace_semantics::name::Name;
use trace_semantics::operation::Op;
use trace_semantics::trace::{Operations, Process, Trace};

/// Returns the old places of what remains of each process.
fn old_places<'a>(alloc: Global, all: &'a [Left]) -> Result<Vec<LeftPlaces<'a>>, AllocError>
    ensures { IfOk result (λ places. places.items ≡ map (λ (left : LeftValue). left.places) all.now) }
{
    let mut places = Vec::new(alloc);
    for k in 0..all.len() {
        places.push(LeftPlaces::new(all[k].places()))?;
    }
    Ok(places)
}

/// Returns the operations with the new names of their origins.
fn new_ops<'a>(
    alloc: Global,
    trace: &Trace,
    places: &'a [LeftPlaces<'a>],
    left: &Left,
) -> Result<Vec<Op>, AllocError>
    ensures { IfOk result (λ new. (stays : Named → Option Old) → ArePlacesLeft trace.now stays places.now → new.items ≡ map (naming.new_op stays) left.now.ops) }
{
    let old = left.ops();
    let mut new = Vec::new(alloc);
    for k in 0..old.len() {
        new.push(new_op(alloc, trace, places, &old[k])?)?;
    }
    Ok(new)
}

fn new_process<'a>(
    alloc: Global,
    trace: &Trace,
    places: &'a [LeftPlaces<'a>],
    process: &Process,
    left: &Left,
) -> Result<Process, AllocError>
    ensures { IfOk result (λ new. (stays : Named → Option Old) → ArePlacesLeft trace.now stays places.now → left.now ≡ left_value stays (naming.names_of process.now) → new ≡ naming.left_process stays process.now) }
{
    let name = Name::copy_of(alloc, process.name.as_bytes())?;
    let ops = new_ops(alloc, trace, places, left)?;
    Ok(Process {
        name,
        operations: Operations::new(ops),
    })
}

/// Returns the processes with what remains of them, whose old places these are.
fn processes_by<'a>(
    alloc: Global,
    trace: &Trace,
    places: &'a [LeftPlaces<'a>],
    all: &[Left],
) -> Result<Vec<Process>, AllocError>
    requires { length all.now ≡ length trace.now.processes }
    ensures { IfOk result (λ new. (stays : Named → Option Old) → ArePlacesLeft trace.now stays places.now → AreLeft trace.now stays all.now → new.items ≡ map (naming.left_process stays) trace.now.processes) }
{
    let processes = trace.processes();
    let mut new = Vec::new(alloc);
    for k in 0..processes.len() {
        new.push(new_process(alloc, trace, places, &processes[k], &all[k])?)?;
    }
    Ok(new)
}

/// Returns the processes of the part.
pub fn new_processes(alloc: Global, trace: &Trace, all: &[Left]) -> Result<Vec<Process>, AllocError>
    requires { length all.now ≡ length trace.now.processes }
    ensures { IfOk result (λ new. (stays : Named → Option Old) → Leaves trace.now stays all.now → new.items ≡ map (naming.left_process stays) trace.now.processes) }
{
    let places = old_places(alloc, all)?;
    processes_by(alloc, trace, places.as_slice(), all)
}

//! Schedules of the whole trace.

ghost use Rattle.std.specs.Prelude.{◌≡◌, ◌++◌, ◌-◌, IfOk, IsSome, OnOk};
ghost use Rattle.trace_semantics.specs.Interleaving.{IsInterleaving};
ghost use Rattle.trace_semantics.specs.Trace.{operation_at};
ghost use Rattle.restriction.specs.Left.{names_from};
ghost use Rattle.reducer.specs.Expansion.{expanded, expansion};

use crate::kept_places::bounds_at;
use crate::reduced::Reduced;
use std::alloc::{AllocError, Global};
use trace_semantics::name::Name;
use trace_semantics::operation::OpName;
use trace_semantics::schedule::Schedule;

/// Appends the names of a process from one place on, before another.
fn push_names(
    alloc: Global,
    names: &mut Vec<OpName>,
    process: &[u8],
    first: u32,
    end: u32,
) -> Result<(), AllocError>
    ensures { OnOk result (names.new.items ≡ names.old.items ++ names_from process.now first (end - first)) }
{
    for place in first..end {
        names.push(OpName {
            process: Name::copy_of(alloc, process)?,
            place,
        })?;
    }
    Ok(())
}

/// Appends the first name of a kept name, and the run after it. The bounds count from 0 and places from 1. So the bound
/// before the one at the kept name's place is its place in the whole trace, and the one at its place ends the run.
fn push_run(
    alloc: Global,
    names: &mut Vec<OpName>,
    reduced: &Reduced,
    name: &OpName,
) -> Result<(), AllocError>
    requires { IsSome (operation_at reduced.now.kept name.now) }
    ensures { OnOk result (names.new.items ≡ names.old.items ++ expanded reduced.now.whole name.now) }
{
    let processes = reduced.kept().processes();
    let process = name.process.as_bytes();
    match bounds_at(processes, reduced.bounds(), process) {
        Some(bounds) => {
            let places = bounds.as_slice();
            let place = name.place as usize;
            push_names(alloc, names, process, places[place - 1], places[place])
        }
        // not reached: the contract asks for a name of the kept trace
        None => Ok(()),
    }
}

/// Returns the schedule with the dropped reads put back: each name becomes its name in the whole trace, followed by the names of the
/// run of dropped reads that stands directly after it.
pub fn expand(alloc: Global, reduced: &Reduced, schedule: &Schedule) -> Result<Schedule, AllocError>
    requires { IsInterleaving reduced.now.kept schedule.now }
    ensures { IfOk result (λ whole. whole ≡ expansion reduced.now.whole schedule.now) }
{
    let old = schedule.names();
    let mut names = Vec::with_capacity(alloc, old.len())?;
    for k in 0..old.len() {
        push_run(alloc, &mut names, reduced, &old[k])?;
    }
    Ok(Schedule::new(names))
}

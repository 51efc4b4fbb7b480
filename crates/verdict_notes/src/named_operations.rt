//! Operations of a trace by their names.

use trace_semantics::operation::{Op, OpName, Origin};
use trace_semantics::process_order::find_process;
use trace_semantics::trace::{Process, Trace};

/// The process of this name.
pub fn process_of<'t>(trace: &'t Trace, name: &[u8]) -> Option<&'t Process> {
    let processes = trace.processes();
    match find_process(processes, name) {
        Some(number) => processes.get(number),
        None => None,
    }
}

/// The operation at this place of the process, counted from 1.
fn at_place(process: &Process, place: usize) -> Option<&Op> {
    if place == 0 {
        return None;
    }
    process.operations.as_slice().get(place - 1)
}

/// The operation of this name, if the trace has one.
pub fn operation_of<'t>(trace: &'t Trace, name: &OpName) -> Option<&'t Op> {
    match process_of(trace, name.process.as_bytes()) {
        Some(process) => at_place(process, name.place as usize),
        None => None,
    }
}

/// Returns whether the operation has this name.
pub fn is_named(name: &OpName, process: &[u8], place: u64) -> bool {
    name.process.as_bytes() == process && name.place as u64 == place
}

/// Returns whether an operation of this name is among these.
pub fn has_come(names: &[OpName], process: &[u8], place: u64) -> bool {
    for name in names {
        if is_named(name, process, place) {
            return true;
        }
    }
    false
}

/// The number of these names that are of the process.
pub fn count_of(names: &[OpName], process: &[u8]) -> usize {
    let mut count: usize = 0;
    for name in names {
        if name.process.as_bytes() == process {
            count = count.saturating_add(1);
        }
    }
    count
}

/// The place, counted from 1 as in names, that is `k` counted from 0.
pub fn place_after(k: usize) -> u64 {
    (k as u64).saturating_add(1)
}

/// Gives what is said of where the operation reads from.
pub fn origin_of(op: &Op) -> Option<&Origin> {
    match op {
        Op::Read { origin, .. } => Some(origin),
        Op::Write { .. } => None,
        Op::Update { origin, .. } => Some(origin),
    }
}

//! Values of which the whole trace has fewer sources than are needed.

use crate::choice::{DrawnChoice, number_at};
use std::alloc::{AllocError, Global};
use trace_semantics::operation::Op;
use trace_semantics::trace::Trace;

/// A value at a location.
#[derive(Clone, Copy)]
struct NeededValue<'t> {
    location: &'t [u8],
    value: u64,
}

impl NeededValue<'_> {
    /// Returns whether these are the value and its location.
    fn is(&self, location: &[u8], value: Option<u64>) -> bool {
        value == Some(self.value) && self.location == location
    }

    /// Returns whether the operation reads and replaces the value.
    fn is_taken_by(&self, op: &Op) -> bool {
        op.written_value().is_some() && self.is(op.location().as_bytes(), op.value_read())
    }

    /// Returns whether the operation leaves the value.
    fn is_left_by(&self, op: &Op) -> bool {
        self.is(op.location().as_bytes(), op.written_value())
    }
}

/// Returns whether more operations need a source of this value than there are sources. A final value needs one too: its source is the last
/// write, which no update reads.
fn is_short(trace: &Trace, placed: NeededValue<'_>) -> bool {
    let mut needed: u64 = 0;
    let mut given: u64 = 0;
    for entry in trace.initial() {
        if placed.is(entry.0.as_bytes(), Some(entry.1)) {
            given = given.saturating_add(1);
        }
    }
    for entry in trace.final_values() {
        if placed.is(entry.0.as_bytes(), Some(entry.1)) {
            needed = needed.saturating_add(1);
        }
    }
    for process in trace.processes() {
        for op in process.operations.as_slice() {
            if placed.is_taken_by(op) {
                needed = needed.saturating_add(1);
            }
            if placed.is_left_by(op) {
                given = given.saturating_add(1);
            }
        }
    }
    needed > given
}

/// The operations that read or leave the value, but for plain reads.
fn choice_of(
    alloc: Global,
    trace: &Trace,
    placed: NeededValue<'_>,
) -> Result<DrawnChoice, AllocError> {
    let mut choice = DrawnChoice::none(alloc);
    let processes = trace.processes();
    for process in 0..processes.len() {
        let ops = processes[process].operations.as_slice();
        for k in 0..ops.len() {
            if placed.is_taken_by(&ops[k]) || placed.is_left_by(&ops[k]) {
                if let Some(number) = number_at(process, k) {
                    choice.choose(number)?;
                }
            }
        }
    }
    Ok(choice)
}

/// The operations that need a source of their own of one value at one location, and those that give one, if they are too few. Nothing
/// if there is no such value.
pub fn too_few_sources(alloc: Global, trace: &Trace) -> Result<Option<DrawnChoice>, AllocError> {
    for process in trace.processes() {
        for op in process.operations.as_slice() {
            if let (Some(value), Some(_)) = (op.value_read(), op.written_value()) {
                let placed = NeededValue {
                    location: op.location().as_bytes(),
                    value,
                };
                if is_short(trace, placed) {
                    return Ok(Some(choice_of(alloc, trace, placed)?));
                }
            }
        }
    }
    Ok(None)
}

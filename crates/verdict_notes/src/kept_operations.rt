//! The operations that have numbers in the formula of a trace, by their names in the whole trace.

use crate::named_operations::{is_named, origin_of, place_after};
use crate::shown_places::ShownPlaces;
use reducer::is_repeat;
use std::alloc::{AllocError, Global};
use trace_semantics::operation::{Op, Origin};
use trace_semantics::trace::{Process, Trace};

/// An operation that is not left out of the formula.
#[derive(Clone, Copy)]
pub struct KeptOp<'t> {
    /// The name of its process.
    pub process: &'t [u8],
    /// The place under which it is named.
    pub place: u64,
    pub op: &'t Op,
}

/// Returns whether the operation of this name stands in a before pair.
fn is_in_pair(trace: &Trace, process: &[u8], place: u64) -> bool {
    for pair in trace.before() {
        if is_named(&pair.0, process, place) || is_named(&pair.1, process, place) {
            return true;
        }
    }
    false
}

/// Returns whether one of these operations reads, by its line, from the operation of this name.
fn is_source_of(ops: &[Op], process: &[u8], place: u64) -> bool {
    for op in ops {
        if let Some(Origin::Operation(name)) = origin_of(op) {
            if is_named(name, process, place) {
                return true;
            }
        }
    }
    false
}

/// Returns whether a before pair or an origin names the operation.
fn is_spoken_of(trace: &Trace, process: &[u8], place: u64) -> bool {
    if is_in_pair(trace, process, place) {
        return true;
    }
    for other in trace.processes() {
        if is_source_of(other.operations.as_slice(), process, place) {
            return true;
        }
    }
    false
}

/// Returns whether the reduction leaves out the operation at this place of the process, counted from 0. This is the rule of `reducer`, found
/// again here for names alone. If the two differed, `open_cubes` would name wrong operations, or none if their number differed.
fn is_left_out(trace: &Trace, process: &Process, k: usize) -> bool {
    let ops = process.operations.as_slice();
    if k == 0 || k >= ops.len() {
        return false;
    }
    is_repeat(&ops[k - 1], &ops[k]) && !is_spoken_of(trace, process.name.as_bytes(), place_after(k))
}

/// Adds the operations of the process of this number that are kept.
fn add_process<'t>(
    kept: &mut Vec<KeptOp<'t>>,
    trace: &'t Trace,
    places: &ShownPlaces,
    process: &'t Process,
    number: usize,
) -> Result<(), AllocError> {
    let ops = process.operations.as_slice();
    for k in 0..ops.len() {
        if !is_left_out(trace, process, k) {
            kept.push(KeptOp {
                process: process.name.as_bytes(),
                place: places.at(number, k),
                op: &ops[k],
            })?;
        }
    }
    Ok(())
}

/// The operations that the reduction keeps, in the order of their numbers.
pub fn kept_ops<'t>(
    alloc: Global,
    trace: &'t Trace,
    places: &ShownPlaces,
) -> Result<Vec<KeptOp<'t>>, AllocError> {
    let mut kept = Vec::new(alloc);
    let processes = trace.processes();
    for number in 0..processes.len() {
        add_process(&mut kept, trace, places, &processes[number], number)?;
    }
    Ok(kept)
}

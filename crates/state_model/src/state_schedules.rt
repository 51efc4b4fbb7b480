//! Searches of states that look for a schedule of the whole trace.

use crate::model::model_along;
use clause_blocks::trace_clauses::TraceClauses;
use dimacs::Assignment;
use numbered_log::{Budget, NumberedLog};
use state_search::{Breadth, schedule_by_states};
use std::alloc::{AllocError, Global};
use trace_log::log_of;
use trace_semantics::trace::Trace;

/// How a search of states looks for a schedule.
#[derive(Clone, Copy)]
pub enum StateSearchKind {
    /// It goes on from few states.
    Narrow,
    /// It goes on from more states.
    Broad,
    /// It goes on from as many, but it matters little to it that a value has few spare times.
    Spendthrift,
    /// It goes on from four times as many, and this matters half as much to it.
    Patient,
}

/// The states of a layer times the number of processes: more processes have more that can come next, so fewer states make as much work. In a prototype
/// the narrow search scheduled 58 of 73 hard traces with a schedule, and with two broad ones 70, where a layer had 300 and 1,000 states, as with eight processes.
const NARROW_STATES: u32 = 2_400;

/// The same of the broad searches, which take three times as long each.
const BROAD_STATES: u32 = 8_000;

/// The same of the patient one: with 4,000 states of a layer one of four traces that the others had left open was scheduled, in half a second.
const PATIENT_STATES: u32 = 32_000;

/// What a value costs over which no further plain write can come. In the prototype 1,000 states scheduled 63 traces with this weight, and 62 with half of it and with 300.
const SPARE_WEIGHT: u32 = 200;

/// The same where it matters less. By itself it scheduled fewer traces (60), but others.
const SMALL_SPARE_WEIGHT: u32 = 10;

/// The same of the patient search.
const PATIENT_SPARE_WEIGHT: u32 = 100;

/// The most looks of a search, a third of a second. One of 160 operations of eight processes on one location takes some 12 million with 1,000 states of a layer.
const LOOKS: u64 = 32_000_000;

/// The same of the patient search, a second.
const PATIENT_LOOKS: u64 = 96_000_000;

/// The number of processes that have operations.
fn busy_processes(log: &NumberedLog) -> u32 {
    let mut count: u32 = 0;
    for process in log.process_ids() {
        if log.length(process) > 0 {
            count = count.wrapping_add(1);
        }
    }
    count
}

/// Returns how broad a search of this kind is for the log.
fn breadth_of(log: &NumberedLog, kind: StateSearchKind) -> Breadth {
    let (states, spare_weight) = match kind {
        StateSearchKind::Narrow => (NARROW_STATES, SPARE_WEIGHT),
        StateSearchKind::Broad => (BROAD_STATES, SPARE_WEIGHT),
        StateSearchKind::Spendthrift => (BROAD_STATES, SMALL_SPARE_WEIGHT),
        StateSearchKind::Patient => (PATIENT_STATES, PATIENT_SPARE_WEIGHT),
    };
    // Without operations there is one state, whatever the breadth.
    let processes = busy_processes(log).max(1);
    Breadth {
        states: states / processes,
        spare_weight,
    }
}

/// Returns how many looks a search of this kind may take.
fn looks_of(kind: StateSearchKind) -> u64 {
    match kind {
        StateSearchKind::Narrow | StateSearchKind::Broad | StateSearchKind::Spendthrift => LOOKS,
        StateSearchKind::Patient => PATIENT_LOOKS,
    }
}

/// A model of these clauses, which are those of the trace, if a search of states of this kind schedules it. Such a search heeds program order alone, so a trace that
/// says of other operations which stands first is left to others. So is one with a value of a known origin.
pub fn model_by_states(
    alloc: Global,
    trace: &Trace,
    clauses: &TraceClauses,
    kind: StateSearchKind,
) -> Result<Option<Assignment>, AllocError> {
    if !clauses.layout().before().is_empty() {
        return Ok(None);
    }
    let log = log_of(alloc, trace)?;
    let breadth = breadth_of(&log, kind);
    match schedule_by_states(alloc, &log, breadth, Budget::new(looks_of(kind)))? {
        Some(schedule) => Ok(Some(model_along(alloc, clauses, schedule.as_slice())?)),
        None => Ok(None),
    }
}

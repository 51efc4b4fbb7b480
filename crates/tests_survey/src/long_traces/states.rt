//! Searches of states of short logs, drawn from runs: what is found is a legal schedule.

use crate::expectations::{ample, expect};
use crate::long_traces::beams::{drawn_log, is_legal};
use numbered_log::{Budget, LocationId, NumberedLog, NumberedOrigin, OperationId};
use state_search::{Breadth, schedule_by_states};
use std::alloc::{AllocError, Global};
use std::process::Abort;

/// Searches the log with this breadth and this many steps. Returns whether a schedule was found, or none if what was found is wrong.
fn is_found(
    alloc: Global,
    log: &NumberedLog,
    states: u32,
    steps: u64,
) -> Result<Option<bool>, AllocError> {
    let breadth = Breadth {
        states,
        spare_weight: 200,
    };
    let Some(schedule) = schedule_by_states(alloc, log, breadth, Budget::new(steps))? else {
        return Ok(Some(false));
    };
    let is_right = is_legal(alloc, log, schedule.as_slice())?;
    Ok(if is_right { Some(true) } else { None })
}

/// Asserts whether a broad search of this many steps finds a schedule of the log, in the case of this number.
fn assert_found(
    rt: &impl Abort,
    alloc: Global,
    log: &NumberedLog,
    steps: u64,
    is_wanted: bool,
    number: usize,
) {
    let found = ample(rt, is_found(alloc, log, 2000, steps));
    expect(rt, found == Some(is_wanted), number);
}

/// Returns whether of each of twenty runs of this many operations a schedule is found, if there are steps, and else of none.
fn are_found_with(alloc: Global, count: u32, steps: u64) -> Result<bool, AllocError> {
    for seed in 0..20u64 {
        let log = drawn_log(alloc, seed, count)?;
        if is_found(alloc, &log, 2000, steps)? != Some(steps > 0) {
            return Ok(false);
        }
    }
    Ok(true)
}

#[test]
fn a_broad_search_schedules_each_short_run(rt: HostRuntime) {
    let alloc = rt.alloc();
    expect(&rt, ample(&rt, are_found_with(alloc, 24, 100_000_000)), 0);
}

#[test]
fn without_steps_no_schedule_is_found(rt: HostRuntime) {
    let alloc = rt.alloc();
    expect(&rt, ample(&rt, are_found_with(alloc, 24, 0)), 0);
}

#[test]
fn a_narrow_search_schedules_some_runs(rt: HostRuntime) {
    let alloc = rt.alloc();
    let mut found: u32 = 0;
    for seed in 0..20u64 {
        let log = ample(&rt, drawn_log(alloc, seed, 40));
        match ample(&rt, is_found(alloc, &log, 20, 100_000_000)) {
            None => expect(&rt, false, seed as usize),
            Some(true) => found = found.wrapping_add(1),
            Some(false) => {}
        }
    }
    expect(&rt, found > 0, 20);
}

#[test]
fn the_log_without_operations_has_a_schedule(rt: HostRuntime) {
    let alloc = rt.alloc();
    let log = ample(&rt, NumberedLog::new(alloc, 0));
    assert_found(&rt, alloc, &log, 100, true, 0);
}

#[test]
fn a_value_that_nothing_leaves_is_no_final_value(rt: HostRuntime) {
    let alloc = rt.alloc();
    let mut log = ample(&rt, drawn_log(alloc, 1, 24));
    log.set_last(LocationId::FIRST, Some(99));
    assert_found(&rt, alloc, &log, 100_000_000, false, 0);
}

#[test]
fn a_run_is_scheduled_unless_a_value_has_an_origin(rt: HostRuntime) {
    let alloc = rt.alloc();
    let mut log = ample(&rt, drawn_log(alloc, 1, 24));
    assert_found(&rt, alloc, &log, 100_000_000, true, 0);
    log.set_origin(OperationId::FIRST, NumberedOrigin::Initial);
    assert_found(&rt, alloc, &log, 100_000_000, false, 1);
}

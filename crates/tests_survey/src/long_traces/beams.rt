//! Beam searches of logs of many updates, drawn from runs: what is found is a legal schedule.

use crate::expectations::{ample, expect};
use crate::long_traces::drawn_numbers::DrawnNumbers;
use beam_search::{Beam, BeamEnding, BeamSearch};
use closed_rows::ClosedRows;
use numbered_log::{
    Budget, LocationId, NOBODY, NumberedLog, NumberedOrigin, Operation, OperationId, ProcessId,
    ProcessPlace,
};
use possible_sources::ValueClasses;
use std::alloc::{AllocError, Global};
use total_tables::{at, put, size};

/// The processes, the locations and the values of a drawn run.
const PROCESSES: u32 = 4;

const LOCATIONS: u32 = 3;

const VALUES: u64 = 3;

/// A beam of this width.
fn beam_of(width: u32) -> Beam {
    Beam {
        width,
        imbalance: 30,
        seed: 0,
    }
}

/// The next operation of a run in which memory holds this. It is taken over.
fn drawn_operation(random: &mut DrawnNumbers, memory: &mut Vec<u64>) -> Operation {
    let process = ProcessId::new(random.small(PROCESSES));
    let location = LocationId::new(random.small(LOCATIONS));
    let held = at(memory.as_slice(), location.number(), 0);
    let kind = random.below(4);
    let left = random.below(VALUES);
    if kind > 1 {
        put(memory.as_mut_slice(), location.number(), left);
    }
    Operation {
        process,
        place: ProcessPlace::START,
        location,
        reads: kind != 3,
        writes: kind > 1,
        needed: held,
        left,
        origin: NumberedOrigin::Any,
    }
}

/// The log of a run of this many operations, and of its final values.
pub fn drawn_log(alloc: Global, seed: u64, count: u32) -> Result<NumberedLog, AllocError> {
    let mut random = DrawnNumbers::new(seed);
    let mut memory = vec![in alloc; 0; LOCATIONS as usize]?;
    let mut run = Vec::new(alloc);
    for _ in 0..count {
        run.push(drawn_operation(&mut random, &mut memory))?;
    }
    let mut log = NumberedLog::new(alloc, LOCATIONS)?;
    for process in ProcessId::first(PROCESSES) {
        for operation in &run {
            if operation.process == process {
                log.add_operation(*operation)?;
            }
        }
        log.end_process()?;
    }
    for location in LocationId::first(LOCATIONS) {
        log.set_initial(location, Some(0));
        log.set_last(location, Some(at(memory.as_slice(), location.number(), 0)));
    }
    Ok(log)
}

/// Returns whether the operations are all of the log, each reads what its location holds, and the final values are as they have to be.
pub fn is_legal(
    alloc: Global,
    log: &NumberedLog,
    schedule: &[OperationId],
) -> Result<bool, AllocError> {
    let mut fronts = vec![in alloc; ProcessPlace::FIRST; log.processes() as usize]?;
    let mut memory = vec![in alloc; 0; log.locations() as usize]?;
    for entry in 0..size(schedule) {
        let operation = log.operation(at(schedule, entry, NOBODY));
        let held = at(memory.as_slice(), operation.location.number(), 0);
        let front = at(
            fronts.as_slice(),
            operation.process.number(),
            ProcessPlace::START,
        );
        if operation.place != front || (operation.reads && operation.needed != held) {
            return Ok(false);
        }
        put(
            fronts.as_mut_slice(),
            operation.process.number(),
            front.next(),
        );
        if operation.writes {
            put(
                memory.as_mut_slice(),
                operation.location.number(),
                operation.left,
            );
        }
    }
    for location in log.location_ids() {
        if Some(at(memory.as_slice(), location.number(), 0)) != log.last(location) {
            return Ok(false);
        }
    }
    Ok(size(schedule) == log.count())
}

/// Searches the log with this beam and this many steps. Returns whether a schedule was found, or none if what was found is wrong.
fn is_found(
    alloc: Global,
    log: &NumberedLog,
    width: u32,
    steps: u64,
) -> Result<Option<bool>, AllocError> {
    let classes = ValueClasses::new(alloc, log)?;
    let rows = ClosedRows::new(alloc, log)?;
    let mut budget = Budget::new(steps);
    let mut search = BeamSearch::new(alloc, log, &classes, &rows)?;
    let ending = search.run(alloc, beam_of(width), &mut budget)?;
    if ending == BeamEnding::GivenUp {
        let is_right = search.schedule().is_empty() && search.most_placed() <= log.count();
        return Ok(if is_right { Some(false) } else { None });
    }
    let is_right = is_legal(alloc, log, search.schedule())?;
    Ok(if is_right { Some(true) } else { None })
}

/// The number of these logs of which a schedule is found, or none if what was found of one is wrong.
fn found_of(alloc: Global, count: u32, width: u32, steps: u64) -> Result<Option<u32>, AllocError> {
    let mut found: u32 = 0;
    for seed in 0..20u64 {
        let log = drawn_log(alloc, seed, count)?;
        match is_found(alloc, &log, width, steps)? {
            None => return Ok(None),
            Some(true) => found = found.wrapping_add(1),
            Some(false) => {}
        }
    }
    Ok(Some(found))
}

#[test]
fn a_wide_beam_schedules_each_short_run(rt: HostRuntime) {
    let alloc = rt.alloc();
    let found = ample(&rt, found_of(alloc, 24, 2000, 100_000_000));
    expect(&rt, found == Some(20), 0);
}

#[test]
fn a_narrow_beam_schedules_some_runs(rt: HostRuntime) {
    let alloc = rt.alloc();
    let found = ample(&rt, found_of(alloc, 40, 20, 30_000));
    expect(&rt, found != None && found != Some(0), 0);
}

#[test]
fn without_steps_nothing_is_found(rt: HostRuntime) {
    let alloc = rt.alloc();
    expect(&rt, ample(&rt, found_of(alloc, 24, 2000, 0)) == Some(0), 0);
}

#[test]
fn a_log_with_an_origin_is_not_searched(rt: HostRuntime) {
    let alloc = rt.alloc();
    let mut log = ample(&rt, drawn_log(alloc, 1, 24));
    let classes = ample(&rt, ValueClasses::new(alloc, &log));
    expect(&rt, BeamSearch::can_search(&log, &classes), 0);
    log.set_origin(OperationId::FIRST, NumberedOrigin::Initial);
    expect(&rt, !BeamSearch::can_search(&log, &classes), 1);
}

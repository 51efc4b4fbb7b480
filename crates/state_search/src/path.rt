//! The way to a state, as a schedule.

use crate::layer::{Choice, NO_CHOICE};
use crate::prices::Prices;
use crate::state::FrontState;
use crate::valued_log::ValuedLog;
use numbered_log::{Fronts, OperationId, ProcessId};
use std::alloc::{AllocError, Global};
use total_tables::{at, size};

/// The processes whose operations were chosen, from the first choice to this one. The choice of the first state has the number 0, and chose nothing.
fn chosen_processes(
    alloc: Global,
    choices: &[Choice],
    last: Choice,
) -> Result<Vec<ProcessId>, AllocError> {
    let mut processes = Vec::new(alloc);
    // Then the first state is the last one too.
    if choices.is_empty() {
        return Ok(processes);
    }
    let mut choice = last;
    processes.push(choice.process)?;
    // Each parent has a smaller number, so there are no more turns than choices.
    for _ in 0..choices.len() {
        if choice.parent == 0 {
            break;
        }
        choice = at(choices, choice.parent, NO_CHOICE);
        processes.push(choice.process)?;
    }
    processes.reverse();
    Ok(processes)
}

/// Adds the operations from these fronts up to those of the state: those of one process, which was the last to change a location, before all others.
fn push_placed(
    log: &ValuedLog<'_>,
    before: &Fronts,
    state: &FrontState,
    process: ProcessId,
    schedule: &mut Vec<OperationId>,
) -> Result<(), AllocError> {
    let begin = before.of(process);
    for place in begin.up_to(state.fronts.of(process)) {
        schedule.push(log.number(process, place))?;
    }
    for other in state.process_ids() {
        if other != process {
            let begin = before.of(other);
            for place in begin.up_to(state.fronts.of(other)) {
                schedule.push(log.number(other, place))?;
            }
        }
    }
    Ok(())
}

/// The schedule that these choices make, from the state in which nothing is placed, up to the last one.
pub(crate) fn schedule_along(
    alloc: Global,
    log: &ValuedLog<'_>,
    prices: Prices,
    first: FrontState,
    choices: &[Choice],
    last: Choice,
) -> Result<Vec<OperationId>, AllocError> {
    let mut state = first;
    let mut schedule = Vec::new(alloc);
    let begin = state.fronts.copied(alloc)?;
    state.settle(log, prices);
    push_placed(log, &begin, &state, ProcessId::FIRST, &mut schedule)?;
    let processes = chosen_processes(alloc, choices, last)?;
    for number in 0..size(processes.as_slice()) {
        let process = at(processes.as_slice(), number, ProcessId::FIRST);
        let before = state.fronts.copied(alloc)?;
        let access = log.access(process, state.fronts.of(process));
        state.place_writer(log, prices, process, access);
        state.settle(log, prices);
        push_placed(log, &before, &state, process, &mut schedule)?;
    }
    Ok(schedule)
}

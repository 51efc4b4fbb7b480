//! Windows: guesses around estimated places.
//!
//! Places of operations among all, and widths, are numbers of operations of a whole schedule; a `ProcessPlace` counts within a process, from 1.

use crate::estimated_places::EstimatedPlaces;
use numbered_log::{ProcessId, ProcessPlace};
use order_propagation::{Propagated, Propagation};
use std::alloc::AllocError;

/// The most guesses of a window, about.
const MOST_GUESSES: u64 = 8_000_000;

/// Guesses that an operation stands before each other whose estimated place is more than the width behind its own, and propagates. The rows
/// are made anew.
pub(crate) fn guess_window(
    order: &mut Propagation<'_>,
    places: &EstimatedPlaces,
    width: u32,
) -> Result<Propagated, AllocError> {
    let processes = order.log().processes();
    // An operation of a process takes about as many places among all as there are processes, so such a stride is about a sixth of the width.
    let steps = processes.wrapping_mul(6).wrapping_add(1);
    let stride = (width / steps).wrapping_add(least_stride(order));
    for first in ProcessId::first(processes) {
        for second in ProcessId::first(processes) {
            if first != second {
                guess_between(order, places, (first, second), (width, stride))?;
            }
        }
    }
    order.propagate_in_rounds()
}

/// The least distance of guesses in a process: 1, or such that a large log of many processes has a few million of them.
fn least_stride(order: &Propagation<'_>) -> u32 {
    let entries = (order.log().count() as u64).wrapping_mul(order.log().processes() as u64);
    (((entries / MOST_GUESSES) & 0xffff_ffff) as u32).wrapping_add(1)
}

/// Guesses the pairs from one process to another. Of operations in a row the pair of each few is enough, as the others follow within a small
/// part of the width. An operation whose next one is guessed to stand before the same one says nothing more. `sizes` are the width of the window and the
/// number of operations from one guess to the next.
fn guess_between(
    order: &mut Propagation<'_>,
    places: &EstimatedPlaces,
    processes: (ProcessId, ProcessId),
    sizes: (u32, u32),
) -> Result<(), AllocError> {
    let log = order.log();
    let end = log.end(processes.1);
    // It moves forward alone, since estimated places rise along both processes.
    let mut behind = ProcessPlace::FIRST;
    let mut place = ProcessPlace::FIRST;
    for _ in 0..log.length(processes.0) {
        if place > log.last_place(processes.0) {
            break;
        }
        let first = log.number(processes.0, place);
        let limit = places.latest(first).saturating_add(sizes.0);
        for _ in behind.up_to(end) {
            if places.place(log.number(processes.1, behind)) > limit {
                break;
            }
            behind = behind.next();
        }
        if behind >= end {
            break;
        }
        place = place.ahead(sizes.1);
        let second = log.number(processes.1, behind);
        let next = log.number(processes.0, place);
        if place > log.last_place(processes.0)
            || places.place(second) <= places.latest(next).saturating_add(sizes.0)
        {
            order.guess(first, second)?;
        }
        order.spend(1);
    }
    Ok(())
}

//! Estimated places of operations in a schedule.
//!
//! Past the end of a table `at` reads as its last argument, and `put` does nothing; so arithmetic may wrap, and a wrong place makes no fault.

use numbered_log::{NOBODY, NumberedLog, OperationId, ProcessPlace};
use order_propagation::Propagation;
use std::alloc::{AllocError, Global};
use total_tables::{at, put, size};

/// For each operation its estimated place among all, rising along each process.
#[derive(Drop)]
pub(crate) struct EstimatedPlaces {
    places: Vec<u32>,
    /// For each operation the last place where it may lie, if that is another one. It is empty if no operation has another one.
    latest: Vec<u32>,
}

/// The share of a whole that a part has of another whole. That is `whole` times `part` divided by `other`.
fn share(whole: u32, part: u32, other: u32) -> u32 {
    if other == 0 {
        return 0;
    }
    let scaled = (whole as u64).wrapping_mul(part as u64) / (other as u64);
    (scaled & 0xffff_ffff) as u32
}

impl EstimatedPlaces {
    /// The places if all processes run at the same pace, from the first operation to the last. Before anything is known of the order, nothing
    /// better can be said.
    pub(crate) fn of_equal_pace(
        alloc: Global,
        log: &NumberedLog,
    ) -> Result<EstimatedPlaces, AllocError> {
        let mut places = Vec::with_capacity(alloc, log.count() as usize)?;
        for number in log.operation_ids() {
            let operation = log.operation(number);
            let length = log.length(operation.process);
            places.push(share(log.count(), operation.place.number(), length))?;
        }
        Ok(EstimatedPlaces::of_places(alloc, places))
    }

    /// The places by the rows: in the middle between what must stand before the operation and what may.
    pub(crate) fn of_rows(
        alloc: Global,
        order: &Propagation<'_>,
    ) -> Result<EstimatedPlaces, AllocError> {
        let log = order.log();
        let mut places = Vec::with_capacity(alloc, log.count() as usize)?;
        let mut last: u32 = 0;
        for number in log.operation_ids() {
            if log.operation(number).place == ProcessPlace::FIRST {
                last = 0;
            }
            // The estimate of the rows is about twice the place. By the larger one of both, places do not fall along a process.
            last = last.max(order.rows().estimate(number) / 2);
            places.push(last)?;
        }
        Ok(EstimatedPlaces::of_places(alloc, places))
    }

    /// Each operation lies at its place.
    fn of_places(alloc: Global, places: Vec<u32>) -> EstimatedPlaces {
        EstimatedPlaces {
            places,
            latest: Vec::new(alloc),
        }
    }

    /// The places by a hint, which may be wrong and name some operations alone: an operation lies between the places there of the ones before
    /// and behind it in its process. A hint of a recorded run has operations in the order in which they began or ended, and where a thread was
    /// halted in between, its operation may have come about anywhere until the next one.
    pub(crate) fn of_hint(
        alloc: Global,
        log: &NumberedLog,
        hint: &[OperationId],
    ) -> Result<EstimatedPlaces, AllocError> {
        let hinted = hinted_places(alloc, log, hint)?;
        Ok(EstimatedPlaces {
            places: places_before(alloc, log, hinted.as_slice())?,
            latest: places_behind(alloc, log, hinted.as_slice())?,
        })
    }

    /// The places, by operation.
    pub(crate) fn as_slice(&self) -> &[u32] {
        self.places.as_slice()
    }

    /// The place of the operation, or the first where it may lie.
    #[inline(always)]
    pub(crate) fn place(&self, number: OperationId) -> u32 {
        at(self.places.as_slice(), number.number(), 0)
    }

    /// The last place where the operation may lie.
    #[inline(always)]
    pub(crate) fn latest(&self, number: OperationId) -> u32 {
        at(self.latest.as_slice(), number.number(), self.place(number))
    }
}

/// The place in the hint of each operation, from 1 on; 0 if it does not name it. A hint of fewer operations is stretched to the number of all.
fn hinted_places(
    alloc: Global,
    log: &NumberedLog,
    hint: &[OperationId],
) -> Result<Vec<u32>, AllocError> {
    let mut places = vec![in alloc; 0; log.count() as usize]?;
    let named = size(hint);
    for place in 0..named {
        let scaled = share(log.count(), place, named).saturating_add(1);
        put(
            places.as_mut_slice(),
            at(hint, place, NOBODY).number(),
            scaled,
        );
    }
    Ok(places)
}

/// For each operation the largest place of those before it in its process.
fn places_before(alloc: Global, log: &NumberedLog, hinted: &[u32]) -> Result<Vec<u32>, AllocError> {
    let mut places = Vec::with_capacity(alloc, log.count() as usize)?;
    let mut largest: u32 = 0;
    for number in log.operation_ids() {
        if log.operation(number).place == ProcessPlace::FIRST {
            largest = 0;
        }
        places.push(largest)?;
        largest = largest.max(at(hinted, number.number(), 0));
    }
    Ok(places)
}

/// For each operation the least place of those behind it in its process.
fn places_behind(alloc: Global, log: &NumberedLog, hinted: &[u32]) -> Result<Vec<u32>, AllocError> {
    let count = log.count();
    let mut places = vec![in alloc; count; count as usize]?;
    let mut least = count;
    for from_end in 1..count.wrapping_add(1) {
        let number = OperationId::new(count.wrapping_sub(from_end));
        let operation = log.operation(number);
        if operation.place == log.last_place(operation.process) {
            least = count;
        }
        put(places.as_mut_slice(), number.number(), least);
        let place = at(hinted, number.number(), 0);
        // An operation that the hint does not name bounds nothing.
        if place != 0 {
            least = least.min(place);
        }
    }
    Ok(places)
}

//! The accesses of a location that can hide a source from a reader.

use numbered_log::{LocationId, NumberedLog, Operation, OperationId, ProcessId, ProcessPlace};
use std::alloc::{AllocError, Global};
use total_tables::{at, cell, first_place, put, sum_up};

/// The accesses that are looked for: those of the process to the location that are no plain read of the value.
#[derive(Clone, Copy)]
pub struct HidingQuery {
    process: ProcessId,
    location: LocationId,
    value: u64,
}

impl HidingQuery {
    /// Those of this process, location and value.
    #[inline(always)]
    pub fn new(process: ProcessId, location: LocationId, value: u64) -> HidingQuery {
        HidingQuery {
            process,
            location,
            value,
        }
    }

    /// Those of the process that can hide a source from this reading operation.
    #[inline(always)]
    pub fn of_read(process: ProcessId, operation: Operation) -> HidingQuery {
        HidingQuery::new(process, operation.location, operation.needed)
    }
}

/// For each process and location the places of the accesses that can hide a source, rising: writers, and plain reads that have several
/// possible sources. What such a read of another value reads was written in between. A plain read of one source hides no more than what
/// follows from its source.
#[derive(Drop)]
pub struct HidingAccesses {
    /// The number of locations.
    locations: u32,
    /// For each process and location, at the place `pair_of`, where its accesses begin, and where all end.
    begins: Vec<u32>,
    /// The places, of each process and location one after the other. An index of these tables is an entry.
    places: Vec<ProcessPlace>,
    /// For each entry that is a plain read the place of the nearest access before it that is no read of its value, or `START`; of a writer its
    /// own place. So reads of one value in a row are passed in one look.
    others_before: Vec<ProcessPlace>,
    /// The same of the nearest one behind it, or `FAR`.
    others_behind: Vec<ProcessPlace>,
    /// For each entry the value that is read, or none of a writer.
    values: Vec<Option<u64>>,
}

impl HidingAccesses {
    /// The accesses of the log. The operations that hide are the writers and those that are named.
    pub fn new(
        alloc: Global,
        log: &NumberedLog,
        hides: &[bool],
    ) -> Result<HidingAccesses, AllocError> {
        let pairs = log.locations().wrapping_mul(log.processes());
        let count = log.count() as usize;
        let mut accesses = HidingAccesses {
            locations: log.locations(),
            begins: vec![in alloc; 0; pairs.wrapping_add(2) as usize]?,
            places: vec![in alloc; ProcessPlace::START; count]?,
            others_before: vec![in alloc; ProcessPlace::START; count]?,
            others_behind: vec![in alloc; ProcessPlace::FAR; count]?,
            values: vec![in alloc; None; count]?,
        };
        for number in log.operation_ids() {
            if at(hides, number.number(), false) {
                accesses.count_one(log, number);
            }
        }
        sum_up(accesses.begins.as_mut_slice());
        for number in log.operation_ids() {
            if at(hides, number.number(), false) {
                accesses.enter(log, number);
            }
        }
        for pair in 0..pairs {
            accesses.link(pair);
        }
        Ok(accesses)
    }

    /// The number of the process and the location among all pairs of these.
    #[inline(always)]
    fn pair_of(&self, process: ProcessId, location: LocationId) -> u32 {
        cell(process.number(), self.locations, location.number())
    }

    /// Counts the access two places further on: summed up, the entry one place on is where its accesses begin, and `enter` moves that on to their
    /// end, which is where the next ones begin.
    fn count_one(&mut self, log: &NumberedLog, number: OperationId) {
        let operation = log.operation(number);
        let place = self
            .pair_of(operation.process, operation.location)
            .wrapping_add(2);
        let more = at(self.begins.as_slice(), place, 0).wrapping_add(1);
        put(self.begins.as_mut_slice(), place, more);
    }

    /// Enters the access behind the last one of its process and location. Operations come by rising numbers, so places rise.
    fn enter(&mut self, log: &NumberedLog, number: OperationId) {
        let operation = log.operation(number);
        let place = self
            .pair_of(operation.process, operation.location)
            .wrapping_add(1);
        let free = at(self.begins.as_slice(), place, 0);
        put(self.begins.as_mut_slice(), place, free.wrapping_add(1));
        put(self.places.as_mut_slice(), free, operation.place);
        if !operation.writes {
            let needed = Some(operation.needed);
            put(self.values.as_mut_slice(), free, needed);
        }
    }

    /// Links the plain reads of one process and location to the accesses beside them.
    fn link(&mut self, pair: u32) {
        let (begin, end) = self.entries(pair);
        for entry in begin..end {
            let mut other = at(self.places.as_slice(), entry, ProcessPlace::START);
            let value = self.value(entry);
            if value.is_some() {
                other = ProcessPlace::START;
                if entry > begin {
                    let previous = entry.wrapping_sub(1);
                    other = self.unless_read(previous, value, self.others_before.as_slice());
                }
            }
            put(self.others_before.as_mut_slice(), entry, other);
        }
        for back in begin..end {
            let entry = end.wrapping_sub(1).wrapping_sub(back.wrapping_sub(begin));
            let mut other = at(self.places.as_slice(), entry, ProcessPlace::START);
            let value = self.value(entry);
            if value.is_some() {
                other = ProcessPlace::FAR;
                let next = entry.wrapping_add(1);
                if next < end {
                    other = self.unless_read(next, value, self.others_behind.as_slice());
                }
            }
            put(self.others_behind.as_mut_slice(), entry, other);
        }
    }

    /// The place of the entry, or what it is linked to if it is a plain read of this value.
    #[inline(always)]
    fn unless_read(&self, entry: u32, value: Option<u64>, links: &[ProcessPlace]) -> ProcessPlace {
        if self.value(entry) == value {
            at(links, entry, ProcessPlace::START)
        } else {
            at(self.places.as_slice(), entry, ProcessPlace::START)
        }
    }

    #[inline(always)]
    fn value(&self, entry: u32) -> Option<u64> {
        at(self.values.as_slice(), entry, None)
    }

    /// The first entry of the process and location of this number, and the one behind their last.
    #[inline(always)]
    fn entries(&self, pair: u32) -> (u32, u32) {
        let begins = self.begins.as_slice();
        (at(begins, pair, 0), at(begins, pair.wrapping_add(1), 0))
    }

    /// The entry of the process's first access of the location from this place on, if there is one.
    #[inline(always)]
    fn next_entry(
        &self,
        process: ProcessId,
        location: LocationId,
        place: ProcessPlace,
    ) -> Option<u32> {
        let (begin, end) = self.entries(self.pair_of(process, location));
        let entry = self.first_from(begin, end, place);
        if entry < end { Some(entry) } else { None }
    }

    /// The first entry, from one up to another, that has this place or a later one, or the end.
    #[inline(always)]
    fn first_from(&self, begin: u32, end: u32, place: ProcessPlace) -> u32 {
        first_place(begin, end, |entry| {
            at(self.places.as_slice(), entry, ProcessPlace::START) >= place
        })
    }

    /// The place of the last of these accesses up to this place, or `START`.
    #[inline(always)]
    pub fn previous(&self, query: HidingQuery, place: ProcessPlace) -> ProcessPlace {
        let (begin, end) = self.entries(self.pair_of(query.process, query.location));
        let behind = self.first_from(begin, end, place.ahead(1));
        if behind <= begin {
            return ProcessPlace::START;
        }
        let last = behind.wrapping_sub(1);
        self.unless_read(last, Some(query.value), self.others_before.as_slice())
    }

    /// The place of the first of these accesses from this place on, or `FAR`.
    #[inline(always)]
    pub fn next(&self, query: HidingQuery, place: ProcessPlace) -> ProcessPlace {
        match self.next_entry(query.process, query.location, place) {
            Some(entry) => {
                self.unless_read(entry, Some(query.value), self.others_behind.as_slice())
            }
            None => ProcessPlace::FAR,
        }
    }

    /// The place of the process's first access of the location from this place on, or `FAR`.
    #[inline(always)]
    pub fn next_of_any(
        &self,
        process: ProcessId,
        location: LocationId,
        place: ProcessPlace,
    ) -> ProcessPlace {
        match self.next_entry(process, location, place) {
            Some(entry) => at(self.places.as_slice(), entry, ProcessPlace::FAR),
            None => ProcessPlace::FAR,
        }
    }
}

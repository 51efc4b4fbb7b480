//! How far it is to a writer.
//!
//! A class is a location and a value that operations leave there. A state of a beam is worth less, the further it is in other processes to a writer of the
//! class that a process waits for. That is asked of each state that is made, so all answers are in a table.

use crate::classed_log::ClassedLog;
use numbered_log::{NO_NUMBER, NumberedLog, ProcessId, ProcessPlace};
use possible_sources::ClassId;
use std::alloc::{AllocError, Global};
use total_tables::{at, put};

/// The most entries of the table. A log that needs more has no beams.
const MOST_NEXT_WRITERS: u64 = 1 << 22;

/// For each process, place and class the place of the first writer of the class from there on in the process, or `FAR`.
pub(crate) struct NextWriters {
    classes: u32,
    /// For each process the number of places of those before it. Each has one place behind its end, of which all entries stay `FAR`.
    starts: Vec<u32>,
    places: Vec<ProcessPlace>,
}

/// Drops the tables in one call. A derived `Drop` would drop each at every exit of a function that owns them, which makes its proof longer.
impl Drop for NextWriters {
    fn drop(self) {
        let NextWriters {
            classes: _,
            starts: _starts,
            places: _places,
        } = self;
    }
}

/// The number of entries of the table: each process has a place more than operations.
fn entries(log: &NumberedLog, classes: u32) -> u64 {
    let places = (log.count() as u64).wrapping_add(log.processes() as u64);
    places.wrapping_mul(classes as u64)
}

impl NextWriters {
    /// Returns whether the table is small enough for a log of this number of classes.
    pub(crate) fn has_room(log: &NumberedLog, classes: u32) -> bool {
        entries(log, classes) <= MOST_NEXT_WRITERS
    }

    /// The next writers of the log, if the table has room for them.
    pub(crate) fn new(
        alloc: Global,
        log: &NumberedLog,
        classed: &ClassedLog,
        classes: u32,
    ) -> Result<NextWriters, AllocError> {
        // Callers ask `has_room` first. In a table that is too small missing entries would read as `FAR`.
        let size = entries(log, classes).min(MOST_NEXT_WRITERS);
        let mut next = NextWriters {
            classes,
            starts: vec![in alloc; 0; log.processes() as usize]?,
            places: vec![in alloc; ProcessPlace::FAR; size as usize]?,
        };
        for process in log.process_ids() {
            let start = log.start(process).number().wrapping_add(process.number());
            put(next.starts.as_mut_slice(), process.number(), start);
            for place in log.last_place(process).down_to_first() {
                next.note_place(classed, process, place);
            }
        }
        Ok(next)
    }

    /// The entry of the class at this place of the process, counted from 1.
    #[inline(always)]
    fn entry(&self, process: ProcessId, place: ProcessPlace, class: ClassId) -> u32 {
        let start = at(self.starts.as_slice(), process.number(), 0);
        start
            .wrapping_add(place.previous().number())
            .wrapping_mul(self.classes)
            .wrapping_add(class.number())
    }

    /// Notes the next writers from this place on, given those from the next one on.
    fn note_place(&mut self, classed: &ClassedLog, process: ProcessId, place: ProcessPlace) {
        for class in ClassId::first(self.classes) {
            let behind = self.entry(process, place.next(), class);
            let next = at(self.places.as_slice(), behind, ProcessPlace::FAR);
            let entry = self.entry(process, place, class);
            put(self.places.as_mut_slice(), entry, next);
        }
        let left = classed.left(classed.number(process, place));
        if left.number() < self.classes {
            let entry = self.entry(process, place, left);
            put(self.places.as_mut_slice(), entry, place);
        }
    }

    /// The number of operations from this place of the process up to the first writer of the class, that one among them, or `NO_NUMBER`.
    #[inline(always)]
    pub(crate) fn distance(&self, process: ProcessId, place: ProcessPlace, class: ClassId) -> u32 {
        if class.number() >= self.classes {
            return NO_NUMBER;
        }
        let next = at(
            self.places.as_slice(),
            self.entry(process, place, class),
            ProcessPlace::FAR,
        );
        if next == ProcessPlace::FAR {
            return NO_NUMBER;
        }
        next.next().number().wrapping_sub(place.number())
    }
}

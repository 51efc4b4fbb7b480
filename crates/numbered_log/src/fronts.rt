//! How far a walk has come in each process.

use crate::numbered_log::Operation;
use crate::numbers::{ProcessId, ProcessPlace};
use std::alloc::{AllocError, Global};
use total_tables::{at, put};

/// For each process the place of its next operation.
#[derive(Drop)]
pub struct Fronts {
    places: Vec<ProcessPlace>,
}

impl Fronts {
    /// The fronts of this number of processes, each at the first operation.
    pub fn new(alloc: Global, processes: u32) -> Result<Fronts, AllocError> {
        let places = vec![in alloc; ProcessPlace::FIRST; processes as usize]?;
        Ok(Fronts { places })
    }

    /// The same fronts once more.
    pub fn copied(&self, alloc: Global) -> Result<Fronts, AllocError> {
        let places = Vec::from_slice(alloc, self.places.as_slice())?;
        Ok(Fronts { places })
    }

    /// The places of all processes, by the numbers of these.
    #[inline(always)]
    pub fn places(&self) -> &[ProcessPlace] {
        self.places.as_slice()
    }

    /// Sets the fronts to these places, of as many processes.
    #[inline(always)]
    pub fn load(&mut self, places: &[ProcessPlace]) {
        let own = self.places.as_mut_slice();
        for number in 0..places.len().min(own.len()) {
            own[number] = places[number];
        }
    }

    /// The place of the process's next operation.
    #[inline(always)]
    pub fn of(&self, process: ProcessId) -> ProcessPlace {
        at(self.places.as_slice(), process.number(), ProcessPlace::FAR)
    }

    /// Sets the place of the process's next operation.
    #[inline(always)]
    pub fn set(&mut self, process: ProcessId, place: ProcessPlace) {
        put(self.places.as_mut_slice(), process.number(), place);
    }

    /// Returns whether the operation was passed. Those of a process are passed in their order, so its front says that.
    #[inline(always)]
    pub fn has_passed(&self, operation: Operation) -> bool {
        self.of(operation.process) > operation.place
    }
}

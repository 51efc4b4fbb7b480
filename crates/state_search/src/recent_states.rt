//! States that were met lately.

use std::alloc::{AllocError, Global};
use total_tables::{at, put};

/// The number of slots, a power of two. They fit into the second cache of a processor.
const SLOTS: u32 = 1 << 17;

/// Each mixed number of a state has one of the slots, which keeps the last number that was noted there. A state that is met again, which mostly is soon, is seldom
/// missed; one that is missed is kept twice, and takes the place of another one.
#[derive(Drop)]
pub(crate) struct RecentStates {
    slots: Vec<u64>,
}

impl RecentStates {
    pub(crate) fn new(alloc: Global) -> Result<RecentStates, AllocError> {
        Ok(RecentStates {
            slots: vec![in alloc; 0; SLOTS as usize]?,
        })
    }

    /// Notes the state of this mixed number. Returns whether it is new. Two states of one number count as one, and one of number 0 as met from the
    /// start: this may lose a schedule, but makes none wrong, since a schedule is made of the choices that led to its end.
    #[inline(always)]
    pub(crate) fn note(&mut self, mixed: u64) -> bool {
        let slot = ((mixed >> 32) as u32) & (SLOTS - 1);
        let is_new = at(self.slots.as_slice(), slot, 0) != mixed;
        put(self.slots.as_mut_slice(), slot, mixed);
        is_new
    }
}

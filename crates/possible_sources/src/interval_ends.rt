//! The ends of intervals of sources, and which losses have moved them.

use numbered_log::NO_NUMBER;
use std::alloc::{AllocError, Global};
use total_tables::{at, put, size};

/// One end of each interval.
#[derive(Drop)]
pub(crate) struct IntervalEnds {
    positions: Vec<u32>,
    /// For each interval the number of its last loss at this end, or `NO_NUMBER`.
    last_losses: Vec<u32>,
}

impl IntervalEnds {
    /// The ends of no interval.
    pub(crate) fn new(alloc: Global) -> IntervalEnds {
        IntervalEnds {
            positions: Vec::new(alloc),
            last_losses: Vec::new(alloc),
        }
    }

    /// The number of intervals.
    pub(crate) fn count(&self) -> u32 {
        size(self.positions.as_slice())
    }

    /// Adds an interval that has lost nothing.
    pub(crate) fn add(&mut self, position: u32) -> Result<(), AllocError> {
        self.positions.push(position)?;
        self.last_losses.push(NO_NUMBER)?;
        Ok(())
    }

    /// The position at which the interval begins or ends.
    #[inline(always)]
    pub(crate) fn position(&self, interval: u32) -> u32 {
        at(self.positions.as_slice(), interval, 0)
    }

    /// Sets that position.
    #[inline(always)]
    pub(crate) fn set(&mut self, interval: u32, position: u32) {
        put(self.positions.as_mut_slice(), interval, position);
    }

    /// The number of the interval's last loss at this end, or `NO_NUMBER`.
    #[inline(always)]
    pub(crate) fn last_loss(&self, interval: u32) -> u32 {
        at(self.last_losses.as_slice(), interval, NO_NUMBER)
    }

    /// Moves the end of the interval, and notes the number of the loss that moves it. Returns the position and the last loss before.
    #[inline(always)]
    pub(crate) fn lose(&mut self, interval: u32, position: u32, loss: u32) -> (u32, u32) {
        let before = (self.position(interval), self.last_loss(interval));
        self.set(interval, position);
        put(self.last_losses.as_mut_slice(), interval, loss);
        before
    }
}

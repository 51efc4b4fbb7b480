//! The sources that a reader had left at an earlier time, and what had taken the others from it.
//!
//! Past the end of a table `at` reads as its last argument; so arithmetic may wrap, and a wrong place makes no fault.

use crate::source_intervals::{LossCause, SourceIntervals};
use crate::time::Time;
use crate::value_classes::ValueClasses;
use numbered_log::{NO_NUMBER, NOBODY, OperationId};
use std::alloc::{AllocError, Global};
use total_tables::{at, size};

/// An end of an interval at a time, and the cause of the last loss at that end before it, if there is one. It is the reason for all that was lost
/// there: what was lost before lies further out.
#[derive(Clone, Copy)]
pub struct EarlierBound {
    /// A position among the writers of `ValueClasses`.
    pub position: u32,
    pub cause: Option<LossCause>,
}

/// What a reader had left of an interval at a time.
#[derive(Clone, Copy)]
pub struct EarlierInterval {
    /// Its first position. The writers before it were hidden.
    pub low: EarlierBound,
    /// The position behind it. The writers from there on stood after the reader.
    pub high: EarlierBound,
}

/// The intervals that a reader had at a time, of each its first position and the one behind its last.
#[derive(Drop)]
pub struct EarlierSources {
    lows: Vec<u32>,
    highs: Vec<u32>,
}

impl SourceIntervals {
    /// The bound of an end at the time; now it is `last_bound`, and its last loss `last_loss`. Losses at one end are a list, the last first, so each that is
    /// not older than the time is undone on the way.
    fn bound_at(&self, last_bound: u32, last_loss: u32, time: Time) -> EarlierBound {
        let mut position = last_bound;
        let mut number = last_loss;
        for _ in 0..self.losses() {
            if number == NO_NUMBER {
                break;
            }
            let loss = self.loss(number);
            if loss.cause.time.is_before(time) {
                let cause = Some(loss.cause);
                return EarlierBound { position, cause };
            }
            position = loss.old_bound;
            number = loss.previous;
        }
        EarlierBound {
            position,
            cause: None,
        }
    }

    /// The interval as it was at the time.
    pub fn interval_at(&self, reader: OperationId, run: u32, time: Time) -> EarlierInterval {
        let interval = self.interval(reader, run);
        let low = self.low(reader, run);
        let high = self.high(reader, run);
        EarlierInterval {
            low: self.bound_at(low, self.last_hidden(interval), time),
            high: self.bound_at(high, self.last_late(interval), time),
        }
    }

    /// The cause for which the reader had lost the initial value at the time, if it had.
    pub fn initial_loss_at(&self, reader: OperationId, time: Time) -> Option<LossCause> {
        let lost = self.initial_loss(reader);
        if lost == NO_NUMBER {
            return None;
        }
        let cause = self.loss(lost).cause;
        if cause.time.is_before(time) {
            Some(cause)
        } else {
            None
        }
    }
}

impl EarlierSources {
    /// No interval.
    pub fn new(alloc: Global) -> EarlierSources {
        EarlierSources {
            lows: Vec::new(alloc),
            highs: Vec::new(alloc),
        }
    }

    /// Takes all intervals away.
    pub fn clear(&mut self) {
        self.lows.clear();
        self.highs.clear();
    }

    /// Adds the next interval of the reader.
    pub fn add(&mut self, interval: EarlierInterval) -> Result<(), AllocError> {
        self.lows.push(interval.low.position)?;
        self.highs.push(interval.high.position)?;
        Ok(())
    }

    /// The number of intervals.
    pub fn intervals(&self) -> u32 {
        size(self.lows.as_slice())
    }

    /// The first source of the interval, or `NOBODY` if it has none.
    pub fn first(&self, classes: &ValueClasses, run: u32) -> OperationId {
        let low = at(self.lows.as_slice(), run, 0);
        if low < at(self.highs.as_slice(), run, 0) {
            classes.writer(low)
        } else {
            NOBODY
        }
    }

    /// The last source of the interval, or `NOBODY` if it has none.
    pub fn last(&self, classes: &ValueClasses, run: u32) -> OperationId {
        let high = at(self.highs.as_slice(), run, 0);
        if at(self.lows.as_slice(), run, 0) < high {
            classes.writer(high.wrapping_sub(1))
        } else {
            NOBODY
        }
    }
}

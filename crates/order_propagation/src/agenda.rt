//! The readers that wait for a look at them.

use numbered_log::{NO_NUMBER, NOBODY, OperationId};
use std::alloc::{AllocError, Global};
use total_tables::{at, put, size};

/// The readers that wait: all of a round in the order of their estimated places, so that most have their turn when what stands before them is
/// known, and between them those that wait again.
pub struct Agenda {
    /// For each reader whether it waits or sleeps: `add` then does nothing.
    waits: Vec<bool>,
    /// The readers of the round.
    round: Vec<OperationId>,
    /// The place in the round from which on readers have not had their turn.
    reached: u32,
    /// For each reader its place in the round, or `NO_NUMBER`.
    places: Vec<u32>,
    /// Those that wait again, in a ring. It has room for all readers, and each is in it once, so it is never overfull.
    again: Vec<OperationId>,
    /// The slot of the ring from which the next reader is taken.
    first: u32,
    /// The number of readers in the ring.
    count: u32,
}

/// Drops each table in one call. A derived `Drop` would drop each at every exit of a function that owns an agenda, which makes its proof longer.
impl Drop for Agenda {
    fn drop(self) {
        let Agenda {
            waits: _waits,
            round: _round,
            reached: _,
            places: _places,
            again: _again,
            first: _,
            count: _,
        } = self;
    }
}

impl Agenda {
    /// An agenda for this number of readers, operations and behind them final values, of which none waits.
    pub fn new(alloc: Global, readers: u32) -> Result<Agenda, AllocError> {
        Ok(Agenda {
            waits: vec![in alloc; false; readers as usize]?,
            round: Vec::with_capacity(alloc, readers as usize)?,
            reached: 0,
            places: vec![in alloc; NO_NUMBER; readers as usize]?,
            again: vec![in alloc; NOBODY; readers as usize]?,
            first: 0,
            count: 0,
        })
    }

    /// Has no reader wait, and ends the round. One that sleeps goes on sleeping.
    pub fn clear(&mut self) {
        for _ in 0..size(self.waits.as_slice()) {
            if self.take().is_none() {
                break;
            }
        }
    }

    /// Begins a round of these readers, in this order.
    pub fn begin_round(&mut self, readers: &[OperationId]) -> Result<(), AllocError> {
        self.clear();
        for reader in self.round.as_slice() {
            put(self.places.as_mut_slice(), reader.number(), NO_NUMBER);
        }
        self.round.clear();
        self.reached = 0;
        for reader in readers {
            let place = size(self.round.as_slice());
            self.round.push(*reader)?;
            put(self.places.as_mut_slice(), reader.number(), place);
            put(self.waits.as_mut_slice(), reader.number(), true);
        }
        Ok(())
    }

    /// Has the reader count as one that waits, without a turn: it is not looked at until a round begins. A reader that waits has its turn before.
    pub fn let_sleep(&mut self, reader: OperationId) {
        put(self.waits.as_mut_slice(), reader.number(), true);
    }

    /// Returns whether the reader waits or sleeps.
    #[inline(always)]
    pub fn waits(&self, reader: OperationId) -> bool {
        at(self.waits.as_slice(), reader.number(), false)
    }

    /// Returns whether a reader waits again. Those that have not had their turn in the round do not count.
    #[inline(always)]
    pub fn has_waiting(&self) -> bool {
        self.count != 0
    }

    /// Has the reader wait: for its turn in the round, if that is still to come, and else behind those that wait again.
    #[inline(always)]
    pub fn add(&mut self, reader: OperationId) {
        if self.waits(reader) {
            return;
        }
        put(self.waits.as_mut_slice(), reader.number(), true);
        let place = at(self.places.as_slice(), reader.number(), NO_NUMBER);
        if place != NO_NUMBER && place >= self.reached {
            return;
        }
        let room = size(self.again.as_slice());
        let mut slot = self.first.wrapping_add(self.count);
        if slot >= room {
            slot = slot.wrapping_sub(room);
        }
        put(self.again.as_mut_slice(), slot, reader);
        self.count = self.count.wrapping_add(1);
    }

    /// Takes the next reader. Those that wait again come before the rest of the round.
    pub fn take(&mut self) -> Option<OperationId> {
        if self.count > 0 {
            let reader = at(self.again.as_slice(), self.first, NOBODY);
            self.first = self.first.wrapping_add(1);
            if self.first >= size(self.again.as_slice()) {
                self.first = 0;
            }
            self.count = self.count.wrapping_sub(1);
            put(self.waits.as_mut_slice(), reader.number(), false);
            return Some(reader);
        }
        for place in self.reached..size(self.round.as_slice()) {
            self.reached = place.wrapping_add(1);
            let reader = at(self.round.as_slice(), place, NOBODY);
            if self.waits(reader) {
                put(self.waits.as_mut_slice(), reader.number(), false);
                return Some(reader);
            }
        }
        None
    }
}

//! The states in which the same number of operations is placed.

use crate::state::{FrontState, copy_entries};
use crate::valued_log::ValueId;
use numbered_log::{ProcessId, ProcessPlace};
use std::alloc::{AllocError, Global};
use total_tables::{at, piece, size};

/// How a state was come to: by the next operation of the process, placed in the parent, which has this number, from 0, among the states that were gone on from.
#[derive(Clone, Copy)]
pub(crate) struct Choice {
    pub(crate) parent: u32,
    pub(crate) process: ProcessId,
}

/// The choice in place of one that is not there, as that of the first state.
pub(crate) const NO_CHOICE: Choice = Choice {
    parent: 0,
    process: ProcessId::FIRST,
};

/// What a state has beside its tables.
#[derive(Clone, Copy)]
struct Label {
    mixed: u64,
    price: u32,
    choice: Choice,
}

const NO_LABEL: Label = Label {
    mixed: 0,
    price: 0,
    choice: NO_CHOICE,
};

/// States one behind the other in flat tables, so that a state takes no memory of its own.
pub(crate) struct StateLayer {
    labels: Vec<Label>,
    fronts: Vec<ProcessPlace>,
    held: Vec<ValueId>,
    spare: Vec<u32>,
}

/// Drops the tables in one call. A derived `Drop` would drop each at every exit of a function that owns a layer, which makes its proof longer.
impl Drop for StateLayer {
    fn drop(self) {
        let StateLayer {
            labels: _labels,
            fronts: _fronts,
            held: _held,
            spare: _spare,
        } = self;
    }
}

/// The entries of the state of this number in a table of many states, of each of which it has this number of entries.
#[inline(always)]
fn entries_of<T>(table: &[T], number: u32, count: u32) -> &[T] {
    let from = number.wrapping_mul(count);
    piece(table, from, from.saturating_add(count))
}

/// Makes the entries those of the state of this number in a table of many states. The table that is written has as many entries as a state.
#[inline(always)]
fn load_entries<T: Copy>(table: &[T], number: u32, entries: &mut [T]) {
    let count = size(entries);
    copy_entries(entries_of(table, number, count), entries);
}

impl StateLayer {
    /// A layer without states.
    pub(crate) fn new(alloc: Global) -> StateLayer {
        StateLayer {
            labels: Vec::new(alloc),
            fronts: Vec::new(alloc),
            held: Vec::new(alloc),
            spare: Vec::new(alloc),
        }
    }

    /// The number of states.
    pub(crate) fn count(&self) -> u32 {
        size(self.labels.as_slice())
    }

    /// Adds the state, which was come to by this choice.
    pub(crate) fn push(&mut self, state: &FrontState, choice: Choice) -> Result<(), AllocError> {
        self.fronts.extend_from_slice(state.fronts.places())?;
        self.held.extend_from_slice(state.held.as_slice())?;
        self.spare.extend_from_slice(state.spare.as_slice())?;
        self.labels.push(Label {
            mixed: state.mixed,
            price: state.price,
            choice,
        })?;
        Ok(())
    }

    /// Makes the state that of this number, in a layer of this number of placed operations. Its tables have the right sizes already.
    #[inline(always)]
    pub(crate) fn load(&self, number: u32, placed: u32, state: &mut FrontState) {
        let processes = size(state.fronts.places());
        state
            .fronts
            .load(entries_of(self.fronts.as_slice(), number, processes));
        load_entries(self.held.as_slice(), number, state.held.as_mut_slice());
        load_entries(self.spare.as_slice(), number, state.spare.as_mut_slice());
        let label = at(self.labels.as_slice(), number, NO_LABEL);
        state.mixed = label.mixed;
        state.price = label.price;
        state.placed = placed;
    }

    /// The choice by which the state of this number was come to.
    pub(crate) fn choice(&self, number: u32) -> Choice {
        at(self.labels.as_slice(), number, NO_LABEL).choice
    }

    /// The numbers of the cheapest states, at most this many, in the lower halves of words.
    pub(crate) fn cheapest(&self, alloc: Global, most: u32) -> Result<Vec<u64>, AllocError> {
        let mut ranked = Vec::with_capacity(alloc, self.labels.len())?;
        for number in 0..self.count() {
            let price = at(self.labels.as_slice(), number, NO_LABEL).price;
            ranked.push((u64::from(price) << 32) | u64::from(number))?;
        }
        if self.count() > most {
            ranked.sort_unstable();
            ranked.truncate(most as usize);
        }
        Ok(ranked)
    }
}

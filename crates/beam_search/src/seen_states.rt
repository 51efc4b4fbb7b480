//! The states, or cells of states, that a layer has already.
//!
//! In the states of a cell each process is about as far ahead of the others, or behind them (`front_cells.rt`). States and cells are known by mixed
//! numbers, which are hashes (`State::mixed`, `State::front_cell`); a search has one table for the states and one for the cells.

use std::alloc::{AllocError, Global};
use total_tables::{at, put, slots_for};

/// What a slot has of a state.
#[derive(Clone, Copy)]
struct SeenState {
    mixed: u64,
    /// The layer that has taken the slot, counted from 1; 0 if none has.
    layer: u32,
    /// The number of the state in its layer.
    number: u32,
}

impl SeenState {
    /// What a slot has that no layer has taken.
    const NONE: SeenState = SeenState {
        mixed: 0,
        layer: 0,
        number: 0,
    };
}

/// A hash table of the mixed numbers of states. Those of earlier layers count as free slots, so that it needs not be cleared.
#[derive(Drop)]
pub(crate) struct SeenStates {
    /// The number of slots less one, which is a power of two less one.
    mask: u32,
    slots: Vec<SeenState>,
}

/// The most slots that are looked at. A state that finds none counts as new: one that is kept twice costs time alone.
const MOST_PROBES: u32 = 32;

/// The fewest slots of a table, and the most: about a million.
const FEWEST_SLOTS: u32 = 1024;

const MOST_SLOTS: u32 = 1 << 20;

impl SeenStates {
    /// A table for layers of at most this number of new states.
    pub(crate) fn new(alloc: Global, states: u32) -> Result<SeenStates, AllocError> {
        let slots = slots_for(states, FEWEST_SLOTS, MOST_SLOTS);
        Ok(SeenStates {
            mask: slots.wrapping_sub(1),
            slots: vec![in alloc; SeenState::NONE; slots as usize]?,
        })
    }

    /// Notes the state of this mixed number in the layer, counted from 1. Returns the number of the first that was noted so: its own if it is new. A slot
    /// of another layer ends the search, as if it were free; so no two layers may be noted in turns.
    pub(crate) fn note(&mut self, mixed: u64, layer: u32, number: u32) -> u32 {
        let mut slot = ((mixed >> 32) as u32) & self.mask;
        for _ in 0..MOST_PROBES {
            let seen = at(self.slots.as_slice(), slot, SeenState::NONE);
            if seen.layer != layer {
                let state = SeenState {
                    mixed,
                    layer,
                    number,
                };
                put(self.slots.as_mut_slice(), slot, state);
                return number;
            }
            if seen.mixed == mixed {
                return seen.number;
            }
            slot = slot.wrapping_add(1) & self.mask;
        }
        number
    }
}

//! The states of a layer.
//!
//! Past the end of a table `at` reads as its last argument, and `put` does nothing; so arithmetic may wrap, and a wrong place makes no fault.

use crate::classed_log::{ClassLeft, NOTHING_LEFT};
use crate::state::State;
use crate::ways::Ways;
use numbered_log::ProcessPlace;
use possible_sources::ClassId;
use std::alloc::{AllocError, Global};
use total_tables::{at, piece, put, size};

/// States in all of which as many writers are placed, one behind the other in flat tables, so that a state takes no memory of its own.
pub(crate) struct Layer {
    count: u32,
    /// The numbers of processes, locations and classes: a state has these numbers of entries in `fronts`, `held` and `left_of`.
    processes: u32,
    locations: u32,
    classes: u32,
    fronts: Vec<ProcessPlace>,
    held: Vec<ClassId>,
    /// For each state and class what is left of it.
    left_of: Vec<ClassLeft>,
    gains: Vec<i64>,
    ways: Vec<Ways>,
}

/// Drops each table in one call. A derived `Drop` would drop each at every exit of a function that owns a layer, which makes its proof longer.
impl Drop for Layer {
    fn drop(self) {
        let Layer {
            count: _,
            processes: _,
            locations: _,
            classes: _,
            fronts: _fronts,
            held: _held,
            left_of: _left_of,
            gains: _gains,
            ways: _ways,
        } = self;
    }
}

/// Copies the entries from this place of the table on. As many are copied as the other table has, whose size stays.
fn copy_out<T: Copy>(table: &[T], from: u32, into: &mut Vec<T>, otherwise: T) {
    let count = size(into.as_slice());
    let entries = piece(table, from, from.saturating_add(count));
    for place in 0..size(entries) {
        let entry = at(entries, place, otherwise);
        put(into.as_mut_slice(), place, entry);
    }
}

fn append<T: Copy>(table: &mut Vec<T>, entries: &[T]) -> Result<(), AllocError> {
    for entry in entries {
        table.push(*entry)?;
    }
    Ok(())
}

impl Layer {
    /// A layer without states, of this number of classes.
    pub(crate) fn new(alloc: Global, state: &State, classes: u32) -> Layer {
        Layer {
            count: 0,
            processes: state.processes(),
            locations: size(state.held.as_slice()),
            classes,
            fronts: Vec::new(alloc),
            held: Vec::new(alloc),
            left_of: Vec::new(alloc),
            gains: Vec::new(alloc),
            ways: Vec::new(alloc),
        }
    }

    /// The number of states.
    pub(crate) fn count(&self) -> u32 {
        self.count
    }

    /// The number of entries of all tables.
    pub(crate) fn entries(&self) -> u64 {
        let of_state = (self.processes as u64)
            .saturating_add(self.locations as u64)
            .saturating_add(self.classes as u64);
        of_state.saturating_mul(self.count as u64)
    }

    /// Adds the state, given for each class what is left of it. All tables must have the sizes that the layer was made for: places of states are multiples
    /// of these.
    pub(crate) fn push(&mut self, state: &State, left_of: &[ClassLeft]) -> Result<(), AllocError> {
        append(&mut self.fronts, state.fronts.places())?;
        append(&mut self.held, state.held.as_slice())?;
        append(&mut self.left_of, left_of)?;
        self.gains.push(state.gain)?;
        self.ways.push(state.ways)?;
        self.count = self.count.wrapping_add(1);
        Ok(())
    }

    /// Makes the state that of this number. What is left of classes is loaded by `load_left_of`, and `placed` stays as it is.
    pub(crate) fn load(&self, number: u32, state: &mut State) {
        let fronts = number.wrapping_mul(self.processes);
        let end = fronts.saturating_add(self.processes);
        state
            .fronts
            .load(piece(self.fronts.as_slice(), fronts, end));
        let held = number.wrapping_mul(self.locations);
        copy_out(self.held.as_slice(), held, &mut state.held, ClassId::NONE);
        state.gain = at(self.gains.as_slice(), number, 0);
        state.ways = at(self.ways.as_slice(), number, Ways::FIRST);
    }

    /// For each class what is left of it in this state.
    #[inline(always)]
    pub(crate) fn left_of(&self, number: u32) -> &[ClassLeft] {
        let from = number.wrapping_mul(self.classes);
        piece(
            self.left_of.as_slice(),
            from,
            from.saturating_add(self.classes),
        )
    }

    /// Makes what is left of each class that of this state.
    pub(crate) fn load_left_of(&self, number: u32, left_of: &mut Vec<ClassLeft>) {
        let from = number.wrapping_mul(self.classes);
        copy_out(self.left_of.as_slice(), from, left_of, NOTHING_LEFT);
    }
}

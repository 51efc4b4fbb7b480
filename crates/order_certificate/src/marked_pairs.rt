//! The pairs that an explanation rests on.

use numbered_log::NO_NUMBER;
use std::alloc::{AllocError, Global};
use total_tables::{at, put, size};

/// The pairs that are marked, and the steps that derive pairs of no decision.
pub(crate) struct MarkedPairs {
    /// For each pair, by number, whether it is marked. One that a step derives stays so: ways that lead over it then cost nothing more.
    is_marked: Vec<bool>,
    /// Those that were marked since `clear`.
    marked: Vec<u32>,
    /// For each pair the step that derives it, or `NO_NUMBER`.
    steps: Vec<u32>,
    /// The largest number of these, or 0.
    highest: u32,
}

/// Drops each table in one call. A derived `Drop` would drop each at every exit of a function that owns them, which makes its proof longer.
impl Drop for MarkedPairs {
    fn drop(self) {
        let MarkedPairs {
            is_marked: _is_marked,
            marked: _marked,
            steps: _steps,
            highest: _,
        } = self;
    }
}

impl MarkedPairs {
    /// No pair is marked.
    pub(crate) fn new(alloc: Global) -> MarkedPairs {
        MarkedPairs {
            is_marked: Vec::new(alloc),
            marked: Vec::new(alloc),
            steps: Vec::new(alloc),
            highest: 0,
        }
    }

    /// Takes back all marks but those of pairs that a step derives.
    pub(crate) fn clear(&mut self) {
        for number in self.marked.as_slice() {
            if at(self.steps.as_slice(), *number, NO_NUMBER) == NO_NUMBER {
                put(self.is_marked.as_mut_slice(), *number, false);
            }
        }
        self.marked.clear();
        self.highest = 0;
    }

    /// Marks the pair. The number must be that of a pair, since both tables get entries up to it.
    pub(crate) fn mark(&mut self, number: u32) -> Result<(), AllocError> {
        for _ in size(self.is_marked.as_slice())..number.saturating_add(1) {
            self.is_marked.push(false)?;
            self.steps.push(NO_NUMBER)?;
        }
        if !at(self.is_marked.as_slice(), number, true) {
            put(self.is_marked.as_mut_slice(), number, true);
            self.marked.push(number)?;
            self.highest = self.highest.max(number);
        }
        Ok(())
    }

    /// For each pair whether it is marked.
    pub(crate) fn as_slice(&self) -> &[bool] {
        self.is_marked.as_slice()
    }

    /// The largest number of a marked pair that no step derived before.
    pub(crate) fn highest(&self) -> u32 {
        self.highest
    }

    /// Returns whether the pair is marked and no step derives it.
    pub(crate) fn is_open(&self, number: u32) -> bool {
        at(self.is_marked.as_slice(), number, false) && self.step(number) == NO_NUMBER
    }

    /// The step that derives the pair, or `NO_NUMBER`.
    pub(crate) fn step(&self, number: u32) -> u32 {
        at(self.steps.as_slice(), number, NO_NUMBER)
    }

    /// Keeps the step that derives the pair.
    pub(crate) fn keep_step(&mut self, number: u32, step: u32) {
        put(self.steps.as_mut_slice(), number, step);
    }
}

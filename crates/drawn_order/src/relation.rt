//! A relation between numbers.

use std::alloc::{AllocError, Global};

/// Which pairs of numbers are known to be ordered, closed under transitivity.
#[derive(Drop)]
pub(crate) struct Relation {
    size: usize,
    cells: Vec<bool>,
}

impl Relation {
    /// No number stands before another one.
    pub(crate) fn none(alloc: Global, size: usize) -> Result<Relation, AllocError> {
        let mut cells = Vec::new(alloc);
        for _ in 0..size.saturating_mul(size) {
            cells.push(false)?;
        }
        Ok(Relation { size, cells })
    }

    /// The place of these two in the table, row by row. Both have to be numbers below `size`: a second one past it would be a cell of another
    /// row. Of such numbers nothing wraps, as the table has room for the square of its size.
    fn cell(&self, first: usize, second: usize) -> usize {
        first.wrapping_mul(self.size).wrapping_add(second)
    }

    /// Returns whether the first stands before the second.
    pub(crate) fn holds(&self, first: usize, second: usize) -> bool {
        match self.cells.get(self.cell(first, second)) {
            Some(holds) => *holds,
            None => false,
        }
    }

    /// Notes that the first stands before the second.
    fn put(&mut self, first: usize, second: usize) {
        let cell = self.cell(first, second);
        if cell < self.cells.len() {
            self.cells[cell] = true;
        }
    }

    /// Notes that the number stands before the other one and before all that stand after that one.
    fn put_after(&mut self, number: usize, other: usize) {
        for later in 0..self.size {
            if later == other || self.holds(other, later) {
                self.put(number, later);
            }
        }
    }

    /// Notes that the first stands before the second, and what follows of it: all that stand before the first, and itself, stand before the
    /// second and all behind it.
    pub(crate) fn order(&mut self, first: usize, second: usize) {
        for earlier in 0..self.size {
            if earlier == first || self.holds(earlier, first) {
                self.put_after(earlier, second);
            }
        }
    }
}

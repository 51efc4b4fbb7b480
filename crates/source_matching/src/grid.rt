//! Tables with rows and columns.

use std::alloc::{AllocError, Global};
use total_tables::{at, put};

/// A table whose rows and columns are counted from 0. A place outside of it reads as the value with which it was filled, so callers need no
/// case for the row before the first.
#[derive(Drop)]
pub struct Grid<T> {
    columns: u32,
    filling: T,
    items: Vec<T>,
}

impl<T: Copy> Grid<T> {
    /// Makes a table with this number of rows and columns, filled with this value.
    pub fn new(alloc: Global, rows: u32, columns: u32, filling: T) -> Result<Grid<T>, AllocError> {
        let size = rows.wrapping_mul(columns) as usize;
        Ok(Grid {
            columns,
            filling,
            items: vec![in alloc; filling; size]?,
        })
    }

    /// Returns the entry, or the filling outside. The row is not compared: the place of an entry in the row before the first, or in the next one
    /// behind the last, lies behind all items, if the table with one row more has at most 2^32 of them.
    #[inline(always)]
    pub fn get(&self, row: u32, column: u32) -> T {
        if column >= self.columns {
            return self.filling;
        }
        let place = row.wrapping_mul(self.columns).wrapping_add(column);
        at(self.items.as_slice(), place, self.filling)
    }

    #[inline(always)]
    pub fn set(&mut self, row: u32, column: u32, value: T) {
        if column < self.columns {
            let place = row.wrapping_mul(self.columns).wrapping_add(column);
            put(self.items.as_mut_slice(), place, value);
        }
    }

    /// Returns all entries, row by row and with nothing between rows. Rows of counts collect the numbers of all their clauses from it, and nothing
    /// rests on the order.
    pub fn items(&self) -> &[T] {
        self.items.as_slice()
    }
}

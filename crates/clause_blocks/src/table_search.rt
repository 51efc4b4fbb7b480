//! The place of a number in a table of sums.

ghost use Rattle.std.specs.Prelude.{◌<◌, ◌≤◌, ◌+◌, length, slice_index};

use std::alloc::{AllocError, Global};

/// How many neighbouring numbers share a landmark. The value bears on time and memory alone.
const APART: u32 = 128;

/// For each 128 numbers the entry that the first of them reaches, so that a search has few entries to look at. Nothing is promised of
/// landmarks: a search looks whether the number is between two of them.
#[derive(Drop)]
pub(crate) struct Landmarks {
    /// For the numbers from 128 k on, in row k, a place of the table. The next row, plus 1, bounds the search from above.
    entries: Vec<u16>,
}

impl Landmarks {
    /// The landmarks of a table.
    pub(crate) fn of(alloc: Global, table: &[u32]) -> Result<Landmarks, AllocError> {
        let mut entries = Vec::new(alloc);
        for next in 1..table.len() {
            // A place too large for 16 bits becomes 0, a wrong landmark: `bounds` finds that out, and the whole table is searched.
            let entry = u16::try_from(next - 1).unwrap_or(0);
            for _ in entries.len()..(table[next] / APART) as usize + 1 {
                entries.push(entry)?;
            }
        }
        Ok(Landmarks { entries })
    }

    /// Two entries, of those from the first to the last, of which the number reaches the lower one and not the upper one: those that the landmarks
    /// name, if these are right.
    fn bounds(&self, table: &[u32], first: usize, last: usize, number: u32) -> (usize, usize)
        requires rising { first < last }
        requires within { last < length table.now }
        requires above { slice_index table.now first ≤ number }
        requires below { number < slice_index table.now last }
        ensures rising { result.0 < result.1 }
        ensures first { first ≤ result.0 }
        ensures last { result.1 ≤ last }
        ensures above { slice_index table.now result.0 ≤ number }
        ensures below { number < slice_index table.now result.1 }
    {
        let place = (number / APART) as usize;
        if place + 1 < self.entries.len() {
            let low = first.max(usize::from(self.entries[place]));
            let high = last.min(usize::from(self.entries[place + 1]) + 1);
            if low < high && table[low] <= number && number < table[high] {
                return (low, high);
            }
        }
        (first, last)
    }

    /// An entry, of those between these two, that the number reaches while it does not reach the next one.
    pub(crate) fn reached(&self, table: &[u32], first: usize, last: usize, number: u32) -> usize
        requires rising { first < last }
        requires within { last < length table.now }
        requires above { slice_index table.now first ≤ number }
        requires below { number < slice_index table.now last }
        ensures first { first ≤ result }
        ensures last { result < last }
        ensures above { slice_index table.now result ≤ number }
        ensures below { number < slice_index table.now (result + 1) }
    {
        let (mut low, mut high) = self.bounds(table, first, last, number);
        while high - low > 1 {
            let between = low + (high - low) / 2;
            if table[between] <= number {
                low = between;
            } else {
                high = between;
            }
        }
        low
    }
}

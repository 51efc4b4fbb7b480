//! Hall violators: readers with fewer possible sources than readers.

use crate::grid::Grid;
use crate::matching_instance::MatchingInstance;
use crate::reader_id::ReaderId;
use crate::source_place::SourcePlace;
use std::alloc::{AllocError, Global};
use total_tables::{at, put, size};

/// A Hall violator (Hall, "On representatives of subsets", 1935): some readers, and their possible sources, of which there is one fewer.
/// Both are counted from 1, as the counts of the derivation are.
pub struct HallViolator {
    readers: Vec<ReaderId>,
    sources: u32,
    /// For each reader and source the number of the choice in the instance from which the violator was made, plus one, or 0. There are fewer
    /// sources than readers, so it has a column for each reader, and one for the source 0, which is none.
    choices: Grid<u32>,
}

/// Drops the tables in one call. A derived `Drop` would drop each at every exit of a function that owns a violator, which makes its proof longer.
impl Drop for HallViolator {
    fn drop(self) {
        let HallViolator {
            readers: _readers,
            sources: _,
            choices: _choices,
        } = self;
    }
}

impl HallViolator {
    /// Makes a Hall violator of these readers, with all sources that they have.
    pub fn of(
        alloc: Global,
        reads: &MatchingInstance,
        readers: &[ReaderId],
    ) -> Result<HallViolator, AllocError> {
        let count = size(readers);
        let mut its_readers = Vec::with_capacity(alloc, readers.len())?;
        its_readers.extend_from_slice(readers)?;
        let mut places = vec![in alloc; SourcePlace::NONE; reads.sources() as usize]?;
        let mut shortage = HallViolator {
            sources: 0,
            choices: Grid::new(alloc, count.wrapping_add(1), count, 0)?,
            readers: its_readers,
        };
        for reader in 1..=count {
            shortage.take_choices(reads, reader, places.as_mut_slice());
        }
        Ok(shortage)
    }

    /// Adds the choices of the reader that are not excluded. A source that is new has the next place; `places` has that of each that is known, or
    /// none.
    fn take_choices(&mut self, reads: &MatchingInstance, reader: u32, places: &mut [SourcePlace]) {
        let number = self.reader(reader);
        for choice in reads.first_choice(number)..reads.first_choice(number.next()) {
            let its = reads.choice(choice);
            if its.is_excluded {
                continue;
            }
            let number = its.source.number();
            if at(places, number, SourcePlace::NONE) == SourcePlace::NONE {
                self.sources = self.sources.wrapping_add(1);
                put(places, number, SourcePlace::new(self.sources));
            }
            let source = at(places, number, SourcePlace::NONE);
            self.choices
                .set(reader, source.number(), choice.wrapping_add(1));
        }
    }

    /// Returns a bound on the steps of the derivation: about half of the cube of the sources for pairs of readers, and the cube for counts.
    pub fn most_steps(&self) -> u64 {
        let sources = u64::from(self.sources);
        let square = sources.wrapping_mul(sources);
        let cube = square.wrapping_mul(sources);
        (cube.wrapping_mul(3) / 2)
            .wrapping_add(square.wrapping_mul(9))
            .wrapping_add(sources.wrapping_mul(30))
            .wrapping_add(10)
    }

    /// Returns the number of sources.
    pub fn sources(&self) -> u32 {
        self.sources
    }

    /// Returns the number of readers.
    pub fn readers(&self) -> u32 {
        size(self.readers.as_slice())
    }

    /// Returns the reader at this place, counted from 1.
    pub fn reader(&self, reader: u32) -> ReaderId {
        at(
            self.readers.as_slice(),
            reader.wrapping_sub(1),
            ReaderId::NONE,
        )
    }

    /// Returns the number of the choice of the reader and the source at these places, if it can be made.
    pub fn choice(&self, reader: u32, source: SourcePlace) -> Option<u32> {
        let choice = self.choices.get(reader, source.number());
        if choice == 0 {
            None
        } else {
            Some(choice.wrapping_sub(1))
        }
    }
}

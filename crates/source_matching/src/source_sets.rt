//! Sets of sources as bits: a matching visits a word of 64 sources at once.

use crate::matching_instance::MatchingInstance;
use crate::reader_id::ReaderId;
use crate::source_id::{SourceId, next_source};
use order_sets::{Element, ElementSets};
use std::alloc::{AllocError, Global};
use total_tables::{at, put, size};

/// For each reader the sources that are still possible, and a set for one more reader, which comes after all others.
#[derive(Drop)]
pub struct SourceSets {
    words: u32,
    /// For each reader its operation, if it is an update, or none.
    updates: Vec<Element>,
    /// The sets one after the other, each of as many words; the last one is that of the one more reader.
    bits: Vec<u64>,
}

impl SourceSets {
    /// Starts without readers, with room for this number of readers and for sources of smaller numbers than the given one.
    pub fn new(alloc: Global, readers: u32, sources: u32) -> Result<SourceSets, AllocError> {
        let words = sources.div_ceil(64);
        let count = readers.wrapping_add(1).wrapping_mul(words) as usize;
        Ok(SourceSets {
            words,
            updates: Vec::with_capacity(alloc, readers as usize)?,
            bits: vec![in alloc; 0; count]?,
        })
    }

    /// Returns the sources of choices that are not excluded.
    pub fn of(alloc: Global, reads: &MatchingInstance) -> Result<SourceSets, AllocError> {
        let mut sets = SourceSets::new(alloc, reads.readers(), reads.sources())?;
        for number in 0..reads.readers() {
            let reader = ReaderId::new(number);
            let update = reads.reader(reader).update;
            sets.add_reader(update.map(|update| update.operation))?;
            for number in reads.first_choice(reader)..reads.first_choice(reader.next()) {
                let choice = reads.choice(number);
                if !choice.is_excluded {
                    sets.add_source(choice.source);
                }
            }
        }
        Ok(sets)
    }

    /// Adds a reader without sources: the update that is this operation, or the final value of a location.
    pub fn add_reader(&mut self, update: Option<Element>) -> Result<(), AllocError> {
        self.updates.push(update.unwrap_or(Element::NONE))?;
        Ok(())
    }

    /// Adds the update that is this operation, which may have these sources: the set of which it is the owner. It is copied word by word, since a search
    /// keeps this set anyway: to add one source after the other, the caller would have to look again at each choice whether it is excluded.
    #[inline(always)]
    pub fn add_update(&mut self, update: Element, sources: &ElementSets) -> Result<(), AllocError> {
        let start = self.readers().wrapping_mul(self.words);
        self.updates.push(update)?;
        for number in 0..self.words.min(sources.words()) {
            let place = start.wrapping_add(number);
            put(
                self.bits.as_mut_slice(),
                place,
                sources.word(update, number),
            );
        }
        Ok(())
    }

    /// Adds a source to those of the reader that was added last.
    #[inline(always)]
    pub fn add_source(&mut self, source: SourceId) {
        let last = ReaderId::new(self.readers().wrapping_sub(1));
        self.insert(last, source.word(), source.bit());
    }

    /// Returns the place of the word of this number in the reader's set.
    #[inline(always)]
    fn place_of(&self, reader: ReaderId, number: u32) -> u32 {
        reader
            .number()
            .wrapping_mul(self.words)
            .wrapping_add(number)
    }

    /// Adds the sources of a word to the set of the reader.
    #[inline(always)]
    fn insert(&mut self, reader: ReaderId, number: u32, sources: u64) {
        if number < self.words {
            let place = self.place_of(reader, number);
            let word = at(self.bits.as_slice(), place, 0);
            put(self.bits.as_mut_slice(), place, word | sources);
        }
    }

    /// Sets the sources of the one more reader, in place, so that the last writers of each location are tried without a copy. It stands
    /// behind the readers that were added, so none may be added after this. Sources above the bound are left out.
    pub fn set_last(&mut self, sources: &[Element]) {
        let last = ReaderId::new(self.readers());
        for number in 0..self.words {
            let place = self.place_of(last, number);
            put(self.bits.as_mut_slice(), place, 0);
        }
        for source in sources {
            self.insert(last, source.word(), source.bit());
        }
    }

    /// Returns the number of readers, without the one more.
    #[inline(always)]
    pub fn readers(&self) -> u32 {
        size(self.updates.as_slice())
    }

    /// Returns the reader's operation, if it is an update.
    #[inline(always)]
    pub fn update(&self, reader: ReaderId) -> Option<Element> {
        let operation = at(self.updates.as_slice(), reader.number(), Element::NONE);
        if operation == Element::NONE {
            None
        } else {
            Some(operation)
        }
    }

    /// Returns a bound above the numbers of all sources: that of the bits of a set, and mostly more than the number of sources.
    pub fn sources(&self) -> u32 {
        self.words.wrapping_mul(64)
    }

    /// Returns the number of 64-bit words of a set.
    #[inline(always)]
    pub fn words(&self) -> u32 {
        self.words
    }

    /// Returns a word of the reader's set. Its number is below that of the words of a set: a larger one would read the next reader's.
    #[inline(always)]
    pub fn word(&self, reader: ReaderId, number: u32) -> u64 {
        at(self.bits.as_slice(), self.place_of(reader, number), 0)
    }

    /// Returns the first of the reader's sources, if it has one.
    pub fn first(&self, reader: ReaderId) -> Option<SourceId> {
        for number in 0..self.words {
            let mut word = self.word(reader, number);
            if let Some(source) = next_source(&mut word, number) {
                return Some(source);
            }
        }
        None
    }
}

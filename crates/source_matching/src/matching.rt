//! A maximum bipartite matching of readers and sources, by augmenting paths (Berge, 1957; Hopcroft and Karp, 1973). Paths are searched one
//! at a time: the instances have at most a few hundred readers, so phases of shortest paths would not pay.

use crate::reader_id::ReaderId;
use crate::source_id::{SourceId, next_source};
use crate::source_sets::SourceSets;
use order_sets::Element;
use std::alloc::{AllocError, Global};
use total_tables::{at, put, size};

/// A matching of maximum size: readers with sources of their own.
pub struct Matching {
    possible: SourceSets,
    readers: u32,
    /// For each reader its source, or none.
    source_of: Vec<SourceId>,
    /// For each source its reader, or none.
    reader_of: Vec<ReaderId>,
    /// The free sources. All bits are set at first, so one that no reader may have counts as free too.
    free: Vec<u64>,
    /// The sources that the search at hand has not visited.
    unseen: Vec<u64>,
    /// For each visited source the reader from which the search came. An entry counts only for sources that the last search has visited.
    came_from: Vec<ReaderId>,
    /// The visited readers, in the order in which the search goes on from them.
    reached: Vec<ReaderId>,
    /// The unmatched readers.
    left_over: Vec<ReaderId>,
}

/// Drops the tables in one call. A derived `Drop` would drop each at every exit of a function that owns a matching, which makes its proof longer.
impl Drop for Matching {
    fn drop(self) {
        let Matching {
            possible: _possible,
            readers: _,
            source_of: _source_of,
            reader_of: _reader_of,
            free: _free,
            unseen: _unseen,
            came_from: _came_from,
            reached: _reached,
            left_over: _left_over,
        } = self;
    }
}

impl Matching {
    /// Computes a maximum matching: first greedily, and then along augmenting paths from each reader that is left.
    pub fn of(alloc: Global, possible: SourceSets) -> Result<Matching, AllocError> {
        let readers = possible.readers();
        let sources = possible.sources() as usize;
        let mut matching = Matching {
            readers,
            source_of: vec![in alloc; SourceId::NONE; readers as usize]?,
            reader_of: vec![in alloc; ReaderId::NONE; sources]?,
            free: vec![in alloc; u64::MAX; possible.words() as usize]?,
            unseen: vec![in alloc; 0; possible.words() as usize]?,
            came_from: vec![in alloc; ReaderId::NONE; sources]?,
            reached: Vec::new(alloc),
            left_over: Vec::new(alloc),
            possible,
        };
        // The first free source has a small number, and stands mostly before a reader with a large one. So these are matched first.
        let mut waiting = Vec::new(alloc);
        for number in (0..matching.readers).rev() {
            let reader = ReaderId::new(number);
            if !matching.take_free(reader) {
                waiting.push(reader)?;
            }
        }
        for reader in &waiting {
            // A reader without an augmenting path has none after the matching was enlarged either, so each is tried once.
            match matching.walk(*reader)? {
                Some(source) => matching.enlarge(source),
                None => matching.left_over.push(*reader)?,
            }
        }
        Ok(matching)
    }

    /// Returns for each reader the sources that are still possible.
    pub fn possible(&self) -> &SourceSets {
        &self.possible
    }

    /// Returns the smallest Hall violator that alternating paths from an unmatched reader reach, or no reader if all are matched. Its
    /// derivation grows with the cube of its sources, so a second walk from each unmatched reader is cheap.
    pub fn smallest_shortage(&mut self, alloc: Global) -> Result<Vec<ReaderId>, AllocError> {
        let mut smallest = Vec::new(alloc);
        for number in 0..size(self.left_over.as_slice()) {
            let reader = at(self.left_over.as_slice(), number, ReaderId::NONE);
            let _source = self.walk(reader)?;
            if smallest.is_empty() || self.reached.len() < smallest.len() {
                smallest.clear();
                smallest.extend_from_slice(self.reached.as_slice())?;
            }
        }
        Ok(smallest)
    }

    /// Returns whether one more reader with these sources would remain unmatched. The matching stays as it is, so this may be asked for one set of
    /// sources after the other.
    pub fn has_none_for(&mut self, sources: &[Element]) -> Result<bool, AllocError> {
        self.possible.set_last(sources);
        let found = self.walk(ReaderId::new(self.readers))?;
        Ok(found.is_none())
    }

    /// Returns the readers that the last search has visited: with no augmenting path they are a Hall violator. The one more
    /// reader of `has_none_for` is the first of them.
    pub fn reached(&self) -> &[ReaderId] {
        self.reached.as_slice()
    }

    /// Returns the free sources, as words of a set.
    pub fn free(&self) -> &[u64] {
        self.free.as_slice()
    }

    /// Matches the reader with this source.
    #[inline(always)]
    fn give(&mut self, reader: ReaderId, source: SourceId) {
        put(self.source_of.as_mut_slice(), reader.number(), source);
        put(self.reader_of.as_mut_slice(), source.number(), reader);
    }

    /// Matches the reader with the first of its sources that is free, if there is one.
    #[inline(always)]
    fn take_free(&mut self, reader: ReaderId) -> bool {
        for number in 0..self.possible.words() {
            let free = at(self.free.as_slice(), number, 0);
            let mut word = self.possible.word(reader, number) & free;
            if let Some(source) = next_source(&mut word, number) {
                put(self.free.as_mut_slice(), number, free & !source.bit());
                self.give(reader, source);
                return true;
            }
        }
        false
    }

    /// Visits the sources of this reader that were not visited, up to the first free one. The search goes on from the readers of the
    /// others.
    fn look_around(&mut self, reader: ReaderId) -> Result<Option<SourceId>, AllocError> {
        for number in 0..self.possible.words() {
            let unseen = at(self.unseen.as_slice(), number, 0);
            let mut word = self.possible.word(reader, number) & unseen;
            put(self.unseen.as_mut_slice(), number, unseen & !word);
            let mut free = word & at(self.free.as_slice(), number, 0);
            if let Some(source) = next_source(&mut free, number) {
                put(self.came_from.as_mut_slice(), source.number(), reader);
                return Ok(Some(source));
            }
            for _ in 0..64 {
                let Some(source) = next_source(&mut word, number) else {
                    break;
                };
                put(self.came_from.as_mut_slice(), source.number(), reader);
                let its_reader = at(self.reader_of.as_slice(), source.number(), ReaderId::NONE);
                self.reached.push(its_reader)?;
            }
        }
        Ok(None)
    }

    /// Searches for an augmenting path from this reader: to its possible sources, from a source to its reader, and so on. It ends at a free
    /// source, or after all that can be reached was visited.
    /// The reader whose number is that of all readers is the one more, of `SourceSets::set_last`; so a search visits at most one more than there are.
    fn walk(&mut self, reader: ReaderId) -> Result<Option<SourceId>, AllocError> {
        for number in 0..self.possible.words() {
            put(self.unseen.as_mut_slice(), number, u64::MAX);
        }
        self.reached.clear();
        self.reached.push(reader)?;
        for place in 0..=self.readers {
            if place >= size(self.reached.as_slice()) {
                break;
            }
            let next = at(self.reached.as_slice(), place, ReaderId::NONE);
            if let Some(source) = self.look_around(next)? {
                return Ok(Some(source));
            }
        }
        Ok(None)
    }

    /// Flips the alternating path that ends at this source, which matches one more reader. It goes back from the source to the reader where the search
    /// began: each reader gives up the source that it had, and the one from which the search came to that source takes it.
    fn enlarge(&mut self, source: SourceId) {
        let word = at(self.free.as_slice(), source.word(), 0);
        put(
            self.free.as_mut_slice(),
            source.word(),
            word & !source.bit(),
        );
        let mut source = source;
        for _ in 0..=self.readers {
            let reader = at(self.came_from.as_slice(), source.number(), ReaderId::NONE);
            let left = at(self.source_of.as_slice(), reader.number(), SourceId::NONE);
            self.give(reader, source);
            if left == SourceId::NONE {
                break;
            }
            source = left;
        }
    }
}

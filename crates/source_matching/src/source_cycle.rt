//! Cycles of reads-from: updates of which none can come first.

use crate::reader_id::ReaderId;
use crate::source_id::next_source;
use crate::source_sets::SourceSets;
use order_sets::Element;
use std::alloc::{AllocError, Global};
use total_tables::{at, put, size};

/// Updates whose possible sources are all among themselves, by numbers of readers. Following a source back from each never ends, so none of
/// them can come first.
#[derive(Drop)]
pub struct SourceCycle {
    readers: Vec<ReaderId>,
}

impl SourceCycle {
    /// Returns the numbers of the readers.
    pub fn readers(&self) -> &[ReaderId] {
        self.readers.as_slice()
    }

    /// Returns a bound on the steps of the derivation.
    pub fn most_steps(&self) -> u64 {
        let count = self.readers.len() as u64;
        count.saturating_mul(count.saturating_add(4))
    }
}

/// Returns for each source the reader of this operation, or none.
fn readers_by_source(alloc: Global, possible: &SourceSets) -> Result<Vec<ReaderId>, AllocError> {
    let mut readers = vec![in alloc; ReaderId::NONE; possible.sources() as usize]?;
    for number in 0..possible.readers() {
        let reader = ReaderId::new(number);
        if let Some(update) = possible.update(reader) {
            put(readers.as_mut_slice(), update.number(), reader);
        }
    }
    Ok(readers)
}

/// Returns whether all possible sources of the reader are among these.
#[inline(always)]
fn has_all_within(possible: &SourceSets, reader: ReaderId, within: &[u64]) -> bool {
    for number in 0..possible.words() {
        if possible.word(reader, number) & !at(within, number, 0) != 0 {
            return false;
        }
    }
    true
}

#[inline(always)]
pub fn is_member(set: &[u64], element: Element) -> bool {
    at(set, element.word(), 0) & element.bit() != 0
}

/// Puts an element into a set, or removes it.
#[inline(always)]
pub fn set_member(set: &mut [u64], element: Element, is_member: bool) {
    let bit = element.bit();
    let word = at(set, element.word(), 0);
    let word = if is_member { word | bit } else { word & !bit };
    put(set, element.word(), word);
}

/// Removes, one after the other, each update that may have a source outside of those that are left. Returns those that are left at the end,
/// as a set of their operations, and how many they are. Each round looks at all of them, without a worklist: they are at most a few hundred.
fn without_outsiders(alloc: Global, possible: &SourceSets) -> Result<(Vec<u64>, u32), AllocError> {
    let mut left = vec![in alloc; 0; possible.words() as usize]?;
    let mut count: u32 = 0;
    for number in 0..possible.readers() {
        let reader = ReaderId::new(number);
        if let Some(update) = possible.update(reader) {
            set_member(left.as_mut_slice(), update, true);
            count = count.wrapping_add(1);
        }
    }
    for _ in 0..possible.readers() {
        let before = count;
        for number in 0..possible.readers() {
            let reader = ReaderId::new(number);
            if let Some(update) = possible.update(reader)
                && is_member(left.as_slice(), update)
                && !has_all_within(possible, reader, left.as_slice())
            {
                set_member(left.as_mut_slice(), update, false);
                count = count.wrapping_sub(1);
            }
        }
        if count == before || count == 0 {
            break;
        }
    }
    Ok((left, count))
}

/// Returns the reader, the readers that are its possible sources, theirs, and so on.
fn reached_from(
    alloc: Global,
    possible: &SourceSets,
    by_source: &[ReaderId],
    reader: ReaderId,
) -> Result<Vec<ReaderId>, AllocError> {
    let mut is_reached = vec![in alloc; 0; possible.readers() as usize]?;
    let mut reached = Vec::new(alloc);
    reached.push(reader)?;
    put(is_reached.as_mut_slice(), reader.number(), 1);
    for place in 0..possible.readers() {
        if place >= size(reached.as_slice()) {
            break;
        }
        let next = at(reached.as_slice(), place, ReaderId::NONE);
        for number in 0..possible.words() {
            let mut word = possible.word(next, number);
            for _ in 0..64 {
                let Some(source) = next_source(&mut word, number) else {
                    break;
                };
                // A source that is no update gives no reader, which counts as reached.
                let other = at(by_source, source.number(), ReaderId::NONE);
                if at(is_reached.as_slice(), other.number(), 1) == 0 {
                    put(is_reached.as_mut_slice(), other.number(), 1);
                    reached.push(other)?;
                }
            }
        }
    }
    Ok(reached)
}

/// Looks for updates whose possible sources are all among themselves, so that none of them can come first. Of the sets that one update
/// reaches the smallest is chosen, since the derivation grows with the square of its size.
pub fn find_cycle(alloc: Global, possible: &SourceSets) -> Result<Option<SourceCycle>, AllocError> {
    let (left, count) = without_outsiders(alloc, possible)?;
    if count == 0 {
        return Ok(None);
    }
    let by_source = readers_by_source(alloc, possible)?;
    let mut smallest = Vec::new(alloc);
    for number in 0..possible.readers() {
        let reader = ReaderId::new(number);
        let is_left = match possible.update(reader) {
            Some(update) => is_member(left.as_slice(), update),
            None => false,
        };
        if !is_left {
            continue;
        }
        let reached = reached_from(alloc, possible, by_source.as_slice(), reader)?;
        if smallest.is_empty() || reached.len() < smallest.len() {
            smallest = reached;
        }
    }
    Ok(Some(SourceCycle { readers: smallest }))
}

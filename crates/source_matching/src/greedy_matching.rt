//! A greedy matching of updates and sources, which mostly shows that there is no Hall violator.

use crate::known_order::KnownOrder;
use crate::last_writers::{location_word, may_be_last};
use crate::source_cycle::{is_member, set_member};
use order_sets::{Element, ElementSets, next_element};
use std::alloc::{AllocError, Global};
use total_tables::{at, put, size};

/// Updates, and the writers with which none of them is matched yet, as sets of elements.
///
/// Each update is matched with a free source, or with one that is freed along a short alternating path. If all of them are matched, in each
/// location one more writer is free that may be the last, and no updates form a cycle of reads-from, then there is no contradiction.
/// Longer paths are not tried: this runs after each turn and round of a search, where it spares the copy of the sets that the full matching needs.
#[derive(Drop)]
pub struct GreedyMatching<'a> {
    known: KnownOrder<'a>,
    /// For each update the writers that it may have as its source.
    sources: &'a ElementSets,
    /// All updates that were added.
    updates: Vec<u64>,
    /// The updates that may read the initial value, while none of their location is matched with it.
    with_first: Vec<u64>,
    /// The writers that may be the last one of their location, and all other elements.
    ends: Vec<u64>,
    others: Vec<u64>,
    /// For each element the update that is matched with it, or none.
    takers: Vec<Element>,
    /// The writers of the locations that were visited, and one of each.
    seen: Vec<u64>,
    heads: Vec<Element>,
}

/// Returns whether one of the sources of the update is not in the set.
#[inline(always)]
fn has_one_outside(sources: &ElementSets, update: Element, set: &[u64]) -> bool {
    for number in 0..sources.words() {
        if sources.word(update, number) & !at(set, number, 0) != 0 {
            return true;
        }
    }
    false
}

/// Removes the first source of the update from the set, if there is one in it.
#[inline(always)]
fn takes_one_of(
    sources: &ElementSets,
    update: Element,
    set: &mut [u64],
    takers: &mut [Element],
) -> bool {
    for number in 0..sources.words() {
        let left = at(set, number, 0);
        let mut word = sources.word(update, number) & left;
        if let Some(source) = next_element(&mut word, number) {
            put(set, number, left & !source.bit());
            put(takers, source.number(), update);
            return true;
        }
    }
    false
}

impl<'a> GreedyMatching<'a> {
    /// Starts without updates. Those that will be added may have these sources.
    pub fn new(
        alloc: Global,
        known: KnownOrder<'a>,
        sources: &'a ElementSets,
    ) -> Result<GreedyMatching<'a>, AllocError> {
        let words = known.writers.words() as usize;
        Ok(GreedyMatching {
            known,
            sources,
            updates: vec![in alloc; 0; words]?,
            with_first: vec![in alloc; 0; words]?,
            ends: vec![in alloc; 0; words]?,
            others: vec![in alloc; u64::MAX; words]?,
            takers: Vec::new(alloc),
            seen: vec![in alloc; 0; words]?,
            heads: Vec::new(alloc),
        })
    }

    /// Adds an update, which may read the initial value or not.
    #[inline(always)]
    pub fn add_update(&mut self, update: Element, may_have_first: bool) {
        set_member(self.updates.as_mut_slice(), update, true);
        if may_have_first {
            set_member(self.with_first.as_mut_slice(), update, true);
        }
    }

    pub fn has_updates(&self) -> bool {
        self.updates.iter().any(|word| *word != 0)
    }

    /// Starts a location, that of this writer, which may be any of its writers. Callers add its ends next, by `add_end`.
    pub fn add_location(&mut self, writer: Element) -> Result<(), AllocError> {
        for number in 0..self.known.writers.words() {
            let word = at(self.seen.as_slice(), number, 0);
            let word = word | location_word(self.known, writer, number);
            put(self.seen.as_mut_slice(), number, word);
        }
        self.heads.push(writer)?;
        Ok(())
    }

    /// Adds a writer that may be the last one of its location.
    #[inline(always)]
    pub fn add_end(&mut self, writer: Element) {
        set_member(self.ends.as_mut_slice(), writer, true);
        set_member(self.others.as_mut_slice(), writer, false);
    }

    /// Adds the writers of this one's location that may be the last one.
    fn add_ends_of(&mut self, writer: Element) {
        for number in 0..self.known.writers.words() {
            let mut word = location_word(self.known, writer, number);
            for _ in 0..64 {
                let Some(other) = next_element(&mut word, number) else {
                    break;
                };
                // Mostly the next one of its process is still in the same word.
                let later = word & self.known.successors.word(other, number);
                if later == 0 && may_be_last(self.known, other) {
                    self.add_end(other);
                }
            }
        }
    }

    /// Adds the locations of updates that were not added, with those that may be the last writer.
    fn add_locations(&mut self) -> Result<(), AllocError> {
        for number in 0..self.known.writers.words() {
            for _ in 0..64 {
                let seen = at(self.seen.as_slice(), number, u64::MAX);
                let mut word = at(self.updates.as_slice(), number, 0) & !seen;
                let Some(update) = next_element(&mut word, number) else {
                    break;
                };
                self.add_location(update)?;
                self.add_ends_of(update);
            }
        }
        Ok(())
    }

    /// Returns whether each update has a possible source that is no update, or one of an update that has, and so on. Otherwise there is a cycle of
    /// reads-from, which a matching does not see.
    fn has_no_cycle(&self, alloc: Global) -> Result<bool, AllocError> {
        let mut inside = Vec::new(alloc);
        inside.extend_from_slice(self.updates.as_slice())?;
        // Each round but the last takes an update out, so these rounds are enough.
        for _ in 0..=self.known.order.operations {
            let mut is_changed = false;
            let mut all: u64 = 0;
            for number in 0..size(inside.as_slice()) {
                let mut word = at(inside.as_slice(), number, 0);
                for _ in 0..64 {
                    let Some(update) = next_element(&mut word, number) else {
                        break;
                    };
                    if is_member(self.with_first.as_slice(), update)
                        || has_one_outside(self.sources, update, inside.as_slice())
                    {
                        set_member(inside.as_mut_slice(), update, false);
                        is_changed = true;
                    }
                }
                all |= at(inside.as_slice(), number, 0);
            }
            if all == 0 || !is_changed {
                return Ok(all == 0);
            }
        }
        Ok(false)
    }

    /// Matches the update with the initial value, if it may read that and none of its location does. Then no other update of the location may. It has
    /// no entry in `takers`, so this match is never undone.
    #[inline(always)]
    fn takes_first(&mut self, update: Element) -> bool {
        let is_there = is_member(self.with_first.as_slice(), update);
        if is_there {
            for number in 0..self.known.writers.words() {
                let word = at(self.with_first.as_slice(), number, 0);
                let word = word & !location_word(self.known, update, number);
                put(self.with_first.as_mut_slice(), number, word);
            }
        }
        is_there
    }

    /// Matches the update with a free source: one that cannot be the last writer, if there is one, since each location needs a last writer
    /// too.
    #[inline(always)]
    fn takes_one(&mut self, update: Element) -> bool {
        let takers = self.takers.as_mut_slice();
        takes_one_of(self.sources, update, self.others.as_mut_slice(), takers)
            || self.takes_first(update)
            || takes_one_of(
                self.sources,
                update,
                self.ends.as_mut_slice(),
                self.takers.as_mut_slice(),
            )
    }

    /// Frees one of these sources along an alternating path, if the update that is matched with it can be matched with another one. A source that
    /// is freed stays out of the sets of free ones, so the caller takes it.
    fn given_back(&mut self, sources: u64, number: u32) -> Option<Element> {
        let mut word = sources;
        for _ in 0..64 {
            let Some(source) = next_element(&mut word, number) else {
                break;
            };
            let taker = at(self.takers.as_slice(), source.number(), Element::NONE);
            if taker != Element::NONE && self.takes_one(taker) {
                return Some(source);
            }
        }
        None
    }

    /// Matches the update with a source that is freed along an alternating path, if there is one.
    fn takes_another(&mut self, update: Element) -> bool {
        for number in 0..self.known.writers.words() {
            let word = self.sources.word(update, number);
            if let Some(source) = self.given_back(word, number) {
                put(self.takers.as_mut_slice(), source.number(), update);
                return true;
            }
        }
        false
    }

    /// Returns whether each update is matched.
    fn have_sources(&mut self) -> bool {
        // The first free source has a small number, and stands mostly before an update with a large one. So these are matched first.
        for number in (0..self.known.writers.words()).rev() {
            let mut word = at(self.updates.as_slice(), number, 0);
            for _ in 0..64 {
                if word == 0 {
                    break;
                }
                let place = 63_u32.wrapping_sub(word.leading_zeros());
                word &= !(1 << (place & 63));
                let update = Element::new(number.wrapping_mul(64).wrapping_add(place));
                if !self.takes_one(update) && !self.takes_another(update) {
                    return false;
                }
            }
        }
        true
    }

    /// Returns whether in the location of this writer one that may be the last is free, or is freed along an alternating path.
    fn has_end(&mut self, writer: Element, may_end: &[u64]) -> bool {
        for number in 0..self.known.writers.words() {
            let word = at(self.ends.as_slice(), number, 0);
            if word & location_word(self.known, writer, number) != 0 {
                return true;
            }
        }
        for number in 0..self.known.writers.words() {
            let word = at(may_end, number, 0) & location_word(self.known, writer, number);
            if self.given_back(word, number).is_some() {
                return true;
            }
        }
        false
    }

    /// Returns whether in each location a writer is free that may be the last one.
    fn have_ends(&mut self, may_end: &[u64]) -> bool {
        for number in 0..size(self.heads.as_slice()) {
            let head = at(self.heads.as_slice(), number, Element::NONE);
            if !self.has_end(head, may_end) {
                return false;
            }
        }
        true
    }

    /// Returns whether the greedy matching saturates all readers. False means unknown, not infeasible. Matching takes elements out of `ends` and
    /// `with_first`, so the copy of the one is made and the cycle is looked for, which asks the other, before it.
    pub fn shows_enough(&mut self, alloc: Global) -> Result<bool, AllocError> {
        self.add_locations()?;
        let mut may_end = Vec::new(alloc);
        may_end.extend_from_slice(self.ends.as_slice())?;
        let bits = self.sources.words().wrapping_mul(64) as usize;
        self.takers = vec![in alloc; Element::NONE; bits]?;
        Ok(self.has_no_cycle(alloc)? && self.have_sources() && self.have_ends(may_end.as_slice()))
    }
}

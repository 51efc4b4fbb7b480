//! Sets of a few hundred elements as bits. Closing an order goes over whole sets, so each further word makes every assignment slower.

use crate::element::Element;
use std::alloc::{AllocError, Global};
use total_tables::{at, put};

/// Maximum number of elements of an order: a set is three words of 64 bits, enough for the 160 operations that a formula may have.
pub const MAX_ELEMENTS: u32 = 192;

/// Number of 64-bit words of a set.
const WORDS: u32 = 3;

/// A set of elements for each element, its owner.
#[derive(Drop)]
pub struct ElementSets {
    /// Number of the words of a set that are in use.
    words: u32,
    sets: Vec<u64>,
}

/// Returns the place of the word of this number in the set of its owner. The distance of two sets is a constant and not `words`, since this is
/// computed at every look at a set.
#[inline(always)]
fn place_of(owner: Element, number: u32) -> u32 {
    owner.number().wrapping_mul(WORDS).wrapping_add(number)
}

/// Returns the place of the element's word in the set of its owner. Elements are below 192: a larger one would have its word in the set of the
/// next owner.
#[inline(always)]
fn word_of(owner: Element, element: Element) -> u32 {
    place_of(owner, element.word())
}

/// Removes the first bit from a word of a set, if it has one, and returns its number in the set. The number that is given is that of the word in its
/// set, counted from 0. A word has 64 bits, so callers loop over it by a `for` of 64 turns, which needs no measure to be proved to end.
#[inline(always)]
pub fn next_bit(word: &mut u64, number: u32) -> Option<u32> {
    let left = *word;
    if left == 0 {
        return None;
    }
    *word = left & left.wrapping_sub(1);
    Some(number.wrapping_mul(64).wrapping_add(left.trailing_zeros()))
}

/// Removes the first element from a word of a set, if it has one, and returns it, as `next_bit` does.
#[inline(always)]
pub fn next_element(word: &mut u64, number: u32) -> Option<Element> {
    match next_bit(word, number) {
        Some(element) => Some(Element::new(element)),
        None => None,
    }
}

impl ElementSets {
    /// Makes an empty set for each of at most 192 elements.
    pub fn new(alloc: Global, elements: u32) -> Result<ElementSets, AllocError> {
        let elements = elements.min(MAX_ELEMENTS);
        Ok(ElementSets {
            words: elements.wrapping_add(63) >> 6,
            sets: vec![in alloc; 0; (elements.wrapping_mul(WORDS)) as usize]?,
        })
    }

    /// Returns the number of words of a set that are in use.
    #[inline(always)]
    pub fn words(&self) -> u32 {
        self.words
    }

    /// Returns the word of this number of the owner's set, counted from 0: it has the elements from 64 times the number on.
    #[inline(always)]
    pub fn word(&self, owner: Element, number: u32) -> u64 {
        at(self.sets.as_slice(), place_of(owner, number), 0)
    }

    #[inline(always)]
    pub fn set_word(&mut self, owner: Element, number: u32, word: u64) {
        put(self.sets.as_mut_slice(), place_of(owner, number), word);
    }

    /// Adds to the owner's set what the word of this number of another's has. Returns the elements that are new, as a word.
    #[inline(always)]
    pub fn join_word(&mut self, owner: Element, other: Element, number: u32) -> u64 {
        let known = self.word(owner, number);
        let added = self.word(other, number) & !known;
        self.set_word(owner, number, known | added);
        added
    }

    #[inline(always)]
    pub fn has(&self, owner: Element, element: Element) -> bool {
        at(self.sets.as_slice(), word_of(owner, element), 0) & element.bit() != 0
    }

    #[inline(always)]
    pub fn insert(&mut self, owner: Element, element: Element) {
        let place = word_of(owner, element);
        let word = at(self.sets.as_slice(), place, 0);
        put(self.sets.as_mut_slice(), place, word | element.bit());
    }

    #[inline(always)]
    pub fn take_out(&mut self, owner: Element, element: Element) {
        let place = word_of(owner, element);
        let word = at(self.sets.as_slice(), place, 0);
        put(self.sets.as_mut_slice(), place, word & !element.bit());
    }

    /// Returns the three words of the owner's set.
    #[inline(always)]
    fn words_of(&self, owner: Element) -> (u64, u64, u64) {
        let place = place_of(owner, 0) as usize;
        let sets = self.sets.as_slice();
        if place < sets.len() && 2 < sets.len() - place {
            (sets[place], sets[place + 1], sets[place + 2])
        } else {
            (0, 0, 0)
        }
    }

    /// Returns whether the owner's set is empty. This and the next two look at whole sets at once: propagation asks them for each literal, and mostly ends there.
    #[inline(always)]
    pub fn is_empty(&self, owner: Element) -> bool {
        let (a, b, c) = self.words_of(owner);
        a | b | c == 0
    }

    /// Returns whether the owner's set has no element in common with a set of others, that of `other`.
    #[inline(always)]
    pub fn is_disjoint(&self, owner: Element, others: &ElementSets, other: Element) -> bool {
        let (a, b, c) = self.words_of(owner);
        let (d, e, f) = others.words_of(other);
        (a & d) | (b & e) | (c & f) == 0
    }

    /// Returns whether each element of the owner's set is in a set of others, that of `other`.
    #[inline(always)]
    pub fn is_subset(&self, owner: Element, others: &ElementSets, other: Element) -> bool {
        let (a, b, c) = self.words_of(owner);
        let (d, e, f) = others.words_of(other);
        (a & !d) | (b & !e) | (c & !f) == 0
    }

    /// Returns the first element of the owner's set, if it has one.
    pub fn first(&self, owner: Element) -> Option<Element> {
        for number in 0..self.words {
            let mut word = self.word(owner, number);
            if let Some(element) = next_element(&mut word, number) {
                return Some(element);
            }
        }
        None
    }

    pub fn count(&self, owner: Element) -> u32 {
        self.count_below(owner, Element::new(MAX_ELEMENTS))
    }

    /// Returns the number of elements of the owner's set that have a smaller number than this one, which may be 192 too: then all are counted.
    pub fn count_below(&self, owner: Element, element: Element) -> u32 {
        let mut count: u32 = 0;
        for number in 0..self.words {
            let mut word = self.word(owner, number);
            if number > element.word() {
                word = 0;
            } else if number == element.word() {
                word &= element.bit().wrapping_sub(1);
            }
            count = count.wrapping_add(word.count_ones());
        }
        count
    }
}

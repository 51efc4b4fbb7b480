//! Sources by their numbers.

use order_sets::{Element, next_bit};

/// The number of a source: that of the operation that writes, or of the initial value of a location, which is above those of all operations.
#[derive(Clone, Copy, PartialEq, Eq)]
pub struct SourceId {
    number: u32,
}

impl SourceId {
    /// No source: tables have no entry for it.
    pub const NONE: SourceId = SourceId { number: u32::MAX };

    /// The source of this number.
    #[inline(always)]
    pub fn new(number: u32) -> SourceId {
        SourceId { number }
    }

    /// The source that this operation writes.
    #[inline(always)]
    pub fn of(writer: Element) -> SourceId {
        SourceId::new(writer.number())
    }

    /// Its number.
    #[inline(always)]
    pub fn number(self) -> u32 {
        self.number
    }

    /// The operation that writes it. For an initial value that is none of the order.
    #[inline(always)]
    pub fn writer(self) -> Element {
        Element::new(self.number)
    }

    /// The number of the word of a set in which its bit is.
    #[inline(always)]
    pub fn word(self) -> u32 {
        self.number >> 6
    }

    /// Its bit in that word.
    #[inline(always)]
    pub fn bit(self) -> u64 {
        1 << (self.number & 63)
    }
}

/// Removes the first source from a word of a set, if it has one, and returns it. The number is that of the word in its set, counted from 0.
#[inline(always)]
pub fn next_source(word: &mut u64, number: u32) -> Option<SourceId> {
    match next_bit(word, number) {
        Some(source) => Some(SourceId::new(source)),
        None => None,
    }
}

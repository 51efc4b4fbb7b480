//! Elements of an order by their numbers.

/// The number of an element of an order, counted from 0: of an operation of a trace that takes part in the order.
#[derive(Clone, Copy, PartialEq, Eq, PartialOrd, Ord)]
pub struct Element {
    number: u32,
}

impl Element {
    /// No element: tables have no entry for it.
    pub const NONE: Element = Element { number: u32::MAX };

    /// The element with the smallest number.
    pub const FIRST: Element = Element { number: 0 };

    /// The one behind it.
    pub const SECOND: Element = Element { number: 1 };

    /// The element of this number.
    #[inline(always)]
    pub fn new(number: u32) -> Element {
        Element { number }
    }

    /// Its number.
    #[inline(always)]
    pub fn number(self) -> u32 {
        self.number
    }

    /// The element behind this one.
    #[inline(always)]
    pub fn next(self) -> Element {
        Element::new(self.number.wrapping_add(1))
    }

    /// The element before this one.
    #[inline(always)]
    pub fn previous(self) -> Element {
        Element::new(self.number.wrapping_sub(1))
    }

    /// The number of the word of a set in which its bit is.
    #[inline(always)]
    pub fn word(self) -> u32 {
        self.number >> 6
    }

    /// Its bit in that word.
    #[inline(always)]
    pub fn bit(self) -> u64 {
        1 << (self.number & 63)
    }
}

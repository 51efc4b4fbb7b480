//! Readers by their numbers.

/// The number of a reader among those of a matching instance, counted from 0.
#[derive(Clone, Copy, PartialEq, Eq)]
pub struct ReaderId {
    number: u32,
}

impl ReaderId {
    /// No reader: tables have no entry for it.
    pub const NONE: ReaderId = ReaderId { number: u32::MAX };

    /// The reader of this number.
    #[inline(always)]
    pub fn new(number: u32) -> ReaderId {
        ReaderId { number }
    }

    /// Its number.
    #[inline(always)]
    pub fn number(self) -> u32 {
        self.number
    }

    /// The reader behind this one.
    #[inline(always)]
    pub fn next(self) -> ReaderId {
        ReaderId::new(self.number.wrapping_add(1))
    }
}

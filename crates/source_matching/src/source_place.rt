//! The sources of a Hall violator by their places.

/// The place of a source among those of a Hall violator, counted from 1, as the counts of its derivation are.
#[derive(Clone, Copy, PartialEq, Eq)]
pub struct SourcePlace {
    number: u32,
}

impl SourcePlace {
    /// The place before the first one, at which there is no source.
    pub const NONE: SourcePlace = SourcePlace { number: 0 };

    /// The place of this number.
    #[inline(always)]
    pub fn new(number: u32) -> SourcePlace {
        SourcePlace { number }
    }

    /// Its number.
    #[inline(always)]
    pub fn number(self) -> u32 {
        self.number
    }

    /// The place behind this one.
    #[inline(always)]
    pub fn next(self) -> SourcePlace {
        SourcePlace::new(self.number.wrapping_add(1))
    }

    /// The place before this one.
    #[inline(always)]
    pub fn previous(self) -> SourcePlace {
        SourcePlace::new(self.number.wrapping_sub(1))
    }
}

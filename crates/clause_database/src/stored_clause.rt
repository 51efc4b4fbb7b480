//! Stored clauses by their places.

/// Words of the header before the literals of a clause: the number of literals, the id, the LBD, and the conflict of its last use.
const HEADER: u32 = 4;

/// The place of a clause in the store: the offset of its header, behind which its literals stand.
#[derive(Clone, Copy, PartialEq, Eq)]
pub struct StoredClause {
    place: u32,
}

impl StoredClause {
    /// No clause.
    pub const NONE: StoredClause = StoredClause { place: 0 };

    /// The first clause of a store, if it has any.
    pub const FIRST: StoredClause = StoredClause { place: 1 };

    /// The clause at this place.
    #[inline(always)]
    pub fn new(place: u32) -> StoredClause {
        StoredClause { place }
    }

    /// Its place.
    #[inline(always)]
    pub fn place(self) -> u32 {
        self.place
    }

    /// The place of the word of this number in its header, counted from 0.
    #[inline(always)]
    pub fn header_place(self, number: u32) -> u32 {
        self.place.wrapping_add(number)
    }

    /// The place of its literal of this number, counted from 0.
    #[inline(always)]
    pub fn literal_place(self, number: u32) -> u32 {
        self.place.wrapping_add(HEADER).wrapping_add(number)
    }
}

//! Clauses by their numbers.

/// The number of a clause, as a derivation cites it: those of the formula come first, from 1 on.
#[derive(Clone, Copy, PartialEq, Eq, PartialOrd, Ord)]
pub struct ClauseId {
    number: u32,
}

impl ClauseId {
    /// No clause.
    pub const NONE: ClauseId = ClauseId { number: 0 };

    /// The clause of this number.
    #[inline(always)]
    pub fn new(number: u32) -> ClauseId {
        ClauseId { number }
    }

    /// Its number.
    #[inline(always)]
    pub fn number(self) -> u32 {
        self.number
    }

    /// The clause behind this one.
    #[inline(always)]
    pub fn next(self) -> ClauseId {
        self.ahead(1)
    }

    /// The clause before this one.
    #[inline(always)]
    pub fn previous(self) -> ClauseId {
        ClauseId::new(self.number.wrapping_sub(1))
    }

    /// The clause that lies this many clauses behind this one.
    #[inline(always)]
    pub fn ahead(self, clauses: u32) -> ClauseId {
        ClauseId::new(self.number.wrapping_add(clauses))
    }

    /// The number of clauses by which this one lies behind the first one.
    #[inline(always)]
    pub fn since(self, first: ClauseId) -> u32 {
        self.number.wrapping_sub(first.number)
    }

    /// The clause as a hint of a step.
    #[inline(always)]
    pub fn hint(self) -> i64 {
        i64::from(self.number)
    }
}

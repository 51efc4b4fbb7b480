//! Occurrence lists of the clauses of two and three literals.

use proof_log::ClauseId;
use proof_log::codes::{LiteralCode, NEVER};
use std::alloc::{AllocError, Global};
use total_tables::{at, piece, put};

/// A clause of two or three literals, with its number. A clause of two has `NEVER` as its third.
#[derive(Clone, Copy)]
pub struct SmallClause {
    pub first: LiteralCode,
    pub second: LiteralCode,
    pub third: LiteralCode,
    pub id: ClauseId,
}

/// The other literals of a clause, seen from one of them.
#[derive(Clone, Copy)]
pub struct Others {
    pub first: LiteralCode,
    pub second: LiteralCode,
}

/// The clauses of two and three literals. For each literal the other literals of its clauses stand one after the other, and the clauses'
/// numbers apart from them, since these are read only if something follows. A table of watches instead doubled the time of a propagation:
/// such a clause is visited without a load of its own.
#[derive(Drop)]
pub struct SmallClauses {
    /// For each literal the place where its part of the tables begins, and at the end where the last one ends.
    starts: Vec<u32>,
    others: Vec<Others>,
    ids: Vec<ClauseId>,
}

/// Counts one more clause of the literal, at the place two behind its code.
fn count_one(counts: &mut [u32], literal: LiteralCode) {
    let place = literal.code().wrapping_add(2);
    let count = at(counts, place, 0);
    put(counts, place, count.wrapping_add(1));
}

/// Returns for each literal where its part of the tables begins, two places further on: one for the end of the table, and one that is used
/// up while the parts are filled.
fn starts_of(
    alloc: Global,
    literals: u32,
    clauses: &[SmallClause],
) -> Result<Vec<u32>, AllocError> {
    let mut starts = vec![in alloc; 0; literals.wrapping_add(2) as usize]?;
    for clause in clauses {
        count_one(starts.as_mut_slice(), clause.first);
        count_one(starts.as_mut_slice(), clause.second);
        if clause.third != NEVER {
            count_one(starts.as_mut_slice(), clause.third);
        }
    }
    let mut sum: u32 = 0;
    for start in starts.iter_mut() {
        sum = sum.wrapping_add(*start);
        *start = sum;
    }
    Ok(starts)
}

impl SmallClauses {
    /// Makes the lists of these clauses, of literals whose codes are below this number.
    pub fn new(
        alloc: Global,
        literals: u32,
        clauses: &[SmallClause],
    ) -> Result<SmallClauses, AllocError> {
        let starts = starts_of(alloc, literals, clauses)?;
        let total = at(starts.as_slice(), literals.wrapping_add(1), 0) as usize;
        let nothing = Others {
            first: NEVER,
            second: NEVER,
        };
        let mut small = SmallClauses {
            starts,
            others: vec![in alloc; nothing; total]?,
            ids: vec![in alloc; ClauseId::NONE; total]?,
        };
        for clause in clauses {
            let SmallClause {
                first,
                second,
                third,
                id,
            } = *clause;
            small.enter(first, second, third, id);
            small.enter(second, first, third, id);
            if third != NEVER {
                small.enter(third, first, second, id);
            }
        }
        Ok(small)
    }

    /// Enters a clause under one of its literals.
    /// The entry behind the literal's is the next free place of its part: when all are entered, it is where the next part begins.
    fn enter(
        &mut self,
        literal: LiteralCode,
        first: LiteralCode,
        second: LiteralCode,
        id: ClauseId,
    ) {
        let start = literal.code().wrapping_add(1);
        let place = at(self.starts.as_slice(), start, 0);
        put(self.starts.as_mut_slice(), start, place.wrapping_add(1));
        put(self.others.as_mut_slice(), place, Others { first, second });
        put(self.ids.as_mut_slice(), place, id);
    }

    /// Returns whether there is no clause. A search of a trace's formula mostly has none: what is not kept as sets of bits is true at level 0.
    #[inline(always)]
    pub fn is_empty(&self) -> bool {
        self.others.is_empty()
    }

    /// Returns the place where the part of this literal begins.
    #[inline(always)]
    pub fn start(&self, literal: LiteralCode) -> u32 {
        at(self.starts.as_slice(), literal.code(), 0)
    }

    /// Returns the place where the part of this literal ends, which is where the next one begins.
    #[inline(always)]
    fn end(&self, literal: LiteralCode) -> u32 {
        at(self.starts.as_slice(), literal.code().wrapping_add(1), 0)
    }

    /// Returns the other literals of the clauses with this literal.
    #[inline(always)]
    pub fn others(&self, literal: LiteralCode) -> &[Others] {
        piece(
            self.others.as_slice(),
            self.start(literal),
            self.end(literal),
        )
    }

    /// Returns the number of the clause whose other literals stand at this place.
    #[inline(always)]
    pub fn id(&self, place: u32) -> ClauseId {
        at(self.ids.as_slice(), place, ClauseId::NONE)
    }
}

//! Reasons of literals, in a few words each: every literal that becomes true writes one, and only those of a conflict are read.

use crate::stored_clause::StoredClause;
use order_sets::Element;
use proof_log::ClauseId;
use proof_log::codes::{LiteralCode, NEVER, Variable};
use total_tables::at;

/// Reason (antecedent) of an assigned literal. It is kept as it was found; its clause is built only when conflict analysis asks for it.
#[derive(Clone, Copy)]
pub enum Reason {
    Decision,
    /// A clause of at most three literals, of which these were false, and `NEVER` fills up. It is stored inline, so that analysis reads no clause
    /// memory. A unit clause has `NEVER` twice.
    Clause {
        id: ClauseId,
        first: LiteralCode,
        second: LiteralCode,
    },
    /// This clause of the store.
    Stored {
        clause: StoredClause,
    },
    /// Transitivity of the order, via this event: one element, from which the clause and its id are computed.
    Transitive {
        element: Element,
    },
    /// The clause of this reads-from variable for this writer.
    Choice {
        choice: Variable,
        writer: Element,
    },
}

/// A reason clause with its id, to be iterated over: in the arena, or inline with at most three literals. It is a value and no slice, since
/// a borrowed clause would lend the store while analysis changes marks and activities. Some have the literal that they imply, and some only
/// the false ones: who reads them has marked its variable before, and passes over it.
#[derive(Clone, Copy)]
pub struct ReasonClause {
    pub id: ClauseId,
    /// Number of its literals.
    pub count: u32,
    /// The clause in the store, or none if its literals are inline.
    pub stored: StoredClause,
    first: LiteralCode,
    second: LiteralCode,
    third: LiteralCode,
}

impl ReasonClause {
    /// Returns the clause of these literals, of which the last ones may be missing.
    pub fn of_literals(
        id: ClauseId,
        first: LiteralCode,
        second: LiteralCode,
        third: LiteralCode,
    ) -> ReasonClause {
        let count = if first == NEVER {
            0
        } else if second == NEVER {
            1
        } else if third == NEVER {
            2
        } else {
            3
        };
        ReasonClause {
            id,
            count,
            stored: StoredClause::NONE,
            first,
            second,
            third,
        }
    }

    /// Returns a clause without number and literals, where there is none.
    pub fn none() -> ReasonClause {
        ReasonClause::of_literals(ClauseId::NONE, NEVER, NEVER, NEVER)
    }

    /// Returns this clause of the store, with its id and the number of its literals.
    pub fn of_stored(stored: StoredClause, id: ClauseId, count: u32) -> ReasonClause {
        ReasonClause {
            id,
            count,
            stored,
            first: NEVER,
            second: NEVER,
            third: NEVER,
        }
    }

    /// Returns its literal of this number, counted from 0. `store` has the words of the arena.
    #[inline(always)]
    pub fn literal(&self, store: &[u32], number: u32) -> LiteralCode {
        if self.stored != StoredClause::NONE {
            let word = at(store, self.stored.literal_place(number), NEVER.code());
            return LiteralCode::new(word);
        }
        match number {
            0 => self.first,
            1 => self.second,
            _ => self.third,
        }
    }
}

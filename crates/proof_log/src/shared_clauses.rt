//! Clauses that a search hands to others.

use crate::codes::LiteralCode;
use formula_numbers::ClauseId;
use std::alloc::{AllocError, Global};
use total_tables::{at, piece, size};

/// Number and LBD of a clause, and where its literals end: they begin where those of the clause before it end.
#[derive(Clone, Copy)]
struct Head {
    id: ClauseId,
    lbd: u32,
    end: u32,
}

/// A clause with its number, and the number of levels of its literals when it was learned (LBD).
#[derive(Clone, Copy)]
pub struct SharedClause<'a> {
    /// The number of the clause.
    pub id: ClauseId,
    /// How many different levels its literals had.
    pub lbd: u32,
    /// Its literals, by their codes.
    pub literals: &'a [LiteralCode],
}

/// Clauses that were learned, in their order.
pub struct SharedClauses {
    literals: Vec<LiteralCode>,
    heads: Vec<Head>,
}

/// Drops both tables in one call.
impl Drop for SharedClauses {
    fn drop(self) {
        let SharedClauses {
            literals: _literals,
            heads: _heads,
        } = self;
    }
}

impl SharedClauses {
    /// Starts without clauses.
    pub fn new(alloc: Global) -> SharedClauses {
        SharedClauses {
            literals: Vec::new(alloc),
            heads: Vec::new(alloc),
        }
    }

    /// Adds a clause.
    pub fn add(
        &mut self,
        literals: &[LiteralCode],
        id: ClauseId,
        lbd: u32,
    ) -> Result<(), AllocError> {
        self.literals.extend_from_slice(literals)?;
        let end = size(self.literals.as_slice());
        self.heads.push(Head { id, lbd, end })?;
        Ok(())
    }

    /// Returns the number of clauses.
    pub fn count(&self) -> u32 {
        size(self.heads.as_slice())
    }

    /// Returns the head of the clause at this place.
    fn head(&self, place: u32) -> Head {
        let nothing = Head {
            id: ClauseId::NONE,
            lbd: 0,
            end: 0,
        };
        at(self.heads.as_slice(), place, nothing)
    }

    /// Returns the clause at this place, counted from 0.
    pub fn clause(&self, place: u32) -> SharedClause<'_> {
        let Head { id, lbd, end } = self.head(place);
        let from = if place == 0 {
            0
        } else {
            self.head(place.wrapping_sub(1)).end
        };
        SharedClause {
            id,
            lbd,
            literals: piece(self.literals.as_slice(), from, end),
        }
    }
}

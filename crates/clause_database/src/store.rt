//! The clause arena: longer clauses of the formula, and learned clauses. They share one vector, since a pointer to each would cost
//! propagation one more load.

use crate::reason::ReasonClause;
use crate::stored_clause::StoredClause;
use proof_log::ClauseId;
use proof_log::codes::LiteralCode;
use std::alloc::{AllocError, Global};
use total_tables::{at, piece, put, size};

/// LBD of a clause of the formula, which is never dropped.
pub const GIVEN: u32 = 0;

/// LBD that marks a clause to be dropped.
pub const DROPPED: u32 = 0xffff_ffff;

/// Clauses one after the other in one vector. A clause is named by its place there.
#[derive(Drop)]
pub struct Store {
    /// The first word is none of a clause, so that the place 0 can stand for none.
    words: Vec<u32>,
}

impl Store {
    pub fn new(alloc: Global) -> Result<Store, AllocError> {
        Ok(Store {
            words: vec![in alloc; 0; 1]?,
        })
    }

    /// Returns a copy with the same clauses: each search of a cube adds and drops its own.
    pub fn try_clone(&self, alloc: Global) -> Result<Store, AllocError> {
        let mut words = Vec::with_capacity(alloc, self.words.len())?;
        words.extend_from_slice(self.words.as_slice())?;
        Ok(Store { words })
    }

    /// Returns the words of all clauses. Literals are read in them by their places: by `ReasonClause::literal`, and by propagation.
    #[inline(always)]
    pub fn words(&self) -> &[u32] {
        self.words.as_slice()
    }

    /// Returns the words of all clauses, to be changed.
    #[inline(always)]
    pub fn words_mut(&mut self) -> &mut [u32] {
        self.words.as_mut_slice()
    }

    /// Returns the place behind all clauses, at which the next one is added.
    pub fn end(&self) -> StoredClause {
        StoredClause::new(size(self.words.as_slice()))
    }

    /// Adds the clause behind the others, so its place is what `end` was. `used` is the conflict that counts as its last use.
    pub fn add(
        &mut self,
        literals: &[LiteralCode],
        id: ClauseId,
        lbd: u32,
        used: u32,
    ) -> Result<(), AllocError> {
        let count = size(literals);
        let number = id.number();
        self.words.extend_from_slice(&[count, number, lbd, used])?;
        for literal in literals {
            self.words.push(literal.code())?;
        }
        Ok(())
    }

    /// Returns the literals of the clause, to be iterated over.
    #[inline(always)]
    pub fn reason(&self, clause: StoredClause) -> ReasonClause {
        let id = at(self.words.as_slice(), clause.header_place(1), 0);
        ReasonClause::of_stored(clause, ClauseId::new(id), self.count(clause))
    }

    /// Returns the number of literals of the clause.
    pub fn count(&self, clause: StoredClause) -> u32 {
        at(self.words.as_slice(), clause.header_place(0), 0)
    }

    /// Returns its literal of this number, counted from 0.
    pub fn literal(&self, clause: StoredClause, number: u32) -> LiteralCode {
        LiteralCode::new(at(self.words.as_slice(), clause.literal_place(number), 0))
    }

    pub fn lbd(&self, clause: StoredClause) -> u32 {
        at(self.words.as_slice(), clause.header_place(2), 0)
    }

    /// Returns the conflict in which the clause was used last.
    pub fn used(&self, clause: StoredClause) -> u32 {
        at(self.words.as_slice(), clause.header_place(3), 0)
    }

    pub fn set_lbd(&mut self, clause: StoredClause, lbd: u32) {
        put(self.words.as_mut_slice(), clause.header_place(2), lbd);
    }

    /// Records that the clause was used in this conflict.
    pub fn set_used(&mut self, clause: StoredClause, conflict: u32) {
        put(self.words.as_mut_slice(), clause.header_place(3), conflict);
    }

    /// Returns the next clause: it begins where the literals of this one end.
    pub fn next_clause(&self, clause: StoredClause) -> StoredClause {
        StoredClause::new(clause.literal_place(self.count(clause)))
    }

    /// Returns a compacted arena without the clauses that are marked as dropped. In the old one the id of each clause becomes its
    /// forwarding place, or none, so that watches and reasons are redirected without a table of their own.
    pub fn compacted(&mut self, alloc: Global) -> Result<Store, AllocError> {
        let mut compact = Store::new(alloc)?;
        let mut clause = StoredClause::FIRST;
        for _ in 0..self.words.len() {
            let behind = self.next_clause(clause);
            // A count that makes the place wrap would lead back.
            if clause.place() >= self.end().place() || behind.place() <= clause.place() {
                break;
            }
            let mut moved = StoredClause::NONE;
            if self.lbd(clause) != DROPPED {
                moved = compact.end();
                let words = piece(self.words.as_slice(), clause.place(), behind.place());
                compact.words.extend_from_slice(words)?;
            }
            let id_place = clause.header_place(1);
            put(self.words.as_mut_slice(), id_place, moved.place());
            clause = behind;
        }
        Ok(compact)
    }

    /// Returns the clause as it stands in the compacted store, or none.
    pub fn moved(&self, clause: StoredClause) -> StoredClause {
        StoredClause::new(at(self.words.as_slice(), clause.header_place(1), 0))
    }
}

//! What a search gives to others of the same formula, and what it takes in of theirs (Hamadi, Jabbour and Sais, "ManySAT: a parallel SAT
//! solver", 2009).

use crate::reductions::Reductions;
use crate::restart::{ROUNDS_UNIT, Restarts};
use crate::search::Search;
use assignment_trail::{OPEN, TRUE};
use clause_database::Reason;
use lrat_check::derivation::Derivation;
use proof_log::codes::{LiteralCode, NEVER};
use proof_log::{ClauseId, LogChain, SharedClause, SharedClauses, SharingLearner};
use std::alloc::AllocError;
use total_tables::{at, put, size};

/// Clauses with more levels than this are not given. That is next to none: of three traces without a schedule four searches took 116 thousand conflicts, and
/// 151 thousand where 8 levels and 40 literals were the most.
const MAX_SHARED_LBD: u32 = 30;

/// Longer ones are not given either.
const MAX_SHARED_LITERALS: usize = 200;

impl<'a> Search<'a> {
    /// From now on this search keeps what it learns, but for very long clauses, to give it to others.
    pub(crate) fn begin_to_share(&mut self) {
        if self.shared.is_none() {
            self.shared = Some(SharedClauses::new(self.alloc));
        }
    }

    /// Keeps the last learned clause, which has this id and this LBD, unless it is very long or this search shares nothing.
    pub(crate) fn share(&mut self, id: ClauseId, lbd: u32) -> Result<(), AllocError> {
        if lbd > MAX_SHARED_LBD || self.learned.len() > MAX_SHARED_LITERALS {
            return Ok(());
        }
        match &mut self.shared {
            Some(shared) => shared.add(self.learned.as_slice(), id, lbd),
            None => Ok(()),
        }
    }

    /// Puts the literals of the clause into `learned`, those that are open first. Returns how many are open, or none if one is true, since such a
    /// clause says nothing more.
    fn open_first(&mut self, literals: &[LiteralCode]) -> Result<Option<u32>, AllocError> {
        self.learned.clear();
        self.learned.extend_from_slice(literals)?;
        let mut open: u32 = 0;
        for place in 0..size(literals) {
            let literal = at(literals, place, NEVER);
            let value = self.trail.value(literal);
            if value == TRUE {
                return Ok(None);
            }
            if value == OPEN {
                let other = at(self.learned.as_slice(), open, NEVER);
                put(self.learned.as_mut_slice(), open, literal);
                put(self.learned.as_mut_slice(), place, other);
                open = open.wrapping_add(1);
            }
        }
        Ok(Some(open))
    }

    /// Adds a clause of another search, at level 0. One literal that is open becomes true, and without any the clause is the conflict.
    fn take_clause(&mut self, clause: SharedClause<'_>) -> Result<(), AllocError> {
        let Some(open) = self.open_first(clause.literals)? else {
            return Ok(());
        };
        let stored = self.store.end();
        self.store.add(
            self.learned.as_slice(),
            clause.id,
            clause.lbd,
            self.conflicts,
        )?;
        // A clause that is false, or makes a literal true at level 0, need not be watched. It is not among `clauses` either, so it is never dropped.
        match open {
            0 => self.conflict = Some(self.store.reason(stored)),
            1 => self.trail.assign(
                at(self.learned.as_slice(), 0, NEVER),
                Reason::Stored { clause: stored },
            ),
            _ => {
                self.watches.attach(&self.store, stored)?;
                self.clauses.push(stored)?;
            }
        }
        Ok(())
    }
}

impl<'a> SharingLearner for Search<'a> {
    fn begin_rounds(&mut self) {
        self.restarts = Restarts::new(ROUNDS_UNIT);
        // Along a schedule nothing is dropped before there are as many clauses as states.
        if self.schedule.is_none() {
            self.reductions = Reductions::in_rounds();
        }
    }

    fn give(&mut self) -> SharedClauses {
        let nothing = SharedClauses::new(self.alloc);
        match self.shared.replace(nothing) {
            Some(shared) => shared,
            None => SharedClauses::new(self.alloc),
        }
    }

    fn take(&mut self, clauses: &SharedClauses) -> Result<(), AllocError> {
        for place in 0..clauses.count() {
            if !self.resume_at_root()? {
                return Ok(());
            }
            self.take_clause(clauses.clause(place))?;
        }
        Ok(())
    }

    fn is_refutable_at_root(&mut self) -> Result<bool, AllocError> {
        self.lacks_sources()
    }

    fn refute_by_chain(
        &mut self,
        chain: &LogChain,
        budget: u64,
    ) -> Result<Option<Derivation>, AllocError> {
        self.refute_by_counting(chain, budget)
    }
}

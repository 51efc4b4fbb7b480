//! Unit clauses that are cited.

use proof_log::ClauseId;
use proof_log::codes::{LiteralCode, NEVER};
use std::alloc::{AllocError, Global};
use total_tables::{at, put, size};

/// For each literal its unit clause, or none.
#[derive(Drop)]
pub struct UnitTable {
    /// By the code of the literal.
    clauses: Vec<ClauseId>,
}

impl UnitTable {
    /// Makes the table of the unit clauses of these numbers, with these literals.
    pub fn of(
        alloc: Global,
        literals: &[LiteralCode],
        clauses: &[ClauseId],
    ) -> Result<UnitTable, AllocError> {
        let mut largest: u32 = 0;
        for literal in literals {
            largest = largest.max(literal.code());
        }
        let mut units = UnitTable {
            clauses: vec![in alloc; ClauseId::NONE; (largest as usize).saturating_add(1)]?,
        };
        for place in 0..size(literals) {
            let literal = at(literals, place, NEVER);
            let clause = at(clauses, place, ClauseId::NONE);
            put(units.clauses.as_mut_slice(), literal.code(), clause);
        }
        Ok(units)
    }

    /// Returns the hint that makes the literal true. For a literal without a unit clause that is 0, the number of no clause.
    pub fn hint(&self, literal: LiteralCode) -> i64 {
        at(self.clauses.as_slice(), literal.code(), ClauseId::NONE).hint()
    }
}

//! A solver that counts sources, and does not search.

use crate::prepared_formula::PreparedFormula;
use crate::solving::begin;
use crate::source_count::has_updates;
use dimacs::Lit;
use proof_log::{Answer, CubeSolver};
use std::alloc::{AllocError, Global};

/// Answers a cube of a prepared formula by a derivation that too many readers want too few sources, if there is one of at most `budget` steps,
/// and else leaves it open. So a count can have a budget of its own: 40 acquires of a lock want more than 100,000 steps, whatever was set for
/// conflicts.
#[derive(Clone, Copy)]
pub struct SourceCounter<'p, 'a> {
    prepared: &'p PreparedFormula<'a>,
}

impl<'p, 'a> SourceCounter<'p, 'a> {
    /// Counts for this formula.
    pub fn of(prepared: &'p PreparedFormula<'a>) -> SourceCounter<'p, 'a> {
        SourceCounter { prepared }
    }
}

impl CubeSolver for SourceCounter<'_, '_> {
    fn solve(&self, alloc: Global, cube: &[Lit], budget: u64) -> Result<Answer, AllocError> {
        if !has_updates(self.prepared.encoding) {
            return Ok(Answer::Open);
        }
        let mut search = begin(alloc, self.prepared, cube)?;
        let first = self.prepared.id_in_cube(cube.len());
        Ok(search.count_sources(first, budget)?.unwrap_or(Answer::Open))
    }

    fn take_conflicts(&self) -> u64 {
        0
    }
}

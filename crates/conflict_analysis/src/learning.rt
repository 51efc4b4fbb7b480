//! What walks over one log have learned.

use crate::analysis::Analysis;
use crate::learned_clauses::LearnedClauses;
use numbered_log::OperationId;
use order_propagation::Propagation;
use std::alloc::{AllocError, Global};

/// The clauses that walks over one order have learned, and what each rests on. A pair that a clause has left names it by its number, so walks
/// that stand on the same pairs share one list.
#[derive(Drop)]
pub struct Learning {
    pub clauses: LearnedClauses,
    pub analysis: Analysis,
}

impl Learning {
    /// Nothing learned, of a log of this number of operations.
    pub fn new(alloc: Global, operations: u32) -> Result<Learning, AllocError> {
        Ok(Learning {
            clauses: LearnedClauses::new(alloc, operations)?,
            analysis: Analysis::new(alloc, operations)?,
        })
    }

    /// The operations that the conflict of propagation rests on, by rising numbers. None if not all grounds of clauses were kept, or if the
    /// budget is spent before.
    pub fn core_of_conflict(
        &mut self,
        alloc: Global,
        order: &mut Propagation<'_>,
    ) -> Result<Option<Vec<OperationId>>, AllocError> {
        self.analysis.begin_core();
        self.analysis.ask_conflict(order, &self.clauses)?;
        let core = self.analysis.find_core(alloc, order, &self.clauses)?;
        let steps = self.analysis.take_steps();
        order.spend(steps);
        Ok(core)
    }
}

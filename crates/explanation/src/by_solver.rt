//! A search for a derivation, with the solver.

use clause_blocks::trace_clauses::TraceClauses;
use derivation_notes::Deriver;
use lrat_check::derivation::Derivation;
use solver::{Answer, PreparedFormula, solve_cube};
use std::alloc::{AllocError, Global};
use trace_decision::guide::guide_to_order;

/// The search of the whole as one cube.
#[derive(Clone, Copy)]
pub(crate) struct BySolver {
    /// The conflicts after which it is given up.
    pub budget: u64,
}

impl Deriver for BySolver {
    fn derivation_of(
        &self,
        alloc: Global,
        clauses: &TraceClauses,
    ) -> Result<Option<Derivation>, AllocError> {
        // The solver is given nothing of reads, so that it proves by propagation and not by counting.
        let prepared = PreparedFormula::of(alloc, clauses, guide_to_order(clauses))?;
        match solve_cube(alloc, &prepared, &[], self.budget)? {
            Answer::Refuted(derivation) => Ok(Some(derivation)),
            Answer::Model(_model) => Ok(None),
            Answer::Open => Ok(None),
        }
    }
}

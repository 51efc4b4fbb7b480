//! Derivations that are written from what is said of a formula, tried by the checker.

use crate::counting::one_location::Spelling;
use counting_proofs::{Free, KnownOrder, MatchingInstance, Premises, SourceContradiction, refute};
use lrat_check::checker::check;
use proof_log::ClauseId;
use proof_log::codes::Variable;
use std::alloc::{AllocError, Global};

/// What is said of the readers of a formula and of its order.
#[derive(Clone, Copy)]
pub struct MatchingProblem<'a> {
    pub reads: &'a MatchingInstance,
    pub known: KnownOrder<'a>,
}

/// Returns whether a derivation of the contradiction is written from what is said, and the checker accepts it.
pub fn accepted(
    alloc: Global,
    spelling: &Spelling,
    said: MatchingProblem<'_>,
    contradiction: &SourceContradiction,
    budget: u64,
) -> Result<bool, AllocError> {
    let free = Free {
        clause: ClauseId::new(spelling.count()).next(),
        variable: Variable::new(spelling.variables()).next(),
    };
    let clauses = spelling.units(contradiction.rests_on())?;
    let given = Premises {
        steps: Vec::new(alloc),
        clauses: clauses.as_slice(),
        free,
    };
    let MatchingProblem { reads, known } = said;
    let written = refute(alloc, given, reads, contradiction, known, budget)?;
    let Some(derivation) = written else {
        return Ok(false);
    };
    let formula = spelling.formula()?;
    Ok(check(alloc, &formula, &[], &derivation).is_ok())
}

//! A search within its budget of conflicts.

ghost use Rattle.std.specs.Prelude.{◌≤◌, ◌+◌, OnOk, IfOk};
ghost use Rattle.proof_log.specs.Outcomes.{TakesConflict};

use crate::learner::Learner;
use crate::proof_log::ProofLog;
use std::alloc::AllocError;

/// The way in which a search ended.
#[derive(Clone, Copy, PartialEq, Eq)]
pub enum SearchEnd {
    /// All decision variables have a value, and no clause is false.
    Satisfied,
    /// The empty clause was learned.
    Refuted,
    /// There was one conflict more than the budget has. It is not analysed, and no clause is learned from it.
    Open,
}

/// Searches until the clauses are satisfied or refuted, or there is a conflict more than the budget has. Each conflict that is analysed
/// makes one addition, so the budget bounds the derivation too. It is asked at a conflict only: a model that takes no further one is found.
pub fn search_on<S: Learner>(
    search: &mut S,
    log: &mut ProofLog,
    budget: u64,
) -> Result<SearchEnd, AllocError>
    ensures within { OnOk result (log.new ≤ log.old + budget) }
    ensures refuted { IfOk result (λ outcome. TakesConflict budget outcome) }
{
    let mut left = budget;
    loop {
        if !search.meets_conflict()? {
            return Ok(SearchEnd::Satisfied);
        }
        if left == 0 {
            return Ok(SearchEnd::Open);
        }
        left -= 1;
        search.learn()?;
        let id = log.next_id();
        log.add(search.learned(), search.hints())?;
        if search.learned().is_empty() {
            return Ok(SearchEnd::Refuted);
        }
        search.go_on(id)?;
    }
}

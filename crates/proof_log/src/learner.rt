//! The interface of a clause-learning search to its budget.

use crate::codes::LiteralCode;
use crate::log_chain::LogChain;
use crate::proof_log::ProofLog;
use crate::shared_clauses::SharedClauses;
use dimacs::Assignment;
use formula_numbers::ClauseId;
use lrat_check::derivation::Derivation;
use std::alloc::AllocError;

/// A clause-learning search: it learns a clause from each conflict, where a conflict is a clause all of whose literals have become false.
/// Literals are given by their codes. Nothing is promised of what it learns. It is a trait so that the budget is proved once, for any search,
/// and not anew whenever a search changes.
pub trait Learner {
    /// Decides and propagates until there is a conflict or nothing is left to decide. Returns whether there is a conflict, which is kept
    /// until it is analysed.
    fn meets_conflict(&mut self) -> Result<bool, AllocError>;

    /// Analyses the conflict and learns a clause.
    fn learn(&mut self) -> Result<(), AllocError>;

    /// Returns the literals of the last learned clause, by their codes.
    fn learned(&self) -> &[LiteralCode];

    /// Returns the LRAT hints of the last learned clause, as ids of clauses.
    fn hints(&self) -> &[ClauseId];

    /// Backjumps and asserts the last learned clause, which has this id.
    fn go_on(&mut self, id: ClauseId) -> Result<(), AllocError>;

    /// Backtracks to level 0, and looks there for a derivation of at most `budget` steps that takes no further conflict. The log has what
    /// was learned.
    fn refute_at_root(
        &mut self,
        log: &ProofLog,
        budget: u64,
    ) -> Result<Option<Derivation>, AllocError>;

    /// Returns the values of all variables, if there is no conflict and nothing is left to decide.
    fn model(&self) -> Result<Assignment, AllocError>;
}

/// A search that hands what it learns to others of the same formula, and takes in what they have learned. Nothing is promised of either.
pub trait SharingLearner: Learner {
    /// From now on the search goes on in rounds, between which `give` and `take` are called.
    fn begin_rounds(&mut self);

    /// Returns the clauses that were learned since the last call, but for those that it gives to none.
    fn give(&mut self) -> SharedClauses;

    /// Backtracks to level 0, and adds these clauses, which follow from the formula. They have numbers of their own.
    fn take(&mut self, clauses: &SharedClauses) -> Result<(), AllocError>;

    /// Answers whether `refute_by_chain` may find a derivation at level 0. If so, the search stands there.
    fn is_refutable_at_root(&mut self) -> Result<bool, AllocError>;

    /// Looks at level 0 for a derivation of at most `budget` steps that takes no further conflict. The chain has what all have learned. It is asked only after
    /// `is_refutable_at_root` has said yes.
    fn refute_by_chain(
        &mut self,
        chain: &LogChain,
        budget: u64,
    ) -> Result<Option<Derivation>, AllocError>;
}

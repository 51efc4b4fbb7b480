//! What was learned, for those who add further steps.

use formula_numbers::ClauseId;
use lrat_check::derivation::Step;
use std::alloc::{AllocError, Global};

/// Clauses that one search or several have learned, of which further steps cite some. Nothing is promised of them: a derivation is checked.
pub trait LoggedAdditions {
    /// Returns a number that no addition has, and none after it.
    fn free_id(&self) -> ClauseId;

    /// Returns those additions as steps that are among these clauses or are what these rest on.
    fn steps_to(&self, alloc: Global, clauses: &[ClauseId]) -> Result<Vec<Step>, AllocError>;
}

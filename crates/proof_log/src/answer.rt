//! The answer of a search.

use dimacs::Assignment;
use lrat_check::derivation::Derivation;

/// Answer of a search. Untrusted: the caller evaluates a model and checks a derivation.
#[derive(Drop)]
pub enum Answer {
    /// A model: it makes all clauses and all literals of the cube true.
    Model(Assignment),
    /// A derivation that there is no model.
    Refuted(Derivation),
    /// Undecided. Mostly the budget is used up. It may also be left, if all that is known is a derivation that is longer than the budget, or a
    /// model of the formula that lies outside the cube.
    Open,
}

//! The interface of a solver to the search of the leaves of a tree.

ghost use Rattle.std.specs.Prelude.{IfOk};
ghost use Rattle.proof_log.specs.Answers.{IsWithin};

use crate::answer::Answer;
use dimacs::Lit;
use std::alloc::{AllocError, Global};

/// A solver that knows its formula, and answers cubes of it. All workers share it. Nothing is promised of an answer but that it keeps to
/// the budget. It is a trait so that what is proved of the workers holds for any solver, one that lies too.
pub trait CubeSolver {
    /// Looks for a model of the formula that makes all literals of the cube true, or for a derivation that there is none. At most `budget`
    /// conflicts are analysed.
    fn solve(&self, alloc: Global, cube: &[Lit], budget: u64) -> Result<Answer, AllocError>
        ensures { IfOk result (λ answer. IsWithin budget answer) };

    /// Takes the number of conflicts of the searches that have ended since it was last taken. It is for reports, and nothing is promised of
    /// it.
    fn take_conflicts(&self) -> u64;
}

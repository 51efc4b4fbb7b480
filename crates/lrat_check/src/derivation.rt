//! Derivations: lists of steps that add clauses and drop them.

ghost use Rattle.std.specs.Prelude.{◌≡◌, IsTrue};
ghost use Rattle.lrat_check.specs.Derivation.{are_steps, is_step};

use crate::hints::Hints;
use crate::ids::Ids;
use dimacs::Clause;
use std::marker::Model;

/// A step of a derivation.
pub enum Step {
    /// Adds a clause under an id. The hints say which clauses justify it, in the order of their use. After the negative of
    /// an id stand those for the clause of that id, a candidate of a RAT check. Ids are from 1; the first literal is the pivot.
    Addition {
        id: u64,
        literals: Clause,
        hints: Hints,
    },
    /// Drops the clauses of these ids. The first number of the line says nothing to the checker, and is kept so that the step is written
    /// as it was read.
    Deletion {
        first: u64,
        ids: Ids,
    },
}

/// Drops the clause and hints, or the ids in one call. A derived `Drop` would drop each at every exit of a function that owns a step, which makes its proof longer.
impl Drop for Step {
    fn drop(self) {
        match self {
            Step::Addition {
                id: _,
                literals: _literals,
                hints: _hints,
            } => {}
            Step::Deletion {
                first: _,
                ids: _ids,
            } => {}
        }
    }
}

/// A list of steps.
pub struct Derivation {
    steps: Vec<Step>,
}

/// Drops the steps in one call. A derived `Drop` would drop each at every exit of a function that owns a derivation, which makes its proof longer.
impl Drop for Derivation {
    fn drop(self) {
        let Derivation { steps: _steps } = self;
    }
}

impl Model for Derivation {
    ghost use Rattle.std.specs.Prelude.{List, IsTrue};
    ghost use Rattle.lrat_check.specs.declared.derivation.Step.{Step};
    ghost use Rattle.lrat_check.specs.Derivation.{are_steps};

    ghost Value = { List Step };

    ghost view = { λ derivation. derivation.steps.items };

    ghost invariant = { λ derivation. IsTrue (are_steps derivation.steps.items) };
}

/// Hands its caller, in proofs alone, what clauses keep: of the literals that a step adds none is 0. Does nothing when run.
fn recall_step(step: &Step)
    ensures { IsTrue (is_step step.now) }
{
    if let Step::Addition { literals, .. } = step {
        let _literals = literals.as_slice();
    }
}

/// Hands its caller, in proofs alone, what clauses keep: of the literals that steps add none is 0. Does nothing when run.
fn recall_steps(steps: &[Step])
    ensures { IsTrue (are_steps steps.now) }
{
    for step in steps {
        recall_step(step);
    }
}

impl Derivation {
    /// The derivation of these steps.
    pub fn new(steps: Vec<Step>) -> Derivation
        ensures { result ≡ steps.items }
    {
        recall_steps(steps.as_slice());
        Derivation { steps }
    }

    /// Its steps, in order.
    pub fn steps(&self) -> &[Step]
        ensures steps { result.now ≡ self.now }
        ensures clauses { IsTrue (are_steps result.now) }
    {
        self.steps.as_slice()
    }
}

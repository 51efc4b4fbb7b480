//! The budget of derivations that no search has made.

ghost use Rattle.std.specs.Prelude.{◌≤◌, length, IfSome};
ghost use Rattle.proof_log.specs.Answers.{IsWithin};

use crate::answer::Answer;
use lrat_check::derivation::Derivation;

/// Returns the derivation, if it has at most `budget` steps.
pub fn within(derivation: Derivation, budget: u64) -> Option<Derivation>
    ensures { IfSome result (λ kept. length kept ≤ budget) }
{
    let steps = derivation.steps().len() as u64;
    if steps > budget {
        return None;
    }
    Some(derivation)
}

/// Returns the derivation as an answer, if the budget has a conflict at all and the derivation at most `budget` steps. A budget of 0 asks
/// for a search that decides nothing, so it gets none, however short.
pub fn refuted_within(derivation: Derivation, budget: u64) -> Option<Answer>
    ensures { IfSome result (λ answer. IsWithin budget answer) }
{
    if budget == 0 {
        return None;
    }
    let kept = within(derivation, budget)?;
    Some(Answer::Refuted(kept))
}

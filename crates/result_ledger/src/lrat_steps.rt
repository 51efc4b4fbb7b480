//! Whether a derivation can be written as LRAT.
ghost use Rattle.std.specs.Prelude.{◌≡◌};
ghost use Rattle.std.specs.List.{list_all};
ghost use Rattle.lrat_check.specs.LratText.{is_id, is_lrat_step};

use lrat_check::derivation::{Derivation, Step};
use lrat_check::lrat_number::{MAX_ID, is_id};

/// Returns whether all of the numbers are ids.
fn are_ids(numbers: &[u64]) -> bool
    ensures { result ≡ list_all is_id numbers.now }
{
    numbers.iter().all(|number| is_id(*number))
}

/// Returns whether the step can be written.
fn is_lrat_step(step: &Step) -> bool
    ensures { result ≡ is_lrat_step step.now }
{
    match step {
        Step::Addition {
            id,
            literals,
            hints,
        } => {
            // What is added is a clause of literals, trusted or not.
            let _literals = literals.as_slice();
            is_id(*id) && hints.are_ids()
        }
        // The first number of a deletion says nothing, so it may be 0, which is no id.
        Step::Deletion { first, ids } => *first <= MAX_ID && are_ids(ids.as_slice()),
    }
}

/// Returns whether each of the steps can be written.
fn are_lrat_steps(steps: &[Step]) -> bool
    ensures { result ≡ list_all is_lrat_step steps.now }
{
    steps.iter().all(|step| is_lrat_step(step))
}

/// Returns whether each step of the derivation can be written.
pub(crate) fn can_be_written(derivation: &Derivation) -> bool
    ensures { result ≡ list_all is_lrat_step derivation.now }
{
    are_lrat_steps(derivation.steps())
}

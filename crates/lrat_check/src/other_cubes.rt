//! Whether a derivation that is accepted for one cube serves another, without a second check.

ghost use Rattle.std.specs.Prelude.{◌≡◌, ◌↔◌, ◌&&◌, length, IsTrue};
ghost use Rattle.std.specs.List.{list_all};
ghost use Rattle.lrat_check.specs.OtherCubes.{is_outside, names_outside, opposes_pivot, opposes_no_more, AreServed};

use crate::derivation::{Derivation, Step};
use crate::rat::holds;
use dimacs::Lit;

/// Returns whether the id is not among those of a cube of this length, after this many clauses: the cube's literals have the ids from
/// `clauses + 1` to `clauses + cube`.
pub fn is_outside(clauses: usize, cube: usize, id: u64) -> bool
    ensures { result ≡ is_outside clauses cube id }
{
    let clauses = clauses as u64;
    id <= clauses || id - clauses > cube as u64
}

/// Returns whether none of the ids is among those of a cube of this length, after this many clauses.
fn are_outside(clauses: usize, cube: usize, ids: &[u64]) -> bool
    ensures { result ≡ list_all (is_outside clauses cube) ids.now }
{
    ids.iter().all(|id| is_outside(clauses, cube, *id))
}

/// Returns whether each id that the step names is none of the cube's.
fn names_outside(clauses: usize, cube: usize, step: &Step) -> bool
    ensures { result ≡ names_outside clauses cube step.now }
{
    match step {
        Step::Addition { id, hints, .. } => {
            is_outside(clauses, cube, *id) && hints.are_outside(clauses, cube)
        }
        Step::Deletion { ids, .. } => are_outside(clauses, cube, ids.as_slice()),
    }
}

/// Returns whether the cube has the negation of the first of the literals.
fn opposes_pivot(cube: &[Lit], literals: &[Lit]) -> bool
    ensures { result ≡ opposes_pivot cube.now literals.now }
{
    match literals.first() {
        Some(pivot) => holds(cube, pivot.negated()),
        None => false,
    }
}

/// Returns whether the second cube opposes the pivot of what the step adds only where the first does. A cube's literal that is the negation of
/// the pivot is one more clause that needs a RAT group, and a step that names none of the cube's ids has no group for it.
fn opposes_no_more(first: &[Lit], second: &[Lit], step: &Step) -> bool
    ensures { result ≡ opposes_no_more first.now second.now step.now }
{
    match step {
        Step::Addition { literals, .. } => {
            let literals = literals.as_slice();
            opposes_pivot(first, literals) || !opposes_pivot(second, literals)
        }
        Step::Deletion { .. } => true,
    }
}

/// Returns whether the step does not need the first cube in place of the second, which is as long.
fn is_served(clauses: usize, first: &[Lit], second: &[Lit], step: &Step) -> bool
    ensures { result ≡ (names_outside clauses (length first.now) step.now && opposes_no_more first.now second.now step.now) }
{
    names_outside(clauses, first.len(), step) && opposes_no_more(first, second, step)
}

/// Returns whether none of the steps needs the first cube in place of the second, which is as long.
fn serve_all(clauses: usize, first: &[Lit], second: &[Lit], steps: &[Step]) -> bool
    ensures { result ≡ list_all (λ step. names_outside clauses (length first.now) step && opposes_no_more first.now second.now step) steps.now }
{
    steps
        .iter()
        .all(|step| is_served(clauses, first, second, step))
}

/// Returns whether the derivation, which begins after this many clauses and the first cube's literals, does not need that cube in place of
/// the second. If it does not, and is accepted for the first, it is accepted for the second (`accepted_for_other_cubes`).
pub fn are_served(clauses: usize, first: &[Lit], second: &[Lit], derivation: &Derivation) -> bool
    ensures { IsTrue result ↔ AreServed clauses first.now second.now derivation.now }
{
    if second.len() != first.len() {
        return false;
    }
    serve_all(clauses, first, second, derivation.steps())
}

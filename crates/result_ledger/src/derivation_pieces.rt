//! A long derivation is checked by several workers side by side, each of which has a piece of it.
ghost use Rattle.std.specs.Prelude.{ℕ, ◌<◌, length, slice_index_or, IsTrue, IfOk, IfSome};
ghost use Rattle.lrat_check.specs.Checked.{IsAccepted};
ghost use Rattle.result_ledger.specs.DerivationPieces.{IsPassed};
ghost use Rattle.result_ledger.specs.Verdict.{IsProofAnswer};

use crate::confirming::said_derivation;
use crate::lrat_steps::can_be_written;
use crate::slot::Slot;
use dimacs::{ClauseList, Lit};
use lrat_check::derivation::{Derivation, Step};
use lrat_check::pieces::check_piece;
use std::alloc::{AllocError, Global};
use std::thread::{Threads, map_indices};

/// A derivation whose check takes this long or longer, by the measure of `cost_of`, is checked in pieces. One worker checks a shorter one in a tenth of a
/// second, of which several would save little: if a step is RAT, each piece first counts the literals of the formula.
const LONG_CHECK: usize = 100_000;

/// A piece of a derivation. Those of its steps that were looked at are right.
#[derive(Clone, Copy)]
pub(crate) struct PassedPiece {
    /// The place of its first step.
    from: usize,
    /// The place behind its last step.
    until: usize,
    /// Whether a step of it adds the empty clause. Then it is the last that was looked at.
    ended: bool,
}

/// A measure of the time that the check of a step takes: one for the step, and one for each hint, for which a clause is read. The hints go through the list `room`.
fn cost_of(step: &Step, room: &mut Vec<i64>) -> Result<usize, AllocError> {
    match step {
        Step::Deletion { .. } => Ok(1),
        Step::Addition { hints, .. } => {
            hints.copy_to(room)?;
            Ok(room.len().saturating_add(1))
        }
    }
}

/// The same measure, of all steps together.
fn cost_of_all(alloc: Global, steps: &[Step]) -> Result<usize, AllocError> {
    let mut room = Vec::new(alloc);
    let mut cost: usize = 0;
    for step in steps {
        cost = cost.saturating_add(cost_of(step, &mut room)?);
    }
    Ok(cost)
}

/// The places, rising, at which the steps are cut, so that each piece takes about this long by the same measure. Nothing rests on where they are.
fn cuts_of(alloc: Global, steps: &[Step], share: usize) -> Result<Vec<usize>, AllocError> {
    let mut room = Vec::new(alloc);
    let mut cuts = Vec::new(alloc);
    let mut cost: usize = 0;
    cuts.push(0)?;
    for place in 0..steps.len() {
        if cost > share {
            cuts.push(place)?;
            cost = 0;
        }
        cost = cost.saturating_add(cost_of(&steps[place], &mut room)?);
    }
    Ok(cuts)
}

/// The cut of this number, or the end of the steps where there are fewer cuts.
fn cut_at(cuts: &[usize], number: usize, steps: usize) -> usize {
    if number < cuts.len() {
        cuts[number]
    } else {
        steps
    }
}

/// Checks the piece between a cut and the next one, after all steps before it. Gives nothing if a step of it is refused, or memory runs out.
fn pass_piece<L: ClauseList>(
    alloc: Global,
    formula: &L,
    cube: &[Lit],
    derivation: &Derivation,
    cuts: &[usize],
    number: usize,
) -> Option<PassedPiece>
    ensures { IfSome result (λ piece. IsPassed (L.formula formula.now).clauses cube.now derivation.now piece) }
{
    let steps = derivation.steps().len();
    let from = cut_at(cuts, number, steps);
    let until = cut_at(cuts, number.saturating_add(1), steps);
    if from > until || until > steps {
        return None;
    }
    let ended = check_piece(alloc, formula, cube, derivation, from, until).ok()?;
    Some(PassedPiece { from, until, ended })
}

/// Returns whether the pieces make up the derivation, from its first step to one that adds the empty clause: each begins where the one before it ends. The
/// formula, the cube and the derivation stand here for the clauses, which name them.
fn make_up<L: ClauseList>(
    _formula: &L,
    _cube: &[Lit],
    _derivation: &Derivation,
    pieces: &[Option<PassedPiece>],
) -> bool
    requires { (k : ℕ) (d : _) → k < length pieces.now → IfSome (slice_index_or pieces.now k d) (λ piece. IsPassed (L.formula _formula.now).clauses _cube.now _derivation.now piece) }
    ensures { IsTrue result → IsAccepted (L.formula _formula.now).clauses _cube.now _derivation.now }
{
    let mut place = 0;
    for number in 0..pieces.len() {
        let Some(piece) = pieces[number] else {
            return false;
        };
        if piece.from != place {
            return false;
        }
        if piece.ended {
            return true;
        }
        place = piece.until;
    }
    false
}

/// Returns whether this number of workers finds that the derivation is accepted for the cube. If not, nothing is known of it: it may be short, a step be
/// refused, or memory have run out.
fn is_accepted_in_pieces<R: Threads + Sync, L: ClauseList + Sync>(
    alloc: Global,
    rt: &R,
    formula: &L,
    cube: &[Lit],
    derivation: &Derivation,
    workers: u32,
) -> Result<bool, AllocError>
    ensures { IfOk result (λ accepted. IsTrue accepted → IsAccepted (L.formula formula.now).clauses cube.now derivation.now) }
{
    let count = workers as usize;
    let cost = cost_of_all(alloc, derivation.steps())?;
    if cost < LONG_CHECK {
        return Ok(false);
    }
    let cuts = cuts_of(alloc, derivation.steps(), cost / count.max(1))?;
    let cuts = cuts.as_slice();
    let in_piece = move |number: usize| -> Option<PassedPiece>
        ensures { IfSome result (λ piece. IsPassed (L.formula formula.entry.now).clauses cube.entry.now derivation.entry.now piece) }
    { pass_piece(alloc, formula, cube, derivation, cuts, number) };
    let pieces = map_indices(rt, alloc, count, &in_piece)?;
    Ok(make_up(formula, cube, derivation, pieces.as_slice()))
}

/// Returns whether the slot's answer is a long derivation that can be written, and this number of workers finds that it is accepted for its cube. If not,
/// nothing is known of it.
pub(crate) fn is_proved_in_pieces<R: Threads + Sync, L: ClauseList + Sync>(
    alloc: Global,
    rt: &R,
    formula: &L,
    slot: &Slot,
    workers: u32,
) -> bool
    ensures { IsTrue result → IsProofAnswer (L.formula formula.now).clauses slot.now }
{
    let Some(derivation) = said_derivation(&slot.outcome) else {
        return false;
    };
    if !can_be_written(derivation) {
        return false;
    }
    let cube = slot.cube.as_slice();
    let Ok(accepted) = is_accepted_in_pieces(alloc, rt, formula, cube, derivation, workers) else {
        return false;
    };
    accepted
}

//! Unit propagation along hints.

ghost use Rattle.std.specs.Prelude.{◌≡◌, ◌≢◌, [], ◌∷◌, ◌++◌, ℕ, List, ℤ, false, Some, None, IfOk, MatchBool, MatchOption, MatchResult, OnOk};
ghost use Rattle.lrat_check.specs.ClauseAt.{clause_at};
ghost use Rattle.lrat_check.specs.Hints.{first_hints};
ghost use Rattle.lrat_check.specs.Justified.{IsImplied, IsUnjustified};
ghost use Rattle.lrat_check.specs.Propagation.{Extends, is_falsified, is_tautology};
ghost use Rattle.lrat_check.specs.Rat.{Reaches};
ghost use Rattle.lrat_check.specs.Refuted.{Refutes, FailsToRefute, negated};
ghost use Rattle.lrat_check.specs.declared.refusal.StepFault.TheVariants.{NoConflict};
ghost use Rattle.lrat_check.specs.Standing.{IsStanding, IsAssumed};
ghost use Rattle.text_lines.specs.Fault.{IsRefusalAt};

use crate::active_clauses::ActiveClauses;
use crate::refusal::{Refusal, StepFault};
use crate::true_literals::{TrueLiterals, keep_first};
use dimacs::{ClauseList, Lit, recall_literals};
use std::alloc::AllocError;

/// The status of a clause under the literals that are true. In variables, functions and the specification it is called the clause's
/// standing.
#[derive(Clone, Copy)]
pub enum ClauseStatus {
    /// All of its literals are false.
    Falsified,
    /// This literal alone is not false. It may be true already.
    Unit(Lit),
    /// At least two distinct literals are not false. (A unit clause is not falsified either, but has a variant of its own.)
    Unfalsified,
}

/// The status of a clause with one more literal, which is not false.
fn with_unfalsified(standing: ClauseStatus, literal: Lit) -> ClauseStatus
    ensures { (trues clause : List ℤ) → IsStanding trues clause standing → is_falsified trues literal ≡ false →
        IsStanding trues (clause ++ literal ∷ []) result }
{
    match standing {
        ClauseStatus::Falsified => ClauseStatus::Unit(literal),
        ClauseStatus::Unit(unit) => {
            if unit.number() == literal.number() {
                ClauseStatus::Unit(unit)
            } else {
                ClauseStatus::Unfalsified
            }
        }
        ClauseStatus::Unfalsified => ClauseStatus::Unfalsified,
    }
}

/// The status of a clause with one more literal.
fn with_literal(standing: ClauseStatus, literal: Lit, trues: &TrueLiterals) -> ClauseStatus
    ensures { (clause : List ℤ) → IsStanding trues.now clause standing → IsStanding trues.now (clause ++ literal ∷ []) result }
{
    if trues.is_false(literal) {
        standing
    } else {
        with_unfalsified(standing, literal)
    }
}

/// Returns whether the clause is falsified, unit, or neither under the literals that are true.
fn standing_of(clause: &[Lit], trues: &TrueLiterals) -> ClauseStatus
    ensures { IsStanding trues.now clause.now result }
{
    let mut standing = ClauseStatus::Falsified;
    for literal in clause {
        standing = with_literal(standing, *literal, trues);
    }
    standing
}

/// The status of the active clause of this id, if one is active.
fn standing_at<'b, F: ClauseList>(
    formula: &'b F,
    active: &'b ActiveClauses<'_>,
    id: u64,
    trues: &TrueLiterals,
) -> Option<ClauseStatus>
    ensures { MatchOption result
        (clause_at (F.formula formula.now).clauses active.now id ≡ None)
        (λ standing. (clause : List ℤ) × (clause_at (F.formula formula.now).clauses active.now id ≡ Some clause) × IsStanding trues.now clause standing) }
{
    let clause = active.get(formula, id)?;
    Some(standing_of(clause.as_slice(), trues))
}

/// Makes the negations of the clause's literals true and no other literal. Returns whether the clause is a tautology: then this is
/// impossible, and what is true is of no use.
fn assume_negation(trues: &mut TrueLiterals, clause: &[Lit]) -> Result<bool, AllocError>
    ensures { IfOk result (λ is_tautology. IsAssumed clause.now trues.new is_tautology) }
{
    // A law, which does nothing when run: no literal is 0.
    recall_literals(clause);
    keep_first(trues, 0);
    for literal in clause {
        let negation = literal.negated();
        if trues.is_false(negation) {
            return Ok(true);
        }
        trues.push(negation)?;
    }
    Ok(false)
}

/// Propagates along the hints up to the first negative one, which begins a group of RAT hints. Returns true if they lead to a conflict;
/// otherwise `trues` has the propagated literals too. `number` is the number of the step, which a refusal names.
pub fn propagate<F: ClauseList>(
    formula: &F,
    active: &ActiveClauses,
    trues: &mut TrueLiterals,
    hints: &[i64],
    number: usize,
) -> Result<bool, Refusal>
    ensures kept { OnOk result (Extends trues.new trues.old) }
    ensures refuted { MatchResult result
        (λ refuted. MatchBool refuted
        (Refutes (clause_at (F.formula formula.now).clauses active.now) trues.old (first_hints hints.now))
        (Reaches (clause_at (F.formula formula.now).clauses active.now) trues.old (first_hints hints.now) trues.new))
        (λ refusal. IsRefusalAt (λ fault. FailsToRefute (clause_at (F.formula formula.now).clauses active.now) trues.old (first_hints hints.now) fault × (fault ≢ NoConflict)) number refusal) }
{
    // Hints after the one that gives the conflict are not looked at, whatever they name.
    for hint in hints {
        if *hint < 0 {
            return Ok(false);
        }
        let Some(standing) = standing_at(&*formula, &*active, hint.unsigned_abs(), trues) else {
            return Err(Refusal::At(StepFault::UnknownHint, number));
        };
        match standing {
            ClauseStatus::Falsified => return Ok(true),
            ClauseStatus::Unit(unit) => trues.push(unit)?,
            ClauseStatus::Unfalsified => return Err(Refusal::At(StepFault::NotUnit, number)),
        }
    }
    Ok(false)
}

/// Checks that the clause of the step of this number follows (RUP): it is a tautology, or its hints before the first group refute that all
/// of its literals are false. If not, `trues` is left with the literals that were propagated.
pub fn is_implied<F: ClauseList>(
    formula: &F,
    active: &ActiveClauses,
    trues: &mut TrueLiterals,
    clause: &[Lit],
    hints: &[i64],
    number: usize,
) -> Result<bool, Refusal>
    ensures { MatchResult result
        (λ implied. MatchBool implied
        (IsImplied (clause_at (F.formula formula.now).clauses active.now) clause.now hints.now)
        ((is_tautology clause.now ≡ false) × Reaches (clause_at (F.formula formula.now).clauses active.now) (negated clause.now) (first_hints hints.now) trues.new))
        (λ refusal. IsRefusalAt (λ fault. IsUnjustified (clause_at (F.formula formula.now).clauses active.now) clause.now hints.now fault) number refusal) }
{
    if assume_negation(trues, clause)? {
        return Ok(true);
    }
    propagate(formula, active, trues, hints, number)
}

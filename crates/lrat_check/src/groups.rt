//! Groups of hints, one for each candidate of a RAT check (Järvisalo, Heule, Biere 2012): an active clause that holds
//! the negation of the added clause's first literal, the pivot.

ghost use Rattle.std.specs.Prelude.{◌≡◌, neg_ℤ, take, IfOk, MatchBool, MatchResult, OnOk};
ghost use Rattle.lrat_check.specs.ClauseAt.{clause_at};
ghost use Rattle.lrat_check.specs.Counts.{IsCount, times_at};
ghost use Rattle.lrat_check.specs.Hints.{first_hints, groups_of};
ghost use Rattle.lrat_check.specs.Propagation.{Extends};
ghost use Rattle.lrat_check.specs.Rat.{IsSettled, IsUnsettled, AreSettled, AreUnsettled, HasAllGroups, LacksGroup};
ghost use Rattle.text_lines.specs.Fault.{IsRefusalAt};

use crate::active_clauses::ActiveClauses;
use crate::hint_groups::cut_group;
use crate::literal_counts::times;
use crate::propagation::propagate;
use crate::rat::{assume_others, holds, other_holds};
use crate::refusal::{Refusal, StepFault};
use crate::true_literals::{TrueLiterals, keep_first};
use dimacs::{ClauseList, Lit};
use std::alloc::{AllocError, Global};
use std::collections::BTreeSet;

/// A group among the hints of a step.
#[derive(Clone, Copy)]
struct HintGroup<'h> {
    /// The id of its candidate.
    id: u64,
    /// The hints after the id. They may go on with later groups: `propagate` ends before the next negative one.
    hints: &'h [i64],
    /// The number of the step, which a refusal names.
    number: usize,
}

/// Checks that the resolvent with the candidate of the group follows by its hints, if the first `count` true literals were true
/// after the first hints. The later ones are taken back, so a candidate costs no more than what it makes true itself.
fn check_candidate<F: ClauseList>(
    formula: &F,
    active: &ActiveClauses,
    trues: &mut TrueLiterals,
    pivot: Lit,
    count: usize,
    group: HintGroup<'_>,
) -> Result<(), Refusal>
    ensures kept { OnOk result (Extends trues.new (take count trues.old)) }
    ensures settled { MatchResult result
        (λ _. IsSettled (clause_at (F.formula formula.now).clauses active.now) pivot (take count trues.old) (record { id = group.entry.id; hints = first_hints group.entry.hints.now }))
        (λ refusal. IsRefusalAt (λ fault. IsUnsettled (clause_at (F.formula formula.now).clauses active.now) pivot (take count trues.old) (record { id = group.entry.id; hints = first_hints group.entry.hints.now }) fault) group.entry.number refusal) }
{
    let Some(clause) = active.get(formula, group.id) else {
        return Err(Refusal::At(StepFault::UnknownHint, group.number));
    };
    if !holds(clause.as_slice(), pivot.negated()) {
        return Err(Refusal::At(StepFault::NotOpposed, group.number));
    }
    keep_first(trues, count);
    // The negation of the resolvent makes that literal false, which is a conflict already.
    if other_holds(trues, pivot, clause.as_slice()) {
        return Ok(());
    }
    assume_others(trues, pivot, clause.as_slice())?;
    if propagate(formula, active, trues, group.hints, group.number)? {
        Ok(())
    } else {
        Err(Refusal::At(StepFault::NoConflict, group.number))
    }
}

/// Checks the candidates of all groups among the hints, in order, if these literals are true after the first hints.
pub fn check_candidates<F: ClauseList>(
    formula: &F,
    active: &ActiveClauses,
    trues: &mut TrueLiterals,
    pivot: Lit,
    hints: &[i64],
    number: usize,
) -> Result<(), Refusal>
    ensures { MatchResult result
        (λ _. AreSettled (clause_at (F.formula formula.now).clauses active.now) pivot trues.old (groups_of hints.now))
        (λ refusal. IsRefusalAt (λ fault. AreUnsettled (clause_at (F.formula formula.now).clauses active.now) pivot trues.old (groups_of hints.now) fault) number refusal) }
{
    let count = trues.len();
    let mut rest = hints;
    while let Some((id, after)) = cut_group(rest) {
        let group = HintGroup {
            id,
            hints: after,
            number,
        };
        check_candidate(formula, active, trues, pivot, count, group)?;
        rest = after;
    }
    Ok(())
}

/// The number of times that the active clause of this id holds the literal: 0 if none is active.
fn times_at<F: ClauseList>(formula: &F, active: &ActiveClauses, id: u64, literal: Lit) -> usize
    ensures { result ≡ times_at (clause_at (F.formula formula.now).clauses active.now) literal id }
{
    match active.get(formula, id) {
        Some(clause) => times(clause.as_slice(), literal),
        None => 0,
    }
}

/// Returns whether each active clause that holds the pivot's negation has a group among the hints, if the negation stands `count` times in
/// the active clauses. What the clauses of the distinct groups hold of it is taken off the count, and no other clause is read, so
/// the check costs no walk through all clauses.
pub fn has_all<F: ClauseList>(
    alloc: Global,
    formula: &F,
    active: &ActiveClauses,
    pivot: Lit,
    count: usize,
    hints: &[i64],
) -> Result<bool, AllocError>
    ensures { IfOk result (λ all. IsCount (clause_at (F.formula formula.now).clauses active.now) (neg_ℤ pivot) count →
        MatchBool all
        (HasAllGroups (clause_at (F.formula formula.now).clauses active.now) pivot (groups_of hints.now))
        (LacksGroup (clause_at (F.formula formula.now).clauses active.now) pivot (groups_of hints.now))) }
{
    if count == 0 {
        return Ok(true);
    }
    let negation = pivot.negated();
    let mut left = count;
    let mut seen = BTreeSet::new(alloc);
    let mut rest = hints;
    while let Some((id, after)) = cut_group(rest) {
        // A clause with two groups is taken off once: taken off twice, it would hide one that has none.
        if seen.insert(id)? {
            left = left.saturating_sub(times_at(formula, active, id, negation));
        }
        rest = after;
    }
    Ok(left == 0)
}

//! Clauses that do not follow and may be added all the same.

ghost use Rattle.std.specs.Prelude.{◌≡◌, [], ◌∷◌, ◌++◌, neg_ℤ, OnOk};
ghost use Rattle.std.specs.List.{list_any};
ghost use Rattle.std.specs.Ordering.{int_eq};
ghost use Rattle.lrat_check.specs.Propagation.{has};
ghost use Rattle.lrat_check.specs.Rat.{others};
ghost use Rattle.lrat_check.specs.Refuted.{negated};

use crate::true_literals::TrueLiterals;
use dimacs::Lit;
use std::alloc::AllocError;

/// Returns whether the clause holds the literal.
pub fn holds(clause: &[Lit], literal: Lit) -> bool
    ensures { result ≡ has clause.now literal }
{
    clause
        .iter()
        .any(|other| other.number() == literal.number())
}

/// Returns whether the literal is the pivot's negation.
fn opposes(literal: Lit, pivot: Lit) -> bool
    ensures { result ≡ int_eq literal (neg_ℤ pivot) }
{
    let opposite = pivot.negated();
    literal.number() == opposite.number()
}

/// Returns whether the literal is true and not the pivot's negation.
fn is_true_other(trues: &TrueLiterals, pivot: Lit, literal: Lit) -> bool
    ensures { result ≡ list_any (has trues.now) (others pivot (literal ∷ [])) }
{
    if opposes(literal, pivot) {
        false
    } else {
        trues.holds(literal)
    }
}

/// Returns whether one of the clause's literals but the pivot's negation is true.
pub fn other_holds(trues: &TrueLiterals, pivot: Lit, clause: &[Lit]) -> bool
    ensures { result ≡ list_any (has trues.now) (others pivot clause.now) }
{
    let mut found = false;
    for literal in clause {
        if is_true_other(trues, pivot, *literal) {
            found = true;
        }
    }
    found
}

/// Makes the literal's negation true, unless the literal is the pivot's negation.
fn assume_other(trues: &mut TrueLiterals, pivot: Lit, literal: Lit) -> Result<(), AllocError>
    ensures { OnOk result (trues.new ≡ trues.old ++ negated (others pivot (literal ∷ []))) }
{
    if opposes(literal, pivot) {
        return Ok(());
    }
    trues.push(literal.negated())
}

/// Makes the negations of the clause's literals but the pivot's negation true as well. If the clause is a tautology, a literal and its
/// negation are then both true: each counts as true and as false.
pub fn assume_others(trues: &mut TrueLiterals, pivot: Lit, clause: &[Lit]) -> Result<(), AllocError>
    ensures { OnOk result (trues.new ≡ trues.old ++ negated (others pivot clause.now)) }
{
    for literal in clause {
        assume_other(trues, pivot, *literal)?;
    }
    Ok(())
}

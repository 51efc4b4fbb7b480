//! Active clauses whose literals are counted from the first time that a count is asked for.

ghost use Rattle.std.specs.Prelude.{◌≡◌, [], ◌∷◌, ℕ, ℤ, List, Option, None, IfOk, OnOk};
ghost use Rattle.lrat_check.specs.Active.{at_start, with_clause, without};
ghost use Rattle.lrat_check.specs.ClauseAt.{clause_at};
ghost use Rattle.lrat_check.specs.Counted.{AreChanges, AreFormulaCounts, AreRightChanges, HasRightChanges};
ghost use Rattle.lrat_check.specs.Counts.{IsCount};

use crate::active_clauses::ActiveClauses;
use crate::count_changes::CountChanges;
use crate::formula_counts::FormulaCounts;
use dimacs::{Clause, ClauseList, Lit};
use std::alloc::{AllocError, Global};

/// The active clauses and, once a count was asked for, by what the counts of their literals differ from the formula's.
pub struct CountedClauses<'a> {
    pub clauses: ActiveClauses<'a>,
    /// None until a count is asked for.
    changes: Option<CountChanges>,
}

/// Drops the tables in one call. A derived `Drop` would drop each at every exit of a function that owns counted clauses, which makes its proof longer.
impl Drop for CountedClauses<'_> {
    fn drop(self) {
        let CountedClauses {
            clauses: _clauses,
            changes: _changes,
        } = self;
    }
}

/// Counts a clause that becomes active, if clauses are counted.
fn count_in(changes: &mut Option<CountChanges>, clause: &Clause) -> Result<(), AllocError>
    ensures { OnOk result ((clauses : List (List ℤ)) (active : ℕ → Option (List ℤ)) (id : ℕ) → active id ≡ None → AreRightChanges clauses active changes.old → AreRightChanges clauses (with_clause id clause.now active) changes.new) }
{
    if let Some(changes) = changes {
        changes.add(clause.as_slice())?;
    }
    Ok(())
}

/// Takes the clause of this id off the counts, if clauses are counted and one is active.
fn count_out<F: ClauseList>(
    changes: &mut Option<CountChanges>,
    formula: &F,
    clauses: &ActiveClauses,
    id: u64,
) -> Result<(), AllocError>
    ensures { OnOk result (AreRightChanges (F.formula formula.now).clauses (clause_at (F.formula formula.now).clauses clauses.now) changes.old →
        AreRightChanges (F.formula formula.now).clauses (without (id ∷ []) (clause_at (F.formula formula.now).clauses clauses.now)) changes.new) }
{
    if let Some(changes) = changes {
        if let Some(clause) = clauses.get(formula, id) {
            changes.remove(clause.as_slice())?;
        }
    }
    Ok(())
}

/// By what the counts of the literals of the active clauses differ from the formula's.
fn changes_of<F: ClauseList>(
    alloc: Global,
    formula: &F,
    clauses: &ActiveClauses,
) -> Result<CountChanges, AllocError>
    ensures { IfOk result (λ changes. AreChanges (F.formula formula.now).clauses (clause_at (F.formula formula.now).clauses clauses.now) changes) }
{
    let mut changes = CountChanges::new(alloc);
    clauses.count_kept(formula, &mut changes)?;
    clauses.count_added(formula, &mut changes)?;
    Ok(changes)
}

impl<'a> CountedClauses<'a> {
    /// The clauses of a formula, and the literals of the cube as clauses.
    pub fn at_start(alloc: Global, cube: &'a [Lit]) -> CountedClauses<'a>
        ensures active { (clauses : List (List ℤ)) (id : ℕ) → clause_at clauses result.clauses id ≡ at_start clauses cube.now id }
        ensures counted { (clauses : List (List ℤ)) → HasRightChanges clauses result }
    {
        CountedClauses {
            clauses: ActiveClauses::at_start(alloc, cube),
            changes: None,
        }
    }

    /// The same clauses, without what was counted of them.
    pub fn uncounted(self) -> CountedClauses<'a>
        ensures same { result.clauses ≡ self.entry.clauses }
        ensures counted { (clauses : List (List ℤ)) → HasRightChanges clauses result }
    {
        let CountedClauses {
            clauses,
            changes: _changes,
        } = self;
        CountedClauses {
            clauses,
            changes: None,
        }
    }

    /// Makes the clause active under this id. The counts stay right only if none is active under it yet, which the checker makes sure of
    /// (`StepFault::IdInUse`).
    pub fn insert<F: ClauseList>(
        &mut self,
        formula: &F,
        id: u64,
        clause: &'a Clause,
    ) -> Result<(), AllocError>
        ensures active { OnOk result ((other : ℕ) →
            clause_at (F.formula formula.now).clauses self.new.clauses other ≡ with_clause id clause.now (clause_at (F.formula formula.now).clauses self.old.clauses) other) }
        ensures counted { OnOk result (clause_at (F.formula formula.now).clauses self.old.clauses id ≡ None → HasRightChanges (F.formula formula.now).clauses self.old → HasRightChanges (F.formula formula.now).clauses self.new) }
    {
        count_in(&mut self.changes, clause)?;
        self.clauses.insert(formula, id, clause)
    }

    /// Takes away the clause of this id, if it is active. It is taken off the counts first, while it can still be looked up.
    fn remove<F: ClauseList>(&mut self, formula: &F, id: u64) -> Result<(), AllocError>
        ensures active { OnOk result ((other : ℕ) →
            clause_at (F.formula formula.now).clauses self.new.clauses other ≡ without (id ∷ []) (clause_at (F.formula formula.now).clauses self.old.clauses) other) }
        ensures counted { OnOk result (HasRightChanges (F.formula formula.now).clauses self.old → HasRightChanges (F.formula formula.now).clauses self.new) }
    {
        count_out(&mut self.changes, formula, &self.clauses, id)?;
        self.clauses.remove(formula, id)
    }

    /// Takes away the clauses of these ids that are active.
    pub fn remove_all<F: ClauseList>(&mut self, formula: &F, ids: &[u64]) -> Result<(), AllocError>
        ensures active { OnOk result ((other : ℕ) →
            clause_at (F.formula formula.now).clauses self.new.clauses other ≡ without ids.now (clause_at (F.formula formula.now).clauses self.old.clauses) other) }
        ensures counted { OnOk result (HasRightChanges (F.formula formula.now).clauses self.old → HasRightChanges (F.formula formula.now).clauses self.new) }
    {
        for id in ids {
            self.remove(formula, *id)?;
        }
        Ok(())
    }

    /// The number of times that the literal stands in the active clauses. What differs from the formula is counted when this is
    /// first asked, since a derivation without RAT steps needs no counts.
    pub fn times_active<F: ClauseList>(
        &mut self,
        alloc: Global,
        formula: &F,
        counts: &mut FormulaCounts,
        literal: Lit,
    ) -> Result<usize, AllocError>
        ensures same { self.new.clauses ≡ self.old.clauses }
        ensures formula { AreFormulaCounts (F.formula formula.now).clauses counts.old → AreFormulaCounts (F.formula formula.now).clauses counts.new }
        ensures counted { HasRightChanges (F.formula formula.now).clauses self.old → HasRightChanges (F.formula formula.now).clauses self.new }
        ensures count { IfOk result (λ count. AreFormulaCounts (F.formula formula.now).clauses counts.old → HasRightChanges (F.formula formula.now).clauses self.old →
            IsCount (clause_at (F.formula formula.now).clauses self.old.clauses) literal count) }
    {
        let base = counts.of(alloc, formula, literal)?;
        if let Some(changes) = &self.changes {
            return changes.applied(literal, base);
        }
        let changes = changes_of(alloc, formula, &self.clauses)?;
        let count = changes.applied(literal, base)?;
        self.changes = Some(changes);
        Ok(count)
    }
}

//! The active clauses of a derivation.
//!
//! A step that adds a clause by resolution on a literal (RAT) asks how often the negation stands in active clauses (`counted_clauses.rt`). That is counted by
//! what differs from the formula: the cube and added clauses come to its counts, and hidden ones are taken off. The ids of these stand in a table, or in a
//! tree if they are past its end (`hidden_ids.rt`).

ghost use Rattle.std.specs.Prelude.{◌≡◌, ◌+◌, ◌==◌, ◌||◌, ℕ, ℤ, Bool, List, Option, Some, None, true, false, MatchOption, OnOk, is_some, [], ◌∷◌};
ghost use Rattle.std.specs.BTreeSet.{contains};
ghost use Rattle.std.specs.Ordering.{nat_cmp};
ghost use Rattle.lrat_check.specs.Active.{at_start, numbered, with_clause, without};
ghost use Rattle.lrat_check.specs.ClauseAt.{clause_at, early_at, in_front, kept_at};
ghost use Rattle.lrat_check.specs.Counted.{AreChanges};
ghost use Rattle.lrat_check.specs.Hidden.{kept_by_tree, kept_by_table_from, kept_by_table};

use crate::added_clauses::AddedClauses;
use crate::count_changes::CountChanges;
use crate::hidden_ids::HiddenIds;
use dimacs::{Clause, ClauseList, ListedClause, Lit};
use std::alloc::{AllocError, Global};

/// What makes clauses active beside the formula: the cube, which of the clauses that were active at the start are hidden,
/// and the clauses that steps have added, by their ids. The formula's own clauses are in no table, since their ids are their
/// numbers. A contract sees all of it as the function from an id to its clause.
#[derive(Drop)]
pub struct ActiveClauses<'a> {
    cube: &'a [Lit],
    hidden: HiddenIds,
    added: AddedClauses<'a>,
}

/// The clause that is active under this id at the start, if one is. Ids begin at 1: first those of the formula's clauses, then those of
/// the cube's literals, each a unit clause. No clause has the id 0.
fn clause_at_start<'b, F: ClauseList>(
    formula: &'b F,
    cube: &[Lit],
    id: u64,
) -> Option<ListedClause<'b>>
    ensures { MatchOption result
        (at_start (F.formula formula.now).clauses cube.now id ≡ None)
        (λ clause. at_start (F.formula formula.now).clauses cube.now id ≡ Some clause) }
{
    if id == 0 {
        return None;
    }
    let place = id as usize - 1;
    let count = formula.count();
    if place < count {
        return Some(formula.clause(place));
    }
    if place - count < cube.len() {
        return Some(ListedClause::unit(cube[place - count]));
    }
    None
}

/// Counts the cube's literals as clauses. Before this the clauses of the formula alone are counted.
fn count_cube(cube: &[Lit], changes: &mut CountChanges) -> Result<(), AllocError>
    ensures { OnOk result ((clauses : List (List ℤ)) → AreChanges clauses (numbered clauses) changes.old → AreChanges clauses (at_start clauses cube.now) changes.new) }
{
    for literal in cube {
        changes.add(ListedClause::unit(*literal).as_slice())?;
    }
    Ok(())
}

/// Takes the clause that was active under this id at the start off the counts, if there is one.
fn take_start_clause_off<F: ClauseList>(
    formula: &F,
    cube: &[Lit],
    id: u64,
    changes: &mut CountChanges,
) -> Result<(), AllocError>
    ensures { OnOk result ((active : ℕ → Option (List ℤ)) → active id ≡ at_start (F.formula formula.now).clauses cube.now id →
        AreChanges (F.formula formula.now).clauses active changes.old → AreChanges (F.formula formula.now).clauses (without (id ∷ []) active) changes.new) }
{
    match clause_at_start(formula, cube, id) {
        Some(clause) => changes.remove(clause.as_slice()),
        None => Ok(()),
    }
}

impl<'a> ActiveClauses<'a> {
    /// The clauses of a formula, and the literals of the cube as clauses.
    pub fn at_start(alloc: Global, cube: &'a [Lit]) -> ActiveClauses<'a>
        ensures { (clauses : List (List ℤ)) (id : ℕ) → clause_at clauses result id ≡ at_start clauses cube.now id }
    {
        ActiveClauses {
            cube,
            hidden: HiddenIds::new(alloc),
            added: AddedClauses::new(alloc),
        }
    }

    /// The clause that was active under this id at the start, unless it is hidden.
    fn kept<'b, F: ClauseList>(&'b self, formula: &'b F, id: u64) -> Option<ListedClause<'b>>
        ensures { MatchOption result
            (kept_at (F.formula formula.now).clauses self.now id ≡ None)
            (λ clause. kept_at (F.formula formula.now).clauses self.now id ≡ Some clause) }
    {
        match clause_at_start(formula, self.cube, id) {
            Some(clause) => {
                if self.hidden.has(id as usize) {
                    None
                } else {
                    Some(clause)
                }
            }
            None => None,
        }
    }

    /// The clause that is active under this id, if one is. What was active at the start is looked at first, so `insert` must hide it
    /// before an added clause of the same id can be seen.
    #[inline(always)]
    pub fn get<'b, F: ClauseList>(&'b self, formula: &'b F, id: u64) -> Option<ListedClause<'b>>
        ensures { MatchOption result
            (clause_at (F.formula formula.now).clauses self.now id ≡ None)
            (λ clause. clause_at (F.formula formula.now).clauses self.now id ≡ Some clause) }
    {
        if let Some(clause) = self.kept(formula, id) {
            return Some(clause);
        }
        match self.added.get(id) {
            Some(clause) => Some(ListedClause::lent(clause)),
            None => None,
        }
    }

    /// Returns whether a clause is active under this id.
    pub fn contains<F: ClauseList>(&self, formula: &F, id: u64) -> bool
        ensures { result ≡ is_some (clause_at (F.formula formula.now).clauses self.now id) }
    {
        self.get(formula, id).is_some()
    }

    /// Hides what was active under this id at the start. Other ids are not entered: the counting of `take_table_off` and `take_tree_off`
    /// then looks at hidden clauses alone.
    fn hide<F: ClauseList>(&mut self, formula: &F, id: u64) -> Result<(), AllocError>
        ensures hidden { OnOk result ((other : ℕ) →
            kept_at (F.formula formula.now).clauses self.new other ≡ without (id ∷ []) (kept_at (F.formula formula.now).clauses self.old) other) }
        ensures added { OnOk result (self.new.added ≡ self.old.added) }
    {
        if clause_at_start(formula, self.cube, id).is_some() {
            self.hidden.add(id as usize)?;
        }
        Ok(())
    }

    /// Makes the clause active under this id.
    pub fn insert<F: ClauseList>(
        &mut self,
        formula: &F,
        id: u64,
        clause: &'a Clause,
    ) -> Result<(), AllocError>
        ensures { OnOk result ((other : ℕ) →
            clause_at (F.formula formula.now).clauses self.new other ≡ with_clause id clause.now (clause_at (F.formula formula.now).clauses self.old) other) }
    {
        self.hide(formula, id)?;
        self.added.insert(id, clause)
    }

    /// Takes away the clause of this id, if it is active.
    pub fn remove<F: ClauseList>(&mut self, formula: &F, id: u64) -> Result<(), AllocError>
        ensures { OnOk result ((other : ℕ) →
            clause_at (F.formula formula.now).clauses self.new other ≡ without (id ∷ []) (clause_at (F.formula formula.now).clauses self.old) other) }
    {
        self.hide(formula, id)?;
        self.added.remove(id);
        Ok(())
    }

    /// Returns whether a clause that was active under this id at the start is not hidden.
    fn is_kept<F: ClauseList>(&self, formula: &F, id: u64) -> bool
        ensures { result ≡ is_some (kept_at (F.formula formula.now).clauses self.now id) }
    {
        self.kept(formula, id).is_some()
    }

    /// Takes the clause of this id off the counts, if the table of hidden ids hides it. Before this the same was done for all smaller ids.
    fn take_table_id_off<F: ClauseList>(
        &self,
        formula: &F,
        id: usize,
        changes: &mut CountChanges,
    ) -> Result<(), AllocError>
        ensures { OnOk result (AreChanges (F.formula formula.now).clauses (kept_by_table_from self.now.hidden (at_start (F.formula formula.now).clauses self.now.cube.now) id) changes.old →
            AreChanges (F.formula formula.now).clauses (kept_by_table_from self.now.hidden (at_start (F.formula formula.now).clauses self.now.cube.now) (id + 1)) changes.new) }
    {
        if self.hidden.table_hides(id) {
            return take_start_clause_off(formula, self.cube, id as u64, changes);
        }
        Ok(())
    }

    /// Takes the clauses off the counts that the table of hidden ids hides. Before this all that were active at the start are counted.
    fn take_table_off<F: ClauseList>(
        &self,
        formula: &F,
        changes: &mut CountChanges,
    ) -> Result<(), AllocError>
        ensures { OnOk result (AreChanges (F.formula formula.now).clauses (at_start (F.formula formula.now).clauses self.now.cube.now) changes.old →
            AreChanges (F.formula formula.now).clauses (kept_by_table self.now.hidden (at_start (F.formula formula.now).clauses self.now.cube.now)) changes.new) }
    {
        for id in 0..self.hidden.near.len() {
            (&*self).take_table_id_off(&*formula, id, changes)?;
        }
        Ok(())
    }

    /// Takes the clause of this id, which stands in the tree of hidden ids, off the counts. If the table reaches to the id, nothing is left
    /// to be done, since the table alone says whether it is hidden.
    fn take_tree_id_off<F: ClauseList>(
        &self,
        formula: &F,
        id: usize,
        changes: &mut CountChanges,
    ) -> Result<(), AllocError>
        ensures { OnOk result ((left rest : ℕ → Bool) → ((other : ℕ) → left other ≡ (id == other || rest other)) → rest id ≡ false → contains nat_cmp self.now.hidden.far id ≡ true →
            AreChanges (F.formula formula.now).clauses (kept_by_tree self.now.hidden (at_start (F.formula formula.now).clauses self.now.cube.now) left) changes.old →
            AreChanges (F.formula formula.now).clauses (kept_by_tree self.now.hidden (at_start (F.formula formula.now).clauses self.now.cube.now) rest) changes.new) }
    {
        if self.hidden.reaches(id) {
            return Ok(());
        }
        take_start_clause_off(formula, self.cube, id as u64, changes)
    }

    /// Takes the clauses off the counts that the tree of hidden ids hides. Before this those that the table hides were taken off.
    fn take_tree_off<F: ClauseList>(
        &self,
        formula: &F,
        changes: &mut CountChanges,
    ) -> Result<(), AllocError>
        ensures { OnOk result (AreChanges (F.formula formula.now).clauses (kept_by_table self.now.hidden (at_start (F.formula formula.now).clauses self.now.cube.now)) changes.old →
            AreChanges (F.formula formula.now).clauses (kept_at (F.formula formula.now).clauses self.now) changes.new) }
    {
        for id in self.hidden.far.iter() {
            (&*self).take_tree_id_off(&*formula, *id, changes)?;
        }
        Ok(())
    }

    /// Counts the cube and takes the clauses off that are hidden. Before this the clauses of the formula alone are counted.
    pub fn count_kept<F: ClauseList>(
        &self,
        formula: &F,
        changes: &mut CountChanges,
    ) -> Result<(), AllocError>
        ensures { OnOk result (AreChanges (F.formula formula.now).clauses (numbered (F.formula formula.now).clauses) changes.old →
            AreChanges (F.formula formula.now).clauses (kept_at (F.formula formula.now).clauses self.now) changes.new) }
    {
        count_cube(self.cube, changes)?;
        self.take_table_off(formula, changes)?;
        self.take_tree_off(formula, changes)
    }

    /// Returns whether a clause is active under this id that does not stand in the tree of those added.
    fn is_in_front<F: ClauseList>(&self, formula: &F, id: u64) -> bool
        ensures { result ≡ is_some (in_front (F.formula formula.now).clauses self.now id) }
    {
        self.is_kept(formula, id) || self.added.row(id).is_some()
    }

    /// Counts the clause in the row at this place, if it is active. Before this the rows at smaller places were counted.
    fn count_row<F: ClauseList>(
        &self,
        formula: &F,
        place: usize,
        changes: &mut CountChanges,
    ) -> Result<(), AllocError>
        ensures { OnOk result (
            AreChanges (F.formula formula.now).clauses (early_at (F.formula formula.now).clauses self.now (self.now.added.first + place)) changes.old →
            AreChanges (F.formula formula.now).clauses (early_at (F.formula formula.now).clauses self.now (self.now.added.first + place + 1)) changes.new) }
    {
        // The row was made for this very id, which is a `u64`: the sum never overflows.
        let Some(id) = self.added.first.checked_add(place as u64) else {
            return Err(AllocError);
        };
        // `insert` hides the id, so no id is both kept and in a row. Asking costs little, and spares the type an invariant.
        if self.is_kept(formula, id) {
            return Ok(());
        }
        match self.added.row(id) {
            Some(clause) => changes.add(clause.as_slice()),
            None => Ok(()),
        }
    }

    /// Counts the clauses that stand in rows. Before this those are counted that were active at the start and are not hidden.
    fn count_rows<F: ClauseList>(
        &self,
        formula: &F,
        changes: &mut CountChanges,
    ) -> Result<(), AllocError>
        ensures { OnOk result (AreChanges (F.formula formula.now).clauses (kept_at (F.formula formula.now).clauses self.now) changes.old → AreChanges (F.formula formula.now).clauses (in_front (F.formula formula.now).clauses self.now) changes.new) }
    {
        for place in 0..self.added.rows.len() {
            (&*self).count_row(&*formula, place, changes)?;
        }
        Ok(())
    }

    /// Counts the clauses that stand in the tree. Before this all others are counted.
    fn count_in_tree<F: ClauseList>(
        &self,
        formula: &F,
        changes: &mut CountChanges,
    ) -> Result<(), AllocError>
        ensures { OnOk result (AreChanges (F.formula formula.now).clauses (in_front (F.formula formula.now).clauses self.now) changes.old → AreChanges (F.formula formula.now).clauses (clause_at (F.formula formula.now).clauses self.now) changes.new) }
    {
        for (id, clause) in self.added.in_tree.iter() {
            // A clause of the tree is not active if a row has its id: `AddedClauses::get` prefers rows.
            if !self.is_in_front(&*formula, *id) {
                changes.add(clause.as_slice())?;
            }
        }
        Ok(())
    }

    /// Counts the clauses that steps have added. Before this all others are counted.
    pub fn count_added<F: ClauseList>(
        &self,
        formula: &F,
        changes: &mut CountChanges,
    ) -> Result<(), AllocError>
        ensures { OnOk result (AreChanges (F.formula formula.now).clauses (kept_at (F.formula formula.now).clauses self.now) changes.old → AreChanges (F.formula formula.now).clauses (clause_at (F.formula formula.now).clauses self.now) changes.new) }
    {
        self.count_rows(formula, changes)?;
        self.count_in_tree(formula, changes)
    }
}

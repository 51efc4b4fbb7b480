//! The clauses that steps have added, by their ids.

ghost use Rattle.std.specs.Prelude.{◌≡◌, ◌+◌, ◌<◌, ◌==◌, ℕ, Some, None, [], ◌∷◌, MatchOption, OnOk, vec_len, if◌then◌else◌};
ghost use Rattle.lrat_check.specs.Active.{with_clause, without};
ghost use Rattle.lrat_check.specs.AddedAt.{held_at, in_row, in_tree_at, row_at};

use dimacs::Clause;
use std::alloc::{AllocError, Global};
use std::collections::BTreeMap;

/// The largest number of rows for each clause that was added, so that far ids cost no memory.
const ROWS_FOR_EACH: usize = 8;

/// The clauses that steps have added. Solvers number them upwards with few gaps, so there is a row for each id from the first one
/// that was added. An id before that one, or far after the others, has its clause in a tree. So whatever the ids are, a clause is
/// found in the time of a search in a tree, and the rows are at most a fixed multiple of the clauses that were added.
#[derive(Drop)]
pub struct AddedClauses<'a> {
    /// The id of the first row. It stays as it is once there are rows, which never become fewer.
    pub first: u64,
    /// The clause of the id `first + k` in row `k`, unless none was added, or it was removed, or it stands in the tree.
    pub rows: Vec<Option<&'a Clause>>,
    /// An id may stand here and in a row too, if the rows grew past it later. The row's clause is then the newer one, and counts.
    pub in_tree: BTreeMap<u64, &'a Clause>,
    /// The number of clauses ever added. Removals do not lower it.
    count: usize,
}

/// Makes the rows reach to this place. The clauses in them stay as they are.
fn make_rows(rows: &mut Vec<Option<&Clause>>, place: usize) -> Result<(), AllocError>
    ensures room { OnOk result (place < vec_len rows.new) }
    ensures same { (k : ℕ) → in_row rows.new.items k ≡ in_row rows.old.items k }
{
    while rows.len() <= place {
        rows.push(None)?;
    }
    Ok(())
}

/// Puts the clause into the row at this place.
fn put_in_row<'a>(
    rows: &mut Vec<Option<&'a Clause>>,
    place: usize,
    clause: &'a Clause,
) -> Result<(), AllocError>
    ensures { OnOk result ((k : ℕ) → in_row rows.new.items k ≡ (if place == k then Some clause.now else in_row rows.old.items k)) }
{
    make_rows(rows, place)?;
    rows[place] = Some(clause);
    Ok(())
}

/// Takes the clause out of the row at this place, if there is one.
fn clear_row(rows: &mut Vec<Option<&Clause>>, place: usize)
    ensures { (k : ℕ) → in_row rows.new.items k ≡ (if place == k then None else in_row rows.old.items k) }
{
    if place < rows.len() {
        rows[place] = None;
    }
}

impl<'a> AddedClauses<'a> {
    /// No clauses.
    pub fn new(alloc: Global) -> AddedClauses<'a>
        ensures { (id : ℕ) → held_at result id ≡ None }
    {
        AddedClauses {
            first: 0,
            rows: Vec::new(alloc),
            in_tree: BTreeMap::new(alloc),
            count: 0,
        }
    }

    /// The clause in the row of this id, if there is one.
    pub fn row(&self, id: u64) -> Option<&'a Clause>
        ensures { MatchOption result (row_at self.now id ≡ None) (λ clause. row_at self.now id ≡ Some clause.now) }
    {
        if id < self.first {
            return None;
        }
        let place = (id - self.first) as usize;
        if place < self.rows.len() {
            self.rows[place]
        } else {
            None
        }
    }

    /// The clause of this id in the tree, if there is one. The search is long and seldom made, so it stands apart.
    #[inline(never)]
    fn in_tree(&self, id: u64) -> Option<&'a Clause>
        ensures { MatchOption result (in_tree_at self.now id ≡ None) (λ clause. in_tree_at self.now id ≡ Some clause.now) }
    {
        match self.in_tree.get(&id) {
            Some(clause) => Some(*clause),
            None => None,
        }
    }

    /// The clause of this id, if there is one.
    pub fn get(&self, id: u64) -> Option<&'a Clause>
        ensures { MatchOption result (held_at self.now id ≡ None) (λ clause. held_at self.now id ≡ Some clause.now) }
    {
        if let Some(clause) = self.row(id) {
            return Some(clause);
        }
        self.in_tree(id)
    }

    /// Lets the rows begin with this id, if there are none. Once there are, another first id would give each row the id of another.
    fn begin(&mut self, id: u64)
        ensures { (other : ℕ) → held_at self.new other ≡ held_at self.old other }
    {
        if self.rows.is_empty() {
            self.first = id;
        }
    }

    /// The place of the row for this id. None if the clause is to stand in the tree; no row has one of this id then.
    fn place_for(&self, id: u64) -> Option<usize>
        ensures { MatchOption result (row_at self.now id ≡ None) (λ place. id ≡ self.now.first + place) }
    {
        if id < self.first {
            return None;
        }
        let place = (id - self.first) as usize;
        if place < self.rows.len() || place / ROWS_FOR_EACH <= self.count {
            Some(place)
        } else {
            None
        }
    }

    /// Puts the clause under this id, in place of the one that was there.
    pub fn insert(&mut self, id: u64, clause: &'a Clause) -> Result<(), AllocError>
        ensures { OnOk result ((other : ℕ) → held_at self.new other ≡ with_clause id clause.now (held_at self.old) other) }
    {
        self.begin(id);
        self.count = self.count.saturating_add(1);
        match self.place_for(id) {
            Some(place) => put_in_row(&mut self.rows, place, clause),
            None => {
                self.in_tree.insert(id, clause)?;
                Ok(())
            }
        }
    }

    /// Takes the clause out of the row of this id, if there is one.
    fn clear(&mut self, id: u64)
        ensures rows { (other : ℕ) → row_at self.new other ≡ (if id == other then None else row_at self.old other) }
        ensures in_tree { self.new.in_tree ≡ self.old.in_tree }
    {
        if self.first <= id {
            clear_row(&mut self.rows, (id - self.first) as usize);
        }
    }

    /// Takes away the clause of this id, if there is one. Both places are cleared, since the tree may have an older clause under the id,
    /// which `get` would find once the row is empty.
    pub fn remove(&mut self, id: u64)
        ensures { (other : ℕ) → held_at self.new other ≡ without (id ∷ []) (held_at self.old) other }
    {
        self.clear(id);
        let _clause = self.in_tree.remove(&id);
    }
}

//! The ids under which a clause was active at the start and is so no more.

ghost use Rattle.std.specs.Prelude.{◌≡◌, ◌==◌, ◌<◌, ◌≤◌, ℕ, true, false, nat_lt, vec_len, if◌then◌else◌, OnOk};
ghost use Rattle.std.specs.BTreeSet.{contains};
ghost use Rattle.std.specs.Ordering.{nat_cmp};
ghost use Rattle.lrat_check.specs.Hidden.{is_hidden};
ghost use Rattle.lrat_check.specs.Marks.{marked_at};

use crate::marks::{is_paid, marked_at};
use std::alloc::{AllocError, Global};
use std::collections::BTreeSet;

/// The ids that are hidden; an id that is hidden stays so. A table has the ids that those hidden before pay for, so what is hidden near the
/// end of a large formula costs no table as long as the formula; ids past the table stand in a tree.
#[derive(Drop)]
pub struct HiddenIds {
    /// Whether each id from 0 on is hidden, up to the table's end. For these ids the table alone is asked.
    pub near: Vec<bool>,
    /// Hidden ids past the end that the table had when they were added. They stay here when the table grows past them.
    pub far: BTreeSet<usize>,
    /// The number of calls of `add`, by which the table may grow (`is_paid`).
    hidden: usize,
}

impl HiddenIds {
    /// No id is hidden.
    pub fn new(alloc: Global) -> HiddenIds
        ensures { (k : ℕ) → is_hidden result k ≡ false }
    {
        HiddenIds {
            near: Vec::new(alloc),
            far: BTreeSet::new(alloc),
            hidden: 0,
        }
    }

    /// Returns whether the table reaches to the id.
    pub fn reaches(&self, id: usize) -> bool
        ensures { result ≡ nat_lt id (vec_len self.now.near) }
    {
        id < self.near.len()
    }

    /// Returns whether the table hides the id.
    pub fn table_hides(&self, id: usize) -> bool
        ensures { result ≡ marked_at self.now.near.items id }
    {
        marked_at(self.near.as_slice(), id)
    }

    /// Looks for the id in the tree. The search is long and seldom made, so it stands apart from what is done for each id.
    #[inline(never)]
    fn search_tree(&self, id: usize) -> bool
        ensures { result ≡ contains nat_cmp self.now.far id }
    {
        self.far.contains(&id)
    }

    /// Returns whether the id stands in the tree.
    fn tree_hides(&self, id: usize) -> bool
        ensures { result ≡ contains nat_cmp self.now.far id }
    {
        if self.far.is_empty() {
            return false;
        }
        self.search_tree(id)
    }

    /// Returns whether the id is hidden.
    pub fn has(&self, id: usize) -> bool
        ensures { result ≡ is_hidden self.now id }
    {
        if id < self.near.len() {
            self.near[id]
        } else {
            self.tree_hides(id)
        }
    }

    /// Makes the table reach to this id. What is hidden stays so: each new row takes over what the tree says of its id.
    fn reach(&mut self, id: usize) -> Result<(), AllocError>
        ensures room { OnOk result (id < vec_len self.new.near) }
        ensures same { (k : ℕ) → is_hidden self.new k ≡ is_hidden self.old k }
    {
        while self.near.len() <= id {
            let next = self.tree_hides(self.near.len());
            self.near.push(next)?;
        }
        Ok(())
    }

    /// Puts the id into the table.
    fn add_near(&mut self, id: usize) -> Result<(), AllocError>
        ensures { OnOk result ((k : ℕ) → is_hidden self.new k ≡ (if id == k then true else is_hidden self.old k)) }
    {
        self.reach(id)?;
        self.near[id] = true;
        Ok(())
    }

    /// Puts the id into the tree.
    fn add_far(&mut self, id: usize) -> Result<(), AllocError>
        requires { vec_len self.old.near ≤ id }
        ensures { OnOk result ((k : ℕ) → is_hidden self.new k ≡ (if id == k then true else is_hidden self.old k)) }
    {
        self.far.insert(id)?;
        Ok(())
    }

    /// Hides the id.
    pub fn add(&mut self, id: usize) -> Result<(), AllocError>
        ensures { OnOk result ((k : ℕ) → is_hidden self.new k ≡ (if id == k then true else is_hidden self.old k)) }
    {
        self.hidden = self.hidden.saturating_add(1);
        if id < self.near.len() || is_paid(id, self.hidden) {
            self.add_near(id)
        } else {
            self.add_far(id)
        }
    }
}

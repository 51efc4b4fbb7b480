//! How often literals stand in the active clauses of one derivation, beside how often they stand in the formula.

ghost use Rattle.std.specs.Prelude.{◌≡◌, [], ◌∷◌, ℕ, ℤ, List, Option, Some, None, IfOk, OnOk};
ghost use Rattle.lrat_check.specs.Active.{numbered, with_clause, without};
ghost use Rattle.lrat_check.specs.Counted.{AreChanges};
ghost use Rattle.lrat_check.specs.Counts.{IsCount};

use crate::literal_counts::LiteralCounts;
use dimacs::Lit;
use std::alloc::{AllocError, Global};

/// How often each literal stands in the clauses that became active after the formula's own, and in those that are active no more.
/// What is the same as in the formula has no entry, so a derivation costs what it touches itself.
pub struct CountChanges {
    /// Counts in all clauses that ever became active, those among them that were taken off again too.
    more: LiteralCounts,
    /// Counts in all clauses that were ever taken off.
    less: LiteralCounts,
}

/// Drops the counts in one call. A derived `Drop` would drop each at every exit of a function that owns changes, which makes its proof longer.
impl Drop for CountChanges {
    fn drop(self) {
        let CountChanges {
            more: _more,
            less: _less,
        } = self;
    }
}

impl CountChanges {
    /// The clauses are those of the formula.
    pub fn new(alloc: Global) -> CountChanges
        ensures { (clauses : List (List ℤ)) → AreChanges clauses (numbered clauses) result }
    {
        let more = LiteralCounts::new(alloc);
        let less = LiteralCounts::new(alloc);
        CountChanges { more, less }
    }

    /// Counts a clause that becomes active.
    pub fn add(&mut self, clause: &[Lit]) -> Result<(), AllocError>
        ensures { OnOk result ((clauses : List (List ℤ)) (active : ℕ → Option (List ℤ)) (id : ℕ) → active id ≡ None → AreChanges clauses active self.old →
            AreChanges clauses (with_clause id clause.now active) self.new) }
    {
        self.more.add(clause)
    }

    /// Takes a clause off that is active no more.
    pub fn remove(&mut self, clause: &[Lit]) -> Result<(), AllocError>
        ensures { OnOk result ((clauses : List (List ℤ)) (active : ℕ → Option (List ℤ)) (id : ℕ) → active id ≡ Some clause.now → AreChanges clauses active self.old →
            AreChanges clauses (without (id ∷ []) active) self.new) }
    {
        self.less.add(clause)
    }

    /// The number of times that the literal stands in the active clauses, if it stands `base` times in the formula's. No clause is taken
    /// off that was not counted before, so the subtraction never saturates. A sum too large for a `usize` would be answered as memory that
    /// ran out, as in `LiteralCounts`.
    pub fn applied(&self, literal: Lit, base: usize) -> Result<usize, AllocError>
        ensures { IfOk result (λ count. (clauses : List (List ℤ)) (active : ℕ → Option (List ℤ)) → AreChanges clauses active self.now → IsCount (numbered clauses) literal base →
            IsCount active literal count) }
    {
        match base.checked_add(self.more.of(literal)) {
            Some(all) => Ok(all.saturating_sub(self.less.of(literal))),
            None => Err(AllocError),
        }
    }
}

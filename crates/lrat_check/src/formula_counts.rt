//! How often literals stand in the clauses of a formula, counted once for all derivations over it.

ghost use Rattle.std.specs.Prelude.{◌≡◌, ◌+◌, ◌<◌, [], ℤ, List, length, slice_index_or, IfOk, OnOk};
ghost use Rattle.lrat_check.specs.Active.{numbered};
ghost use Rattle.lrat_check.specs.Counted.{AreFormulaCounts};
ghost use Rattle.lrat_check.specs.Counts.{AreLiteralCounts, IsCount, literal_count, times};

use crate::literal_counts::LiteralCounts;
use dimacs::{ClauseList, Lit};
use std::alloc::{AllocError, Global};

/// The counts of the literals of one formula's clauses, from the first time that one is asked for: derivations without RAT steps
/// need none. All derivations over the formula share them, so the walk through its clauses is made once. Nothing in the value names the
/// formula: the caller must give the same one at each call, as `AreFormulaCounts` demands.
#[derive(Drop)]
pub struct FormulaCounts {
    counts: Option<LiteralCounts>,
}

/// Counts the clause at this place of the formula.
fn count_clause<F: ClauseList>(
    formula: &F,
    place: usize,
    counts: &mut LiteralCounts,
) -> Result<(), AllocError>
    requires { place < length (F.formula formula.now).clauses }
    ensures { OnOk result ((z : ℤ) → literal_count counts.new z ≡ literal_count counts.old z + times (slice_index_or (F.formula formula.now).clauses place []) z) }
{
    counts.add(formula.clause(place).as_slice())
}

/// The counts of the literals of the formula's clauses.
fn counts_of<F: ClauseList>(alloc: Global, formula: &F) -> Result<LiteralCounts, AllocError>
    ensures { IfOk result (λ counts. AreLiteralCounts (numbered (F.formula formula.now).clauses) counts) }
{
    let mut counts = LiteralCounts::new(alloc);
    for place in 0..formula.count() {
        count_clause(&*formula, place, &mut counts)?;
    }
    Ok(counts)
}

impl FormulaCounts {
    /// The counts of any formula: nothing is counted yet.
    pub fn new() -> FormulaCounts
        ensures { (clauses : List (List ℤ)) → AreFormulaCounts clauses result }
    {
        FormulaCounts { counts: None }
    }

    /// The number of times that the literal stands in the formula's clauses.
    pub(crate) fn of<F: ClauseList>(
        &mut self,
        alloc: Global,
        formula: &F,
        literal: Lit,
    ) -> Result<usize, AllocError>
        ensures kept { AreFormulaCounts (F.formula formula.now).clauses self.old → AreFormulaCounts (F.formula formula.now).clauses self.new }
        ensures count { IfOk result (λ count. AreFormulaCounts (F.formula formula.now).clauses self.old → IsCount (numbered (F.formula formula.now).clauses) literal count) }
    {
        if let Some(counts) = &self.counts {
            return Ok(counts.of(literal));
        }
        let counts = counts_of(alloc, formula)?;
        let count = counts.of(literal);
        self.counts = Some(counts);
        Ok(count)
    }
}

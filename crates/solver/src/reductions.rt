//! When learned clauses are dropped.

/// Conflicts before the first reduction. Other numbers moved the mean of the conflicts by less than the choice of runs does.
pub const FIRST_REDUCTION: u32 = 500;

/// Increment of the interval between two reductions, in conflicts.
const REDUCTION_GROWTH: u32 = 50;

/// Conflicts before the first reduction of a search that goes on in rounds. It has the clauses of three others beside its own, and each takes time at
/// every literal that it watches: with 500 and 50, as a search by itself has, the four took 286 thousand conflicts on 24 traces and looked at 104 million
/// clauses, and with 200 and 20 they took 248 thousand and looked at 57 million.
const ROUNDS_FIRST_REDUCTION: u32 = 200;

/// The increment there.
const ROUNDS_REDUCTION_GROWTH: u32 = 20;

/// Counts conflicts from one reduction of the clause database to the next.
#[derive(Clone, Copy)]
pub struct Reductions {
    /// Conflicts of the interval at hand.
    gap: u32,
    /// By how many the next interval is longer.
    growth: u32,
    /// Conflicts up to the next reduction.
    left: u32,
}

impl Reductions {
    /// The first reduction comes after this many conflicts.
    pub fn after(first: u32) -> Reductions {
        Reductions {
            gap: first,
            growth: REDUCTION_GROWTH,
            left: first,
        }
    }

    /// Those of a search that goes on in rounds.
    pub fn in_rounds() -> Reductions {
        Reductions {
            gap: ROUNDS_FIRST_REDUCTION,
            growth: ROUNDS_REDUCTION_GROWTH,
            left: ROUNDS_FIRST_REDUCTION,
        }
    }

    /// Counts a conflict, and answers whether a reduction is due.
    pub fn count(&mut self) -> bool {
        self.left = self.left.saturating_sub(1);
        if self.left > 0 {
            return false;
        }
        self.gap = self.gap.saturating_add(self.growth);
        self.left = self.gap;
        true
    }
}

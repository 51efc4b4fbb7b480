//! Which three operations a clause of transitivity is about, by the lowest of them and the clause's place.

ghost use Rattle.std.specs.Prelude.{◌≡◌, ◌<◌, ◌≤◌, ◌+◌, [], length, map, slice_index_or, IfOk};
ghost use Rattle.std.specs.List.{range_with_len};
ghost use Rattle.clause_blocks.specs.Blocks.{transitivity_from};
ghost use Rattle.clause_blocks.specs.Triples.{below_middle, clause_of_triple};

use crate::table_search::Landmarks;
use std::alloc::{AllocError, Global};
use std::marker::Model;

/// Three operations, by rising number, and which of their two clauses.
#[derive(Clone, Copy)]
pub(crate) struct Triple {
    pub(crate) lowest: usize,
    pub(crate) middle: usize,
    pub(crate) highest: usize,
    pub(crate) is_second: bool,
}

/// The number of clauses of transitivity of one lowest operation that stand before those of each middle one.
#[derive(Drop)]
pub(crate) struct TripleTable {
    operations: usize,
    /// In row j the sum, over all operations below j, of two clauses for each operation above them. With one lowest operation, each middle one
    /// has just these clauses, whichever the lowest is: one table serves all.
    middle: Vec<u32>,
    /// The landmarks of `middle`, by which the last row is found that is not above a clause's place.
    near: Landmarks,
}

impl Model for TripleTable {
    ghost use Rattle.std.specs.Prelude.{◌≡◌, ◌≤◌, ◌+◌, ℕ, map};
    ghost use Rattle.std.specs.List.{range_with_len};
    ghost use Rattle.clause_blocks.specs.Triples.{below_middle};

    /// The number of operations.
    ghost Value = { ℕ };

    ghost view = { λ table. table.operations };

    ghost invariant = { λ table. (table.operations ≤ 160) × (table.middle.items ≡ map (below_middle table.operations) (range_with_len 0 (table.operations + 1))) };
}

/// The number of clauses of one lowest operation with a middle one below each number.
fn middle_table(alloc: Global, operations: usize) -> Result<Vec<u32>, AllocError>
    requires { operations ≤ 160 }
    ensures { IfOk result (λ table. table.items ≡ map (below_middle operations) (range_with_len 0 (operations + 1))) }
{
    let mut table = Vec::with_capacity(alloc, operations + 1)?;
    let mut below = 0;
    for j in 0..operations {
        table.push(below)?;
        below += 2 * (operations - j - 1) as u32;
    }
    table.push(below)?;
    Ok(table)
}

impl TripleTable {
    /// The table for this number of operations.
    pub(crate) fn of(alloc: Global, operations: usize) -> Result<TripleTable, AllocError>
        requires { operations ≤ 160 }
        ensures { IfOk result (λ table. table ≡ operations) }
    {
        let middle = middle_table(alloc, operations)?;
        let near = Landmarks::of(alloc, middle.as_slice())?;
        Ok(TripleTable {
            operations,
            middle,
            near,
        })
    }

    /// The operations of the clause at this place, counted from 0, among those of which i is the lowest operation.
    pub(crate) fn triple(&self, i: usize, place: usize) -> Triple
        requires { place < length (transitivity_from self.now i) }
        ensures first { result.lowest < result.middle }
        ensures second { result.middle < result.highest }
        ensures within { result.highest < self.now }
        ensures clause { slice_index_or (transitivity_from self.now i) place [] ≡ clause_of_triple self.now result }
    {
        let middle = self.middle.as_slice();
        // Middle operations begin at i + 1, so the clauses of those up to i are added to the place before the search.
        let row = place as u32 + middle[i + 1];
        let j = self.near.reached(middle, i + 1, self.operations, row);
        let left = row - middle[j];
        Triple {
            lowest: i,
            middle: j,
            highest: j + 1 + (left / 2) as usize,
            is_second: left % 2 == 1,
        }
    }
}

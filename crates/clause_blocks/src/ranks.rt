//! Whether truth values put the operations in an order: one look at each pair of them, in place of one at each three.

ghost use Rattle.std.specs.Prelude.{◌<◌, slice_index, IsTrue};
ghost use Rattle.dimacs.specs.Assignment.{value_of};
ghost use Rattle.dimacs.specs.Models.{IsModel};
ghost use Rattle.trace_semantics.specs.Trace.{operation_count};
ghost use Rattle.clause_blocks.specs.Blocks as blocks;
ghost use Rattle.clause_blocks.specs.Ranks.{IsRankedFrom};

use crate::laws::ranked_without_cycle;
use dimacs::Assignment;
use var_layout::layout::{Layout, MAX_LAYOUT_OPERATIONS};

/// The number of operations before each one, as the assignment says. Wrong ranks would cost time and no more, since each
/// pair is compared with them. A rank is at most 159, so no sum wraps.
fn ranks(layout: &Layout, assignment: &Assignment) -> [u8; MAX_LAYOUT_OPERATIONS] {
    layout.recall_limits();
    let mut ranks = [0u8; MAX_LAYOUT_OPERATIONS];
    for i in 0..layout.operations() {
        for j in i + 1..layout.operations() {
            let later = if layout.is_put_before(assignment, i, j) {
                j
            } else {
                i
            };
            ranks[later] = ranks[later].wrapping_add(1);
        }
    }
    ranks
}

/// Returns whether the assignment says of an operation and each later one that the one of the lower rank stands first. `recall_limits` gives the
/// proof that there are at most 160 operations, so each has a rank in the table. `false` claims nothing and costs time alone: `eval` then looks at
/// each clause of transitivity.
fn agrees_from(
    layout: &Layout,
    assignment: &Assignment,
    ranks: &[u8; MAX_LAYOUT_OPERATIONS],
    i: usize,
) -> bool
    requires { i < operation_count layout.now }
    ensures { IsTrue result → IsRankedFrom (value_of assignment.now) (operation_count layout.now) (slice_index ranks.now) i }
{
    layout.recall_limits();
    for j in i + 1..layout.operations() {
        if layout.is_put_before(assignment, i, j) != (ranks[i] < ranks[j]) {
            return false;
        }
    }
    true
}

/// Returns whether the assignment puts the operations in an order, so that no three of them stand in a cycle.
pub(crate) fn puts_in_order(layout: &Layout, assignment: &Assignment) -> bool
    ensures { IsTrue result → IsModel (value_of assignment.now) (blocks.transitivity (operation_count layout.now)) }
{
    ranked_without_cycle();
    let ranks = ranks(layout, assignment);
    for i in 0..layout.operations() {
        if !agrees_from(layout, assignment, &ranks, i) {
            return false;
        }
    }
    true
}

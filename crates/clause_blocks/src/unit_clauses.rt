//! Pairs of which the trace itself says the order, by program order, before pairs and times: the first of each stands before the second.

ghost use Rattle.std.specs.Prelude.{◌≡◌, IfOk};
ghost use Rattle.clause_blocks.specs.Blocks.{before_clauses, program_order};

use dimacs::Clause;
use std::alloc::{AllocError, Global};
use var_layout::layout::Layout;

/// The clauses of program order, of direct neighbours alone: transitivity gives the other pairs. Operations are numbered process by process, so the
/// next one of the process, if there is one, is i + 1.
pub(crate) fn clauses_of_program_order(
    alloc: Global,
    layout: &Layout,
) -> Result<Vec<Clause>, AllocError>
    ensures { IfOk result (λ clauses. clauses.items ≡ program_order layout.now) }
{
    layout.recall_limits();
    let mut clauses = Vec::new(alloc);
    for i in 0..layout.operations() {
        if layout.in_one_process(i, i + 1) {
            clauses.push(Clause::unit(alloc, layout.order_lit(i, i + 1)))?;
        }
    }
    Ok(clauses)
}

/// The clauses of the pairs of which a before pair or times say that the first stands before the second: a unit clause for each.
pub(crate) fn clauses_of_before(alloc: Global, layout: &Layout) -> Result<Vec<Clause>, AllocError>
    ensures { IfOk result (λ clauses. clauses.items ≡ before_clauses layout.now) }
{
    layout.recall_limits();
    let mut clauses = Vec::new(alloc);
    for pair in layout.before() {
        clauses.push(Clause::unit(alloc, layout.order_lit(pair.0, pair.1)))?;
    }
    Ok(clauses)
}

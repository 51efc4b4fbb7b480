//! Transitivity clauses, made in parallel by the threads of `rayon`.

ghost use Rattle.std.specs.Prelude.{◌≡◌, ◌<◌, ◌≤◌, ◌*◌, ◌++◌, map, IsTrue, IfOk, OnOk};
ghost use Rattle.std.specs.List.{filter, flat_map, range_with_len};
ghost use Rattle.trace_semantics.specs.Trace.{operation_count};
ghost use Rattle.clause_blocks.specs.Blocks as blocks;
ghost use Rattle.clause_blocks.specs.Cycles.{both, cycle_at, cycle_of, is_above};

use dimacs::Clause;
use rayon::prelude::*;
use std::alloc::{AllocError, Global};
use std::thread::Threads;
use var_layout::layout::Layout;

/// The two clauses of three operations, which say that they do not stand in a cycle, neither way round.
#[derive(Drop)]
pub(crate) struct TripleClauses {
    first: Clause,
    second: Clause,
}

impl TripleClauses {
    /// The two clauses of three operations i, j and k. A clause of three literals allocates nothing.
    fn of(alloc: Global, layout: &Layout, i: usize, j: usize, k: usize) -> TripleClauses
        requires rising { i < j }
        requires above { j < k }
        requires within { k < operation_count layout.now }
        ensures { result ≡ cycle_of (operation_count layout.now) i j k }
    {
        let ij = layout.order_lit(i, j);
        let jk = layout.order_lit(j, k);
        let ik = layout.order_lit(i, k);
        TripleClauses {
            first: Clause::ternary(alloc, ij.negated(), jk.negated(), ik),
            second: Clause::ternary(alloc, ij, jk, ik.negated()),
        }
    }
}

/// The clauses of all operations i < j < k for this i, by j and then by k. The index j * n + k stands for the two, so that `rayon` keeps
/// this order; indices whose j and k do not satisfy i < j < k are left out. The result does not depend on the number of threads.
fn cycles_from<R: Threads + Sync>(
    alloc: Global,
    rt: &R,
    layout: &Layout,
    i: usize,
) -> Result<Vec<TripleClauses>, AllocError>
    requires { i < operation_count layout.now }
    ensures { IfOk result (λ cycles. cycles.items ≡ map (cycle_at (operation_count layout.now) i) (filter (is_above (operation_count layout.now) i) (range_with_len 0 (operation_count layout.now * operation_count layout.now)))) }
{
    // A law, which does nothing when run: the number of operations is small enough for its square.
    layout.recall_limits();
    let n = layout.operations();
    (0..n * n)
        .into_par_iter()
        .filter(
            |pair: &usize| -> bool
                requires { 0 < n }
                ensures { result ≡ is_above n i pair.now }
            { i < *pair / n && *pair / n < *pair % n },
        )
        .map(
            |pair: usize| -> TripleClauses
                requires { IsTrue (is_above n i pair) × (0 < n) × (n ≡ operation_count layout.now) }
                ensures { result ≡ cycle_at n i pair }
            { TripleClauses::of(alloc, layout, i, pair / n, pair % n) },
        )
        .collect(rt, alloc)
}

/// Appends the clauses, triple by triple.
fn push_cycles(cycles: Vec<TripleClauses>, clauses: &mut Vec<Clause>) -> Result<(), AllocError>
    ensures { OnOk result (clauses.new.items ≡ clauses.old.items ++ flat_map both cycles.items) }
{
    for cycle in cycles {
        clauses.push(cycle.first)?;
        clauses.push(cycle.second)?;
    }
    Ok(())
}

/// Appends the transitivity clauses of all operations i < j < k for this i: the same ones in the same order as `push_transitivity_from`,
/// but made in parallel. If there is no operation i, it appends nothing.
pub(crate) fn push_transitivity_in_threads<R: Threads + Sync>(
    alloc: Global,
    rt: &R,
    layout: &Layout,
    i: usize,
    clauses: &mut Vec<Clause>,
) -> Result<(), AllocError>
    ensures { OnOk result (clauses.new.items ≡ clauses.old.items ++ blocks.transitivity_from (operation_count layout.now) i) }
{
    if layout.operations() <= i {
        return Ok(());
    }
    push_cycles(cycles_from(alloc, rt, layout, i)?, clauses)
}

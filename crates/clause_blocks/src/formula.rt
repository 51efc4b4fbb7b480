//! The formula of a reduced trace.

ghost use Rattle.std.specs.Prelude.{◌≡◌, ◌≤◌, ◌++◌, IfOk, OnOk};
ghost use Rattle.trace_semantics.specs.Trace.{operation_count};
ghost use Rattle.clause_blocks.specs.Clauses.{clauses_of, formula_of};
ghost use Rattle.clause_blocks.specs.Pieces.{clauses_in};

use crate::laws::formula_is_over_its_variables;
use crate::parallel_transitivity::push_transitivity_in_threads;
use crate::pieces::Piece;
use crate::trace_clauses::TraceClauses;
use crate::transitivity::push_transitivity_from;
use dimacs::{Clause, Formula};
use reducer::reduced::Reduced;
use std::alloc::{AllocError, Global};
use std::thread::Threads;
use var_layout::layout::Layout;

/// Appends copies of the clauses.
fn push_copies(
    alloc: Global,
    stored: &[Clause],
    clauses: &mut Vec<Clause>,
) -> Result<(), AllocError>
    ensures { OnOk result (clauses.new.items ≡ clauses.old.items ++ stored.now) }
{
    for clause in stored {
        clauses.push(Clause::from_slice(alloc, clause.as_slice())?)?;
    }
    Ok(())
}

/// Appends the clauses of a piece. With two workers or more, threads make those of transitivity.
fn push_piece<R: Threads + Sync>(
    alloc: Global,
    rt: &R,
    layout: &Layout,
    piece: Piece<'_>,
    workers: u32,
    clauses: &mut Vec<Clause>,
) -> Result<(), AllocError>
    ensures { OnOk result (clauses.new.items ≡ clauses.old.items ++ clauses_in (operation_count layout.now) piece.entry) }
{
    match piece {
        Piece::Stored(stored) => push_copies(alloc, stored, clauses),
        Piece::TransitivityFrom(i) if workers > 1 => push_transitivity_in_threads(
            alloc, rt, layout, i, clauses,
        ),
        Piece::TransitivityFrom(i) => push_transitivity_from(alloc, layout, i, clauses),
    }
}

/// All clauses, in order.
fn clause_list<R: Threads + Sync>(
    alloc: Global,
    rt: &R,
    clauses: &TraceClauses,
    workers: u32,
) -> Result<Vec<Clause>, AllocError>
    ensures { IfOk result (λ made. made.items ≡ clauses_of clauses.now) }
{
    let mut made = Vec::with_capacity(alloc, clauses.clause_count())?;
    for k in 0..clauses.pieces() {
        push_piece(
            alloc,
            rt,
            clauses.layout(),
            clauses.piece(k),
            workers,
            &mut made,
        )?;
    }
    Ok(made)
}

/// The formula of the kept trace. It is the same whatever the number of workers. With one, no thread is started.
pub fn formula<R: Threads + Sync>(
    alloc: Global,
    rt: &R,
    reduced: &Reduced,
    workers: u32,
) -> Result<Formula, AllocError>
    requires some { 1 ≤ workers }
    requires few { workers ≤ 8 }
    ensures { IfOk result (λ formula. formula ≡ formula_of reduced.now.kept) }
{
    let clauses = TraceClauses::of(alloc, reduced)?;
    clauses.recall_limits();
    formula_is_over_its_variables();
    let made = clause_list(alloc, rt, &clauses, workers)?;
    Ok(Formula::new(clauses.layout().count(), made))
}

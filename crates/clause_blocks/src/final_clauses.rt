//! Final values: one of the writers that leave a final value is the last one, and what that means.

ghost use Rattle.std.specs.Prelude.{◌≡◌, ◌<◌, ◌++◌, ◌∷◌, [], None, length, pos, map, IfOk, OnOk};
ghost use Rattle.std.specs.List.{All};
ghost use Rattle.trace_semantics.specs.Trace.{operation_count};
ghost use Rattle.var_layout.specs.FinalVariables.{void_final};
ghost use Rattle.var_layout.specs.Numbers.{others};
ghost use Rattle.clause_blocks.specs.Blocks as blocks;
ghost use Rattle.clause_blocks.specs.FinalClauses.{clauses_at};
ghost use Rattle.clause_blocks.specs.Ranges.{FitsFormula};

use crate::void_clauses::push_void;
use dimacs::{Clause, Lit};
use std::alloc::{AllocError, Global};
use var_layout::candidate::FinalChoice;
use var_layout::layout::{Layout, ReadsFromOwner};

/// The literals that say that a writer is the last one.
fn literals_of(alloc: Global, finals: &[FinalChoice]) -> Result<Vec<Lit>, AllocError>
    requires { All (λ (c : FinalChoice). FitsFormula c.variable) finals.now }
    ensures { IfOk result (λ literals. literals.items ≡ map (λ (c : FinalChoice). pos c.variable) finals.now) }
{
    let mut literals = Vec::with_capacity(alloc, finals.len())?;
    for choice in finals {
        literals.push(Lit::positive(choice.variable))?;
    }
    Ok(literals)
}

/// Appends what it means that a writer is the last one of these: each other one stands before it. So no two can be the last, and no clause
/// has to say that.
fn push_writes_last(
    alloc: Global,
    layout: &Layout,
    writers: &[usize],
    choice: FinalChoice,
    clauses: &mut Vec<Clause>,
) -> Result<(), AllocError>
    requires writers { All (λ v. v < operation_count layout.now) writers.now }
    requires writer { choice.writer < operation_count layout.now }
    requires variable { FitsFormula choice.variable }
    ensures { OnOk result (clauses.new.items ≡ clauses.old.items ++ map (λ v. blocks.implies choice.variable (blocks.stands_before layout.now v choice.writer ∷ [])) (others choice.writer writers.now)) }
{
    let unchosen = Lit::positive(choice.variable).negated();
    for v in writers {
        if *v != choice.writer {
            let before = layout.order_lit(*v, choice.writer);
            clauses.push(Clause::binary(alloc, unchosen, before))?;
        }
    }
    Ok(())
}

/// Appends the clauses of a final value that some writer leaves or that is there from the start. In the second case nothing writes the
/// location, and there are none.
fn push_finals(
    alloc: Global,
    layout: &Layout,
    k: usize,
    clauses: &mut Vec<Clause>,
) -> Result<(), AllocError>
    requires within { k < length layout.now.final_values }
    requires not_void { void_final layout.now k ≡ None }
    ensures { OnOk result (clauses.new.items ≡ clauses.old.items ++ clauses_at layout.now k) }
{
    layout.recall_limits();
    let finals = layout.finals(k);
    if finals.is_empty() {
        return Ok(());
    }
    let literals = literals_of(alloc, finals)?;
    clauses.push(Clause::from_slice(alloc, literals.as_slice())?)?;
    let writers = layout.final_writers(k);
    for choice in finals {
        push_writes_last(alloc, layout, writers, *choice, clauses)?;
    }
    Ok(())
}

/// Appends the clauses of the k-th final value.
fn push_clauses_of_final(
    alloc: Global,
    layout: &Layout,
    k: usize,
    clauses: &mut Vec<Clause>,
) -> Result<(), AllocError>
    requires { k < length layout.now.final_values }
    ensures { OnOk result (clauses.new.items ≡ clauses.old.items ++ clauses_at layout.now k) }
{
    layout.recall_limits();
    match layout.void_var(ReadsFromOwner::Final(k)) {
        Some(variable) => push_void(alloc, variable, clauses),
        None => push_finals(alloc, layout, k, clauses),
    }
}

/// The clauses of all final values.
pub(crate) fn clauses_of_finals(alloc: Global, layout: &Layout) -> Result<Vec<Clause>, AllocError>
    ensures { IfOk result (λ clauses. clauses.items ≡ blocks.final_clauses layout.now) }
{
    let mut clauses = Vec::new(alloc);
    for k in 0..layout.final_values() {
        push_clauses_of_final(alloc, layout, k, &mut clauses)?;
    }
    Ok(clauses)
}

//! Transitivity: the order of the operations has no cycle of three.
//!
//! `push_transitivity_from` makes clauses for a formula that stands in memory (`formula.rt`; with several workers `parallel_transitivity.rt` does).
//! `put_transitivity_from` writes their lines (`stream_cnf.rt`) and keeps none, since their number grows with the cube of that of the operations.

ghost use Rattle.std.specs.Prelude.{◌≡◌, ◌<◌, ◌≤◌, ◌+◌, ◌++◌, ◌∷◌, [], length, neg_ℤ, OnOk, OnErr};
ghost use Rattle.std.specs.List.{flat_map};
ghost use Rattle.dimacs.specs.CnfText.{clause_line};
ghost use Rattle.dimacs.specs.Sink.{AppendsFront, IsSent};
ghost use Rattle.trace_semantics.specs.Trace.{operation_count};
ghost use Rattle.var_layout.specs.OrderVariables.{numbers_above};
ghost use Rattle.clause_blocks.specs.Blocks.{no_cycle};
ghost use Rattle.clause_blocks.specs.Blocks as blocks;

use dimacs::{Clause, CnfWriter, Failed, Lit, Sink};
use std::alloc::{AllocError, Global};
use var_layout::layout::Layout;

/// Appends the two clauses of three operations i, j and k, by the literals of their pairs: i before j and j before k give i before k, and
/// the same with the three orders turned round. These are the only two ways in which three can stand in a cycle.
fn push_no_cycle(
    alloc: Global,
    ij: Lit,
    jk: Lit,
    ik: Lit,
    clauses: &mut Vec<Clause>,
) -> Result<(), AllocError>
    ensures { OnOk result (clauses.new.items ≡ clauses.old.items ++ (neg_ℤ ij ∷ neg_ℤ jk ∷ ik ∷ []) ∷ (ij ∷ jk ∷ neg_ℤ ik ∷ []) ∷ []) }
{
    clauses.push(Clause::ternary(alloc, ij.negated(), jk.negated(), ik))?;
    clauses.push(Clause::ternary(alloc, ij, jk, ik.negated()))?;
    Ok(())
}

/// Appends the clauses of a pair i below j and each operation above j.
fn push_of_pair(
    alloc: Global,
    layout: &Layout,
    i: usize,
    j: usize,
    clauses: &mut Vec<Clause>,
) -> Result<(), AllocError>
    requires rising { i < j }
    requires within { j < operation_count layout.now }
    ensures { OnOk result (clauses.new.items ≡ clauses.old.items ++ flat_map (λ k. no_cycle (operation_count layout.now) i j k) (numbers_above (operation_count layout.now) j)) }
{
    let ij = layout.order_lit(i, j);
    for k in j + 1..layout.operations() {
        push_no_cycle(
            alloc,
            ij,
            layout.order_lit(j, k),
            layout.order_lit(i, k),
            clauses,
        )?;
    }
    Ok(())
}

/// Appends the clauses of three operations of which this one is the lowest; none if there is no operation of this number.
pub(crate) fn push_transitivity_from(
    alloc: Global,
    layout: &Layout,
    i: usize,
    clauses: &mut Vec<Clause>,
) -> Result<(), AllocError>
    ensures { OnOk result (clauses.new.items ≡ clauses.old.items ++ blocks.transitivity_from (operation_count layout.now) i) }
{
    layout.recall_limits();
    let operations = layout.operations();
    if operations <= i {
        return Ok(());
    }
    for j in i + 1..operations {
        push_of_pair(alloc, layout, i, j, clauses)?;
    }
    Ok(())
}

/// Writes the clauses of a pair i below j and each operation above j.
fn put_of_pair<W: Sink>(
    layout: &Layout,
    i: usize,
    j: usize,
    writer: &mut CnfWriter,
    sink: &mut W,
) -> Result<(), Failed>
    requires rising { i < j }
    requires within { j < operation_count layout.now }
    ensures sent { OnOk result (IsSent (W.written sink.old) (W.written sink.new) writer.new (writer.old ++ flat_map clause_line (flat_map (no_cycle (operation_count layout.now) i j) (numbers_above (operation_count layout.now) j)))) }
    ensures well { OnOk result (W.failures sink.new ≡ W.failures sink.old) }
    ensures front { OnErr result (AppendsFront (W.written sink.old) (W.written sink.new) (writer.old ++ flat_map clause_line (flat_map (no_cycle (operation_count layout.now) i j) (numbers_above (operation_count layout.now) j)))) }
    ensures failed { OnErr result (W.failures sink.new ≡ W.failures sink.old + 1) }
    ensures same { W.path sink.new ≡ W.path sink.old }
{
    let ij = layout.order_lit(i, j);
    for k in j + 1..layout.operations() {
        let jk = layout.order_lit(j, k);
        let ik = layout.order_lit(i, k);
        writer.put_agreement(ij, jk, ik, sink)?;
    }
    Ok(())
}

/// Writes the clauses of three operations of which this one is the lowest. None of them is made before its text.
pub(crate) fn put_transitivity_from<W: Sink>(
    layout: &Layout,
    i: usize,
    writer: &mut CnfWriter,
    sink: &mut W,
) -> Result<(), Failed>
    ensures sent { OnOk result (IsSent (W.written sink.old) (W.written sink.new) writer.new (writer.old ++ flat_map clause_line (blocks.transitivity_from (operation_count layout.now) i))) }
    ensures well { OnOk result (W.failures sink.new ≡ W.failures sink.old) }
    ensures front { OnErr result (AppendsFront (W.written sink.old) (W.written sink.new) (writer.old ++ flat_map clause_line (blocks.transitivity_from (operation_count layout.now) i))) }
    ensures failed { OnErr result (W.failures sink.new ≡ W.failures sink.old + 1) }
    ensures same { W.path sink.new ≡ W.path sink.old }
{
    layout.recall_limits();
    let operations = layout.operations();
    if operations <= i {
        return Ok(());
    }
    for j in i + 1..operations {
        put_of_pair(layout, i, j, writer, sink)?;
    }
    Ok(())
}

/// The number of clauses of three operations of which this one is the lowest: two for each pair of the `above` operations that are higher.
pub(crate) fn count_transitivity_from(operations: usize, i: usize) -> usize
    requires { operations ≤ 160 }
    ensures { result ≡ length (blocks.transitivity_from operations i) }
{
    let above = operations.saturating_sub(i).saturating_sub(1);
    above * above.saturating_sub(1)
}

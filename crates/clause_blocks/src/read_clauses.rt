//! What is read: a reading operation reads from one of its candidates, and what that means.

ghost use Rattle.std.specs.Prelude.{◌≡◌, ◌<◌, ◌++◌, ◌∷◌, [], pos, map, IsSome, IfOk, OnOk};
ghost use Rattle.std.specs.List.{All, flat_map};
ghost use Rattle.trace_semantics.specs.Trace.{operation_count};
ghost use Rattle.var_layout.specs.ChoiceVariables.{choices};
ghost use Rattle.var_layout.specs.Numbers.{read_at, other_writers};
ghost use Rattle.clause_blocks.specs.Blocks.{implies, stands_before};
ghost use Rattle.clause_blocks.specs.Blocks as blocks;
ghost use Rattle.clause_blocks.specs.Ranges.{FitsFormula, AreTwo, IsSource};

use crate::void_clauses::push_void;
use dimacs::{Clause, Lit};
use std::alloc::{AllocError, Global};
use var_layout::candidate::{Candidate, ReadsFromChoice};
use var_layout::layout::{Layout, ReadsFromOwner};

/// The literals that say that a candidate is chosen.
fn literals_of(alloc: Global, choices: &[ReadsFromChoice]) -> Result<Vec<Lit>, AllocError>
    requires { All (λ (c : ReadsFromChoice). FitsFormula c.variable) choices.now }
    ensures { IfOk result (λ literals. literals.items ≡ map (λ (c : ReadsFromChoice). pos c.variable) choices.now) }
{
    let mut literals = Vec::with_capacity(alloc, choices.len())?;
    for choice in choices {
        literals.push(Lit::positive(choice.variable))?;
    }
    Ok(literals)
}

/// The literals that say that each other writer of its location stands after an operation.
fn others_after(alloc: Global, layout: &Layout, r: usize) -> Result<Vec<Lit>, AllocError>
    requires { r < operation_count layout.now }
    ensures { IfOk result (λ after. after.items ≡ map (stands_before layout.now r) (other_writers layout.now r)) }
{
    layout.recall_limits();
    let others = layout.other_writers(r);
    let mut after = Vec::with_capacity(alloc, others.len())?;
    for v in others {
        after.push(layout.order_lit(r, *v))?;
    }
    Ok(after)
}

/// Appends what it means that an operation reads the initial value: it stands before each other writer of the location.
fn push_reads_initial(
    alloc: Global,
    after: &[Lit],
    variable: u32,
    clauses: &mut Vec<Clause>,
) -> Result<(), AllocError>
    requires { FitsFormula variable }
    ensures { OnOk result (clauses.new.items ≡ clauses.old.items ++ map (λ literal. implies variable (literal ∷ [])) after.now) }
{
    let unchosen = Lit::positive(variable).negated();
    for literal in after {
        clauses.push(Clause::binary(alloc, unchosen, *literal))?;
    }
    Ok(())
}

/// A writer from which an operation may read, with the variable that says so.
#[derive(Clone, Copy)]
struct WriterChoice {
    writer: usize,
    variable: u32,
}

/// Appends what it means that an operation reads from a writer: the writer stands before it, and each other writer
/// before the writer or after the operation. The list `after` has the literals of the operation's other writers in the same order
/// (`others_after`).
fn push_reads_writer(
    alloc: Global,
    layout: &Layout,
    r: usize,
    after: &[Lit],
    choice: WriterChoice,
    clauses: &mut Vec<Clause>,
) -> Result<(), AllocError>
    requires two { AreTwo layout.now choice.writer r }
    requires after { after.now ≡ map (stands_before layout.now r) (other_writers layout.now r) }
    requires variable { FitsFormula choice.variable }
    ensures { OnOk result (clauses.new.items ≡ clauses.old.items ++ blocks.reads_from layout.now r choice.variable (Candidate.Writer choice.writer)) }
{
    layout.recall_limits();
    let w = choice.writer;
    let unchosen = Lit::positive(choice.variable).negated();
    clauses.push(Clause::binary(alloc, unchosen, layout.order_lit(w, r)))?;
    let writers = layout.other_writers(r);
    for k in 0..writers.len() {
        let v = writers[k];
        if v != w {
            let before = layout.order_lit(v, w);
            clauses.push(Clause::ternary(alloc, unchosen, before, after[k]))?;
        }
    }
    Ok(())
}

/// Appends what it means that an operation reads from this candidate.
fn push_reads_from(
    alloc: Global,
    layout: &Layout,
    r: usize,
    after: &[Lit],
    choice: ReadsFromChoice,
    clauses: &mut Vec<Clause>,
) -> Result<(), AllocError>
    requires after { after.now ≡ map (stands_before layout.now r) (other_writers layout.now r) }
    requires source { IsSource layout.now r choice.candidate }
    requires variable { FitsFormula choice.variable }
    ensures { OnOk result (clauses.new.items ≡ clauses.old.items ++ blocks.reads_from layout.now r choice.variable choice.candidate) }
{
    match choice.candidate {
        Candidate::InitialValue => push_reads_initial(alloc, after, choice.variable, clauses),
        Candidate::Writer(writer) => {
            let variable = choice.variable;
            let chosen = WriterChoice { writer, variable };
            push_reads_writer(alloc, layout, r, after, chosen, clauses)
        }
    }
}

/// Appends the clauses of a reading operation that has a candidate: one is chosen, and what each choice means. That no two are chosen needs
/// no clause of its own, since what two choices mean contradicts.
fn push_choices(
    alloc: Global,
    layout: &Layout,
    r: usize,
    clauses: &mut Vec<Clause>,
) -> Result<(), AllocError>
    requires { IsSome (read_at layout.now r) }
    ensures { OnOk result (clauses.new.items ≡ clauses.old.items ++ (map (λ (c : ReadsFromChoice). pos c.variable) (choices layout.now r) ∷ flat_map (λ (c : ReadsFromChoice). blocks.reads_from layout.now r c.variable c.candidate) (choices layout.now r))) }
{
    layout.recall_limits();
    let choices = layout.choices(r);
    let literals = literals_of(alloc, choices)?;
    clauses.push(Clause::from_slice(alloc, literals.as_slice())?)?;
    let after = others_after(alloc, layout, r)?;
    for choice in choices {
        push_reads_from(alloc, layout, r, after.as_slice(), *choice, clauses)?;
    }
    Ok(())
}

/// Appends the clauses of a reading operation.
fn push_clauses_of_read(
    alloc: Global,
    layout: &Layout,
    r: usize,
    clauses: &mut Vec<Clause>,
) -> Result<(), AllocError>
    requires { IsSome (read_at layout.now r) }
    ensures { OnOk result (clauses.new.items ≡ clauses.old.items ++ blocks.clauses_of_read layout.now r) }
{
    layout.recall_limits();
    match layout.void_var(ReadsFromOwner::Read(r)) {
        Some(variable) => push_void(alloc, variable, clauses),
        None => push_choices(alloc, layout, r, clauses),
    }
}

/// The clauses of all reading operations.
pub(crate) fn clauses_of_reads(alloc: Global, layout: &Layout) -> Result<Vec<Clause>, AllocError>
    ensures { IfOk result (λ clauses. clauses.items ≡ blocks.read_clauses layout.now) }
{
    let mut clauses = Vec::new(alloc);
    for r in 0..layout.operations() {
        if layout.is_reader(r) {
            push_clauses_of_read(alloc, layout, r, &mut clauses)?;
        }
    }
    Ok(clauses)
}

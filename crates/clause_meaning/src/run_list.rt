//! The runs of a clause list, in the order of the list.

ghost use Rattle.std.specs.Prelude.{◌≡◌, ◌<◌, ◌++◌, ◌∷◌, None, length, map, IsSome, IfOk, OnOk};
ghost use Rattle.var_layout.specs.ChoiceVariables.{choices};
ghost use Rattle.var_layout.specs.FinalVariables.{void_final};
ghost use Rattle.var_layout.specs.Numbers.{read_at};
ghost use Rattle.clause_meaning.specs.Runs as list;

use crate::run::ClauseRun;
use std::alloc::{AllocError, Global};
use var_layout::candidate::{Candidate, ReadsFromChoice};
use var_layout::layout::{Layout, ReadsFromOwner};

/// Appends a run for each operation that has a next one in its process.
fn push_program_order(layout: &Layout, runs: &mut Vec<ClauseRun>) -> Result<(), AllocError>
    ensures { OnOk result (runs.new.items ≡ runs.old.items ++ list.order_runs layout.now) }
{
    layout.recall_limits();
    for i in 0..layout.operations() {
        if layout.in_one_process(i, i + 1) {
            runs.push(ClauseRun::ProgramOrder(i))?;
        }
    }
    Ok(())
}

/// Appends a run for each operation as the lowest of three.
fn push_triples(layout: &Layout, runs: &mut Vec<ClauseRun>) -> Result<(), AllocError>
    ensures { OnOk result (runs.new.items ≡ runs.old.items ++ list.triple_runs layout.now) }
{
    for i in 0..layout.operations() {
        runs.push(ClauseRun::TriplesFrom(i))?;
    }
    Ok(())
}

/// The run of a choice of the reader.
fn run_of_choice(reader: usize, choice: ReadsFromChoice) -> ClauseRun
    ensures { result ≡ list.run_from reader choice.variable choice.candidate }
{
    let variable = choice.variable;
    match choice.candidate {
        Candidate::InitialValue => ClauseRun::FromInitial { reader, variable },
        Candidate::Writer(source) => ClauseRun::FromWriter {
            reader,
            variable,
            source,
        },
    }
}

/// Appends the runs of a reading operation that has a candidate.
fn push_choices(layout: &Layout, r: usize, runs: &mut Vec<ClauseRun>) -> Result<(), AllocError>
    requires { IsSome (read_at layout.now r) }
    ensures { OnOk result (runs.new.items ≡ runs.old.items ++ ClauseRun.HasSource r ∷ map (λ (c : ReadsFromChoice). list.run_from r c.variable c.candidate) (choices layout.now r)) }
{
    runs.push(ClauseRun::HasSource(r))?;
    let choices = layout.choices(r);
    for choice in choices {
        runs.push(run_of_choice(r, *choice))?;
    }
    Ok(())
}

/// Appends the runs of a reading operation.
fn push_runs_of_read(layout: &Layout, r: usize, runs: &mut Vec<ClauseRun>) -> Result<(), AllocError>
    requires { IsSome (read_at layout.now r) }
    ensures { OnOk result (runs.new.items ≡ runs.old.items ++ list.runs_of_read layout.now r) }
{
    match layout.void_var(ReadsFromOwner::Read(r)) {
        Some(variable) => {
            runs.push(ClauseRun::NoSource {
                reader: r,
                variable,
            })?;
            Ok(())
        }
        None => push_choices(layout, r, runs),
    }
}

/// Appends the runs of all reading operations.
fn push_reads(layout: &Layout, runs: &mut Vec<ClauseRun>) -> Result<(), AllocError>
    ensures { OnOk result (runs.new.items ≡ runs.old.items ++ list.read_runs layout.now) }
{
    for r in 0..layout.operations() {
        if layout.is_reader(r) {
            push_runs_of_read(layout, r, runs)?;
        }
    }
    Ok(())
}

/// Appends the runs of a final value that some writer leaves or that is there from the start.
fn push_finals(layout: &Layout, k: usize, runs: &mut Vec<ClauseRun>) -> Result<(), AllocError>
    requires within { k < length layout.now.final_values }
    ensures { OnOk result (runs.new.items ≡ runs.old.items ++ list.runs_unless_void layout.now k None) }
{
    let finals = layout.finals(k);
    if finals.is_empty() {
        return Ok(());
    }
    runs.push(ClauseRun::HasLast(k))?;
    for choice in finals {
        runs.push(ClauseRun::FromLast {
            final_value: k,
            variable: choice.variable,
            last: choice.writer,
        })?;
    }
    Ok(())
}

/// Appends the runs of the k-th final value.
fn push_runs_of_final(
    layout: &Layout,
    k: usize,
    runs: &mut Vec<ClauseRun>,
) -> Result<(), AllocError>
    requires { k < length layout.now.final_values }
    ensures { OnOk result (runs.new.items ≡ runs.old.items ++ list.runs_of_final layout.now k) }
{
    match layout.void_var(ReadsFromOwner::Final(k)) {
        Some(variable) => {
            runs.push(ClauseRun::NoLast {
                final_value: k,
                variable,
            })?;
            Ok(())
        }
        None => push_finals(layout, k, runs),
    }
}

/// Appends the runs of all final values.
fn push_final_values(layout: &Layout, runs: &mut Vec<ClauseRun>) -> Result<(), AllocError>
    ensures { OnOk result (runs.new.items ≡ runs.old.items ++ list.final_runs layout.now) }
{
    for k in 0..layout.final_values() {
        push_runs_of_final(layout, k, runs)?;
    }
    Ok(())
}

/// The runs of the clause list. The order of the families stands here and, for the clauses themselves, in `clause_blocks`.
pub(crate) fn runs_of(alloc: Global, layout: &Layout) -> Result<Vec<ClauseRun>, AllocError>
    ensures { IfOk result (λ made. made.items ≡ list.runs layout.now) }
{
    let mut runs = Vec::new(alloc);
    push_program_order(layout, &mut runs)?;
    push_triples(layout, &mut runs)?;
    push_reads(layout, &mut runs)?;
    push_final_values(layout, &mut runs)?;
    runs.push(ClauseRun::BeforePairs)?;
    Ok(runs)
}

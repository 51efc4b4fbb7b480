//! What the layout keeps of each final value.

ghost use Rattle.std.specs.Prelude.{◌≡◌, ◌==◌, ◌&&◌, ◌+◌, ◌<◌, ◌≤◌, ◌^◌, ℕ, List, map, length, Some, None, is_some, max, IfOk, if◌then◌else◌};
ghost use Rattle.std.specs.List.{enumerate_from, filter, range_with_len};
ghost use Rattle.trace_semantics.specs.Judgement as judgement;
ghost use Rattle.trace_semantics.specs.NameNumbers.{number_of};
ghost use Rattle.trace_semantics.specs.Trace.{IsTrace, value_of, operation_count};
ghost use Rattle.var_layout.specs.ChoiceVariables.{first_choice};
ghost use Rattle.var_layout.specs.FinalVariables as finals;
ghost use Rattle.var_layout.specs.Numbers as numbers;
ghost use Rattle.var_layout.specs.Tables as tables;

use crate::candidate::FinalChoice;
use crate::choice_variables::void_variable;
use crate::numbering::Numbering;
use std::alloc::{AllocError, Global};
use std::marker::Model;
use trace_semantics::held_value::is_held;
use trace_semantics::name::Name;
use trace_semantics::name_table::NameTable;
use trace_semantics::trace::Trace;

/// What the layout keeps of a final value.
#[derive(Drop)]
pub(crate) struct FinalTable {
    /// The writers of its location.
    pub writers: Vec<usize>,
    /// The writers that leave it, with their variables.
    pub choices: Vec<FinalChoice>,
    /// Its void variable, if no writer leaves it and it is not there from the start. Two clauses contradict each other by it.
    pub void: Option<u32>,
}

impl Model for FinalTable {
    ghost use Rattle.var_layout.specs.Tables.{FinalTableValue};

    ghost Value = { FinalTableValue };

    ghost view = { λ table. record { writers = table.writers.items; choices = table.choices.items; void = table.void } };
}

/// Returns whether the operation leaves the value at the location.
fn leaves(numbering: &Numbering<'_>, entry: &(Name, u64), w: usize) -> bool
    ensures { result ≡ judgement.is_held (numbers.left_at numbering.now entry.now.0 w) entry.now.1 }
{
    is_held(numbering.left_at(entry.0.as_bytes(), w), entry.1)
}

/// Those of these writers that leave the final value at its location, in order.
fn leavers(
    alloc: Global,
    numbering: &Numbering<'_>,
    entry: &(Name, u64),
    writers: &[usize],
) -> Result<Vec<usize>, AllocError>
    requires { writers.now ≡ numbers.writers numbering.now entry.now.0 }
    ensures { IfOk result (λ found. found.items ≡ finals.final_candidates numbering.now entry.now) }
{
    writers
        .iter()
        .copied()
        .filter(|w| leaves(numbering, entry, *w))
        .collect(alloc)
}

/// Returns whether the location has no writer, and its initial value, which the table has, is the final one. Such a final value has no
/// variables and no clauses.
fn is_untouched<'a>(initial: &NameTable<'a>, entry: &'a (Name, u64), writers: &[usize]) -> bool
    ensures { result ≡ (length writers.now == 0) && judgement.is_held (number_of initial.now entry.now.0) entry.now.1 }
{
    writers.is_empty() && is_held(initial.get(entry.0.as_bytes()), entry.1)
}

/// The writers with their variables, from this one on.
fn numbered(alloc: Global, writers: &[usize], first: u32) -> Result<Vec<FinalChoice>, AllocError>
    requires { first + length writers.now < 2 ^ 32 }
    ensures { IfOk result (λ made. made.items ≡ map (λ (numbered : ℕ × ℕ). record { writer = numbered.1; variable = numbered.0 }) (enumerate_from first writers.now)) }
{
    let mut made = Vec::with_capacity(alloc, writers.len())?;
    for k in 0..writers.len() {
        made.push(FinalChoice {
            writer: writers[k],
            variable: first + k as u32,
        })?;
    }
    Ok(made)
}

/// A final value, and where its variables begin.
#[derive(Clone, Copy)]
struct NumberedFinal<'a> {
    /// Its number among the final values, from 0 on.
    number: usize,
    /// Its location, and the value.
    value: &'a (Name, u64),
    /// The first of its variables.
    first: u32,
}

/// Gives what the layout keeps of this final value. The table has the initial values.
fn final_table<'a>(
    alloc: Global,
    numbering: &Numbering<'_>,
    initial: &NameTable<'a>,
    trace: &Trace,
    numbered_final: NumberedFinal<'a>,
) -> Result<FinalTable, AllocError>
    requires same { numbering.now ≡ trace.now }
    requires initial { (location : List ℕ) → number_of initial.now location ≡ value_of trace.now.initial location }
    requires few { operation_count trace.now ≤ 160 }
    requires is_trace { IsTrace trace.now }
    requires first { numbered_final.first ≡ finals.first_final trace.now numbered_final.number }
    ensures { IfOk result (λ table. table ≡ tables.final_table_of trace.now numbered_final.entry.number numbered_final.entry.value.now) }
{
    let entry = numbered_final.value;
    let first = numbered_final.first;
    let writers = numbering.writers(alloc, entry.0.as_bytes())?;
    let leavers = leavers(alloc, numbering, entry, writers.as_slice())?;
    let choices = numbered(alloc, leavers.as_slice(), first)?;
    let is_touched = !is_untouched(initial, entry, writers.as_slice());
    let void = void_variable(is_touched && leavers.is_empty(), first);
    Ok(FinalTable {
        writers,
        choices,
        void,
    })
}

/// The number of variables of the final value.
fn final_variable_count(table: &FinalTable) -> u32
    requires { length table.now.choices ≤ 160 }
    ensures { result ≡ (if is_some table.now.void then 1 else length table.now.choices) }
{
    if table.void.is_some() {
        1
    } else {
        table.choices.len() as u32
    }
}

/// Gives what the layout keeps of each final value, and the first variable after theirs. They begin with this one.
pub(crate) fn final_tables(
    alloc: Global,
    numbering: &Numbering<'_>,
    trace: &Trace,
    first: u32,
) -> Result<(Vec<FinalTable>, u32), AllocError>
    requires same { numbering.now ≡ trace.now }
    requires few { operation_count trace.now ≤ 160 }
    requires first { first ≡ first_choice trace.now (operation_count trace.now) }
    ensures tables { IfOk result (λ made. made.0.items ≡ map (tables.final_table trace.now) (range_with_len 0 (length trace.now.final_values))) }
    ensures next { IfOk result (λ made. made.1 ≡ finals.variable_count trace.now + 1) }
{
    trace.recall_invariant();
    let initial = NameTable::of_values(alloc, trace.initial())?;
    let values = trace.final_values();
    let mut made = Vec::with_capacity(alloc, values.len())?;
    let mut next = first;
    for k in 0..values.len() {
        let numbered_final = NumberedFinal {
            number: k,
            value: &values[k],
            first: next,
        };
        let table = final_table(alloc, numbering, &initial, trace, numbered_final)?;
        next += final_variable_count(&table);
        made.push(table)?;
    }
    Ok((made, next))
}

//! What the layout keeps of each operation.

ghost use Rattle.std.specs.Prelude.{◌≡◌, ◌+◌, ◌<◌, ◌≤◌, ◌^◌, ℕ, map, length, Some, None, is_some, max, IfOk, if◌then◌else◌};
ghost use Rattle.std.specs.List.{enumerate_from};
ghost use Rattle.trace_semantics.specs.Trace.{operation_count};
ghost use Rattle.var_layout.specs.Candidates as candidates;
ghost use Rattle.var_layout.specs.ChoiceVariables.{first_choice, choices};
ghost use Rattle.var_layout.specs.declared.candidate.Candidate.{Candidate as Source};
ghost use Rattle.var_layout.specs.Numbers as numbers;
ghost use Rattle.var_layout.specs.OrderVariables as order;
ghost use Rattle.var_layout.specs.Tables as tables;

use crate::candidate::{Candidate, ReadsFromChoice};
use crate::numbering::Numbering;
use crate::read_candidates::read_candidates;
use std::alloc::{AllocError, Global};
use std::marker::Model;
use trace_semantics::trace::Trace;

/// What the layout keeps of an operation.
#[derive(Drop)]
pub(crate) struct OpVariables {
    /// The first operation of its process.
    pub leader: usize,
    /// Whether it reads.
    pub reads: bool,
    /// The writers, other than itself, of its location.
    pub writers: Vec<usize>,
    /// Its candidates with their variables.
    pub choices: Vec<ReadsFromChoice>,
    /// Its void variable, if it reads and has no candidate. Two clauses contradict each other by it, so the formula has no model.
    pub void: Option<u32>,
}

impl Model for OpVariables {
    ghost use Rattle.var_layout.specs.Tables.{OpTableValue};

    ghost Value = { OpTableValue };

    ghost view = { λ table. record { leader = table.leader; reads = table.reads; writers = table.writers.items; choices = table.choices.items; void = table.void } };
}

/// The number of order variables for this number of operations.
pub(crate) fn order_count(count: usize) -> u32
    requires { count ≤ 160 }
    ensures { result ≡ order.order_count count }
{
    (count * count.saturating_sub(1) / 2) as u32
}

/// The numbers other than this one. An update is a writer of its own location, and never reads from itself.
fn others(alloc: Global, i: usize, writers: &[usize]) -> Result<Vec<usize>, AllocError>
    ensures { IfOk result (λ found. found.items ≡ numbers.others i writers.now) }
{
    writers.iter().copied().filter(|w| *w != i).collect(alloc)
}

/// The writers, other than the operation itself, of the location on which it works.
fn other_writers(
    alloc: Global,
    numbering: &Numbering<'_>,
    i: usize,
) -> Result<Vec<usize>, AllocError>
    ensures { IfOk result (λ found. found.items ≡ numbers.other_writers numbering.now i) }
{
    match numbering.op(i) {
        None => Ok(Vec::new(alloc)),
        Some(op) => {
            let writers = numbering.writers(alloc, op.location().as_bytes())?;
            others(alloc, i, writers.as_slice())
        }
    }
}

/// The candidates of an operation, by its other writers.
fn candidates(
    alloc: Global,
    numbering: &Numbering<'_>,
    trace: &Trace,
    i: usize,
    writers: &[usize],
) -> Result<Vec<Candidate>, AllocError>
    requires same { numbering.now ≡ trace.now }
    requires writers { writers.now ≡ numbers.other_writers trace.now i }
    ensures { IfOk result (λ found. found.items ≡ candidates.candidates trace.now i) }
{
    match numbering.op(i) {
        None => Ok(Vec::new(alloc)),
        Some(op) => read_candidates(alloc, numbering, trace, op, writers),
    }
}

/// The candidates with their variables, from the variable `first` on.
fn numbered(
    alloc: Global,
    candidates: &[Candidate],
    first: u32,
) -> Result<Vec<ReadsFromChoice>, AllocError>
    requires { first + length candidates.now < 2 ^ 32 }
    ensures { IfOk result (λ made. made.items ≡ map (λ (numbered : ℕ × Source). record { candidate = numbered.1; variable = numbered.0 }) (enumerate_from first candidates.now)) }
{
    let mut made = Vec::with_capacity(alloc, candidates.len())?;
    for k in 0..candidates.len() {
        made.push(ReadsFromChoice {
            candidate: candidates[k],
            variable: first + k as u32,
        })?;
    }
    Ok(made)
}

/// The first operation of the process of an operation.
fn leader_of(numbering: &Numbering<'_>, i: usize) -> usize
    ensures { result ≡ tables.leader_of numbering.now i }
{
    let count = numbering.count();
    for k in 0..count {
        if numbering.in_one_process(k, i) {
            return k;
        }
    }
    count
}

/// This variable, if its owner needs a void one: `first` is the next variable that is free. The owner is a reading operation, or a final value
/// (`final_variables.rt`).
pub(crate) fn void_variable(is_void: bool, first: u32) -> Option<u32>
    ensures { result ≡ (if is_void then Some first else None) }
{
    if is_void { Some(first) } else { None }
}

/// Gives what the layout keeps of an operation, whose variables begin with this one. A void variable is needed only without any choice, so
/// both may begin with it.
pub(crate) fn op_table(
    alloc: Global,
    numbering: &Numbering<'_>,
    trace: &Trace,
    i: usize,
    first: u32,
) -> Result<OpVariables, AllocError>
    requires same { numbering.now ≡ trace.now }
    requires few { operation_count trace.now ≤ 160 }
    requires within { i < operation_count trace.now }
    requires first { first ≡ first_choice trace.now i }
    ensures { IfOk result (λ table. table ≡ tables.op_table trace.now i) }
{
    let writers = other_writers(alloc, numbering, i)?;
    let candidates = candidates(alloc, numbering, trace, i, writers.as_slice())?;
    let choices = numbered(alloc, candidates.as_slice(), first)?;
    let reads = numbering.read_at(i).is_some();
    let void = void_variable(reads && candidates.is_empty(), first);
    Ok(OpVariables {
        leader: leader_of(numbering, i),
        reads,
        writers,
        choices,
        void,
    })
}

/// The number of variables of the operation: one for each candidate, or else the void one. One that does not read has none.
fn op_variable_count(table: &OpVariables) -> u32
    requires { length table.now.choices ≤ 161 }
    ensures { result ≡ (if table.now.reads then max 1 (length table.now.choices) else 0) }
{
    if table.reads {
        table.choices.len().max(1) as u32
    } else {
        0
    }
}

/// Gives what the layout keeps of each operation, and the first variable after theirs.
pub(crate) fn op_tables(
    alloc: Global,
    numbering: &Numbering<'_>,
    trace: &Trace,
) -> Result<(Vec<OpVariables>, u32), AllocError>
    requires same { numbering.now ≡ trace.now }
    requires few { operation_count trace.now ≤ 160 }
    ensures tables { IfOk result (λ made. made.0.items ≡ map (tables.op_table trace.now) (numbers.numbers trace.now)) }
    ensures next { IfOk result (λ made. made.1 ≡ first_choice trace.now (operation_count trace.now)) }
{
    let count = numbering.count();
    let mut made = Vec::with_capacity(alloc, count)?;
    // Variables begin at 1, and those of the order come first.
    let mut next = order_count(count) + 1;
    for i in 0..count {
        let table = op_table(alloc, numbering, trace, i, next)?;
        next += op_variable_count(&table);
        made.push(table)?;
    }
    Ok((made, next))
}

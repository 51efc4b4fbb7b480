//! Operations of a trace by their names in a certificate.

ghost use Rattle.std.specs.Prelude.{◌≡◌, ◌<◌, ◌≤◌, true, Some, None, length, is_some, slice_index_or, MatchOption, IfOk, IfErr, IfSome};
ghost use Rattle.std.specs.List.{before_first, after_first};
ghost use Rattle.std.specs.Str.{bytes_eq};
ghost use Rattle.text_lines.specs.declared.plain_fault.PlainFault.TheVariants.{For};
ghost use Rattle.trace_semantics.specs.ScheduleLimits.{limits_for};
ghost use Rattle.trace_semantics.specs.declared.trace.Process.{Process as NamedProcess};
ghost use Rattle.schedule_text.specs.ScheduleText.{place_within, is_dot, is_op_name, name_fault, name_word};
ghost use Rattle.order_clauses.specs.Numbered.{named, IsKnown};
ghost use Rattle.reason_clauses.specs.declared.cause.ReasonCause.TheVariants.{BadLine};
ghost use Rattle.reason_text.specs.LineFault.{HasNameFault, IsMissing};
ghost use Rattle.reason_text.specs.OperationNumbers.{AreNumbered, HoldsTrace, IsTrueRefusal};
ghost use Rattle.reason_text.specs.OperationWord.{operation_word};

use reason_clauses::cause::{ReasonCause, ReasonRefusal};
use schedule_text::schedule_reader::{cut_at_dot, read_place_within};
use std::alloc::{AllocError, Global};
use trace_semantics::limits::Limits;
use trace_semantics::name::is_name_word;
use trace_semantics::name_table::NameTable;
use trace_semantics::trace::{Process, Trace};
use trace_semantics::trace_size::limits_for;
use writer_table::operation_place::OperationPlace;

/// Finds operations of a trace by their names.
#[derive(Drop)]
pub struct OperationTable<'a> {
    trace: &'a Trace,
    /// The limits of the trace's schedules: a place above them is no name's.
    limits: Limits,
    /// For each process its number, counted from 0. Its name in the trace is compared again before the number is relied on.
    numbers: NameTable<'a>,
}

/// The process and the place of the name that the word spells: the process up to the first dot, and the place after it, counted from 1.
fn read_name(limits: Limits, word: &[u8]) -> Option<(&[u8], u32)>
    ensures { MatchOption result (is_some (name_fault limits 0 word.now) ≡ true)
        (λ name. (name_fault limits 0 word.now ≡ None) × (name.0.now ≡ before_first is_dot word.now) × (place_within limits (after_first is_dot word.now) ≡ Some name.1)) }
{
    let (process, place) = cut_at_dot(word)?;
    if !is_name_word(process) {
        return None;
    }
    let number = read_place_within(limits, place)?;
    Some((process, number))
}

/// The numbers of the processes by their names.
fn number_processes<'a>(alloc: Global, trace: &'a Trace) -> Result<NameTable<'a>, AllocError>
    ensures { IfOk result (λ numbers. AreNumbered trace.now numbers (length trace.now.processes)) }
{
    trace.recall_invariant();
    let processes = trace.processes();
    let mut numbers = NameTable::with_capacity(alloc, processes.len())?;
    for q in 0..processes.len() {
        numbers.insert(processes[q].name.as_bytes(), q as u64)?;
    }
    Ok(numbers)
}

/// Returns whether this is the name of the process.
fn is_called(process: &Process, name: &[u8]) -> bool
    ensures { result ≡ bytes_eq process.now.name name.now }
{
    process.name.as_bytes() == name
}

/// The operation at this place of the process of this number, if that is its name.
fn operation_at(trace: &Trace, number: u32, process: &[u8], place: u32) -> Option<OperationPlace>
    ensures there { IfSome result (λ n. (named trace.now n ≡ record { process = process.now; place = place }) × IsKnown trace.now n) }
    ensures nowhere { result ≡ None → (p : NamedProcess) → number < length trace.now.processes → slice_index_or trace.now.processes number p ≡ p → p.name ≡ process.now → 1 ≤ place → place ≤ length p.operations → ⊥ }
{
    trace.recall_invariant();
    let processes = trace.processes();
    let q = number as usize;
    if q >= processes.len() || place == 0 {
        return None;
    }
    if !is_called(&processes[q], process) {
        return None;
    }
    let count = processes[q].operations.as_slice().len();
    if place as usize > count {
        return None;
    }
    Some(OperationPlace {
        process: number,
        place,
    })
}

impl<'a> OperationTable<'a> {
    ghost use Rattle.trace_semantics.specs.declared.operation.OpName.{OpName};

    /// The table of a trace's operations.
    pub fn of(alloc: Global, trace: &'a Trace) -> Result<OperationTable<'a>, AllocError>
        ensures trace { IfOk result (λ table. table.trace.now ≡ trace.now) }
        ensures limits { IfOk result (λ table. table.limits ≡ limits_for trace.now) }
        ensures holds { IfOk result HoldsTrace }
    {
        Ok(OperationTable {
            trace,
            limits: limits_for(trace),
            numbers: number_processes(alloc, trace)?,
        })
    }

    /// The operation of this name.
    pub fn find(&self, process: &'a [u8], place: u32) -> Option<OperationPlace>
        ensures there { IfSome result (λ n. (named self.now.trace.now n ≡ record { process = process.now; place = place }) × IsKnown self.now.trace.now n) }
        ensures nowhere { result ≡ None → HoldsTrace self.now → IsMissing self.now.trace.now (record { process = process.now; place = place }) }
    {
        self.trace.recall_invariant();
        let Some(number) = self.numbers.get(process) else {
            return None;
        };
        let Ok(small) = u32::try_from(number) else {
            return None;
        };
        operation_at(self.trace, small, process, place)
    }

    /// The operation that the word names. A word that is no name is a bad line; a name of no operation of the trace has a cause of its own.
    pub fn operation(&self, word: &'a [u8]) -> Result<OperationPlace, ReasonRefusal>
        ensures named { IfOk result (λ n. word.now ≡ operation_word self.now.trace.now n) }
        ensures known { IfOk result (IsKnown self.now.trace.now) }
        ensures faulty { IfErr result (IsTrueRefusal self.now (λ t. HasNameFault t word.now)) }
        ensures unnamed { IfErr result (λ refusal. refusal ≡ For BadLine → (n : OpName) → is_op_name self.now.limits n ≡ true → word.now ≡ name_word n → ⊥) }
    {
        let Some((process, place)) = read_name(self.limits, word) else {
            return Err(ReasonRefusal::For(ReasonCause::BadLine));
        };
        match self.find(process, place) {
            Some(operation) => Ok(operation),
            None => Err(ReasonRefusal::For(ReasonCause::NoOperation)),
        }
    }
}

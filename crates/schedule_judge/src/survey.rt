//! What the judge looks up: operations by name, and which come before their time.

ghost use Rattle.std.specs.Prelude.{◌≡◌, ℕ, List, IfOk, take, not, false};
ghost use Rattle.std.specs.List.{slice_get, list_all};
ghost use Rattle.std.specs.Option.{option_copied, option_and_then};
ghost use Rattle.trace_semantics.specs.Judgement as judgement;
ghost use Rattle.schedule_judge.specs.Endings.{IsFirstMissing};
ghost use Rattle.schedule_judge.specs.Survey.{IsSurvey};
ghost use Rattle.schedule_judge.specs.Tables.{number_at, FindsProcesses, FindsFirst, FindsEarly, FindsEarlyIn};
ghost use Rattle.schedule_judge.specs.Tables as tables;
ghost use Rattle.trace_semantics.specs.declared.operation.OpName.{OpName};
ghost use Rattle.trace_semantics.specs.NameNumbers.{number_of};
ghost use Rattle.trace_semantics.specs.Trace as trace_value;

use crate::ending::{Ending, endings_of, is_overtaken};
use crate::op_numbers::OpNumbers;
use std::alloc::{AllocError, Global};
use trace_semantics::name_table::NameTable;
use trace_semantics::operation::{Op, OpName};
use trace_semantics::trace::{Process, Trace};

/// What is looked up while a schedule is judged.
#[derive(Drop)]
pub struct Survey<'a> {
    pub trace: &'a Trace,
    pub names: &'a [OpName],
    pub processes: NameTable<'a>,
    /// The operations that come before one that a pair puts before them. Their number is always 0 and means nothing: the table is a set.
    pub early: OpNumbers<'a>,
    /// The operations that have spans, those that ended earlier first.
    pub endings: Vec<Ending<'a>>,
}

/// The place of each process, from 0, by its name. No two processes of a trace have one name, but the contract is of any list: the walk goes
/// backwards, so that the first process of a name is entered last and stays.
fn places_of_processes<'a>(
    alloc: Global,
    processes: &'a [Process],
) -> Result<NameTable<'a>, AllocError>
    ensures { IfOk result (FindsProcesses processes.now) }
{
    let mut places = NameTable::with_capacity(alloc, processes.len())?;
    for k in (0..processes.len()).rev() {
        places.insert(processes[k].name.as_bytes(), k as u64)?;
    }
    Ok(places)
}

/// The first place of each operation in a schedule, from 0. The walk goes backwards, so that the first place is entered last and stays.
fn first_places<'a>(alloc: Global, names: &'a [OpName]) -> Result<OpNumbers<'a>, AllocError>
    ensures { IfOk result (FindsFirst names.now) }
{
    let mut places = OpNumbers::with_capacity(alloc, names.len())?;
    for k in (0..names.len()).rev() {
        places.insert(&names[k], k)?;
    }
    Ok(places)
}

/// Returns whether what comes first at this place is among the first `count`.
fn is_below(first: Option<usize>, count: usize) -> bool
    ensures { result ≡ tables.is_below first count }
{
    match first {
        Some(k) => k < count,
        None => false,
    }
}

/// Returns whether what comes first at the second place comes there without the first before it.
fn is_broken(first: Option<usize>, second: Option<usize>) -> bool
    ensures { result ≡ tables.is_broken first second }
{
    match second {
        Some(k) => !is_below(first, k),
        None => false,
    }
}

/// Returns whether the second operation comes, and the first not before it. The first places of both decide: that of the second, since
/// the judge asks of an operation only where it comes first.
fn breaks<'a>(places: &OpNumbers<'a>, first: &'a OpName, second: &'a OpName) -> bool
    ensures { result ≡ tables.is_broken (number_at places.now first.now) (number_at places.now second.now) }
{
    is_broken(places.of(first), places.of(second))
}

/// The operations that come before one that the trace puts before them.
fn early_ops<'a>(
    alloc: Global,
    before: &'a [(OpName, OpName)],
    places: &OpNumbers<'a>,
) -> Result<OpNumbers<'a>, AllocError>
    ensures { IfOk result (FindsEarly before.now places.now) }
{
    let mut early = OpNumbers::with_capacity(alloc, 0)?;
    for pair in before {
        if breaks(places, &pair.0, &pair.1) {
            early.insert(&pair.1, 0)?;
        }
    }
    Ok(early)
}

/// The operations that come before one that the trace puts before them, where these names are the schedule. Without pairs no
/// name is looked at.
fn early_in<'a>(
    alloc: Global,
    before: &'a [(OpName, OpName)],
    names: &'a [OpName],
) -> Result<OpNumbers<'a>, AllocError>
    ensures { IfOk result (FindsEarlyIn before.now names.now) }
{
    if before.is_empty() {
        return OpNumbers::with_capacity(alloc, 0);
    }
    let places = first_places(alloc, names)?;
    early_ops(alloc, before, &places)
}

/// The process at this place.
fn process_at(processes: &[Process], place: Option<u64>) -> Option<&Process>
    ensures { option_copied result ≡ option_and_then (slice_get processes.now) place }
{
    match place {
        Some(k) => processes.get(k as usize),
        None => None,
    }
}

/// The operation at this place, counted from 1.
fn at_place(operations: &[Op], place: usize) -> Option<&Op>
    ensures { option_copied result ≡ trace_value.at_place operations.now place }
{
    if place == 0 {
        return None;
    }
    operations.get(place - 1)
}

/// The operation at this place of the process, counted from 1, if there is one.
fn op_of(process: Option<&Process>, place: usize) -> Option<&Op>
    ensures { option_copied result ≡ option_and_then (λ p. trace_value.at_place p.operations place) (option_copied process.entry) }
{
    match process {
        Some(process) => at_place(process.operations.as_slice(), place),
        None => None,
    }
}

impl<'a> Survey<'a> {
    /// The survey of a trace and some names.
    pub fn new(
        alloc: Global,
        trace: &'a Trace,
        names: &'a [OpName],
    ) -> Result<Survey<'a>, AllocError>
        ensures trace { IfOk result (λ survey. survey.trace.now ≡ trace.now) }
        ensures names { IfOk result (λ survey. survey.names.now ≡ names.now) }
        ensures tables { IfOk result IsSurvey }
    {
        trace.recall_invariant();
        let processes = places_of_processes(alloc, trace.processes())?;
        let pairs = trace.before();
        let early = early_in(alloc, pairs, names)?;
        let timed = trace.processes();
        let endings = endings_of(alloc, timed)?;
        Ok(Survey {
            trace,
            names,
            processes,
            early,
            endings,
        })
    }

    /// The place of this process in the trace, from 0, if it is one of its processes.
    pub fn row_of(&self, process: &'a [u8]) -> Option<u64>
        ensures { result ≡ number_of self.now.processes process.now }
    {
        self.processes.get(process)
    }

    /// The operation of this name, where its process is the one in this row.
    pub fn operation_at(&self, row: Option<u64>, name: &'a OpName) -> Option<&'a Op>
        requires survey { IsSurvey self.now }
        requires row { row ≡ number_of self.now.processes name.now.process }
        ensures { option_copied result ≡ trace_value.operation_at self.now.trace.now name.now }
    {
        op_of(process_at(self.trace.processes(), row), name.place as usize)
    }

    /// Returns whether the operation, where it comes first, comes before one that a pair puts before it.
    fn is_early_by_pairs(&self, name: &'a OpName) -> bool
        requires { IsSurvey self.now }
        ensures { (count : ℕ) → slice_get self.now.names.now count ≡ Some name.now
            → judgement.has_come (take count self.now.names.now) name.now ≡ false
            → result ≡ not (list_all (judgement.has_come (take count self.now.names.now)) (judgement.paired_before self.now.trace.now name.now)) }
    {
        self.early.of(name).is_some()
    }

    /// Returns whether the operation comes before one that had ended when it started. The first ending of an operation that has
    /// not come is at `next`.
    fn is_early_by_times(&self, next: usize, op: &Op) -> bool
        requires { IsSurvey self.now }
        ensures { (done : List OpName) (n : OpName) → IsFirstMissing done self.now.endings.items next
            → trace_value.operation_at self.now.trace.now n ≡ Some op.now
            → result ≡ not (list_all (judgement.has_come done) (judgement.timed_before self.now.trace.now n)) }
    {
        is_overtaken(self.endings.as_slice(), next, op.span())
    }

    /// Returns whether the operation, where it comes first, comes before one that the trace puts before it. The first ending of an
    /// operation that has not come is at `next`.
    pub fn is_early(&self, next: usize, name: &'a OpName, op: &Op) -> bool
        requires { IsSurvey self.now }
        ensures { (count : ℕ) → slice_get self.now.names.now count ≡ Some name.now
            → trace_value.operation_at self.now.trace.now name.now ≡ Some op.now
            → IsFirstMissing (take count self.now.names.now) self.now.endings.items next
            → judgement.has_come (take count self.now.names.now) name.now ≡ false
            → result ≡ not (list_all (judgement.has_come (take count self.now.names.now)) (judgement.put_before self.now.trace.now name.now)) }
    {
        self.is_early_by_pairs(name) || self.is_early_by_times(next, op)
    }
}

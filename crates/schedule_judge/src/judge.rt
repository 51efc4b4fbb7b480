//! The judge of a schedule.

ghost use Rattle.std.specs.Prelude.{◌≡◌, List, ℕ, IfOk, take, length, true};
ghost use Rattle.std.specs.List.{slice_get, list_all, flat_map};
ghost use Rattle.trace_semantics.specs.Judgement as judgement;
ghost use Rattle.trace_semantics.specs.Judgement.{has_come, IsJudgement};
ghost use Rattle.schedule_judge.specs.Come.{AreCountsOfCome};
ghost use Rattle.schedule_judge.specs.Endings.{have_come_in_front, IsFirstMissing};
ghost use Rattle.schedule_judge.specs.Survey.{IsSurvey};
ghost use Rattle.trace_semantics.specs.NameNumbers.{number_of};
ghost use Rattle.trace_semantics.specs.Trace.{first_names, operation_at};
ghost use Rattle.schedule_judge.specs.Walk.{IsWalk, IsInProgramOrder};

use crate::come::Come;
use crate::memory::Memory;
use crate::survey::Survey;
use std::alloc::{AllocError, Global};
use trace_semantics::judgement::{IllegalCause, Judgement};
use trace_semantics::name::Name;
use trace_semantics::operation::{Op, OpName};
use trace_semantics::schedule::Schedule;
use trace_semantics::trace::{Process, Trace};

/// Returns whether the operation at this place of this process, which is the one in this row, is among the first `count` names. The contract alone
/// needs `survey`, `process` and `count`: they say which names `come` has to have counted.
fn has_come<'a>(
    survey: &Survey<'a>,
    come: &Come,
    row: Option<u64>,
    process: &'a [u8],
    place: usize,
    count: usize,
) -> bool
    requires row { row ≡ number_of survey.now.processes process.now }
    requires come { AreCountsOfCome survey.now.processes come.now.counts.items (take count survey.now.names.now) }
    ensures { result ≡ has_come (take count survey.now.names.now) (record { process = process.now; place = place }) }
{
    come.has(row, place)
}

/// Returns whether the first `n` operations of the process, which is the one in this row, are among the first `count` names. Operations come
/// in program order, so it is enough to ask for the last.
fn have_come<'a>(
    survey: &Survey<'a>,
    come: &Come,
    row: Option<u64>,
    process: &'a [u8],
    n: usize,
    count: usize,
) -> bool
    requires row { row ≡ number_of survey.now.processes process.now }
    requires come { AreCountsOfCome survey.now.processes come.now.counts.items (take count survey.now.names.now) }
    requires order { IsInProgramOrder (take count survey.now.names.now) }
    ensures { result ≡ list_all (has_come (take count survey.now.names.now)) (first_names process.now n) }
{
    n == 0 || has_come(survey, come, row, process, n, count)
}

/// The first of the endings, from this one on, of an operation that is not among the first `count` names; past the last ending if
/// there is none. The caller gives the answer for the name before as `from`: what has come stays so, and a whole schedule costs one walk
/// through the endings.
fn first_missing<'a>(survey: &Survey<'a>, come: &Come, count: usize, from: usize) -> usize
    requires come { AreCountsOfCome survey.now.processes come.now.counts.items (take count survey.now.names.now) }
    requires front { have_come_in_front (take count survey.now.names.now) survey.now.endings.items from ≡ true }
    ensures { IsFirstMissing (take count survey.now.names.now) survey.now.endings.items result }
{
    let endings = survey.endings.as_slice();
    for k in from..endings.len() {
        let ending = endings[k];
        let row = survey.row_of(ending.process);
        if !has_come(survey, come, row, ending.process, ending.place, count) {
            return k;
        }
    }
    endings.len()
}

/// An operation that is judged.
#[derive(Clone, Copy)]
struct JudgedOp<'a> {
    /// The row of its process.
    process_row: Option<u64>,
    /// Its name in the schedule.
    name: &'a OpName,
    /// What it does by the trace.
    op: &'a Op,
}

/// Gives what is wrong with an operation after the first `count` names. The first ending of an operation that has not come is at `missing`. If
/// several things are wrong, the order of the questions says which is named, and the definition has the same order.
fn fault_of_op<'a>(
    survey: &Survey<'a>,
    come: &Come,
    memory: &Memory<'a>,
    missing: usize,
    count: usize,
    judged: JudgedOp<'a>,
) -> Option<IllegalCause>
    requires survey { IsSurvey survey.now }
    requires walk { IsWalk survey.now come.now.counts.items memory.now count }
    requires missing { IsFirstMissing (take count survey.now.names.now) survey.now.endings.items missing }
    requires row { judged.process_row ≡ number_of survey.now.processes judged.name.now.process }
    requires name { slice_get survey.now.names.now count ≡ Some judged.name.now }
    requires op { operation_at survey.now.trace.now judged.name.now ≡ Some judged.op.now }
    ensures { result ≡ judgement.fault_of_op survey.now.trace.now (take count survey.now.names.now) judged.entry.name.now judged.entry.op.now }
{
    let JudgedOp {
        process_row: row,
        name,
        op,
    } = judged;
    let process = name.process.as_bytes();
    let place = name.place as usize;
    if has_come(survey, come, row, process, place, count) {
        Some(IllegalCause::RepeatedOp)
    } else if !have_come(survey, come, row, process, place.saturating_sub(1), count) {
        Some(IllegalCause::OutOfProgramOrder)
    } else if !memory.reads_right(op) {
        Some(IllegalCause::WrongRead)
    } else if survey.is_early(missing, name, op) {
        Some(IllegalCause::BeforeBroken)
    } else if !memory.has_right_source(survey.names, op) {
        Some(IllegalCause::WrongSource)
    } else {
        None
    }
}

/// Returns whether all operations of these processes have come.
fn has_all<'a>(survey: &Survey<'a>, come: &Come, processes: &'a [Process]) -> bool
    requires come { AreCountsOfCome survey.now.processes come.now.counts.items survey.now.names.now }
    requires order { IsInProgramOrder survey.now.names.now }
    ensures { result ≡ list_all (has_come survey.now.names.now) (flat_map (λ p. first_names p.name (length p.operations)) processes.now) }
{
    for process in processes {
        let name = process.name.as_bytes();
        let count = process.operations.as_slice().len();
        let row = survey.row_of(name);
        if !have_come(survey, come, row, name, count, survey.names.len()) {
            return false;
        }
    }
    true
}

/// Returns whether memory holds each of these values.
fn holds_all<'a>(memory: &Memory<'a>, values: &'a [(Name, u64)]) -> bool
    ensures { result ≡ list_all (λ (entry : List ℕ × ℕ). judgement.is_held (number_of memory.now.values entry.0) entry.1) values.now }
{
    for entry in values {
        if !memory.holds(entry.0.as_bytes(), entry.1) {
            return false;
        }
    }
    true
}

/// Gives what is wrong with the whole list, if no name has a fault.
fn fault_of_whole<'a>(survey: &Survey<'a>, come: &Come, memory: &Memory<'a>) -> Option<IllegalCause>
    requires walk { IsWalk survey.now come.now.counts.items memory.now (length survey.now.names.now) }
    ensures { result ≡ judgement.fault_of_whole survey.now.trace.now survey.now.names.now }
{
    if !has_all(survey, come, survey.trace.processes()) {
        Some(IllegalCause::MissingOp)
    } else if !holds_all(memory, survey.trace.final_values()) {
        Some(IllegalCause::WrongFinal)
    } else {
        None
    }
}

/// Judges a list of names by the trace: whether it is a legal schedule, or else its first fault and the place of the name, from 1. A fault
/// of the whole list stands at the place after the last name.
pub fn judge(alloc: Global, trace: &Trace, schedule: &Schedule) -> Result<Judgement, AllocError>
    ensures { IfOk result (λ judgement. IsJudgement trace.now schedule.now judgement) }
{
    let names = schedule.names();
    let survey = Survey::new(alloc, trace, names)?;
    let mut memory = Memory::new(alloc, trace.initial())?;
    let mut come = Come::new(alloc);
    let mut next = 0usize;
    for i in 0..names.len() {
        let name = &names[i];
        let row = survey.row_of(name.process.as_bytes());
        let Some(op) = survey.operation_at(row, name) else {
            return Ok(Judgement::Illegal(IllegalCause::UnknownOp, i + 1));
        };
        // This is of the names before this one, which has not come yet.
        let missing = first_missing(&survey, &come, i, next);
        let judged = JudgedOp {
            process_row: row,
            name,
            op,
        };
        if let Some(cause) = fault_of_op(&survey, &come, &memory, missing, i, judged) {
            return Ok(Judgement::Illegal(cause, i + 1));
        }
        // Only an operation without a fault is run: `come` is right only while program order holds.
        memory.run(op, i)?;
        come.take(row, name.place as usize)?;
        next = missing;
    }
    match fault_of_whole(&survey, &come, &memory) {
        None => Ok(Judgement::Legal),
        Some(cause) => Ok(Judgement::Illegal(cause, names.len() + 1)),
    }
}

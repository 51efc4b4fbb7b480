//! What a line of a trace text adds to the trace.

ghost use Rattle.std.specs.Prelude.{◌≡◌, ◌<◌, ◌^◌, ◌&&◌, true, decimal, is_some, IfOk, IfErr, IfSome, Some, None, if◌then◌else◌};
ghost use Rattle.trace_text.specs.Entry.{source_of, times_said, statement_for, op_statement, has_numbers, has_place, has_time_numbers, number_fault, fits_value, fits_place, origin_fits, span_fits, op_fits, entry_fits};
ghost use Rattle.trace_text.specs.Entry as entry_spec;
ghost use Rattle.text_lines.specs.PlainFault.{IsRefusedFor};
ghost use Rattle.trace_text.specs.Said.{said, said_source, said_times};
ghost use Rattle.trace_text.specs.Statement.{Read, Write, Update, Before};
ghost use Rattle.trace_text.specs.TraceFault.{is_value, is_place};

use crate::statement::{ReadsFrom, Statement, TimesSaid};
use crate::trace_fault::{LineRefusal, TraceCause};
use std::alloc::Global;
use text_lines::numbers::read_plain;
use text_lines::plain_fault::PlainFault;
use trace_semantics::limits::Limits;
use trace_semantics::name::Name;
use trace_semantics::operation::{Op, OpName, Origin, Span};
use trace_semantics::place::read_place;

/// What a line adds to the trace.
#[derive(Drop)]
pub enum Entry {
    /// The initial value of a location.
    Initial(Name, u64),
    /// The final value of a location.
    Final(Name, u64),
    /// A further process.
    Process(Name),
    /// A further operation of the last process.
    Operation(Op),
    /// A pair of which the first stands before the second.
    Before(OpName, OpName),
}

/// The value that a word writes.
fn read_value(word: &[u8]) -> Option<u64>
    ensures known { is_some result ≡ is_value word.now }
    ensures written { IfSome result (λ value. word.now ≡ decimal value) }
    ensures fits { IfSome result (λ value. fits_value value ≡ true) }
{
    read_plain(word, u64::MAX)
}

/// A location and its value.
fn read_located(alloc: Global, location: &[u8], value: &[u8]) -> Result<(Name, u64), LineRefusal>
    ensures refused { IfErr result (IsRefusedFor (number_fault (is_value value.now))) }
    ensures fine { IfOk result (λ _. is_value value.now ≡ true) }
    ensures location { IfOk result (λ located. located.0 ≡ location.now) }
    ensures value { IfOk result (λ located. value.now ≡ decimal located.1) }
    ensures fits { IfOk result (λ located. fits_value located.1 ≡ true) }
{
    let Some(value) = read_value(value) else {
        return Err(PlainFault::For(TraceCause::BadNumber));
    };
    Ok((Name::copy_of(alloc, location)?, value))
}

/// The place that a word writes, if it is no higher than these limits allow.
fn place_within(limits: Limits, word: &[u8]) -> Option<u32>
    ensures known { is_some result ≡ is_place limits word.now }
    ensures written { IfSome result (λ place. word.now ≡ decimal place) }
    ensures fits { IfSome result (λ place. fits_place place ≡ true) }
{
    match read_place(word) {
        Some(place) if u64::from(place) <= limits.max_place() => Some(place),
        _ => None,
    }
}

/// The name of an operation.
fn read_op_name(
    alloc: Global,
    limits: Limits,
    process: &[u8],
    place: &[u8],
) -> Result<OpName, LineRefusal>
    ensures refused { IfErr result (IsRefusedFor (number_fault (is_place limits place.now))) }
    ensures fine { IfOk result (λ _. is_place limits place.now ≡ true) }
    ensures process { IfOk result (λ name. name.process ≡ process.now) }
    ensures place { IfOk result (λ name. place.now ≡ decimal name.place) }
    ensures fits { IfOk result (λ name. fits_place name.place ≡ true) }
{
    let Some(place) = place_within(limits, place) else {
        return Err(PlainFault::For(TraceCause::BadNumber));
    };
    Ok(OpName {
        process: Name::copy_of(alloc, process)?,
        place,
    })
}

/// The origin of a value.
fn read_origin(alloc: Global, limits: Limits, source: ReadsFrom<'_>) -> Result<Origin, LineRefusal>
    ensures refused { IfErr result (IsRefusedFor (number_fault (has_place limits (said_source source.entry)))) }
    ensures fine { IfOk result (λ _. has_place limits (said_source source.entry) ≡ true) }
    ensures source { IfOk result (λ origin. source_of origin ≡ said_source source.entry) }
    ensures fits { IfOk result (λ origin. origin_fits origin ≡ true) }
{
    match source {
        ReadsFrom::Unsaid => Ok(Origin::Any),
        ReadsFrom::FromInit => Ok(Origin::Initial),
        ReadsFrom::FromOp(process, place) => Ok(Origin::Operation(read_op_name(
            alloc, limits, process, place,
        )?)),
    }
}

/// The span of an operation.
fn read_span(times: TimesSaid<'_>) -> Result<Option<Span>, LineRefusal>
    ensures refused { IfErr result (IsRefusedFor (number_fault (has_time_numbers (said_times times.entry)))) }
    ensures fine { IfOk result (λ _. has_time_numbers (said_times times.entry) ≡ true) }
    ensures times { IfOk result (λ span. times_said span ≡ said_times times.entry) }
    ensures fits { IfOk result (λ span. span_fits span ≡ true) }
{
    match times {
        TimesSaid::Untimed => Ok(None),
        TimesSaid::At(start, end) => {
            let Some(start) = read_value(start) else {
                return Err(PlainFault::For(TraceCause::BadNumber));
            };
            let Some(end) = read_value(end) else {
                return Err(PlainFault::For(TraceCause::BadNumber));
            };
            Ok(Some(Span { start, end }))
        }
    }
}

/// Gives what the line of a plain read adds.
fn read_read(
    alloc: Global,
    limits: Limits,
    location: &[u8],
    value: &[u8],
    source: ReadsFrom<'_>,
    times: TimesSaid<'_>,
) -> Result<Op, LineRefusal>
    ensures refused { IfErr result (IsRefusedFor (number_fault (has_numbers limits (Read location.now value.now (said_source source.entry) (said_times times.entry))))) }
    ensures fine { IfOk result (λ _. has_numbers limits (Read location.now value.now (said_source source.entry) (said_times times.entry)) ≡ true) }
    ensures said { IfOk result (λ op. op_statement op ≡ Read location.now value.now (said_source source.entry) (said_times times.entry)) }
    ensures fits { IfOk result (λ op. op_fits op ≡ true) }
{
    let (location, value) = read_located(alloc, location, value)?;
    let origin = read_origin(alloc, limits, source)?;
    let span = read_span(times)?;
    Ok(Op::Read {
        location,
        value,
        origin,
        span,
    })
}

/// The words of the values of a read-and-write: of what it reads, and of what it leaves.
#[derive(Clone, Copy)]
struct UpdateWords<'a> {
    read: &'a [u8],
    left: &'a [u8],
}

/// Gives what the line of a read-and-write adds.
fn read_update(
    alloc: Global,
    limits: Limits,
    location: &[u8],
    words: UpdateWords<'_>,
    source: ReadsFrom<'_>,
    times: TimesSaid<'_>,
) -> Result<Op, LineRefusal>
    ensures refused { IfErr result (IsRefusedFor (number_fault (has_numbers limits (Update location.now words.entry.read.now words.entry.left.now (said_source source.entry) (said_times times.entry))))) }
    ensures fine { IfOk result (λ _. has_numbers limits (Update location.now words.entry.read.now words.entry.left.now (said_source source.entry) (said_times times.entry)) ≡ true) }
    ensures said { IfOk result (λ op. op_statement op ≡ Update location.now words.entry.read.now words.entry.left.now (said_source source.entry) (said_times times.entry)) }
    ensures fits { IfOk result (λ op. op_fits op ≡ true) }
{
    let Some(read) = read_value(words.read) else {
        return Err(PlainFault::For(TraceCause::BadNumber));
    };
    let (location, left) = read_located(alloc, location, words.left)?;
    let origin = read_origin(alloc, limits, source)?;
    let span = read_span(times)?;
    Ok(Op::Update {
        location,
        read,
        left,
        origin,
        span,
    })
}

/// Gives what the line of a write adds.
fn read_write(
    alloc: Global,
    limits: Limits,
    location: &[u8],
    value: &[u8],
    times: TimesSaid<'_>,
) -> Result<Op, LineRefusal>
    ensures refused { IfErr result (IsRefusedFor (number_fault (has_numbers limits (Write location.now value.now (said_times times.entry))))) }
    ensures fine { IfOk result (λ _. has_numbers limits (Write location.now value.now (said_times times.entry)) ≡ true) }
    ensures said { IfOk result (λ op. op_statement op ≡ Write location.now value.now (said_times times.entry)) }
    ensures fits { IfOk result (λ op. op_fits op ≡ true) }
{
    let (location, value) = read_located(alloc, location, value)?;
    let span = read_span(times)?;
    Ok(Op::Write {
        location,
        value,
        span,
    })
}

/// The operations that a `before` line names.
fn read_pair(
    alloc: Global,
    limits: Limits,
    process: &[u8],
    place: &[u8],
    other: &[u8],
    other_place: &[u8],
) -> Result<Entry, LineRefusal>
    ensures refused { IfErr result (IsRefusedFor (number_fault (has_numbers limits (Before process.now place.now other.now other_place.now)))) }
    ensures fine { IfOk result (λ _. has_numbers limits (Before process.now place.now other.now other_place.now) ≡ true) }
    ensures said { IfOk result (λ entry. statement_for entry ≡ Before process.now place.now other.now other_place.now) }
    ensures fits { IfOk result (λ entry. entry_fits entry ≡ true) }
{
    let first = read_op_name(alloc, limits, process, place)?;
    let second = read_op_name(alloc, limits, other, other_place)?;
    Ok(Entry::Before(first, second))
}

/// Gives what a line adds that says this, if its numbers are numbers.
pub fn read_entry(
    alloc: Global,
    limits: Limits,
    statement: Statement<'_>,
) -> Result<Entry, LineRefusal>
    ensures refused { IfErr result (IsRefusedFor (number_fault (has_numbers limits (said statement.entry)))) }
    ensures fine { IfOk result (λ _. has_numbers limits (said statement.entry) ≡ true) }
    ensures said { IfOk result (λ entry. statement_for entry ≡ said statement.entry) }
    ensures fits { IfOk result (λ entry. entry_fits entry ≡ true) }
{
    match statement {
        Statement::Init(location, value) => {
            let (location, value) = read_located(alloc, location, value)?;
            Ok(Entry::Initial(location, value))
        }
        Statement::Final(location, value) => {
            let (location, value) = read_located(alloc, location, value)?;
            Ok(Entry::Final(location, value))
        }
        Statement::Proc(name) => Ok(Entry::Process(Name::copy_of(alloc, name)?)),
        Statement::Read(location, value, source, times) => Ok(Entry::Operation(read_read(
            alloc, limits, location, value, source, times,
        )?)),
        Statement::Write(location, value, times) => Ok(Entry::Operation(read_write(
            alloc, limits, location, value, times,
        )?)),
        Statement::Update(location, read, left, source, times) => {
            let words = UpdateWords { read, left };
            let op = read_update(alloc, limits, location, words, source, times)?;
            Ok(Entry::Operation(op))
        }
        Statement::Before(process, place, other, other_place) => {
            read_pair(alloc, limits, process, place, other, other_place)
        }
    }
}

/// Returns whether the span, if there is one, ends before it starts.
fn is_turned_span(span: Option<Span>) -> bool
    ensures { result ≡ entry_spec.is_turned_span span }
{
    match span {
        Some(span) => span.end < span.start,
        None => false,
    }
}

/// Returns whether a line adds an operation that ends before it starts.
pub fn is_turned(entry: &Entry) -> bool
    ensures { result ≡ entry_spec.is_turned entry.now }
{
    match entry {
        Entry::Operation(op) => is_turned_span(op.span()),
        _ => false,
    }
}

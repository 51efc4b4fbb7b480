//! The writer of a trace's text.

ghost use Rattle.std.specs.Prelude.{◌≡◌, ◌∷◌, ◌++◌, map, IfOk, OnOk};
ghost use Rattle.std.specs.Fmt.{decimal};
ghost use Rattle.std.specs.List.{list_any, flat_map};
ghost use Rattle.trace_semantics.specs.declared.trace.Process.{Process};
ghost use Rattle.trace_text.specs.TraceText as spelled;
ghost use Rattle.trace_text.specs.TraceLines.{spaced, entry_line, joined};
ghost use Rattle.trace_text.specs.TraceWritten.{line_text, version_for, canonical_body, canonical_trace};

use crate::location_count::has_many_locations;
use crate::version::Version;
use itoa::Buffer;
use std::alloc::{AllocError, Global};
use trace_semantics::known_order::says_times;
use trace_semantics::limits::Limits;
use trace_semantics::name::Name;
use trace_semantics::operation::{Op, OpName, Origin, Span};
use trace_semantics::trace::{Process, Trace};
use trace_semantics::trace_size::count_operations;

/// Returns whether it is said where the value of the operation comes from.
fn says_origin(op: &Op) -> bool
    ensures { result ≡ spelled.has_origin op.now }
{
    match op {
        Op::Read {
            origin: Origin::Any,
            ..
        } => false,
        Op::Read { .. } => true,
        Op::Write { .. } => false,
        Op::Update {
            origin: Origin::Any,
            ..
        } => false,
        Op::Update { .. } => true,
    }
}

fn process_says_origin(process: &Process) -> bool
    ensures { result ≡ list_any spelled.has_origin process.now.operations }
{
    process
        .operations
        .as_slice()
        .iter()
        .any(|op| says_origin(op))
}

/// Returns whether some operation of these processes says where its value comes from.
fn any_says_origin(processes: &[Process]) -> bool
    ensures { result ≡ list_any (λ (p : Process). list_any spelled.has_origin p.operations) processes.now }
{
    processes.iter().any(|process| process_says_origin(process))
}

/// Returns whether the trace says what version 1 has no line for.
fn wants_version_2(trace: &Trace) -> bool
    ensures { result ≡ spelled.needs_version_2 trace.now }
{
    !trace.before().is_empty() || any_says_origin(trace.processes())
}

/// Returns whether the trace says times, or is larger than versions 1 and 2 have room for.
fn wants_version_3(alloc: Global, trace: &Trace) -> Result<bool, AllocError>
    ensures { IfOk result (λ wants. wants ≡ spelled.needs_version_3 trace.now) }
{
    if says_times(trace) {
        return Ok(true);
    }
    if count_operations(trace) > Limits::Small.max_operations() {
        return Ok(true);
    }
    if trace.before().len() > Limits::Small.max_pairs() {
        return Ok(true);
    }
    // last, since this check alone takes memory
    has_many_locations(alloc, trace)
}

/// Returns the version of the trace's canonical text: the earliest that has lines for what the trace says, and room for it.
fn wanted_version(alloc: Global, trace: &Trace) -> Result<Version, AllocError>
    ensures { IfOk result (λ version. version ≡ version_for trace.now) }
{
    if wants_version_3(alloc, trace)? {
        return Ok(Version::Three);
    }
    Ok(if wants_version_2(trace) {
        Version::Two
    } else {
        Version::One
    })
}

/// Appends a space and the word.
fn push_word(text: &mut Vec<u8>, word: &[u8]) -> Result<(), AllocError>
    ensures { OnOk result (text.new.items ≡ text.old.items ++ 32 ∷ word.now) }
{
    text.push(b' ')?;
    text.extend_from_slice(word)?;
    Ok(())
}

/// Appends a space and the number.
fn push_number(text: &mut Vec<u8>, number: u64) -> Result<(), AllocError>
    ensures { OnOk result (text.new.items ≡ text.old.items ++ 32 ∷ decimal number) }
{
    let mut buffer = Buffer::new();
    push_word(text, buffer.format(number).as_bytes())
}

/// Appends the process and the place of the name.
fn push_op_name(text: &mut Vec<u8>, name: &OpName) -> Result<(), AllocError>
    ensures { OnOk result (text.new.items ≡ text.old.items ++ 32 ∷ name.now.process ++ 32 ∷ decimal name.now.place) }
{
    push_word(text, name.process.as_bytes())?;
    push_number(text, u64::from(name.place))
}

/// Appends the words that say where a value comes from.
fn push_origin(text: &mut Vec<u8>, origin: &Origin) -> Result<(), AllocError>
    ensures { OnOk result (text.new.items ≡ text.old.items ++ flat_map spaced (spelled.origin_words origin.now)) }
{
    match origin {
        Origin::Any => Ok(()),
        Origin::Initial => {
            text.extend_from_slice(b" from init")?;
            Ok(())
        }
        Origin::Operation(name) => {
            text.extend_from_slice(b" from")?;
            push_op_name(text, name)
        }
    }
}

/// Appends the words that say when an operation was under way.
fn push_span(text: &mut Vec<u8>, span: Option<Span>) -> Result<(), AllocError>
    ensures { OnOk result (text.new.items ≡ text.old.items ++ flat_map spaced (spelled.span_words span)) }
{
    match span {
        None => Ok(()),
        Some(span) => {
            text.extend_from_slice(b" at")?;
            push_number(text, span.start)?;
            push_number(text, span.end)
        }
    }
}

/// Appends the words of where a value comes from and when the operation was under way.
fn push_last_words(
    text: &mut Vec<u8>,
    origin: &Origin,
    span: Option<Span>,
) -> Result<(), AllocError>
    ensures { OnOk result (text.new.items ≡ text.old.items ++ flat_map spaced (spelled.origin_words origin.now ++ spelled.span_words span)) }
{
    push_origin(text, origin)?;
    push_span(text, span)
}

/// Appends the first words of a line: its key, a location and a value.
fn push_entry(text: &mut Vec<u8>, key: &[u8], location: &Name, value: u64) -> Result<(), AllocError>
    ensures { OnOk result (text.new.items ≡ text.old.items ++ key.now ++ 32 ∷ location.now ++ 32 ∷ decimal value) }
{
    text.extend_from_slice(key)?;
    push_word(text, location.as_bytes())?;
    push_number(text, value)
}

/// Appends the words of an operation's line. An update reads the value `read` and leaves the value `left`.
fn push_op_words(text: &mut Vec<u8>, op: &Op) -> Result<(), AllocError>
    ensures { OnOk result (text.new.items ≡ text.old.items ++ joined (spelled.op_line op.now)) }
{
    match op {
        Op::Read {
            location,
            value,
            origin,
            span,
        } => {
            push_entry(text, b"R", location, *value)?;
            push_last_words(text, origin, *span)
        }
        Op::Write {
            location,
            value,
            span,
        } => {
            push_entry(text, b"W", location, *value)?;
            push_span(text, *span)
        }
        Op::Update {
            location,
            read,
            left,
            origin,
            span,
        } => {
            push_entry(text, b"U", location, *read)?;
            push_number(text, *left)?;
            push_last_words(text, origin, *span)
        }
    }
}

/// Appends the line of an operation.
pub fn push_op(text: &mut Vec<u8>, op: &Op) -> Result<(), AllocError>
    ensures { OnOk result (text.new.items ≡ text.old.items ++ line_text (spelled.op_line op.now)) }
{
    push_op_words(text, op)?;
    text.push(b'\n')?;
    Ok(())
}

/// Appends the lines of a process.
fn push_process(text: &mut Vec<u8>, process: &Process) -> Result<(), AllocError>
    ensures { OnOk result (text.new.items ≡ text.old.items ++ flat_map line_text (spelled.process_lines process.now)) }
{
    text.extend_from_slice(b"proc")?;
    push_word(text, process.name.as_bytes())?;
    text.push(b'\n')?;
    for op in process.operations.as_slice() {
        push_op(text, op)?;
    }
    Ok(())
}

/// Appends the lines of the processes.
fn push_processes(text: &mut Vec<u8>, processes: &[Process]) -> Result<(), AllocError>
    ensures { OnOk result (text.new.items ≡ text.old.items ++ flat_map line_text (flat_map spelled.process_lines processes.now)) }
{
    for process in processes {
        push_process(text, process)?;
    }
    Ok(())
}

/// Appends a line with this key for each location and value.
pub fn push_entries(
    text: &mut Vec<u8>,
    key: &[u8],
    entries: &[(Name, u64)],
) -> Result<(), AllocError>
    ensures { OnOk result (text.new.items ≡ text.old.items ++ flat_map line_text (map (entry_line key.now) entries.now)) }
{
    for entry in entries {
        push_entry(text, key, &entry.0, entry.1)?;
        text.push(b'\n')?;
    }
    Ok(())
}

/// Appends the line of each pair.
pub fn push_pairs(text: &mut Vec<u8>, pairs: &[(OpName, OpName)]) -> Result<(), AllocError>
    ensures { OnOk result (text.new.items ≡ text.old.items ++ flat_map line_text (map spelled.before_line pairs.now)) }
{
    for pair in pairs {
        text.extend_from_slice(b"before")?;
        push_op_name(text, &pair.0)?;
        push_op_name(text, &pair.1)?;
        text.push(b'\n')?;
    }
    Ok(())
}

/// Appends the header of this version.
fn push_header(text: &mut Vec<u8>, version: Version) -> Result<(), AllocError>
    ensures { OnOk result (text.new.items ≡ text.old.items ++ line_text (spelled.header_line version)) }
{
    text.extend_from_slice(match version {
        Version::One => b"vsc 1\n",
        Version::Two => b"vsc 2\n",
        Version::Three => b"vsc 3\n",
    })?;
    Ok(())
}

/// Appends the header of the trace's canonical text.
pub fn push_wanted_header(
    alloc: Global,
    text: &mut Vec<u8>,
    trace: &Trace,
) -> Result<(), AllocError>
    ensures { OnOk result (text.new.items ≡ text.old.items ++ line_text (spelled.header_line (version_for trace.now))) }
{
    let version = wanted_version(alloc, trace)?;
    push_header(text, version)
}

/// Appends the lines after the header: the initial values, the final values, the processes with their operations, and the pairs, each in
/// its order, one line each.
fn push_body(text: &mut Vec<u8>, trace: &Trace) -> Result<(), AllocError>
    ensures { OnOk result (text.new.items ≡ text.old.items ++ flat_map line_text (canonical_body trace.now)) }
{
    push_entries(text, b"init", trace.initial())?;
    push_entries(text, b"final", trace.final_values())?;
    push_processes(text, trace.processes())?;
    let pairs = trace.before();
    push_pairs(text, pairs)
}

/// The canonical text of the trace: the header, of a later version only where the trace needs it, and the lines after it.
pub fn write_trace(alloc: Global, trace: &Trace) -> Result<Vec<u8>, AllocError>
    ensures { IfOk result (λ text. text.items ≡ canonical_trace trace.now) }
{
    let mut text = Vec::new(alloc);
    push_wanted_header(alloc, &mut text, trace)?;
    push_body(&mut text, trace)?;
    Ok(text)
}

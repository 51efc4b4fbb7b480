//! The writer of a part's text.

ghost use Rattle.std.specs.Prelude.{◌≡◌, ◌++◌, true, IfOk, OnOk};
ghost use Rattle.std.specs.List.{flat_map, slice_get};
ghost use Rattle.trace_text.specs.TraceWritten.{line_text};
ghost use Rattle.part_text.specs.PartText.{name_comment, named_body, named_op, named_ops, named_process, named_processes, part_text};

use itoa::Buffer;
use std::alloc::{AllocError, Global};
use trace_part::part::TracePart;
use trace_semantics::name::Name;
use trace_semantics::operation::Op;
use trace_semantics::trace::Process;
use trace_text::trace_writer::{
    push_entries, push_op, push_pairs, push_wanted_header, write_trace,
};

/// Appends the comment with the name of an operation, as `# P.3` for the third one of the process P.
fn push_name_comment(text: &mut Vec<u8>, process: &Name, place: u32) -> Result<(), AllocError>
    ensures { OnOk result (text.new.items ≡ text.old.items ++ line_text (name_comment (record { process = process.now; place = place }))) }
{
    let mut buffer = Buffer::new();
    text.extend_from_slice(b"# ")?;
    text.extend_from_slice(process.as_bytes())?;
    text.push(b'.')?;
    text.extend_from_slice(buffer.format(place).as_bytes())?;
    text.push(b'\n')?;
    Ok(())
}

/// The entry of this number, counted from 0, if there is one. The entry itself is a place in the whole trace's process, from 1.
fn place_at(places: &[u32], k: usize) -> Option<u32>
    ensures { result ≡ slice_get places.now k }
{
    if k < places.len() {
        Some(places[k])
    } else {
        None
    }
}

/// Appends the line of an operation, after a comment with its name in the whole if its place there is known.
fn push_named_op(
    text: &mut Vec<u8>,
    process: &Name,
    place: Option<u32>,
    op: &Op,
) -> Result<(), AllocError>
    ensures { OnOk result (text.new.items ≡ text.old.items ++ flat_map line_text (named_op process.now place op.now)) }
{
    match place {
        Some(place) => {
            push_name_comment(text, process, place)?;
            push_op(text, op)
        }
        None => push_op(text, op),
    }
}

/// Appends the operations of a process, which have these places in the whole, the k-th place for the k-th operation.
fn push_named_ops(
    text: &mut Vec<u8>,
    process: &Name,
    places: &[u32],
    ops: &[Op],
) -> Result<(), AllocError>
    ensures { OnOk result (text.new.items ≡ text.old.items ++ flat_map line_text (named_ops process.now places.now 0 ops.now)) }
{
    for k in 0..ops.len() {
        push_named_op(text, process, place_at(places, k), &ops[k])?;
    }
    Ok(())
}

/// Appends a process, of which the operations have these places in the whole.
fn push_named_process(
    text: &mut Vec<u8>,
    places: &[u32],
    process: &Process,
) -> Result<(), AllocError>
    ensures { OnOk result (text.new.items ≡ text.old.items ++ flat_map line_text (named_process places.now process.now)) }
{
    text.extend_from_slice(b"proc ")?;
    text.extend_from_slice(process.name.as_bytes())?;
    text.push(b'\n')?;
    push_named_ops(text, &process.name, places, process.operations.as_slice())
}

/// Appends the processes of the part.
fn push_named_processes(text: &mut Vec<u8>, part: &TracePart) -> Result<(), AllocError>
    ensures { OnOk result (text.new.items ≡ text.old.items ++ flat_map line_text (named_processes part.now.places 0 part.now.trace.processes)) }
{
    let processes = part.trace().processes();
    for k in 0..processes.len() {
        push_named_process(text, part.places(k), &processes[k])?;
    }
    Ok(())
}

/// Appends the lines after the header, with a comment before each operation, which has its name in the whole. Without the comments they are
/// the lines of the trace's canonical text, in the same order.
fn push_named_body(text: &mut Vec<u8>, part: &TracePart) -> Result<(), AllocError>
    ensures { OnOk result (text.new.items ≡ text.old.items ++ flat_map line_text (named_body part.now)) }
{
    let trace = part.trace();
    push_entries(text, b"init", trace.initial())?;
    push_entries(text, b"final", trace.final_values())?;
    push_named_processes(text, part)?;
    let pairs = trace.before();
    push_pairs(text, pairs)
}

/// The text of the part, some operations of a whole trace, with a comment before each, which has its name in the whole.
fn write_named(alloc: Global, part: &TracePart) -> Result<Vec<u8>, AllocError>
    ensures { IfOk result (λ text. text.items ≡ part_text true part.now) }
{
    let mut text = Vec::new(alloc);
    push_wanted_header(alloc, &mut text, part.trace())?;
    push_named_body(&mut text, part)?;
    Ok(text)
}

/// The text of the part, a trace's, with the names of its operations in the whole as comments, or without.
pub fn write_part(alloc: Global, part: &TracePart, shows_names: bool) -> Result<Vec<u8>, AllocError>
    ensures { IfOk result (λ text. text.items ≡ part_text shows_names part.now) }
{
    if shows_names {
        write_named(alloc, part)
    } else {
        write_trace(alloc, part.trace())
    }
}

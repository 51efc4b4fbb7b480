//! New names of what remains, by the places of what remains of each process.

ghost use Rattle.std.specs.Prelude.{◌≡◌, ◌≤◌, length, Option, IfOk, nat_le, position};
ghost use Rattle.std.specs.List.{filter, slice_get};
ghost use Rattle.std.specs.Option.{option_copied, option_and_then};
ghost use Rattle.std.specs.Str.{bytes_eq};
ghost use Rattle.trace_semantics.specs.declared.operation.Op.{Op as Old};
ghost use Rattle.trace_semantics.specs.declared.operation.OpName.{OpName as Named};
ghost use Rattle.trace_semantics.specs.declared.trace.Process.{Process as Listed};
ghost use Rattle.restriction.specs.Left as naming;
ghost use Rattle.restriction.specs.PlacesLeft.{ArePlacesLeft};

use crate::left_places::LeftPlaces;
use std::alloc::{AllocError, Global};
use trace_semantics::name::Name;
use trace_semantics::operation::{Op, OpName, Origin};
use trace_semantics::process_order::find_process;
use trace_semantics::trace::{Process, Trace};

/// Returns the places of what remains of the process of this name.
fn places_at<'a>(
    processes: &[Process],
    all: &'a [LeftPlaces<'a>],
    name: &[u8],
) -> Option<&'a LeftPlaces<'a>>
    ensures { option_copied result ≡ option_and_then (slice_get all.now) (position (λ (p : Listed). bytes_eq p.name name.now) processes.now) }
{
    match find_process(processes, name) {
        Some(k) => all.get(k),
        None => None,
    }
}

/// Returns the number of places that are no higher than this one.
pub fn count_up_to(places: &[u32], place: u32) -> usize
    ensures within { result ≤ length places.now }
    ensures count { result ≡ length (filter (λ other. nat_le other place) places.now) }
{
    places.iter().filter(|other| **other <= place).count()
}

/// Returns the operation's place in what remains. It is the number of operations that remain up to it. So an operation that does not remain has the
/// new place of the last before it that does, on which the expansion of `reducer` rests. 0 is the place of no operation.
fn new_place<'a>(trace: &Trace, all: &'a [LeftPlaces<'a>], name: &OpName) -> u32
    ensures { (stays : Named → Option Old) → ArePlacesLeft trace.now stays all.now → result ≡ (naming.new_name stays name.now).place }
{
    match places_at(trace.processes(), all, name.process.as_bytes()) {
        Some(left) => {
            let count = count_up_to(left.as_slice(), name.place);
            // as many as stay up to a place are at most the place, and the bound shows that the cast loses nothing
            count.min(name.place as usize) as u32
        }
        None => 0,
    }
}

/// Returns the name in what remains.
pub fn new_name<'a>(
    alloc: Global,
    trace: &Trace,
    all: &'a [LeftPlaces<'a>],
    name: &OpName,
) -> Result<OpName, AllocError>
    ensures { IfOk result (λ new. (stays : Named → Option Old) → ArePlacesLeft trace.now stays all.now → new ≡ naming.new_name stays name.now) }
{
    Ok(OpName {
        process: Name::copy_of(alloc, name.process.as_bytes())?,
        place: new_place(trace, all, name),
    })
}

/// Returns the origin with the new name of its operation, if it names one.
fn new_origin<'a>(
    alloc: Global,
    trace: &Trace,
    all: &'a [LeftPlaces<'a>],
    origin: &Origin,
) -> Result<Origin, AllocError>
    ensures { IfOk result (λ new. (stays : Named → Option Old) → ArePlacesLeft trace.now stays all.now → new ≡ naming.new_origin stays origin.now) }
{
    match origin {
        Origin::Any => Ok(Origin::Any),
        Origin::Initial => Ok(Origin::Initial),
        Origin::Operation(name) => Ok(Origin::Operation(new_name(alloc, trace, all, name)?)),
    }
}

/// Returns the operation with the new name of its origin.
pub fn new_op<'a>(
    alloc: Global,
    trace: &Trace,
    all: &'a [LeftPlaces<'a>],
    op: &Op,
) -> Result<Op, AllocError>
    ensures { IfOk result (λ new. (stays : Named → Option Old) → ArePlacesLeft trace.now stays all.now → new ≡ naming.new_op stays op.now) }
{
    match op {
        Op::Read {
            location,
            value,
            origin,
            span,
        } => Ok(Op::Read {
            location: Name::copy_of(alloc, location.as_bytes())?,
            value: *value,
            origin: new_origin(alloc, trace, all, origin)?,
            span: *span,
        }),
        Op::Write {
            location,
            value,
            span,
        } => Ok(Op::Write {
            location: Name::copy_of(alloc, location.as_bytes())?,
            value: *value,
            span: *span,
        }),
        Op::Update {
            location,
            read,
            left,
            origin,
            span,
        } => Ok(Op::Update {
            location: Name::copy_of(alloc, location.as_bytes())?,
            read: *read,
            left: *left,
            origin: new_origin(alloc, trace, all, origin)?,
            span: *span,
        }),
    }
}

//! The possible origins of what a reading operation reads.

ghost use Rattle.std.specs.Prelude.{◌≡◌, ◌∷◌, map, IfOk};
ghost use Rattle.std.specs.List.{filter};
ghost use Rattle.trace_semantics.specs.Operation.{origin_of};
ghost use Rattle.trace_semantics.specs.Trace.{value_of};
ghost use Rattle.var_layout.specs.Candidates as candidates;
ghost use Rattle.var_layout.specs.declared.candidate.Candidate.TheVariants.{InitialValue, Writer};

use crate::candidate::Candidate;
use crate::numbering::Numbering;
use std::alloc::{AllocError, Global};
use trace_semantics::held_value::is_held;
use trace_semantics::name::Name;
use trace_semantics::operation::{Op, Origin};
use trace_semantics::trace::Trace;

/// Gives what a list of locations and values gives a location.
fn value_at(values: &[(Name, u64)], location: &[u8]) -> Option<u64>
    ensures { result ≡ value_of values.now location.now }
{
    values
        .iter()
        .find(|entry| entry.0.as_bytes() == location)
        .map(|entry| entry.1)
}

/// The value that comes from there.
fn value_from(
    numbering: &Numbering<'_>,
    trace: &Trace,
    location: &[u8],
    candidate: Candidate,
) -> Option<u64>
    requires { numbering.now ≡ trace.now }
    ensures { result ≡ candidates.value_from trace.now location.now candidate }
{
    match candidate {
        Candidate::InitialValue => value_at(trace.initial(), location),
        Candidate::Writer(w) => numbering.left_at(location, w),
    }
}

/// Returns whether there is a value, and it is the one that is read. If nothing is read (`read` is none), it is not.
fn is_read(value: Option<u64>, read: Option<u64>) -> bool
    ensures { result ≡ candidates.is_read value read }
{
    match value {
        None => false,
        Some(held) => is_held(read, held),
    }
}

/// Returns whether the candidate is what the origin says, if that says anything.
fn is_said(numbering: &Numbering<'_>, origin: &Origin, candidate: Candidate) -> bool
    ensures { result ≡ candidates.is_allowed numbering.now origin.now candidate }
{
    match origin {
        Origin::Any => true,
        Origin::Initial => match candidate {
            Candidate::InitialValue => true,
            Candidate::Writer(_) => false,
        },
        Origin::Operation(name) => match candidate {
            Candidate::InitialValue => false,
            Candidate::Writer(w) => numbering.is_named(w, name),
        },
    }
}

/// Returns whether the candidate is what the operation's origin says, if that says anything.
fn is_allowed(numbering: &Numbering<'_>, op: &Op, candidate: Candidate) -> bool
    ensures { result ≡ candidates.is_allowed numbering.now (origin_of op.now) candidate }
{
    match op {
        Op::Read { origin, .. } => is_said(numbering, origin, candidate),
        Op::Write { .. } => true,
        Op::Update { origin, .. } => is_said(numbering, origin, candidate),
    }
}

/// Returns whether the operation may have its value from there.
fn is_candidate(numbering: &Numbering<'_>, trace: &Trace, op: &Op, candidate: Candidate) -> bool
    requires { numbering.now ≡ trace.now }
    ensures { result ≡ candidates.is_candidate trace.now op.now candidate }
{
    let value = value_from(numbering, trace, op.location().as_bytes(), candidate);
    is_read(value, op.value_read()) && is_allowed(numbering, op, candidate)
}

/// All origins that an operation may have: the initial value, and then each of these writers.
fn sources(alloc: Global, writers: &[usize]) -> Result<Vec<Candidate>, AllocError>
    ensures { IfOk result (λ found. found.items ≡ InitialValue ∷ map (λ w. Writer w) writers.now) }
{
    let mut found = Vec::with_capacity(alloc, writers.len() + 1)?;
    found.push(Candidate::InitialValue)?;
    for w in writers {
        found.push(Candidate::Writer(*w))?;
    }
    Ok(found)
}

/// The candidates of an operation with these other writers, in order.
pub(crate) fn read_candidates(
    alloc: Global,
    numbering: &Numbering<'_>,
    trace: &Trace,
    op: &Op,
    writers: &[usize],
) -> Result<Vec<Candidate>, AllocError>
    requires { numbering.now ≡ trace.now }
    ensures { IfOk result (λ found. found.items ≡ filter (candidates.is_candidate trace.now op.now) (InitialValue ∷ map (λ w. Writer w) writers.now)) }
{
    let all = sources(alloc, writers)?;
    all.iter()
        .copied()
        .filter(|candidate| is_candidate(numbering, trace, op, *candidate))
        .collect(alloc)
}

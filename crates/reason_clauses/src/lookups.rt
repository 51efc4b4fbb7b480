//! Operations of a trace by their numbers, and what they say of a value.
//!
//! The numbers are those of a line of a certificate of reasons, of which a clause over orders is made. A certificate is not believed: its reader has refused
//! names of no operation, but operations are looked up again here, so that a clause holds in each legal schedule whatever numbers are given.

ghost use Rattle.std.specs.Prelude.{◌≡◌, ◌<◌, true, length, None, Some, IfSome, OnOk, IfOk, IfErr};
ghost use Rattle.std.specs.Str.{bytes_eq};
ghost use Rattle.order_clauses.specs.Numbered.{named, IsKnown};
ghost use Rattle.order_reasons.specs.Sources.{AllowsWriter};
ghost use Rattle.writer_table.specs.declared.operation_place.OperationPlace.{OperationPlace as Place};
ghost use Rattle.reason_clauses.specs.Numbered.{IsGivenWitness, IsGivenFront};
ghost use Rattle.reason_clauses.specs.Makers.{IsNumberOf, DoesHide};
ghost use Rattle.reason_clauses.specs.RefusedBy.{IsMissingNumber, IsRefusedBy};
ghost use Rattle.reason_clauses.specs.SourceRefused.{IsNoWitness};

use crate::cause::{ReasonCause, ReasonRefusal};
use trace_semantics::name::Name;
use trace_semantics::operation::{Op, OpName, Origin};
use trace_semantics::trace::{Process, Trace};
use writer_table::operation_place::OperationPlace;

/// Returns the operation of these numbers, if the trace has one: processes are counted from 0, places from 1.
pub fn find_operation(trace: &Trace, n: OperationPlace) -> Option<&Op>
    ensures there { IfSome result (λ op. IsNumberOf trace.now n op.now) }
    ensures missing { result ≡ None → IsKnown trace.now n → ⊥ }
{
    trace.recall_invariant();
    let processes = trace.processes();
    let q = n.process as usize;
    if q >= processes.len() || n.place == 0 {
        return None;
    }
    let operations = processes[q].operations.as_slice();
    let k = (n.place - 1) as usize;
    if k >= operations.len() {
        return None;
    }
    Some(&operations[k])
}

/// Returns the operation of these numbers, which has to be one.
pub fn operation_of(trace: &Trace, n: OperationPlace) -> Result<&Op, ReasonRefusal>
    ensures there { IfOk result (λ op. IsNumberOf trace.now n op.now) }
    ensures refused { IfErr result (IsRefusedBy (IsMissingNumber trace.now n)) }
{
    match find_operation(trace, n) {
        Some(op) => Ok(op),
        None => Err(ReasonRefusal::For(ReasonCause::NoOperation)),
    }
}

/// Returns whether both are one operation.
pub fn are_same(first: OperationPlace, second: OperationPlace) -> bool
    ensures found { first ≡ second → result ≡ true }
    ensures only { result ≡ true → first ≡ second }
{
    first.process == second.process && first.place == second.place
}

/// Returns whether the operation writes the location, or reads another value there. No operation that does can stand between a reader of the value
/// and its source.
fn hides(op: &Op, location: &[u8], value: u64) -> bool
    ensures only { result ≡ true → DoesHide location.now value op.now }
    ensures found { DoesHide location.now value op.now → result ≡ true }
{
    if op.location().as_bytes() != location {
        return false;
    }
    if op.written_value().is_some() {
        return true;
    }
    match op.value_read() {
        Some(read) => read != value,
        None => false,
    }
}

/// Returns whether the operation is a witness against the value.
fn is_witness(
    trace: &Trace,
    reader: OperationPlace,
    witness: OperationPlace,
    location: &[u8],
    value: u64,
) -> bool
    ensures only { result ≡ true → IsKnown trace.now reader → IsGivenWitness trace.now location.now value reader witness }
    ensures found { IsGivenWitness trace.now location.now value reader witness → result ≡ true }
{
    trace.recall_invariant();
    if are_same(witness, reader) {
        return false;
    }
    let Some(op) = find_operation(trace, witness) else {
        return false;
    };
    hides(op, location, value)
}

/// Refuses an operation that is no witness against the value.
pub fn want_witness(
    trace: &Trace,
    reader: OperationPlace,
    witness: OperationPlace,
    location: &[u8],
    value: u64,
) -> Result<(), ReasonRefusal>
    ensures given { OnOk result (IsKnown trace.now reader → IsGivenWitness trace.now location.now value reader witness) }
    ensures refused { IfErr result (IsRefusedBy (IsNoWitness trace.now location.now value reader witness)) }
{
    if is_witness(trace, reader, witness, location, value) {
        Ok(())
    } else {
        Err(ReasonRefusal::For(ReasonCause::NoWitness))
    }
}

/// The same, if an operation is given.
pub fn want_front(
    trace: &Trace,
    reader: OperationPlace,
    witness: Option<OperationPlace>,
    location: &[u8],
    value: u64,
) -> Result<(), ReasonRefusal>
    ensures given { OnOk result (IsKnown trace.now reader → IsGivenFront trace.now location.now value reader witness) }
    ensures refused { IfErr result (IsRefusedBy (λ cause. (x : Place) × (witness ≡ Some x) × IsNoWitness trace.now location.now value reader x cause)) }
{
    match witness {
        Some(x) => want_witness(trace, reader, x, location, value),
        None => Ok(()),
    }
}

/// Returns whether this is the name of the process.
fn is_called(process: &Process, name: &Name) -> bool
    ensures { result ≡ bytes_eq process.now.name name.now }
{
    process.name.as_bytes() == name.as_bytes()
}

/// Returns whether the name is that of the operation.
pub fn is_named(trace: &Trace, n: OperationPlace, name: &OpName) -> bool
    ensures only { result ≡ true → named trace.now n ≡ name.now }
    ensures found { n.process < length trace.now.processes → named trace.now n ≡ name.now → result ≡ true }
{
    let processes = trace.processes();
    let q = n.process as usize;
    if q >= processes.len() {
        return false;
    }
    if !is_called(&processes[q], &name.process) {
        return false;
    }
    let place = u32::from(name.place);
    if n.place != place {
        return false;
    }
    true
}

/// Returns whether a value may be from the operation, by what is said of it.
pub fn is_from(trace: &Trace, origin: &Origin, n: OperationPlace) -> bool
    ensures found { n.process < length trace.now.processes → AllowsWriter origin.now (named trace.now n) → result ≡ true }
    ensures only { result ≡ true → AllowsWriter origin.now (named trace.now n) }
{
    match origin {
        Origin::Any => true,
        Origin::Initial => false,
        Origin::Operation(name) => is_named(trace, n, name),
    }
}

//! What a reader reads, and the pieces that take its sources.

ghost use Rattle.std.specs.Prelude.{◌≡◌, None, IfSome, IfOk, IfErr};
ghost use Rattle.trace_semantics.specs.Operation.{origin_of, value_read};
ghost use Rattle.reason_clauses.specs.Makers.{IsReadBy};
ghost use Rattle.reason_clauses.specs.RefusedBy.{IsRefusedBy};
ghost use Rattle.reason_clauses.specs.SourceRefused.{IsNoReader};

use crate::cause::{ReasonCause, ReasonRefusal};
use crate::lookups::operation_of;
use crate::pieces::SourcePieces;
use trace_semantics::operation::{Op, Origin};
use trace_semantics::trace::Trace;
use writer_table::operation_place::OperationPlace;

/// A value as an operation reads it.
#[derive(Clone, Copy)]
pub struct ReadValue<'t> {
    pub location: &'t [u8],
    pub value: u64,
    /// What the trace says of where the value comes from.
    pub origin: &'t Origin,
}

/// A reader, and the pieces of a line that take its sources.
#[derive(Clone, Copy)]
pub struct ReaderWithPieces<'t, 'p> {
    pub operation: OperationPlace,
    pub read: ReadValue<'t>,
    pub pieces: &'p SourcePieces,
}

/// The origin of the value that the operation reads, as the trace says it.
fn origin(op: &Op) -> Option<&Origin>
    ensures said { IfSome result (λ said. said.now ≡ origin_of op.now) }
    ensures none { result ≡ None → value_read op.now ≡ None }
{
    match op {
        Op::Read { origin, .. } => Some(origin),
        Op::Write { .. } => None,
        Op::Update { origin, .. } => Some(origin),
    }
}

/// Returns what the operation of these numbers reads, which has to be a reader.
pub fn value_read_by(trace: &Trace, n: OperationPlace) -> Result<ReadValue<'_>, ReasonRefusal>
    ensures read { IfOk result (IsReadBy trace.now n) }
    ensures refused { IfErr result (IsRefusedBy (IsNoReader trace.now n)) }
{
    let op = operation_of(trace, n)?;
    let Some(value) = op.value_read() else {
        return Err(ReasonRefusal::For(ReasonCause::NoReader));
    };
    // What reads a value has an origin, so this is never refused.
    let Some(origin) = origin(op) else {
        return Err(ReasonRefusal::For(ReasonCause::NoReader));
    };
    let location = op.location().as_bytes();
    Ok(ReadValue {
        location,
        value,
        origin,
    })
}

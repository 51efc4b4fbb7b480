//! The words of operations.

ghost use Rattle.std.specs.Prelude.{◌≡◌, ◌++◌, [], OnOk, map, slice_index_or};
ghost use Rattle.trace_semantics.specs.declared.trace.Process.{Process as TraceProcess};
ghost use Rattle.trace_semantics.specs.Operation.{location_of, value_read};
ghost use Rattle.reason_text.specs.OperationWord.{operation_word};
ghost use Rattle.reason_notes.specs.Words.{read_text, value_text};

use crate::listed::push_number;
use reason_clauses::cause::ReasonRefusal;
use reason_clauses::lookups::operation_of;
use std::alloc::AllocError;
use trace_semantics::operation::Op;
use trace_semantics::trace::Trace;
use writer_table::operation_place::OperationPlace;

/// The name of the process of this number, which counts from 0, or no bytes if there is none.
fn process_name(trace: &Trace, number: u32) -> &[u8]
    ensures { result.now ≡ slice_index_or (map (λ (p : TraceProcess). p.name) trace.now.processes) number [] }
{
    let processes = trace.processes();
    let q = number as usize;
    if q >= processes.len() {
        return &[];
    }
    processes[q].name.as_bytes()
}

/// Appends the name of the operation, as `P.3`: its process and its place in it, which counts from 1.
pub fn push_name(text: &mut Vec<u8>, trace: &Trace, n: OperationPlace) -> Result<(), AllocError>
    ensures { OnOk result (text.new.items ≡ text.old.items ++ operation_word trace.now n) }
{
    text.extend_from_slice(process_name(trace, n.process))?;
    text.push(b'.')?;
    push_number(text, u64::from(n.place))
}

/// Appends what the operation reads, as ` reads 0 at x`, and nothing for a write.
fn push_value_read(text: &mut Vec<u8>, op: &Op) -> Result<(), AllocError>
    ensures { OnOk result (text.new.items ≡ text.old.items ++ value_text (location_of op.now) (value_read op.now)) }
{
    let Some(value) = op.value_read() else {
        return Ok(());
    };
    text.extend_from_slice(b" reads ")?;
    push_number(text, value)?;
    text.extend_from_slice(b" at ")?;
    text.extend_from_slice(op.location().as_bytes())?;
    Ok(())
}

/// Appends the name of the operation, which the trace has to have, and what it reads.
pub fn push_read(text: &mut Vec<u8>, trace: &Trace, n: OperationPlace) -> Result<(), ReasonRefusal>
    ensures { OnOk result (text.new.items ≡ text.old.items ++ read_text trace.now n) }
{
    let op = operation_of(trace, n)?;
    push_name(text, trace, n)?;
    push_value_read(text, op)?;
    Ok(())
}

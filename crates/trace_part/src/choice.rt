//! The operations of which a part is made.

ghost use Rattle.std.specs.Prelude.{◌≡◌, is_some, List, IfOk, IfErr};
ghost use Rattle.text_lines.specs.Fault.{IsRefusal};
ghost use Rattle.text_lines.specs.FirstFault.{IsFirstFault};
ghost use Rattle.trace_semantics.specs.declared.operation.OpName.{OpName as Named};
ghost use Rattle.trace_semantics.specs.Judgement.{has_come};
ghost use Rattle.trace_semantics.specs.Trace.{at_place, operation_at};
ghost use Rattle.trace_part.specs.Choice.{fault_of_choice, IsChoice};
ghost use Rattle.trace_semantics.specs.OpSet.{has};

use crate::part_fault::{PartCause, PartFault};
use crate::staying::process_of;
use std::alloc::Global;
use text_lines::fault::PlacedFault;
use trace_semantics::op_set::OpSet;
use trace_semantics::operation::OpName;
use trace_semantics::trace::{Process, Trace};

/// Returns whether the process has an operation at this place.
fn has_place(process: &Process, place: usize) -> bool
    ensures { result ≡ is_some (at_place process.now.operations place) }
{
    1 <= place && place <= process.operations.as_slice().len()
}

/// Returns whether the trace has an operation of this name.
fn is_known(trace: &Trace, name: &OpName) -> bool
    ensures { result ≡ is_some (operation_at trace.now name.now) }
{
    match process_of(trace, name.process.as_bytes()) {
        Some(process) => has_place(process, name.place as usize),
        None => false,
    }
}

/// Returns the fault of a name after the names that the set has.
fn fault_of_name(trace: &Trace, set: &OpSet, name: &OpName) -> Option<PartCause>
    ensures { (before : List Named) → ((n : Named) → has set.now n ≡ has_come before n) → result ≡ fault_of_choice trace.now before name.now }
{
    if !is_known(trace, name) {
        Some(PartCause::UnknownOp)
    } else if set.contains(name.process.as_bytes(), name.place as usize) {
        Some(PartCause::RepeatedOp)
    } else {
        None
    }
}

/// Returns the set of these operations of the trace.
pub fn chosen_ops<'a>(
    alloc: Global,
    trace: &Trace,
    names: &'a [OpName],
) -> Result<OpSet<'a>, PartFault>
    ensures chosen { IfOk result (λ set. (n : Named) → has set n ≡ has_come names.now n) }
    ensures choice { IfOk result (λ set. IsChoice trace.now names.now) }
    ensures refused { IfErr result (IsRefusal (λ cause place. IsFirstFault (fault_of_choice trace.now) names.now place cause)) }
{
    let mut set = OpSet::new(alloc);
    for k in 0..names.len() {
        if let Some(cause) = fault_of_name(trace, &set, &names[k]) {
            // faults count the names from 1
            return Err(PlacedFault::At(cause, k + 1));
        }
        set.insert(&names[k])?;
    }
    Ok(set)
}

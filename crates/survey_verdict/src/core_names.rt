//! The names of a core, in the order of the trace.
ghost use Rattle.std.specs.Prelude.{◌≡◌, ◌≤◌, ◌++◌, length, IfOk, OnOk};
ghost use Rattle.restriction.specs.Left.{names_of};
ghost use Rattle.survey_verdict.specs.Surveyed.{core_of};
ghost use Rattle.trace_semantics.specs.Judgement.{has_come};
ghost use Rattle.trace_semantics.specs.Operation.{same_op};
ghost use Rattle.trace_semantics.specs.Trace.{operation_names};
ghost use Rattle.trace_semantics.specs.declared.limits.Limits.TheVariants.{Large};
ghost use Rattle.trace_semantics.specs.Limits.{max_operations};

use std::alloc::{AllocError, Global};
use trace_semantics::name::Name;
use trace_semantics::operation::OpName;
use trace_semantics::trace::{Process, Trace};

/// Puts the names of a process's operations after the others.
fn push_names(alloc: Global, names: &mut Vec<OpName>, process: &Process) -> Result<(), AllocError>
    requires { length process.now.operations ≤ max_operations Large }
    ensures { OnOk result (names.new.items ≡ names.old.items ++ names_of process.now) }
{
    for k in 0..process.operations.as_slice().len() {
        let name = Name::copy_of(alloc, process.name.as_bytes())?;
        names.push(OpName {
            process: name,
            // Places in a process count from 1.
            place: (k + 1) as u32,
        })?;
    }
    Ok(())
}

/// The names of all operations of the trace, by process and place.
pub(crate) fn all_names(alloc: Global, trace: &Trace) -> Result<Vec<OpName>, AllocError>
    ensures { IfOk result (λ names. names.items ≡ operation_names trace.now) }
{
    trace.recall_invariant();
    let processes = trace.processes();
    let mut names = Vec::new(alloc);
    for process in processes {
        push_names(alloc, &mut names, process)?;
    }
    Ok(names)
}

/// Returns whether the two are one name.
fn are_one(first: &OpName, second: &OpName) -> bool
    ensures { result ≡ same_op first.now second.now }
{
    first.process.as_bytes() == second.process.as_bytes() && first.place == second.place
}

/// Returns whether the name is among these.
fn is_among(names: &[OpName], name: &OpName) -> bool
    ensures { result ≡ has_come names.now name.now }
{
    names.iter().any(|other| are_one(name, other))
}

/// The names of those operations of the trace that are among these, by process and place.
pub(crate) fn names_among(
    alloc: Global,
    trace: &Trace,
    found: &[OpName],
) -> Result<Vec<OpName>, AllocError>
    ensures { IfOk result (λ names. names.items ≡ core_of trace.now found.now) }
{
    let mut names = all_names(alloc, trace)?;
    names.retain(|name| is_among(found, name));
    Ok(names)
}

//! The names of a trace's operations by number.

ghost use Rattle.std.specs.Prelude.{◌≡◌, ◌≤◌, ◌++◌, length, IfOk, OnOk};
ghost use Rattle.std.specs.List.{filter_map, slice_get};
ghost use Rattle.trace_semantics.specs.Trace.{operation_names};
ghost use Rattle.restriction.specs.Left.{names_of};
ghost use Rattle.trace_semantics.specs.declared.limits.Limits.TheVariants.{Large};
ghost use Rattle.trace_semantics.specs.Limits.{max_operations};

use std::alloc::{AllocError, Global};
use std::marker::Model;
use trace_semantics::name::Name;
use trace_semantics::operation::OpName;
use trace_semantics::trace::{Process, Trace};

/// The name of an operation, with the process's name lent by the trace.
#[derive(Drop)]
pub(crate) struct LentName<'a> {
    process: &'a Name,
    /// Counted from 1.
    place: u32,
}

impl<'a> Model for LentName<'a> {
    ghost use Rattle.trace_semantics.specs.declared.operation.OpName.{OpName};

    ghost Value = { OpName };

    ghost view = { λ lent. record { process = lent.process.now; place = lent.place } };
}

impl<'a> LentName<'a> {
    ghost use Rattle.std.specs.Prelude.{◌≡◌, IfOk};

    /// The same name, with its own copy of the process's name.
    fn copied(&self, alloc: Global) -> Result<OpName, AllocError>
        ensures { IfOk result (λ name. name ≡ self.now) }
    {
        Ok(OpName {
            process: Name::copy_of(alloc, self.process.as_bytes())?,
            place: self.place,
        })
    }
}

/// Puts the names of a process's operations after the others.
fn push_names<'a>(names: &mut Vec<LentName<'a>>, process: &'a Process) -> Result<(), AllocError>
    requires { length process.now.operations ≤ max_operations Large }
    ensures { OnOk result (names.new.items ≡ names.old.items ++ names_of process.now) }
{
    for k in 0..process.operations.as_slice().len() {
        names.push(LentName {
            process: &process.name,
            place: (k + 1) as u32,
        })?;
    }
    Ok(())
}

/// The names of the operations of a trace, in the order of their numbers.
pub(crate) fn names_by_number<'a>(
    alloc: Global,
    trace: &'a Trace,
) -> Result<Vec<LentName<'a>>, AllocError>
    ensures { IfOk result (λ names. names.items ≡ operation_names trace.now) }
{
    trace.recall_invariant();
    let processes = trace.processes();
    let mut names = Vec::new(alloc);
    for process in processes {
        push_names(&mut names, process)?;
    }
    Ok(names)
}

/// Copies of the names of these numbers, in their order. A number without a name is passed over; `order_of` gives none.
pub(crate) fn names_in_order<'a>(
    alloc: Global,
    names: &[LentName<'a>],
    order: &[usize],
) -> Result<Vec<OpName>, AllocError>
    ensures { IfOk result (λ named. named.items ≡ filter_map (slice_get names.now) order.now) }
{
    let mut named = Vec::with_capacity(alloc, order.len())?;
    for i in order {
        if let Some(name) = names.get(*i) {
            named.push(name.copied(alloc)?)?;
        }
    }
    Ok(named)
}

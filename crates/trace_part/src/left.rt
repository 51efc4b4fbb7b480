//! What remains of the processes, with the old names of origins.

ghost use Rattle.std.specs.Prelude.{◌≡◌, ◌≤◌, length, map, take, Some, IfOk};
ghost use Rattle.std.specs.List.{filter, filter_map, slice_get};
ghost use Rattle.trace_semantics.specs.declared.operation.OpName.{OpName as Named};
ghost use Rattle.restriction.specs.Left.{is_left, names_of};
ghost use Rattle.trace_part.specs.Rows.{IsLeftOf, AreLeft};
ghost use Rattle.trace_part.specs.Selections.{IsSelection, stays_in};
ghost use Rattle.trace_semantics.specs.declared.limits.Limits.TheVariants.{Large};
ghost use Rattle.trace_semantics.specs.Limits.{max_operations};

use crate::selection::Selection;
use crate::staying::stays_at;
use std::alloc::{AllocError, Global};
use std::marker::Model;
use trace_semantics::operation::Op;
use trace_semantics::trace::Process;

/// What remains of a process: the old places, and the operations.
pub struct Left {
    /// The places in the whole trace, rising. Element k is that of element k of `ops`.
    places: Vec<u32>,
    /// What stays of the operations there. Their origins have the names of the whole trace until `new_processes` renames them.
    ops: Vec<Op>,
}

/// Drops the places and the operations in one call. A derived `Drop` would drop each at every exit of a function that owns what is left, which makes its proof longer.
impl Drop for Left {
    fn drop(self) {
        let Left {
            places: _places,
            ops: _ops,
        } = self;
    }
}

impl Model for Left {
    ghost use Rattle.std.specs.Prelude.{◌≤◌, length};
    ghost use Rattle.trace_part.specs.Rows.{LeftValue};
    ghost use Rattle.trace_semantics.specs.Limits.{max_operations};
    ghost use Rattle.trace_semantics.specs.declared.limits.Limits.TheVariants.{Large};

    ghost Value = { LeftValue };

    ghost view = { λ left. record { places = left.places.items; ops = left.ops.items } };

    ghost invariant = { λ left. length left.places.items ≤ max_operations Large };
}

impl Left {
    ghost use Rattle.std.specs.Prelude.{◌≡◌, ◌≤◌, length};
    ghost use Rattle.trace_semantics.specs.Limits.{max_operations};
    ghost use Rattle.trace_semantics.specs.declared.limits.Limits.TheVariants.{Large};

    /// Returns the old places of what remains.
    pub fn places(&self) -> &[u32]
        ensures places { result.now ≡ self.now.places }
        ensures few { length result.now ≤ max_operations Large }
    {
        self.places.as_slice()
    }

    /// Returns the operations.
    pub fn ops(&self) -> &[Op]
        ensures { result.now ≡ self.now.ops }
    {
        self.ops.as_slice()
    }
}

/// Returns what remains of a process. `number` is that of the process, from 0.
fn left_of<'a>(
    alloc: Global,
    selection: &Selection<'a>,
    process: &'a Process,
    number: u16,
) -> Result<Left, AllocError>
    requires selection { IsSelection selection.now }
    requires listed { slice_get selection.now.trace.now.processes number ≡ Some process.now }
    requires few { length process.now.operations ≤ max_operations Large }
    ensures { IfOk result (λ left. IsLeftOf (stays_in selection.now) process.now left) }
{
    let mut places = Vec::new(alloc);
    let mut ops = Vec::new(alloc);
    for k in 0..process.operations.as_slice().len() {
        if let Some(op) = stays_at(alloc, selection, process, number, k)? {
            places.push((k + 1) as u32)?;
            ops.push(op)?;
        }
    }
    Ok(Left { places, ops })
}

/// Returns what remains of each process.
pub fn all_left<'a>(alloc: Global, selection: &Selection<'a>) -> Result<Vec<Left>, AllocError>
    requires selection { IsSelection selection.now }
    ensures { IfOk result (λ all. AreLeft selection.now.trace.now (stays_in selection.now) all.items) }
{
    selection.trace.recall_invariant();
    let processes = selection.trace.processes();
    let mut all = Vec::new(alloc);
    for k in 0..processes.len() {
        // a trace has at most 64 processes, so the cast loses nothing
        all.push(left_of(alloc, selection, &processes[k], k as u16)?)?;
    }
    Ok(all)
}

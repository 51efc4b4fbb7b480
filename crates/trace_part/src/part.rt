//! The part of a trace that some chosen operations make up.

ghost use Rattle.std.specs.Prelude.{◌≡◌, map, IfOk, IfErr};
ghost use Rattle.text_lines.specs.Fault.{IsRefusal};
ghost use Rattle.text_lines.specs.FirstFault.{IsFirstFault};
ghost use Rattle.part_law.specs.Part as value;
ghost use Rattle.trace_part.specs.Choice.{fault_of_choice};
ghost use Rattle.trace_part.specs.Selections.{IsSelection, ordered_in, chosen_in, stays_in};
ghost use Rattle.trace_part.specs.TraceParts.{IsPart, left_places};

use crate::choice::chosen_ops;
use crate::finals::{finals_left, initial_copied};
use crate::left::{Left, all_left};
use crate::listing::writer_table;
use crate::pairs::pairs_left;
use crate::part_fault::PartFault;
use crate::renamed::new_processes;
use crate::selection::Selection;
use forced_order::forced_order::ForcedOrder;
use std::alloc::{AllocError, Global};
use std::marker::Model;
use trace_semantics::operation::OpName;
use trace_semantics::trace::Trace;

/// A part of a trace, and the places of its operations in the whole.
pub struct TracePart {
    trace: Trace,
    left: Vec<Left>,
}

/// Drops the trace and what is left in one call. A derived `Drop` would drop each at every exit of a function that owns a part, which makes its proof longer.
impl Drop for TracePart {
    fn drop(self) {
        let TracePart {
            trace: _trace,
            left: _left,
        } = self;
    }
}

impl Model for TracePart {
    ghost use Rattle.std.specs.Prelude.{map};
    ghost use Rattle.trace_part.specs.Rows.{LeftValue};
    ghost use Rattle.trace_part.specs.TraceParts.{PartValue};

    ghost Value = { PartValue };

    ghost view = { λ p. record { trace = p.trace; places = map (λ (left : LeftValue). left.places) p.left.items } };
}

impl TracePart {
    ghost use Rattle.std.specs.Prelude.{◌≡◌, [], slice_index_or};

    /// Returns the part.
    pub fn trace(&self) -> &Trace
        ensures { result.now ≡ self.now.trace }
    {
        &self.trace
    }

    /// Returns the place in the whole of each operation that remains of the process of this number; none if there is no such process.
    pub fn places(&self, process: usize) -> &[u32]
        ensures { result.now ≡ slice_index_or self.now.places process [] }
    {
        match self.left.get(process) {
            Some(left) => left.places(),
            None => &[],
        }
    }
}

/// Returns the part that the selected operations make up.
fn selected_part<'a>(alloc: Global, selection: &Selection<'a>) -> Result<TracePart, AllocError>
    requires selection { IsSelection selection.now }
    ensures trace { IfOk result (λ made. made.trace ≡ value.part selection.now.trace.now (ordered_in selection.now) (chosen_in selection.now)) }
    ensures places { IfOk result (λ made. made.places ≡ map (left_places (stays_in selection.now)) selection.now.trace.now.processes) }
{
    let trace = selection.trace;
    trace.recall_invariant();
    let left = all_left(alloc, selection)?;
    let processes = new_processes(alloc, trace, left.as_slice())?;
    let initial = initial_copied(alloc, trace)?;
    let finals = finals_left(alloc, selection)?;
    let before = pairs_left(alloc, trace, &selection.order, left.as_slice())?;
    let trace = Trace::new(processes, initial, finals, before);
    Ok(TracePart { trace, left })
}

/// Returns the part of the trace that these operations make up, by its forced order. Each name must be that of an operation of the
/// trace, and none may stand twice; their order does not matter.
pub fn part_of(alloc: Global, trace: &Trace, names: &[OpName]) -> Result<TracePart, PartFault>
    ensures part { IfOk result (IsPart trace.now names.now) }
    ensures refused { IfErr result (IsRefusal (λ cause place. IsFirstFault (fault_of_choice trace.now) names.now place cause)) }
{
    trace.recall_invariant();
    let order = ForcedOrder::of_trace(alloc, trace)?;
    let set = chosen_ops(alloc, trace, names)?;
    let writers = writer_table(alloc, trace, &set)?;
    let selection = Selection {
        trace,
        order,
        set,
        writers,
    };
    Ok(selected_part(alloc, &selection)?)
}

//! Decoding.
//!
//! A trace is reduced before it is encoded: plain reads that only repeat what their process has just left or read are dropped. The formula, its variables
//! and the schedules here are of the operations that are kept; `expand` of the crate `reducer` puts the others back.

ghost use Rattle.std.specs.Prelude.{◌≡◌, IfOk, IfErr, OnOk};
ghost use Rattle.dimacs.specs.Assignment.{value_of};
ghost use Rattle.dimacs.specs.Models.{IsModel};
ghost use Rattle.trace_semantics.specs.Legal.{IsLegal};
ghost use Rattle.clause_blocks.specs.Clauses.{formula_of};
ghost use Rattle.clause_blocks.specs.ModelOrder.{IsInOrderOf};
ghost use Rattle.text_lines.specs.Fault.{IsRefusal};
ghost use Rattle.schedule_decode.specs.Decode.{HasDecodeFault, IsModelOfKept};

use crate::decode_fault::{DecodeCause, DecodeFault};
use crate::operation_names::{names_by_number, names_in_order};
use crate::operation_order::order_of;
use dimacs::{Assignment, Formula};
use reducer::reduced::Reduced;
use std::alloc::{AllocError, Global};
use text_lines::fault::PlacedFault;
use trace_semantics::schedule::Schedule;
use var_layout::layout::Layout;

/// The schedule in which the truth values put the operations, by the variables of what is kept. If they are a model it is legal. No clause is tried, since
/// each caller has a model that was tried: of truth values that are none it is only said that the call returns.
pub fn schedule_of(
    alloc: Global,
    reduced: &Reduced,
    layout: &Layout,
    assignment: &Assignment,
) -> Result<Schedule, AllocError>
    ensures ordered { IsModelOfKept (value_of assignment.now) layout.now reduced.now.kept →
        IfOk result (IsInOrderOf (value_of assignment.now) reduced.now.kept) }
    ensures legal { IsModelOfKept (value_of assignment.now) layout.now reduced.now.kept → IfOk result (IsLegal reduced.now.kept) }
{
    let trace = reduced.kept();
    trace.recall_invariant();
    let order = order_of(alloc, layout, assignment)?;
    let names = names_by_number(alloc, trace)?;
    Ok(Schedule::new(names_in_order(alloc, names.as_slice(), order.as_slice())?))
}

/// The schedule in which a model of the trace's formula puts the operations: one stands before another if and only if the
/// literal that says so is true. The schedule is legal.
pub fn decode(
    alloc: Global,
    reduced: &Reduced,
    formula: &Formula,
    assignment: &Assignment,
) -> Result<Schedule, DecodeFault>
    requires { formula.now ≡ formula_of reduced.now.kept }
    ensures ordered { IfOk result (λ schedule. IsInOrderOf (value_of assignment.now) reduced.now.kept schedule) }
    ensures model { OnOk result (IsModel (value_of assignment.now) formula.now.clauses) }
    ensures legal { IfOk result (IsLegal reduced.now.kept) }
    ensures refused { IfErr result (IsRefusal (HasDecodeFault (value_of assignment.now) formula.now.clauses)) }
{
    if let Err(found) = formula.eval(assignment) {
        return Err(PlacedFault::At(DecodeCause::NotAModel, found.clause));
    }
    let layout = Layout::of(alloc, reduced)?;
    Ok(schedule_of(alloc, reduced, &layout, assignment)?)
}

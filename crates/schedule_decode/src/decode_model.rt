//! Decoding without the formula.

ghost use Rattle.std.specs.Prelude.{◌≡◌, IfOk, IfErr, OnOk};
ghost use Rattle.dimacs.specs.Assignment.{value_of};
ghost use Rattle.dimacs.specs.Models.{IsModel};
ghost use Rattle.trace_semantics.specs.Legal.{IsLegal};
ghost use Rattle.clause_blocks.specs.Clauses.{clauses_of};
ghost use Rattle.clause_blocks.specs.ModelOrder.{IsInOrderOf};
ghost use Rattle.text_lines.specs.Fault.{IsRefusal};
ghost use Rattle.schedule_decode.specs.Decode.{HasDecodeFault};

use crate::decode::schedule_of;
use crate::decode_fault::{DecodeCause, DecodeFault};
use clause_blocks::trace_clauses::TraceClauses;
use dimacs::{Assignment, ClauseList};
use reducer::reduced::Reduced;
use std::alloc::Global;
use text_lines::fault::PlacedFault;
use trace_semantics::schedule::Schedule;

/// The schedule in which a model of the trace's clauses puts the operations, as `decode` gives it. No formula is
/// held: of transitivity, single clauses are made only if the truth values put the operations in no order.
pub fn decode_model(
    alloc: Global,
    reduced: &Reduced,
    assignment: &Assignment,
) -> Result<Schedule, DecodeFault>
    ensures ordered { IfOk result (λ schedule. IsInOrderOf (value_of assignment.now) reduced.now.kept schedule) }
    ensures model { OnOk result (IsModel (value_of assignment.now) (clauses_of reduced.now.kept)) }
    ensures legal { IfOk result (IsLegal reduced.now.kept) }
    ensures refused { IfErr result (IsRefusal (HasDecodeFault (value_of assignment.now) (clauses_of reduced.now.kept))) }
{
    let clauses = TraceClauses::of(alloc, reduced)?;
    if let Err(found) = clauses.eval(assignment) {
        return Err(PlacedFault::At(DecodeCause::NotAModel, found.clause));
    }
    Ok(schedule_of(alloc, reduced, clauses.layout(), assignment)?)
}

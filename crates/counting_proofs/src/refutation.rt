//! The derivation of a contradiction.

ghost use Rattle.std.specs.Prelude.{◌≤◌, length, IfOk, IfSome};

use crate::cycles::add_cycle;
use crate::last_writer::add_last_writer;
use crate::proof_writer::ProofWriter;
use crate::shortages::add_shortage;
use crate::step_log::{Free, StepLog};
use crate::units::UnitTable;
use lrat_check::derivation::{Derivation, Step};
use proof_log::{ClauseId, within};
use source_matching::{Kind, KnownOrder, MatchingInstance, SourceContradiction};
use std::alloc::{AllocError, Global};

/// The premises: steps with which the derivation begins, for each literal on which a contradiction rests the number of its unit
/// clause, and which numbers are free.
#[derive(Drop)]
pub struct Premises<'a> {
    pub steps: Vec<Step>,
    /// The numbers of the unit clauses, in the order of the contradiction's `rests_on`.
    pub clauses: &'a [ClauseId],
    /// The numbers that the formula and the steps leave free. The additions of the steps have smaller ones.
    pub free: Free,
}

/// Adds all steps. The last one is the empty clause.
fn add_lines(
    alloc: Global,
    writer: &mut ProofWriter,
    reads: &MatchingInstance,
    units: &UnitTable,
    kind: &Kind,
    known: KnownOrder<'_>,
) -> Result<(), AllocError> {
    match kind {
        Kind::HallViolator(shortage) => add_shortage(alloc, writer, reads, units, shortage),
        Kind::SourceCycle(cycle) => {
            add_cycle(alloc, writer.log(), reads, units, cycle, known.order)
        }
        Kind::LastWriters(ending, shortage) => {
            let all = add_last_writer(alloc, writer.log(), reads, ending, known, units)?;
            add_shortage(alloc, writer, &all, units, shortage)
        }
    }
}

/// Writes a derivation of the contradiction, if it surely takes no more steps than the budget has. The bound is asked before the first step
/// is made: 79 sources take 785,888 lines, which would be made in vain.
///
/// It begins with the given steps, which say why choices are excluded. What it cites of the formula is what `reads` and `known` say; if that
/// is wrong, the checker refuses the derivation.
pub fn refute(
    alloc: Global,
    given: Premises<'_>,
    reads: &MatchingInstance,
    contradiction: &SourceContradiction,
    known: KnownOrder<'_>,
    budget: u64,
) -> Result<Option<Derivation>, AllocError>
    ensures { IfOk result (λ found. IfSome found (λ derivation. length derivation ≤ budget)) }
{
    let Premises {
        steps,
        clauses,
        free,
    } = given;
    let expected = contradiction
        .most_steps()
        .saturating_add(steps.len() as u64);
    if expected > budget {
        return Ok(None);
    }
    let units = UnitTable::of(alloc, contradiction.rests_on(), clauses)?;
    let mut writer = ProofWriter::new(alloc, StepLog::new(alloc, steps, free, budget));
    add_lines(
        alloc,
        &mut writer,
        reads,
        &units,
        contradiction.kind(),
        known,
    )?;
    let Some(derivation) = writer.into_derivation() else {
        return Ok(None);
    };
    Ok(within(derivation, budget))
}

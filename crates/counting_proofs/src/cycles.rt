//! The steps which say that some updates have a first one, so that it has no source. No count shows this: there may be as many sources
//! as updates, so it has steps of its own.

use crate::elimination::{Elimination, Side};
use crate::step_log::StepLog;
use crate::units::UnitTable;
use order_sets::Element;
use proof_log::codes::NEVER;
use source_matching::{MatchingInstance, OrderClauses, ReaderId, SourceCycle};
use std::alloc::{AllocError, Global};

/// Returns the operation of the reader.
fn operation_of(reads: &MatchingInstance, reader: ReaderId) -> Element {
    match reads.reader(reader).update {
        Some(update) => update.operation,
        None => Element::NONE,
    }
}

/// Adds the clause which says that the reader has a possible source before it: one of its choices is made.
fn add_clause(
    alloc: Global,
    log: &mut StepLog,
    reads: &MatchingInstance,
    units: &UnitTable,
    elimination: &mut Elimination,
    reader: ReaderId,
) -> Result<(), AllocError> {
    let operation = operation_of(reads, reader);
    let place = elimination.place_of(operation);
    let mut literals = Vec::new(alloc);
    let mut hints = Vec::new(alloc);
    for number in reads.first_choice(reader)..reads.first_choice(reader.next()) {
        let choice = reads.choice(number);
        if choice.is_excluded {
            hints.push(units.hint(choice.literal().negated()))?;
        } else {
            let source = choice.source.writer();
            literals.push(elimination.literal(source, operation))?;
            // The first clause of a choice says that the source stands before the reader. With that denied the choice is not made.
            hints.push(choice.first.hint())?;
            elimination.set_other(place, elimination.place_of(source));
        }
    }
    hints.push(reads.reader(reader).clause.hint())?;
    let clause = log.add(literals.as_slice(), hints.as_slice())?;
    elimination.set_clause(place, clause);
    Ok(())
}

/// Adds all steps. The last one is the empty clause.
pub fn add_cycle(
    alloc: Global,
    log: &mut StepLog,
    reads: &MatchingInstance,
    units: &UnitTable,
    cycle: &SourceCycle,
    order: OrderClauses,
) -> Result<(), AllocError> {
    let mut operations = Vec::with_capacity(alloc, cycle.readers().len())?;
    for reader in cycle.readers() {
        operations.push(operation_of(reads, *reader))?;
    }
    // No operation may be the first, so none has a literal that says so, and the clause that is left is empty.
    let own = vec![in alloc; NEVER; cycle.readers().len()]?;
    let mut elimination = Elimination::of(alloc, order, Side::Before, operations, own)?;
    for reader in cycle.readers() {
        add_clause(alloc, log, reads, units, &mut elimination, *reader)?;
    }
    let _clause = elimination.run(alloc, log)?;
    Ok(())
}

//! The steps which say that the readers of a Hall violator do not all have a source of their own.

use crate::proof_writer::ProofWriter;
use crate::rows::CountRow;
use crate::taken::Taken;
use crate::units::UnitTable;
use proof_log::ClauseId;
use source_matching::{HallViolator, MatchingInstance, ReaderId};
use std::alloc::{AllocError, Global};

/// A Hall violator, and what is cited of its readers.
#[derive(Clone, Copy)]
struct Cited<'a> {
    shortage: &'a HallViolator,
    reads: &'a MatchingInstance,
    units: &'a UnitTable,
}

/// Returns the number of a clause which says that the reader makes one of those of its choices that are not excluded, so that the steps that
/// cite it need not say why the others are. It is the reader's own clause if none is excluded.
fn open_clause(
    alloc: Global,
    writer: &mut ProofWriter,
    cited: Cited<'_>,
    reader: ReaderId,
) -> Result<ClauseId, AllocError> {
    let Cited { reads, units, .. } = cited;
    let clause = reads.reader(reader).clause;
    let mut literals = Vec::new(alloc);
    let mut hints = Vec::new(alloc);
    for number in reads.first_choice(reader)..reads.first_choice(reader.next()) {
        let choice = reads.choice(number);
        let literal = choice.literal();
        if choice.is_excluded {
            hints.push(units.hint(literal.negated()))?;
        } else {
            literals.push(literal)?;
        }
    }
    if hints.is_empty() {
        return Ok(clause);
    }
    hints.push(clause.hint())?;
    writer.log().add(literals.as_slice(), hints.as_slice())
}

/// Adds the row of a reader that has one after it, and deletes what no later row needs: so the checker keeps at most two rows at a time.
fn add_row(
    alloc: Global,
    writer: &mut ProofWriter,
    cited: Cited<'_>,
    taken: &Taken,
    before: &CountRow,
    reader: u32,
) -> Result<CountRow, AllocError> {
    let Cited {
        shortage,
        reads,
        ..
    } = cited;
    let mut row = CountRow::new(alloc, reader, shortage)?;
    let its = shortage.reader(reader);
    let clause = open_clause(alloc, writer, cited, its)?;
    row.add_served(writer, reads, shortage, clause)?;
    row.add_full_ends(writer, taken, before)?;
    // The row before has one reader fewer: from the source of this reader's number on the clauses would be tautologies.
    let last = reader.min(shortage.sources()).saturating_sub(1);
    row.add_crowded_ends(writer, taken, before, last)?;
    row.add_counts(writer, before)?;
    // The last two cite clauses that the three before have added to this row.
    row.add_without_last(writer, taken, before)?;
    row.add_one_fewer(writer, taken, before)?;
    let mut old = Vec::new(alloc);
    // Only a clause that `open_clause` has added is deleted, and not one that was there before.
    if clause != reads.reader(its).clause {
        old.push(clause)?;
    }
    row.add_own_ids(&mut old)?;
    before.add_lasting_ids(&mut old)?;
    taken.add_row_ids(reader, &mut old)?;
    writer.log().delete(old.as_slice())?;
    Ok(row)
}

/// Adds the row of the last reader, for which there is no source left. Its last step is the empty clause.
fn add_last_row(
    alloc: Global,
    writer: &mut ProofWriter,
    cited: Cited<'_>,
    taken: &Taken,
    before: &CountRow,
) -> Result<(), AllocError> {
    let Cited {
        shortage,
        reads,
        ..
    } = cited;
    let mut row = CountRow::new(alloc, shortage.readers(), shortage)?;
    let clause = open_clause(alloc, writer, cited, shortage.reader(shortage.readers()))?;
    row.add_served(writer, reads, shortage, clause)?;
    row.add_crowded_ends(writer, taken, before, shortage.sources())
}

/// Adds all steps. The last one is the empty clause.
pub fn add_shortage(
    alloc: Global,
    writer: &mut ProofWriter,
    reads: &MatchingInstance,
    units: &UnitTable,
    shortage: &HallViolator,
) -> Result<(), AllocError> {
    let cited = Cited {
        shortage,
        reads,
        units,
    };
    // One reader without an open choice: what is left of its clause is empty.
    if shortage.sources() == 0 {
        let clause = open_clause(alloc, writer, cited, shortage.reader(1))?;
        let _id = writer.log().add(&[], &[clause.hint()])?;
        return Ok(());
    }
    let taken = Taken::of(alloc, writer, reads, shortage)?;
    let mut before = CountRow::new(alloc, 0, shortage)?;
    for reader in 1..shortage.readers() {
        before = add_row(alloc, writer, cited, &taken, &before, reader)?;
    }
    add_last_row(alloc, writer, cited, &taken, &before)
}

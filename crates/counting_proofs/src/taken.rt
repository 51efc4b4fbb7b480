//! The sources of the first readers: which of them one of these readers has.

use crate::proof_writer::{Definition, ProofWriter, add_ids};
use crate::replay::ShortClause;
use proof_log::ClauseId;
use proof_log::codes::{LiteralCode, NEVER};
use source_matching::{Grid, HallViolator, MatchingInstance, SourcePlace};
use std::alloc::{AllocError, Global};
use total_tables::{at, put};

/// For each reader and source a literal that says that one of the readers up to this one has the source, and the clause that says
/// that this one has not if one before it has.
#[derive(Drop)]
pub struct Taken {
    /// Number of sources, plus one: readers and sources are counted from 1, and at reader 0 no source is taken.
    columns: u32,
    /// By reader and source the literal that one of the readers up to this one has the source. Reader 0 has none, so there it is `NEVER`.
    definitions: Grid<Definition>,
    /// By reader and source the clause that this reader has not the source if one before it has.
    exclusions: Grid<ShortClause>,
}

/// Returns the literal that says that the reader has the source.
pub fn has_source(
    reads: &MatchingInstance,
    shortage: &HallViolator,
    reader: u32,
    source: SourcePlace,
) -> LiteralCode {
    match shortage.choice(reader, source) {
        Some(choice) => reads.choice(choice).literal(),
        None => NEVER,
    }
}

/// Adds the step which says that two readers do not both have the source, if both may have it.
fn add_pair(
    writer: &mut ProofWriter,
    reads: &MatchingInstance,
    shortage: &HallViolator,
    readers: (u32, u32),
    source: SourcePlace,
) -> Result<ShortClause, AllocError> {
    let Some(first) = shortage.choice(readers.0, source) else {
        return Ok(ShortClause::tautology());
    };
    let Some(second) = shortage.choice(readers.1, source) else {
        return Ok(ShortClause::tautology());
    };
    let numbers = (shortage.reader(readers.0), shortage.reader(readers.1));
    let hints = reads.hints_of_pair(numbers, (first, second));
    let literals = [
        reads.choice(first).literal().negated(),
        reads.choice(second).literal().negated(),
        NEVER,
    ];
    writer.begin(literals)?;
    for hint in hints {
        if hint != ClauseId::NONE {
            writer.add_hint(hint)?;
        }
    }
    writer.add()
}

impl Taken {
    /// Adds the steps of all sources.
    pub fn of(
        alloc: Global,
        writer: &mut ProofWriter,
        reads: &MatchingInstance,
        shortage: &HallViolator,
    ) -> Result<Taken, AllocError> {
        let rows = shortage.readers().wrapping_add(1);
        let columns = shortage.sources().wrapping_add(1);
        let mut taken = Taken {
            columns,
            definitions: Grid::new(alloc, rows, columns, Definition::same(NEVER))?,
            exclusions: Grid::new(alloc, rows, columns, ShortClause::tautology())?,
        };
        for source in 1..columns {
            let source = SourcePlace::new(source);
            taken.add_source(alloc, writer, reads, shortage, source)?;
        }
        Ok(taken)
    }

    /// Adds the steps of this source, and deletes the clauses on pairs, of which the number grows with the square of the readers. The last clause of
    /// each definition goes with them, as only exclusions cite it. The last reader needs no definition: no reader comes after it.
    fn add_source(
        &mut self,
        alloc: Global,
        writer: &mut ProofWriter,
        reads: &MatchingInstance,
        shortage: &HallViolator,
        source: SourcePlace,
    ) -> Result<(), AllocError> {
        let mut pairs = vec![in alloc; ShortClause::tautology(); shortage.readers() as usize]?;
        let mut old = Vec::new(alloc);
        for reader in 1..=shortage.readers() {
            for other in 1..reader {
                let pair = add_pair(writer, reads, shortage, (other, reader), source)?;
                put(pairs.as_mut_slice(), other, pair);
                old.push(pair.id)?;
            }
            let literal = has_source(reads, shortage, reader, source);
            self.add_exclusion(writer, reader, source, literal, pairs.as_slice())?;
            if reader < shortage.readers() {
                let before = self.literal(reader.wrapping_sub(1), source);
                let definition = writer.define_or(before, literal)?;
                self.definitions.set(reader, source.number(), definition);
                let only = definition.clauses[2];
                old.push(only.id)?;
            }
        }
        old.retain(|id| *id != ClauseId::NONE);
        writer.log().delete(old.as_slice())
    }

    /// Adds the step which says that the reader has not the source if one before it has. The clauses on pairs and the definitions of the
    /// readers before it are hints from the last one down, in the order in which they become unit.
    fn add_exclusion(
        &mut self,
        writer: &mut ProofWriter,
        reader: u32,
        source: SourcePlace,
        literal: LiteralCode,
        pairs: &[ShortClause],
    ) -> Result<(), AllocError> {
        let before = self.literal(reader.wrapping_sub(1), source);
        writer.begin([before.negated(), literal.negated(), NEVER])?;
        for other in (1..reader).rev() {
            writer.offer(at(pairs, other, ShortClause::tautology()))?;
            writer.offer(self.definition(other, source).clauses[2])?;
        }
        let exclusion = writer.add()?;
        self.exclusions.set(reader, source.number(), exclusion);
        Ok(())
    }

    /// Returns the literal that says that one of the readers up to this one has the source.
    pub fn literal(&self, reader: u32, source: SourcePlace) -> LiteralCode {
        self.definition(reader, source).literal
    }

    /// Returns the literal's definition: it follows from the one of the reader before, and from the reader's own choice.
    pub fn definition(&self, reader: u32, source: SourcePlace) -> Definition {
        self.definitions.get(reader, source.number())
    }

    /// Returns the clause which says that the reader has not the source if one before it has.
    pub fn exclusion(&self, reader: u32, source: SourcePlace) -> ShortClause {
        self.exclusions.get(reader, source.number())
    }

    /// Adds the numbers of the clauses on this reader.
    pub fn add_row_ids(&self, reader: u32, ids: &mut Vec<ClauseId>) -> Result<(), AllocError> {
        for source in 0..self.columns {
            let definition = self.definitions.get(reader, source);
            add_ids(ids, &definition.clauses[..2])?;
            add_ids(ids, &[self.exclusions.get(reader, source)])?;
        }
        Ok(())
    }
}

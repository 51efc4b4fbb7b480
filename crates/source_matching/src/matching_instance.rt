//! The matching instance of a formula: readers, sources, and the reads-from edges between them.

use crate::reader_id::ReaderId;
use crate::source_id::SourceId;
use formula_numbers::{ClauseId, LiteralCode, Variable};
use order_sets::{ChoiceClauses, Element};
use std::alloc::{AllocError, Global};
use total_tables::{at, size};

/// A read-modify-write.
#[derive(Clone, Copy)]
pub struct Update {
    /// Itself, among all operations.
    pub operation: Element,
    /// Its place among the writers of its location, counted from 0 by rising numbers of operations.
    pub place: u32,
}

/// A reader that needs a source of its own: an update, or the final value of a location, from which no update has read.
#[derive(Clone, Copy)]
pub struct Reader {
    /// The update that reads, or none for the final value.
    pub update: Option<Update>,
    /// The clause that says that it has one of its choices.
    pub clause: ClauseId,
}

/// A reads-from edge: if its variable is true, the reader reads from this source. `ChoiceClauses` has the order of its clauses.
#[derive(Clone, Copy)]
pub struct ReadsFromEdge {
    pub source: SourceId,
    /// The source's place among the writers of its location, or none for the initial value.
    pub place: Option<u32>,
    pub variable: Variable,
    /// The first of its clauses.
    pub first: ClauseId,
    /// Whether the edge is excluded: `-s` is true.
    pub is_excluded: bool,
}

impl ReadsFromEdge {
    /// Returns the literal that says that the edge is chosen.
    pub fn literal(self) -> LiteralCode {
        self.variable.positive()
    }

    /// Returns its clause that forbids this writer, by its place, to come between, if it is an edge of this reader.
    fn clause_against(self, reader: Reader, writer: u32) -> ClauseId {
        let clauses = ChoiceClauses {
            first: self.first,
            reader: reader.update.map(|update| update.place),
            source: self.place,
            is_final: reader.update.is_none(),
        };
        clauses.against(writer)
    }
}

/// The readers that need a source of their own, and their edges.
pub struct MatchingInstance {
    readers: Vec<Reader>,
    choices: Vec<ReadsFromEdge>,
    /// For each reader the number of its first choice.
    begins: Vec<u32>,
    sources: u32,
}

/// Drops the tables in one call. A derived `Drop` would drop each at every exit of a function that owns an instance, which makes its proof longer.
impl Drop for MatchingInstance {
    fn drop(self) {
        let MatchingInstance {
            readers: _readers,
            choices: _choices,
            begins: _begins,
            sources: _,
        } = self;
    }
}

impl MatchingInstance {
    /// Starts without readers.
    pub fn new(alloc: Global) -> MatchingInstance {
        MatchingInstance {
            readers: Vec::new(alloc),
            choices: Vec::new(alloc),
            begins: Vec::new(alloc),
            sources: 0,
        }
    }

    /// Adds a reader without choices.
    pub fn add_reader(&mut self, reader: Reader) -> Result<(), AllocError> {
        self.begins.push(size(self.choices.as_slice()))?;
        self.readers.push(reader)?;
        Ok(())
    }

    /// Adds a choice of the reader that was added last.
    pub fn add_choice(&mut self, choice: ReadsFromEdge) -> Result<(), AllocError> {
        self.sources = self.sources.max(choice.source.number().saturating_add(1));
        self.choices.push(choice)?;
        Ok(())
    }

    /// Returns a copy, to which readers can be added.
    pub fn copied(&self, alloc: Global) -> Result<MatchingInstance, AllocError> {
        let mut copy = MatchingInstance::new(alloc);
        copy.readers.extend_from_slice(self.readers.as_slice())?;
        copy.choices.extend_from_slice(self.choices.as_slice())?;
        copy.begins.extend_from_slice(self.begins.as_slice())?;
        copy.sources = self.sources;
        Ok(copy)
    }

    /// Returns the number of readers.
    pub fn readers(&self) -> u32 {
        size(self.readers.as_slice())
    }

    /// Returns the number after that of the last source. It is a bound for tables; not each number below it is a source.
    pub fn sources(&self) -> u32 {
        self.sources
    }

    /// Returns the reader of this number.
    pub fn reader(&self, reader: ReaderId) -> Reader {
        let nobody = Reader {
            update: None,
            clause: ClauseId::NONE,
        };
        at(self.readers.as_slice(), reader.number(), nobody)
    }

    /// Returns the number of the reader's first choice, counted from 0. Its choices stand before the first one of the next reader.
    pub fn first_choice(&self, reader: ReaderId) -> u32 {
        at(
            self.begins.as_slice(),
            reader.number(),
            size(self.choices.as_slice()),
        )
    }

    /// Returns the choice of this number, counted from 0 through those of all readers. Past the end it is an excluded one.
    pub fn choice(&self, number: u32) -> ReadsFromEdge {
        let nothing = ReadsFromEdge {
            source: SourceId::NONE,
            place: None,
            variable: Variable::NONE,
            first: ClauseId::NONE,
            is_excluded: true,
        };
        at(self.choices.as_slice(), number, nothing)
    }

    /// Returns the hints of a clause which says that two readers do not have the same source, filled up with none if fewer than
    /// four are needed.
    ///
    /// Each of two updates would stand before the other: if both come after the source, the clause against the one between it and the other
    /// forbids that. And an update that reads the last write comes after it. The order of the hints is the order in which they become unit,
    /// so the checker refuses another one.
    pub fn hints_of_pair(
        &self,
        readers: (ReaderId, ReaderId),
        choices: (u32, u32),
    ) -> [ClauseId; 4] {
        let reader = self.reader(readers.0);
        let other = self.reader(readers.1);
        let choice = self.choice(choices.0);
        let its_choice = self.choice(choices.1);
        match (reader.update, other.update) {
            (Some(update), Some(its_update)) => {
                let between = choice.clause_against(reader, its_update.place);
                let its_between = its_choice.clause_against(other, update.place);
                if choice.place.is_none() {
                    return [between, its_between, ClauseId::NONE, ClauseId::NONE];
                }
                [choice.first, its_choice.first, between, its_between]
            }
            (None, Some(update)) => [
                choice.clause_against(reader, update.place),
                its_choice.first,
                ClauseId::NONE,
                ClauseId::NONE,
            ],
            (Some(update), None) => [
                its_choice.clause_against(other, update.place),
                choice.first,
                ClauseId::NONE,
                ClauseId::NONE,
            ],
            (None, None) => [ClauseId::NONE; 4],
        }
    }
}

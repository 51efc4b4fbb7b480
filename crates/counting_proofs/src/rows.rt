//! Counts of the first readers that have one of the first sources: a row for each reader.

use crate::proof_writer::{Definition, ProofWriter, add_ids};
use crate::replay::ShortClause;
use crate::taken::{Taken, has_source};
use proof_log::ClauseId;
use proof_log::codes::{ALWAYS, LiteralCode, NEVER};
use source_matching::{Grid, HallViolator, MatchingInstance, SourcePlace};
use std::alloc::{AllocError, Global};

/// The counts of the readers 1 to i: for sources 1 to j and a count k the literal "at least k of them have one of these sources", and
/// clauses on it. Some of these literals are constants: each reader has a source, and no two have the same.
///
/// Readers, sources and counts run from 1, and the row of reader 0 is the empty one. With n sources there are n + 1 readers. The tables go up to
/// n + 1, since the clause that j + 1 readers have not j sources stands at the source j and the count j + 1.
pub struct CountRow {
    reader: u32,
    sources: u32,
    /// For each source j a literal that says that the reader i has one of the sources 1 to j. For the last source that is a constant, and its entry
    /// keeps only the clause "it has the last source or one before it", at place 2.
    served: Grid<Definition>,
    /// For each j (the row of the table) and k (its column) the literal and its definition.
    counts: Grid<Definition>,
    /// If at least k of them have one of the sources 1 to j, and none has j, then k have one of those before j.
    without_last: Grid<ShortClause>,
    /// If at least k of them have one of the sources 1 to j, then k - 1 have one of those before j.
    one_fewer: Grid<ShortClause>,
}

/// Drops the tables in one call. A derived `Drop` would drop each at every exit of a function that owns a row, which makes its proof longer.
impl Drop for CountRow {
    fn drop(self) {
        let CountRow {
            reader: _,
            sources: _,
            served: _served,
            counts: _counts,
            without_last: _without_last,
            one_fewer: _one_fewer,
        } = self;
    }
}

/// The place in a definition of the clause "the literal is true if the count of the row before is reached". The places follow the order in
/// which `ProofWriter::define_either` adds its clauses; with others here the hints name wrong clauses.
const BY_BEFORE: usize = 0;

/// The place of the clause "the literal is true if the row before has one fewer, and this reader has one of the sources".
const BY_SOURCE: usize = 1;

/// The place of the clause "if the literal is true and the row before does not reach the count, the row before has one fewer".
const NEEDS_FEWER: usize = 2;

/// The place of the clause "if the literal is true and the row before does not reach the count, this reader has one of the sources".
const NEEDS_SOURCE: usize = 3;

impl CountRow {
    /// Makes the row of this reader of the Hall violator, without clauses.
    pub fn new(
        alloc: Global,
        reader: u32,
        shortage: &HallViolator,
    ) -> Result<CountRow, AllocError> {
        let sources = shortage.sources();
        let size = sources.wrapping_add(2);
        Ok(CountRow {
            reader,
            sources,
            served: Grid::new(alloc, 1, size, Definition::same(NEVER))?,
            counts: Grid::new(alloc, size, size, Definition::same(NEVER))?,
            without_last: Grid::new(alloc, size, size, ShortClause::tautology())?,
            one_fewer: Grid::new(alloc, size, size, ShortClause::tautology())?,
        })
    }

    /// Returns the literal that says that at least `count` of the readers have one of the sources up to this one. Most are constants and get
    /// no variable: of n sources about a sixth of the cube of n are left. At most the sources after this one serve readers besides, one each: so a
    /// count that leaves out no more readers than these is always reached.
    fn at_least(&self, count: u32, source: SourcePlace) -> LiteralCode {
        if count > self.reader {
            return NEVER;
        }
        let sources = source.number();
        if sources == self.sources {
            return ALWAYS;
        }
        if count > sources {
            return NEVER;
        }
        let left_out = self.sources.wrapping_sub(sources);
        if count == 0 || count.wrapping_add(left_out) <= self.reader {
            return ALWAYS;
        }
        self.counts.get(sources, count).literal
    }

    /// Returns the smallest count for which the literal of this source is no constant: those up to reader + source - sources are always reached, as
    /// `at_least` says.
    fn least_open(&self, source: SourcePlace) -> u32 {
        let readers = self.reader.wrapping_add(source.number()).wrapping_add(1);
        readers.saturating_sub(self.sources).max(1)
    }

    /// Returns the literal that says that the reader has one of the sources up to this one.
    fn is_served(&self, source: SourcePlace) -> LiteralCode {
        if source.number() == self.sources {
            ALWAYS
        } else {
            self.served.get(0, source.number()).literal
        }
    }

    /// Returns the clause which says that the reader has this source or one before it, if it has one up to this one.
    fn served_only(&self, source: SourcePlace) -> ShortClause {
        self.served.get(0, source.number()).clauses[2]
    }

    /// Returns a clause of the definition of this count and source, by its place there: `BY_BEFORE`, `BY_SOURCE`, `NEEDS_FEWER` or
    /// `NEEDS_SOURCE`.
    fn clause(&self, source: SourcePlace, count: u32, which: usize) -> ShortClause {
        let definition = self.counts.get(source.number(), count);
        let clauses = &definition.clauses;
        if which < clauses.len() {
            clauses[which]
        } else {
            ShortClause::tautology()
        }
    }

    /// Writes a clause for a count and source whose literal is a constant, so that later steps find it at the place of a definition's
    /// clause. Its literals are those of that clause without the constant.
    fn set_border(&mut self, source: SourcePlace, count: u32, which: usize, known: ShortClause) {
        let mut definition = self.counts.get(source.number(), count);
        if which < definition.clauses.len() {
            definition.clauses[which] = known;
        }
        self.counts.set(source.number(), count, definition);
    }

    /// Adds the clauses on the sources of this reader alone: its literal is true at each source from its own on. The clause of this number
    /// says that one of its choices is made.
    pub fn add_served(
        &mut self,
        writer: &mut ProofWriter,
        reads: &MatchingInstance,
        shortage: &HallViolator,
        clause: ClauseId,
    ) -> Result<(), AllocError> {
        let mut before = NEVER;
        for source in 1..self.sources {
            let place = SourcePlace::new(source);
            let literal = has_source(reads, shortage, self.reader, place);
            let definition = writer.define_or(before, literal)?;
            self.served.set(0, source, definition);
            before = definition.literal;
        }
        let last = SourcePlace::new(self.sources);
        let last = has_source(reads, shortage, self.reader, last);
        // From the last source down each of these hints makes a choice false; with none left the clause of the choices is the conflict.
        writer.begin([before, last, NEVER])?;
        for source in (1..self.sources).rev() {
            let definition = self.served.get(0, source);
            writer.offer(definition.clauses[0])?;
            writer.offer(definition.clauses[1])?;
        }
        writer.add_hint(clause)?;
        let mut definition = Definition::same(ALWAYS);
        definition.clauses[2] = writer.add()?;
        self.served.set(0, self.sources, definition);
        Ok(())
    }

    /// The clauses from which that of a literal at the border follows: a clause of a definition, what is known of the source from this reader, and from the row
    /// before its clauses `one_fewer` and `without_last` for the source.
    fn border_hints(
        &self,
        taken: &Taken,
        definition: ShortClause,
        source: SourcePlace,
        one_fewer: ShortClause,
        without_last: ShortClause,
    ) -> [ShortClause; 5] {
        [
            one_fewer,
            definition,
            self.served_only(source),
            taken.exclusion(self.reader, source),
            without_last,
        ]
    }

    /// Adds the clauses for the literals that are always true: this number of readers have a source up to this one, since the sources after
    /// it have no room for the others. From the last source down, since each clause rests on that of the source behind it at a count one larger.
    pub fn add_full_ends(
        &mut self,
        writer: &mut ProofWriter,
        taken: &Taken,
        before: &CountRow,
    ) -> Result<(), AllocError> {
        for number in (1..self.sources).rev() {
            let source = SourcePlace::new(number);
            let readers = self.reader.wrapping_add(number);
            if readers <= self.sources {
                break;
            }
            let count = readers.wrapping_sub(self.sources);
            let (next, more) = (source.next(), count.wrapping_add(1));
            let literals = [
                before.at_least(count, source),
                self.is_served(source),
                NEVER,
            ];
            let definition = self.clause(next, more, NEEDS_SOURCE);
            let one_fewer = before.one_fewer.get(next.number(), more);
            let without_last = before.without_last.get(next.number(), count);
            let hints = self.border_hints(taken, definition, next, one_fewer, without_last);
            let known = writer.derive(literals, &hints)?;
            self.set_border(source, count, NEEDS_SOURCE, known);
        }
        Ok(())
    }

    /// Adds the clauses for the literals that are never true, for the sources up to the last of these: a number of sources has at most as
    /// many readers. From the first source up, since each clause rests on that of the source before it. For all readers and all sources that is the
    /// empty clause.
    pub fn add_crowded_ends(
        &mut self,
        writer: &mut ProofWriter,
        taken: &Taken,
        before: &CountRow,
        last: u32,
    ) -> Result<(), AllocError> {
        for count in 1..=last {
            let source = SourcePlace::new(count);
            let previous = source.previous();
            let literals = [
                before.at_least(count, source).negated(),
                self.is_served(source).negated(),
                NEVER,
            ];
            let definition = self.clause(previous, count, BY_SOURCE);
            let one_fewer = before.one_fewer.get(count, count);
            let without_last = before.without_last.get(count, count);
            let hints = self.border_hints(taken, definition, source, one_fewer, without_last);
            let known = writer.derive(literals, &hints)?;
            self.set_border(source, count.wrapping_add(1), BY_SOURCE, known);
        }
        Ok(())
    }

    /// Adds the definitions of the literals that are no constants.
    pub fn add_counts(
        &mut self,
        writer: &mut ProofWriter,
        before: &CountRow,
    ) -> Result<(), AllocError> {
        for number in 1..self.sources {
            let source = SourcePlace::new(number);
            for count in self.least_open(source)..=self.reader.min(number) {
                let alone = before.at_least(count, source);
                let fewer = before.at_least(count.wrapping_sub(1), source);
                let definition = writer.define_either(alone, (fewer, self.is_served(source)))?;
                self.counts.set(number, count, definition);
            }
        }
        Ok(())
    }

    /// Adds the clauses on a source that none of the readers has. They begin one count below the open ones: there the literal of this source is always
    /// true, and that of the source before it is not.
    pub fn add_without_last(
        &mut self,
        writer: &mut ProofWriter,
        taken: &Taken,
        before: &CountRow,
    ) -> Result<(), AllocError> {
        for number in 1..=self.sources {
            let source = SourcePlace::new(number);
            let previous = source.previous();
            let definition = taken.definition(self.reader, source);
            let least = self.least_open(source).wrapping_sub(1).max(1);
            for count in least..=self.reader.min(number) {
                let literals = [
                    self.at_least(count, source).negated(),
                    definition.literal,
                    self.at_least(count, previous),
                ];
                let hints = [
                    definition.clauses[0],
                    definition.clauses[1],
                    self.clause(previous, count, BY_BEFORE),
                    before.without_last.get(number, count),
                    self.clause(source, count, NEEDS_SOURCE),
                    self.served_only(source),
                    self.clause(previous, count, BY_SOURCE),
                    self.clause(source, count, NEEDS_FEWER),
                    before.without_last.get(number, count.wrapping_sub(1)),
                ];
                let known = writer.derive(literals, &hints)?;
                self.without_last.set(number, count, known);
            }
        }
        Ok(())
    }

    /// Adds the clauses on one source fewer: it takes at most one reader away. For the last source, and for other counts, the clause
    /// would be a tautology.
    pub fn add_one_fewer(
        &mut self,
        writer: &mut ProofWriter,
        taken: &Taken,
        before: &CountRow,
    ) -> Result<(), AllocError> {
        for number in 1..self.sources {
            let source = SourcePlace::new(number);
            let previous = source.previous();
            for count in self.least_open(source).max(2)..=self.reader.min(number) {
                let fewer = count.wrapping_sub(1);
                let literals = [
                    self.at_least(count, source).negated(),
                    self.at_least(fewer, previous),
                    NEVER,
                ];
                let hints = [
                    self.clause(previous, fewer, BY_BEFORE),
                    before.one_fewer.get(number, count),
                    self.clause(source, count, NEEDS_FEWER),
                    self.clause(source, count, NEEDS_SOURCE),
                    before.without_last.get(number, fewer),
                    taken.exclusion(self.reader, source),
                    self.served_only(source),
                    self.clause(previous, fewer, BY_SOURCE),
                    before.one_fewer.get(number, fewer),
                ];
                let known = writer.derive(literals, &hints)?;
                self.one_fewer.set(number, count, known);
            }
        }
        Ok(())
    }

    /// Adds the numbers of the clauses that only this row needs. They are deleted with it, so a checker holds about 4 n² lines of n sources at
    /// a time, and not all that grow with the cube.
    pub fn add_own_ids(&self, ids: &mut Vec<ClauseId>) -> Result<(), AllocError> {
        for definition in self.served.items() {
            add_ids(ids, &definition.clauses)?;
        }
        for definition in self.counts.items() {
            add_ids(ids, &definition.clauses)?;
        }
        Ok(())
    }

    /// Adds the numbers of the clauses that the next row needs too.
    pub fn add_lasting_ids(&self, ids: &mut Vec<ClauseId>) -> Result<(), AllocError> {
        add_ids(ids, self.without_last.items())?;
        add_ids(ids, self.one_fewer.items())
    }
}

//! Unit propagation through the reads-from clauses, which are never stored: sets of bits find what they imply, and a clause is made only
//! when conflict analysis asks for it (lazy reasons, as in solvers modulo theories).

use crate::ordered_trail::OrderedTrail;
use crate::trail::{FALSE, OPEN};
use clause_database::{ReadsFromTable, ReadsFromVariable, Reason, ReasonClause};
use order_sets::{Element, next_element};
use proof_log::codes::{LiteralCode, NEVER, Variable};

/// A reads-from clause as the reason of a literal: the reads-from variable, and a writer that must not come between. If the writer is the chosen
/// one, the clause says that it stands before the reader.
#[derive(Clone, Copy)]
struct Because {
    choice: Variable,
    writer: Element,
}

impl<'a> OrderedTrail<'a> {
    /// Returns the clause of the variable for this writer: the variable is false, or the writer does not come between.
    pub fn clause_of_choice(
        &self,
        reads_from: &ReadsFromTable,
        variable: Variable,
        writer: Element,
    ) -> ReasonClause {
        let Some(choice) = reads_from.choice(variable) else {
            return ReasonClause::none();
        };
        let id = reads_from.clause_of(choice, writer);
        let reader = choice.reader;
        let not_made = variable.negative();
        match choice.writer {
            None => {
                let is_behind = self.before(reader, writer);
                ReasonClause::of_literals(id, not_made, is_behind, NEVER)
            }
            Some(chosen) if chosen == writer => {
                let comes_first = self.before(chosen, reader);
                ReasonClause::of_literals(id, not_made, comes_first, NEVER)
            }
            Some(chosen) => {
                let is_before = self.before(writer, chosen);
                let is_behind = self.before(reader, writer);
                ReasonClause::of_literals(id, not_made, is_before, is_behind)
            }
        }
    }

    /// Assigns a literal that the clause implies, or returns the clause as a conflict if the literal is false.
    #[inline(always)]
    fn imply(
        &mut self,
        reads_from: &ReadsFromTable,
        literal: LiteralCode,
        because: Because,
    ) -> Result<(), ReasonClause> {
        let Because { choice, writer } = because;
        match self.value(literal) {
            OPEN => self.assign(literal, Reason::Choice { choice, writer }),
            FALSE => return Err(self.clause_of_choice(reads_from, choice, writer)),
            _ => {}
        }
        Ok(())
    }

    /// Makes this reads-from variable false, by its clause for this writer: that one comes between, or is the source and stands behind the reader.
    #[inline(always)]
    fn strike(
        &mut self,
        reads_from: &ReadsFromTable,
        choice: Variable,
        writer: Element,
    ) -> Result<(), ReasonClause> {
        self.imply(reads_from, choice.negative(), Because { choice, writer })
    }

    /// A writer is ordered before a reader of its location: the reader reads from nothing before the writer, and what it reads comes after.
    #[inline(always)]
    fn follow_writer(
        &mut self,
        reads_from: &ReadsFromTable,
        writer: Element,
        reader: Element,
    ) -> Result<(), ReasonClause> {
        let first = reads_from.variable_without_writer(reader);
        if first != Variable::NONE {
            self.strike(reads_from, first, writer)?;
        }
        if self.hides_nothing(writer, reader) {
            return Ok(());
        }
        self.hide_sources(reads_from, writer, reader)
    }

    /// Returns whether nothing follows for the reader's sources from that the writer is ordered before it: none that is open stands before the writer, and
    /// none is chosen. Of nine in ten literals nothing follows, so this is asked before any loop over sources.
    #[inline(always)]
    fn hides_nothing(&self, writer: Element, reader: Element) -> bool {
        let before = self.order().predecessors();
        self.candidates.chosen.is_empty(reader)
            && self.candidates.writers.is_disjoint(reader, before, writer)
    }

    /// The writer hides what stands before it from the reader, and comes before the source that the reader has.
    fn hide_sources(
        &mut self,
        reads_from: &ReadsFromTable,
        writer: Element,
        reader: Element,
    ) -> Result<(), ReasonClause> {
        for number in 0..self.candidates.writers.words() {
            let before = self.order().predecessors().word(writer, number);
            let mut hidden = self.candidates.writers.word(reader, number) & before;
            for _ in 0..64 {
                let Some(other) = next_element(&mut hidden, number) else {
                    break;
                };
                self.strike(reads_from, reads_from.variable(reader, other), writer)?;
            }
            let mut chosen = self.candidates.chosen.word(reader, number);
            for _ in 0..64 {
                let Some(other) = next_element(&mut chosen, number) else {
                    break;
                };
                if other != writer {
                    let choice = reads_from.variable(reader, other);
                    let literal = self.before(writer, other);
                    self.imply(reads_from, literal, Because { choice, writer })?;
                }
            }
        }
        Ok(())
    }

    /// Two writers of a location are ordered: a reader of the first comes before the second (from-read), and a reader after the second does
    /// not read the first.
    #[inline(always)]
    fn follow_writers(
        &mut self,
        reads_from: &ReadsFromTable,
        first: Element,
        second: Element,
    ) -> Result<(), ReasonClause> {
        if self.cuts_nothing_off(first, second) {
            return Ok(());
        }
        self.cut_readers_off(reads_from, first, second)
    }

    /// Returns whether nothing follows for the readers of the first writer from that it is ordered before the second: none that may read it stands behind the
    /// second, and those that read it stand before the second.
    #[inline(always)]
    fn cuts_nothing_off(&self, first: Element, second: Element) -> bool {
        let before = self.order().predecessors();
        let behind = self.order().successors();
        self.candidates.chosen_by.is_subset(first, before, second)
            && self.candidates.readers.is_disjoint(first, behind, second)
    }

    /// The second writer cuts the readers behind it off from the first one, whose readers come before the second.
    fn cut_readers_off(
        &mut self,
        reads_from: &ReadsFromTable,
        first: Element,
        second: Element,
    ) -> Result<(), ReasonClause> {
        for number in 0..self.candidates.readers.words() {
            let behind = self.order().successors().word(second, number);
            let mut cut_off = self.candidates.readers.word(first, number) & behind;
            for _ in 0..64 {
                let Some(reader) = next_element(&mut cut_off, number) else {
                    break;
                };
                self.strike(reads_from, reads_from.variable(reader, first), second)?;
            }
            let before = self.order().predecessors().word(second, number);
            let mut reading = self.candidates.chosen_by.word(first, number) & !before;
            for _ in 0..64 {
                let Some(reader) = next_element(&mut reading, number) else {
                    break;
                };
                if reader != second {
                    let choice = reads_from.variable(reader, first);
                    let literal = self.before(reader, second);
                    let writer = second;
                    self.imply(reads_from, literal, Because { choice, writer })?;
                }
            }
        }
        Ok(())
    }

    /// The reader reads the initial value, so it comes before all writers.
    fn follow_first_choice(
        &mut self,
        reads_from: &ReadsFromTable,
        choice: ReadsFromVariable,
    ) -> Result<(), ReasonClause> {
        for number in 0..reads_from.writers().words() {
            let mut writers = reads_from.writers().word(choice.reader, number);
            for _ in 0..64 {
                let Some(writer) = next_element(&mut writers, number) else {
                    break;
                };
                let literal = self.before(choice.reader, writer);
                let choice = choice.variable;
                self.imply(reads_from, literal, Because { choice, writer })?;
            }
        }
        Ok(())
    }

    /// The reader reads from this writer: the writer comes before it, and no other writer between.
    fn follow_choice(
        &mut self,
        reads_from: &ReadsFromTable,
        choice: ReadsFromVariable,
        chosen: Element,
    ) -> Result<(), ReasonClause> {
        let reader = choice.reader;
        let literal = self.before(chosen, reader);
        let choice = choice.variable;
        let writer = chosen;
        self.imply(reads_from, literal, Because { choice, writer })?;
        for number in 0..reads_from.writers().words() {
            let writers = reads_from.writers().word(reader, number);
            // What stands behind the reader already is left out by words: its literals are true.
            let after = self.order().successors().word(chosen, number);
            let mut later = writers & after & !self.order().successors().word(reader, number);
            for _ in 0..64 {
                let Some(writer) = next_element(&mut later, number) else {
                    break;
                };
                let literal = self.before(reader, writer);
                self.imply(reads_from, literal, Because { choice, writer })?;
            }
            let before = self.order().predecessors().word(reader, number);
            let mut earlier = writers & before & !self.order().predecessors().word(chosen, number);
            for _ in 0..64 {
                let Some(writer) = next_element(&mut earlier, number) else {
                    break;
                };
                if writer != chosen {
                    let literal = self.before(writer, chosen);
                    self.imply(reads_from, literal, Because { choice, writer })?;
                }
            }
        }
        Ok(())
    }

    /// Propagates a true literal through the reads-from clauses. Returns a conflict, if there is one.
    #[inline(always)]
    pub fn follow_reads(&mut self, literal: LiteralCode) -> Result<(), ReasonClause> {
        let Some(reads_from) = self.reads_from else {
            return Ok(());
        };
        if !self.is_of_order(literal.variable()) {
            if literal.is_positive() {
                return self.follow_made_choice(reads_from, literal.variable());
            }
            return Ok(());
        }
        // The set of an element has the other writers of its location, whether it reads or writes.
        let (first, second) = self.ends(literal);
        if reads_from.writers().has(second, first) {
            self.follow_writer(reads_from, first, second)?;
            if reads_from.writers().has(first, second) {
                self.follow_writers(reads_from, first, second)?;
            }
        }
        if self.candidates.writers.has(first, second) {
            // The reader stands before the writer.
            self.strike(reads_from, reads_from.variable(first, second), second)?;
        }
        Ok(())
    }

    /// Propagates a reads-from variable that became true.
    fn follow_made_choice(
        &mut self,
        reads_from: &ReadsFromTable,
        variable: Variable,
    ) -> Result<(), ReasonClause> {
        let Some(choice) = reads_from.choice(variable) else {
            return Ok(());
        };
        match choice.writer {
            None => self.follow_first_choice(reads_from, choice),
            Some(chosen) => self.follow_choice(reads_from, choice, chosen),
        }
    }
}

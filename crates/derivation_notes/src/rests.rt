//! On what a long derivation rests.
//!
//! A short derivation is noted sentence by sentence (`telling.rt`). Of a longer one, by the bounds of `explaining.rt`, the notes only say how many clauses
//! it uses, and of which operations these speak.

use crate::needed_steps::NeededSteps;
use crate::story::{Phrase, Story};
use clause_blocks::trace_clauses::TraceClauses;
use clause_meaning::clause_runs::ClauseRuns;
use clause_meaning::meaning::ClauseMeaning;
use dimacs::ClauseList;
use note_text::{Notes, decimal};
use std::alloc::{AllocError, Global};

/// The most operations that are named.
const MAX_NAMED: u64 = 40;

/// The clauses and the operations on which a derivation rests.
#[derive(Drop)]
pub struct Rests {
    /// Whether the clause at this place of the formula is used. Its id is one more than its place.
    clauses: Vec<bool>,
    /// Whether a used clause speaks of the operation of this number.
    operations: Vec<bool>,
}

/// Marks this place, unless it is past the end.
fn mark(marks: &mut Vec<bool>, place: usize) {
    if place < marks.len() {
        marks[place] = true;
    }
}

/// The number of marked places.
fn count(marks: &[bool]) -> u64 {
    let mut count: u64 = 0;
    for marked in marks {
        if *marked {
            count = count.saturating_add(1);
        }
    }
    count
}

impl Rests {
    /// The clauses and the operations on which the steps rest.
    pub fn of(
        alloc: Global,
        clauses: &TraceClauses,
        meanings: &ClauseRuns<'_>,
        needed: &NeededSteps<'_>,
    ) -> Result<Rests, AllocError> {
        let mut rests = Rests {
            clauses: vec![in alloc; false; clauses.count()]?,
            operations: vec![in alloc; false; clauses.layout().operations()]?,
        };
        for step in &needed.steps {
            rests.add_hints(step.hints.as_slice());
        }
        rests.add_operations(clauses, meanings);
        Ok(rests)
    }

    /// Marks the clauses of these hints. Ids of steps are past the end, so only clauses of the formula are marked.
    fn add_hints(&mut self, hints: &[i64]) {
        for hint in hints {
            let id = hint.unsigned_abs();
            if id > 0 {
                let place = usize::try_from(id - 1).unwrap_or(usize::MAX);
                mark(&mut self.clauses, place);
            }
        }
    }

    /// Marks the operations of which the marked clauses say something but that they stand in program order or in an order.
    fn add_operations(&mut self, clauses: &TraceClauses, meanings: &ClauseRuns<'_>) {
        for place in 0..clauses.count() {
            if self.clauses.get(place).copied().unwrap_or(false) {
                if let Some(meaning) = meanings.meaning_at(place) {
                    self.add_meaning(meaning);
                }
            }
        }
    }

    /// Marks the operations of which a clause says this.
    fn add_meaning(&mut self, meaning: ClauseMeaning) {
        match meaning {
            ClauseMeaning::HasSource(reader) => mark(&mut self.operations, reader),
            ClauseMeaning::NoSource { reader, .. } => mark(&mut self.operations, reader),
            ClauseMeaning::BeforeWriter { reader, writer, .. } => {
                mark(&mut self.operations, reader);
                mark(&mut self.operations, writer);
            }
            ClauseMeaning::AfterSource { reader, source, .. } => {
                mark(&mut self.operations, reader);
                mark(&mut self.operations, source);
            }
            ClauseMeaning::NotBetween {
                reader,
                source,
                writer,
                ..
            } => {
                mark(&mut self.operations, reader);
                mark(&mut self.operations, source);
                mark(&mut self.operations, writer);
            }
            ClauseMeaning::BeforeLast { last, writer, .. } => {
                mark(&mut self.operations, last);
                mark(&mut self.operations, writer);
            }
            ClauseMeaning::BeforePair(first, second) => {
                mark(&mut self.operations, first);
                mark(&mut self.operations, second);
            }
            // What is of order alone, and which final value is meant, names no operation of its own.
            ClauseMeaning::ProgramOrder(_)
            | ClauseMeaning::NoCycle { .. }
            | ClauseMeaning::HasLast(_)
            | ClauseMeaning::NoLast { .. } => {}
        }
    }

    /// The number of clauses of the formula that are used.
    pub fn count_clauses(&self) -> u64 {
        count(self.clauses.as_slice())
    }

    /// Notes on what the derivation of this many steps rests.
    pub fn explain(&self, notes: &mut Notes, story: &Story<'_>, steps: u64) {
        let steps = decimal(steps);
        let used = decimal(self.count_clauses());
        let all = decimal(self.clauses.len() as u64);
        notes.note(&[
            b"the contradiction was derived in ",
            steps.as_slice(),
            b" steps, which rest on ",
            used.as_slice(),
            b" of ",
            all.as_slice(),
            b" clauses",
        ]);
        self.explain_operations(notes, story);
    }

    /// Notes of which operations these clauses speak.
    fn explain_operations(&self, notes: &mut Notes, story: &Story<'_>) {
        let named = count(self.operations.as_slice());
        let number = decimal(named);
        let all = decimal(self.operations.len() as u64);
        if named > MAX_NAMED {
            return notes.note(&[
                b"they speak of ",
                number.as_slice(),
                b" of ",
                all.as_slice(),
                b" operations",
            ]);
        }
        let mut sentence = story.begin();
        sentence.add(&[
            b"they speak of ",
            number.as_slice(),
            b" of ",
            all.as_slice(),
            b" operations:",
        ]);
        for k in 0..self.operations.len() {
            if self.operations[k] {
                sentence.add(&[b" "]);
                story.add_phrase(&mut sentence, Phrase::Name(k));
            }
        }
        sentence.note(notes);
    }
}

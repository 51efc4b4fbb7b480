//! Reads-from candidates: which choices are open, and which are made. They are bits, so that propagation handles the writers of a word
//! at once.

use clause_database::ReadsFromVariable;
use order_sets::ElementSets;
use std::alloc::{AllocError, Global};

/// The reads-from variables that are not false, and those that are true, as sets of bits by reader and by writer.
#[derive(Drop)]
pub struct Candidates {
    /// For each reader the writers that it may read from.
    pub writers: ElementSets,
    /// For each writer the readers that may read from it.
    pub readers: ElementSets,
    /// For each reader the writers that were chosen. Two of them are a conflict, so there are two only until the search backtracks.
    pub chosen: ElementSets,
    /// For each writer the readers that read from it.
    pub chosen_by: ElementSets,
}

impl Candidates {
    /// Starts without candidates, over this many events.
    pub fn new(alloc: Global, elements: u32) -> Result<Candidates, AllocError> {
        Ok(Candidates {
            writers: ElementSets::new(alloc, elements)?,
            readers: ElementSets::new(alloc, elements)?,
            chosen: ElementSets::new(alloc, elements)?,
            chosen_by: ElementSets::new(alloc, elements)?,
        })
    }

    /// Adds an open candidate.
    pub fn offer(&mut self, choice: ReadsFromVariable) {
        if let Some(writer) = choice.writer {
            self.writers.insert(choice.reader, writer);
            self.readers.insert(writer, choice.reader);
        }
    }

    /// Records that the variable became true or false.
    #[inline(always)]
    pub fn settle(&mut self, choice: ReadsFromVariable, is_made: bool) {
        // The initial value is no element, so it has no bit: its one variable is asked.
        let Some(writer) = choice.writer else {
            return;
        };
        if is_made {
            self.chosen.insert(choice.reader, writer);
            self.chosen_by.insert(writer, choice.reader);
        } else {
            self.writers.take_out(choice.reader, writer);
            self.readers.take_out(writer, choice.reader);
        }
    }

    /// Undoes that, when the search backtracks.
    #[inline(always)]
    pub fn reopen(&mut self, choice: ReadsFromVariable, was_made: bool) {
        let Some(writer) = choice.writer else {
            return;
        };
        if was_made {
            self.chosen.take_out(choice.reader, writer);
            self.chosen_by.take_out(writer, choice.reader);
        } else {
            self.writers.insert(choice.reader, writer);
            self.readers.insert(writer, choice.reader);
        }
    }
}

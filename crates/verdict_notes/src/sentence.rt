//! The words of a note, which is made piece by piece.

use note_text::{GrowingText, Notes, decimal};
use std::alloc::Global;
use trace_semantics::operation::OpName;

/// The words of a note. If memory runs out for them, the notes that are given it take nothing more.
#[derive(Drop)]
pub struct Sentence {
    text: GrowingText,
}

impl Sentence {
    /// No word.
    pub fn new(alloc: Global) -> Sentence {
        Sentence {
            text: GrowingText::new(alloc),
        }
    }

    /// Returns whether it has no word.
    pub fn is_empty(&self) -> bool {
        self.text.as_slice().is_empty()
    }

    /// Adds the sentence to the notes.
    pub fn note(&self, notes: &mut Notes) {
        notes.note_text(&[], &self.text);
    }

    /// Adds these words, and then the sentence, to the notes.
    pub fn note_after(&self, words: &[&[u8]], notes: &mut Notes) {
        notes.note_text(words, &self.text);
    }

    /// Adds these bytes, one after the other.
    pub fn add(&mut self, words: &[&[u8]]) {
        self.text.add(words);
    }

    /// Adds the name of the operation at this place of the process, as `P.1`.
    pub fn add_name(&mut self, process: &[u8], place: u64) {
        self.add(&[process, b".", decimal(place).as_slice()]);
    }

    /// Adds the name of the operation.
    pub fn add_op_name(&mut self, name: &OpName) {
        self.add_name(name.process.as_bytes(), name.place as u64);
    }

    /// Adds the number in decimal.
    pub fn add_value(&mut self, value: u64) {
        self.add(&[decimal(value).as_slice()]);
    }

    /// Adds what an operation reads, as ` reads 0 at x`.
    pub fn add_read(&mut self, value: u64, location: &[u8]) {
        self.add(&[b" reads ", decimal(value).as_slice(), b" at ", location]);
    }

    /// Adds the final value of a location, as `the final value of x is 0`.
    pub fn add_final(&mut self, location: &[u8], value: u64) {
        let number = decimal(value);
        self.add(&[b"the final value of ", location, b" is ", number.as_slice()]);
    }
}

//! Sentences, which are kept apart until all are made.

use note_text::Notes;
use std::alloc::Global;
use verdict_notes::{KeptOp, Sentence};

/// Operations by their numbers, and sentences on them. The sentences are handed on together by `note_all`, or dropped if the derivation turns out
/// to be one that cannot be said.
pub struct Story<'t> {
    alloc: Global,
    ops: Vec<KeptOp<'t>>,
    notes: Notes,
}

/// Drops the tables in one call. A derived `Drop` would drop each at every exit of a function that owns a story, which makes its proof longer.
impl Drop for Story<'_> {
    fn drop(self) {
        let Story {
            alloc: _,
            ops: _ops,
            notes: _notes,
        } = self;
    }
}

/// A phrase of a sentence.
#[derive(Clone, Copy)]
pub enum Phrase<'w> {
    /// These words.
    Words(&'w [u8]),
    /// The name of the operation of this number.
    Name(usize),
    /// The name of the operation of this number, and what it does.
    Whole(usize),
    /// What the operation of this number reads.
    ValueRead(usize),
}

impl<'t> Story<'t> {
    /// No sentence on these operations.
    pub fn new(alloc: Global, ops: Vec<KeptOp<'t>>) -> Story<'t> {
        Story {
            alloc,
            ops,
            notes: Notes::new(alloc),
        }
    }

    /// The operations.
    pub fn ops(&self) -> &[KeptOp<'t>] {
        self.ops.as_slice()
    }

    /// Adds what a phrase says of the operation.
    fn add_op(&self, sentence: &mut Sentence, number: usize, is_whole: bool) {
        let Some(op) = self.ops.get(number) else {
            return;
        };
        sentence.add_name(op.process, op.place);
        if is_whole {
            sentence.add(&[b" "]);
            sentence.add_operation(op.op);
        }
    }

    /// Adds what the operation of this number reads.
    fn add_value_read(&self, sentence: &mut Sentence, number: usize) {
        let Some(op) = self.ops.get(number) else {
            return;
        };
        if let Some(value) = op.op.value_read() {
            sentence.add_value(value);
        }
    }

    /// Adds the phrase to the sentence.
    pub fn add_phrase(&self, sentence: &mut Sentence, phrase: Phrase<'_>) {
        match phrase {
            Phrase::Words(words) => sentence.add(&[words]),
            Phrase::Name(number) => self.add_op(sentence, number, false),
            Phrase::Whole(number) => self.add_op(sentence, number, true),
            Phrase::ValueRead(number) => self.add_value_read(sentence, number),
        }
    }

    /// An empty sentence.
    pub fn begin(&self) -> Sentence {
        Sentence::new(self.alloc)
    }

    /// Adds the sentence.
    pub fn end(&mut self, sentence: &Sentence) {
        sentence.note(&mut self.notes);
    }

    /// Adds the sentence of these phrases.
    pub fn say(&mut self, phrases: &[Phrase<'_>]) {
        let mut sentence = self.begin();
        for phrase in phrases {
            self.add_phrase(&mut sentence, *phrase);
        }
        self.end(&sentence);
    }

    /// Notes all sentences, or none if memory ran out for one.
    pub fn note_all(&self, notes: &mut Notes) {
        notes.add_all(&self.notes);
    }
}

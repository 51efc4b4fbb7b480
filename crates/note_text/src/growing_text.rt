//! A text that is written piece by piece.

use std::alloc::{AllocError, Global};

/// A text as it grows. Once memory runs out it takes nothing more, and only its end says so.
#[derive(Drop)]
pub struct GrowingText {
    bytes: Vec<u8>,
    /// An `Err` once memory ran out. It stays, so that no later words follow a gap.
    outcome: Result<(), AllocError>,
}

/// Appends the words, one after the other.
fn push_words(bytes: &mut Vec<u8>, words: &[&[u8]]) -> Result<(), AllocError> {
    for word in words {
        bytes.extend_from_slice(word)?;
    }
    Ok(())
}

impl GrowingText {
    /// No text.
    pub fn new(alloc: Global) -> GrowingText {
        GrowingText {
            bytes: Vec::new(alloc),
            outcome: Ok(()),
        }
    }

    /// Adds the words, one after the other, as they are.
    pub fn add(&mut self, words: &[&[u8]]) {
        if self.outcome.is_ok() {
            self.outcome = push_words(&mut self.bytes, words);
        }
    }

    /// Adds the other text. If memory ran out for that one, this one is not whole either.
    pub fn add_text(&mut self, other: &GrowingText) {
        match other.outcome {
            Ok(()) => self.add(&[other.as_slice()]),
            Err(failed) => self.outcome = Err(failed),
        }
    }

    /// The bytes that it has taken.
    pub fn as_slice(&self) -> &[u8] {
        self.bytes.as_slice()
    }

    /// Drops what was added after this length, unless the text is whole.
    pub(crate) fn drop_if_cut(&mut self, length: usize) {
        if self.outcome.is_err() {
            self.bytes.truncate(length);
        }
    }

    /// Returns the text, if there was memory for all of it; this takes none.
    pub fn into_whole(self) -> Result<Vec<u8>, AllocError> {
        let GrowingText { bytes, outcome } = self;
        outcome?;
        Ok(bytes)
    }

    /// Returns the bytes that it has taken; this takes no memory.
    pub(crate) fn into_taken(self) -> Vec<u8> {
        self.bytes
    }
}

//! Lines of reasons, each once, since many clauses rest on the same ones.
//!
//! Past the end of a table `at` reads as its last argument, and `put` does nothing; so arithmetic may wrap, and a wrong place makes no fault.

use crate::reason_words::ReasonWord;
use numbered_log::{LocationId, NO_NUMBER, OperationId};
use std::alloc::{AllocError, Global};
use total_tables::{at, piece, put, size};

/// The most words of all lines, at 8 bytes each.
const MOST_WORDS: u32 = 1 << 23;

/// The number of slots of the first hash table, which is a power of two.
const FIRST_SLOTS: u32 = 1 << 10;

/// The lines, one behind the other, and the words of one that is not finished.
#[derive(Drop)]
pub(crate) struct NumberedLines {
    alloc: Global,
    words: Vec<ReasonWord>,
    /// The place at which the first line begins, and for each line the place behind it. Words behind the last of these places are of the line that is not
    /// finished.
    ends: Vec<u32>,
    /// A line for each slot that is taken, else `NO_NUMBER`.
    slots: Vec<u32>,
}

/// A number for the word, to be mixed. Words of one kind begin far from those of another, so that few share a number; which words are equal, `are_equal` says.
fn number_of(word: ReasonWord) -> u32 {
    match word {
        ReasonWord::Letter(letter) => letter as u32,
        ReasonWord::Operation(operation) => operation.number().wrapping_add(1 << 9),
        ReasonWord::Location(location) => location.number().wrapping_add(1 << 29),
    }
}

/// Mixes the words to a number by which a slot is found.
fn mix(words: &[ReasonWord]) -> u32 {
    let mut mixed: u64 = 0;
    for word in words {
        mixed = (mixed ^ (number_of(*word) as u64)).wrapping_mul(0x9e37_79b9_7f4a_7c15);
        mixed ^= mixed >> 29;
    }
    ((mixed >> 20) & 0xffff_ffff) as u32
}

/// Returns whether both are the same words.
fn are_equal(first: &[ReasonWord], second: &[ReasonWord]) -> bool {
    if first.len() != second.len() {
        return false;
    }
    for place in 0..size(first) {
        let nothing = ReasonWord::Letter(0);
        if at(first, place, nothing) != at(second, place, nothing) {
            return false;
        }
    }
    true
}

impl NumberedLines {
    /// No line.
    pub(crate) fn new(alloc: Global) -> Result<NumberedLines, AllocError> {
        Ok(NumberedLines {
            alloc,
            words: Vec::new(alloc),
            ends: vec![in alloc; 0; 1]?,
            slots: vec![in alloc; NO_NUMBER; FIRST_SLOTS as usize]?,
        })
    }

    /// The number of lines.
    pub(crate) fn count(&self) -> u32 {
        size(self.ends.as_slice()).wrapping_sub(1)
    }

    /// Returns whether there is no room for more.
    pub(crate) fn is_full(&self) -> bool {
        size(self.words.as_slice()) > MOST_WORDS
    }

    /// The words of the line of this number, from 0.
    pub(crate) fn line(&self, number: u32) -> &[ReasonWord] {
        let begin = at(self.ends.as_slice(), number, 0);
        let end = at(self.ends.as_slice(), number.wrapping_add(1), 0);
        piece(self.words.as_slice(), begin, end)
    }

    /// Begins a line of this letter. What was written of an unfinished line is dropped.
    pub(crate) fn begin(&mut self, letter: u8) -> Result<(), AllocError> {
        self.drop_unfinished();
        self.letter(letter)
    }

    /// Adds the letter to the line that is not finished: that of the line (`b`, `c`, `l`, `n`, `s`, `t` or `w`), of a member (`l`, `m` or `r`) or of a
    /// piece (`f`, `h`, `i`, `H` or `L`), as docs/REASONS.md has them. No word is refused: `Explanation::finish` asks `is_full` when all reasons of a
    /// conflict have their lines, and derives no step if it is.
    pub(crate) fn letter(&mut self, letter: u8) -> Result<(), AllocError> {
        self.word(ReasonWord::Letter(letter))
    }

    /// Adds the operation to the line that is not finished.
    pub(crate) fn operation(&mut self, operation: OperationId) -> Result<(), AllocError> {
        self.word(ReasonWord::Operation(operation))
    }

    /// Adds the location to the line that is not finished.
    pub(crate) fn location(&mut self, location: LocationId) -> Result<(), AllocError> {
        self.word(ReasonWord::Location(location))
    }

    fn word(&mut self, word: ReasonWord) -> Result<(), AllocError> {
        self.words.push(word)?;
        Ok(())
    }

    /// The place at which the line begins that is not finished.
    fn unfinished(&self) -> u32 {
        at(self.ends.as_slice(), self.count(), 0)
    }

    /// Drops the words of the line that is not finished.
    fn drop_unfinished(&mut self) {
        let begin = self.unfinished() as usize;
        self.words.truncate(begin);
    }

    /// Finishes the line, and returns its number: that of the same line, if there is one.
    pub(crate) fn finish(&mut self) -> Result<u32, AllocError> {
        let begin = self.unfinished();
        let end = size(self.words.as_slice());
        let slot = self.slot_of(piece(self.words.as_slice(), begin, end));
        let found = at(self.slots.as_slice(), slot, NO_NUMBER);
        if found != NO_NUMBER {
            self.drop_unfinished();
            return Ok(found);
        }
        let number = self.count();
        put(self.slots.as_mut_slice(), slot, number);
        self.ends.push(end)?;
        if number > size(self.slots.as_slice()) / 2 {
            self.grow()?;
        }
        Ok(number)
    }

    /// The slot of the line of these words, or the free one in which it would stand. A slot is always free: the table grows when half of it is taken.
    fn slot_of(&self, words: &[ReasonWord]) -> u32 {
        let mask = size(self.slots.as_slice()).wrapping_sub(1);
        let mut slot = mix(words) & mask;
        for _ in 0..mask {
            let number = at(self.slots.as_slice(), slot, NO_NUMBER);
            if number == NO_NUMBER || are_equal(self.line(number), words) {
                break;
            }
            slot = slot.wrapping_add(1) & mask;
        }
        slot
    }

    /// Doubles the hash table.
    fn grow(&mut self) -> Result<(), AllocError> {
        let wider = self.slots.len().saturating_mul(2);
        self.slots = vec![in self.alloc; NO_NUMBER; wider]?;
        for number in 0..self.count() {
            let slot = self.slot_of(self.line(number));
            put(self.slots.as_mut_slice(), slot, number);
        }
        Ok(())
    }
}

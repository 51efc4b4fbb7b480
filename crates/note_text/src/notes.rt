//! Lines for standard error.

use crate::decimal_digits::decimal;
use crate::growing_text::GrowingText;
use crate::line_words::word_start;
use crate::named_text::{NamedText, line_of_text};
use crate::shown::{add_blanks, add_shown_line, shown_front};
use std::alloc::{AllocError, Global};

/// What a note begins with.
const NOTE: &[u8] = b"note: ";

/// Lines for standard error. Once memory runs out for a line they take nothing more, so all that they have are whole lines.
#[derive(Drop)]
pub struct Notes {
    text: GrowingText,
}

/// Adds the line as `note: NAME:NUMBER: LINE`. `add_mark` leaves as many columns free.
fn add_numbered(text: &mut GrowingText, name: &str, number: u64, line: &[u8]) {
    let number = decimal(number);
    text.add(&[NOTE, name.as_bytes(), b":", number.as_slice(), b": "]);
    add_shown_line(text, line);
    text.add(&[b"\n"]);
}

/// Adds a line whose mark stands below what follows `front` in the line of this name and number. It has as many columns as what
/// `add_numbered` puts before the line, so both have to be changed together.
fn add_mark(text: &mut GrowingText, name: &str, number: u64, front: &[u8]) {
    text.add(&[NOTE]);
    add_blanks(text, name.as_bytes());
    add_blanks(text, decimal(number).as_slice());
    add_blanks(text, b":: ");
    // Each byte of the line is shown as one character.
    for _byte in front {
        text.add(&[b" "]);
    }
    text.add(&[b"^\n"]);
}

/// Gives what of the line stands in front of the word at this place, if both are shown.
fn front_of_word(line: &[u8], word: Option<usize>) -> Option<&[u8]> {
    match word_start(line, word?) {
        Some(start) => shown_front(line, start),
        None => None,
    }
}

/// Adds the line of this name and number, and the mark below the word at this place.
fn add_marked(text: &mut GrowingText, name: &str, number: u64, line: &[u8], word: Option<usize>) {
    add_numbered(text, name, number, line);
    if let Some(front) = front_of_word(line, word) {
        add_mark(text, name, number, front);
    }
}

impl Notes {
    /// No line.
    pub fn new(alloc: Global) -> Notes {
        Notes {
            text: GrowingText::new(alloc),
        }
    }

    /// The lines.
    pub fn as_slice(&self) -> &[u8] {
        self.text.as_slice()
    }

    /// Returns the lines for which there was memory; this takes none.
    pub fn into_taken(self) -> Vec<u8> {
        self.text.into_taken()
    }

    /// Returns the lines, if there was memory for all of them; this takes none.
    pub fn into_whole(self) -> Result<Vec<u8>, AllocError> {
        self.text.into_whole()
    }

    /// Adds the words, one after the other, as a line. If memory runs out on the way, what was added of it is dropped again.
    pub fn line(&mut self, words: &[&[u8]]) {
        let kept = self.as_slice().len();
        self.text.add(words);
        self.text.add(&[b"\n"]);
        self.text.drop_if_cut(kept);
    }

    /// Adds the words, one after the other, as a line that begins with `note: `.
    pub fn note(&mut self, words: &[&[u8]]) {
        let kept = self.as_slice().len();
        self.text.add(&[NOTE]);
        self.text.add(words);
        self.text.add(&[b"\n"]);
        self.text.drop_if_cut(kept);
    }

    /// Adds the words, and then the text, as a line that begins with `note: `.
    pub fn note_text(&mut self, words: &[&[u8]], text: &GrowingText) {
        let kept = self.as_slice().len();
        self.text.add(&[NOTE]);
        self.text.add(words);
        self.text.add_text(text);
        self.text.add(&[b"\n"]);
        self.text.drop_if_cut(kept);
    }

    /// Adds the lines of the others, or none of them if memory ran out for those.
    pub fn add_all(&mut self, others: &Notes) {
        let kept = self.as_slice().len();
        self.text.add_text(&others.text);
        self.text.drop_if_cut(kept);
    }

    /// Adds the line of this number, counted from 1, as it stands in the text, with the text's name and the number in front. If
    /// a word is given, by its place counted from 0, a line with a mark below its first byte follows.
    pub fn marked_line(&mut self, text: &NamedText<'_>, number: u64, word: Option<usize>) {
        let Some(bytes) = text.bytes else {
            return self.in_place_of_line(text.name, number, b"the file could not be read again");
        };
        match line_of_text(bytes, number) {
            Some(line) => {
                let kept = self.as_slice().len();
                add_marked(&mut self.text, text.name, number, line, word);
                self.text.drop_if_cut(kept);
            }
            None => self.in_place_of_line(text.name, number, b"the text ends here"),
        }
    }

    /// Adds the name and the number of a line, and words in its place.
    fn in_place_of_line(&mut self, name: &str, number: u64, words: &[u8]) {
        let number = decimal(number);
        self.note(&[name.as_bytes(), b":", number.as_slice(), b": ", words]);
    }
}

//! The text of a picture.

use note_text::{GrowingText, decimal};
use std::alloc::{AllocError, Global};

/// An SVG document as it is written. Once memory runs out it takes nothing more, and only its end says so.
#[derive(Drop)]
pub(crate) struct SvgText {
    text: GrowingText,
}

impl SvgText {
    /// No text.
    pub fn new(alloc: Global) -> SvgText {
        SvgText {
            text: GrowingText::new(alloc),
        }
    }

    /// Returns the text, if there was memory for all of it; this takes none.
    pub fn into_bytes(self) -> Result<Vec<u8>, AllocError> {
        self.text.into_whole()
    }

    /// Adds the words one after the other, as they are.
    pub fn add(&mut self, words: &[&[u8]]) {
        self.text.add(words);
    }

    /// Adds the number.
    pub fn add_number(&mut self, number: u64) {
        self.add(&[decimal(number).as_slice()]);
    }

    /// Adds numbers with a blank in front of each.
    pub fn add_numbers(&mut self, numbers: &[u64]) {
        for number in numbers {
            self.add(&[b" "]);
            self.add_number(*number);
        }
    }

    /// Adds an attribute with a number.
    pub fn attribute(&mut self, name: &[u8], number: u64) {
        self.add(&[b" ", name, b"=\"", decimal(number).as_slice(), b"\""]);
    }

    /// Adds attributes with the numbers of a place.
    pub fn at(&mut self, x: u64, y: u64) {
        self.attribute(b"x", x);
        self.attribute(b"y", y);
    }

    /// Adds what stands for the byte in XML, between tags: quotation marks stay, so it is not for attributes.
    fn add_escaped_byte(&mut self, byte: u8) {
        match byte {
            b'&' => self.add(&[b"&amp;"]),
            b'<' => self.add(&[b"&lt;"]),
            b'>' => self.add(&[b"&gt;"]),
            b' '..=b'~' => self.add(&[&[byte]]),
            _ => self.add(&[b"?"]),
        }
    }

    /// Adds the words, one after the other, as text between tags.
    pub fn escaped(&mut self, words: &[&[u8]]) {
        for word in words {
            for byte in *word {
                self.add_escaped_byte(*byte);
            }
        }
    }

    /// Adds a line of text of this class at this place.
    pub fn line_of_text(&mut self, class: &[u8], x: u64, y: u64, words: &[&[u8]]) {
        self.add(&[b"<text class=\"", class, b"\""]);
        self.at(x, y);
        self.add(&[b">"]);
        self.escaped(words);
        self.add(&[b"</text>\n"]);
    }
}

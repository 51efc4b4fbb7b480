//! Bytes of a text as they are shown.

use crate::growing_text::GrowingText;

/// The most bytes of a line that are shown.
const OF_LINE: usize = 120;

/// The most bytes of a word that are shown.
const OF_WORD: usize = 40;

/// Gives what is shown of a byte: itself if it is printed, a space for a tab, and else `?`.
fn shown_byte(byte: u8) -> u8 {
    match byte {
        b' '..=b'~' => byte,
        b'\t' => b' ',
        _ => b'?',
    }
}

/// Adds one character for each of the first `most` bytes, and ` ..` if there are more. A mark below the line stands by this count.
fn add_shown(text: &mut GrowingText, bytes: &[u8], most: usize) {
    for byte in bytes.get(..most).unwrap_or(bytes) {
        text.add(&[&[shown_byte(*byte)]]);
    }
    if bytes.len() > most {
        text.add(&[b" .."]);
    }
}

/// Adds what is shown of a line. A carriage return at its end is not.
pub(crate) fn add_shown_line(text: &mut GrowingText, line: &[u8]) {
    match line {
        [front @ .., b'\r'] => add_shown(text, front, OF_LINE),
        _ => add_shown(text, line, OF_LINE),
    }
}

/// Adds what is shown of a word, in quotation marks.
pub fn add_quoted(text: &mut GrowingText, word: &[u8]) {
    text.add(&[b"\""]);
    add_shown(text, word, OF_WORD);
    text.add(&[b"\""]);
}

/// Gives what of a line stands in front of this place, if the place is shown.
pub(crate) fn shown_front(line: &[u8], place: usize) -> Option<&[u8]> {
    if place < OF_LINE {
        line.get(..place)
    } else {
        None
    }
}

/// Adds a space for each character of the bytes.
pub(crate) fn add_blanks(text: &mut GrowingText, bytes: &[u8]) {
    for byte in bytes {
        // The other bytes of a character of several are 128 to 191.
        if *byte < 128 || *byte > 191 {
            text.add(&[b" "]);
        }
    }
}

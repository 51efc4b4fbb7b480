//! Whether a word is a value, a place or the name of an operation.

use text_lines::numbers::read_plain;
use trace_semantics::name::is_name_word;
use trace_semantics::place::read_place;

/// Returns whether the word is a value.
pub(crate) fn is_value(word: &[u8]) -> bool {
    read_plain(word, u64::MAX).is_some()
}

/// The place that the word is, or 0 if it is none that any trace has.
pub(crate) fn place_of(word: &[u8]) -> u64 {
    match read_place(word) {
        Some(place) => u64::from(place),
        None => 0,
    }
}

/// Gives what stands before the first dot of the word, and what stands after it. No name has a dot, so the first one is the only one.
pub(crate) fn cut_at_dot(word: &[u8]) -> Option<(&[u8], &[u8])> {
    for at in 0..word.len() {
        if word[at] == b'.' {
            return Some((&word[..at], &word[at + 1..]));
        }
    }
    None
}

/// Returns whether the word names an operation, as `P.1`.
pub(crate) fn is_operation_name(word: &[u8]) -> bool {
    match cut_at_dot(word) {
        Some((process, place)) => is_name_word(process) && place_of(place) > 0,
        None => false,
    }
}

/// Returns whether a byte is among those of the word.
pub(crate) fn has_byte(word: &[u8], wanted: u8) -> bool {
    word.iter().any(|byte| *byte == wanted)
}

/// Returns whether the word is this text, in small or in capital letters. The text has to be in small letters.
pub(crate) fn is_word_in_any_case(word: &[u8], text: &str) -> bool {
    let text = text.as_bytes();
    if word.len() != text.len() {
        return false;
    }
    for at in 0..word.len() {
        if word[at].to_ascii_lowercase() != text[at] {
            return false;
        }
    }
    true
}

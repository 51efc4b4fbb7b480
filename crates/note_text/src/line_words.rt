//! The words of a line by their places, counted from 0.

use text_lines::words::{cut_word, is_blank_byte};

/// The word at this place, or no bytes if the line has fewer words.
pub fn word_at(line: &[u8], place: usize) -> &[u8] {
    let mut rest = line;
    for _ in 0..place {
        match cut_word(rest) {
            Some((_word, after)) => rest = after,
            None => return &[],
        }
    }
    match cut_word(rest) {
        Some((word, _after)) => word,
        None => &[],
    }
}

/// The number of words of the line. Each has a byte or more, so the line's length bounds the turns, and the count does not wrap.
pub fn count_words(line: &[u8]) -> usize {
    let mut rest = line;
    let mut count = 0usize;
    for _ in 0..line.len() {
        match cut_word(rest) {
            Some((_word, after)) => rest = after,
            None => return count,
        }
        count = count.wrapping_add(1);
    }
    count
}

/// The offset in the line, in bytes, at which the word at this place begins. Blank bytes are those at which `cut_word` parts words.
pub fn word_start(line: &[u8], place: usize) -> Option<usize> {
    let mut left = place;
    let mut is_within = false;
    for at in 0..line.len() {
        let is_blank = is_blank_byte(line[at]);
        if !is_blank && !is_within {
            if left == 0 {
                return Some(at);
            }
            left -= 1;
        }
        is_within = !is_blank;
    }
    None
}

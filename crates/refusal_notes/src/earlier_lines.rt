//! Lines of a text that a line has to do with.

use crate::text_kinds::first_kept_line;
use note_text::word_at;
use text_lines::lines::cut_line;
use text_lines::words::is_word;
use trace_text::version::Version;

/// The word of the header that says the version.
fn version_word(bytes: &[u8]) -> &[u8] {
    word_at(first_kept_line(bytes), 1)
}

/// The version that the header says, or else the first one. It is not looked at whether the header is well formed.
pub(crate) fn version_of_header(bytes: &[u8]) -> Version {
    let word = version_word(bytes);
    if is_word(word, "3") {
        Version::Three
    } else if is_word(word, "2") {
        Version::Two
    } else {
        Version::One
    }
}

/// Returns whether the first word of the line is the key, and the second one this word, or any if none is given.
fn begins_with(line: &[u8], key: &[u8], word: Option<&[u8]>) -> bool {
    if word_at(line, 0) != key {
        return false;
    }
    match word {
        Some(word) => word_at(line, 1) == word,
        None => true,
    }
}

/// The number of the first line that begins with this key and this word, or with the key and any word.
pub(crate) fn first_line_with(bytes: &[u8], key: &[u8], word: Option<&[u8]>) -> Option<u64> {
    let mut rest = bytes;
    for number in 1..u64::MAX {
        match cut_line(rest) {
            Some((line, after)) => {
                if begins_with(line, key, word) {
                    return Some(number);
                }
                rest = after;
            }
            None => return None,
        }
    }
    None
}

fn is_operation(line: &[u8]) -> bool {
    let key = word_at(line, 0);
    is_word(key, "R") || is_word(key, "W") || is_word(key, "U")
}

/// The number of operations that the trace has of the process of this name, if it has the process.
pub(crate) fn count_operations(bytes: &[u8], process: &[u8]) -> Option<u64> {
    let mut rest = bytes;
    let mut found = None;
    let mut is_within = false;
    for _ in 0..bytes.len() {
        let Some((line, after)) = cut_line(rest) else {
            return found;
        };
        if begins_with(line, b"proc", None) {
            is_within = word_at(line, 1) == process;
        }
        found = counted(found, is_within, line);
        rest = after;
    }
    found
}

/// The count after a line, which stands within the process or not. The `proc` line itself makes it 0, so a process without operations is found
/// too.
fn counted(found: Option<u64>, is_within: bool, line: &[u8]) -> Option<u64> {
    if !is_within {
        return found;
    }
    let before = found.unwrap_or(0);
    if is_operation(line) {
        Some(before.wrapping_add(1))
    } else {
        Some(before)
    }
}

//! Which word of a line is no name or no number.

use crate::names::{is_value, place_of};
use note_text::{GrowingText, Notes, add_quoted, count_words, word_at};
use std::alloc::Global;
use text_lines::words::is_word;
use trace_semantics::limits::Limits;
use trace_semantics::name::is_name_word;

/// What is wrong with a word.
#[derive(Clone, Copy)]
pub(crate) enum WordFault {
    Name,
    Value,
    Time,
    Place(Limits),
}

/// A word of a line, by its place, and what is wrong with it.
#[derive(Clone, Copy)]
pub(crate) struct BadWord {
    pub word: usize,
    pub fault: WordFault,
}

/// Gives what is said of a word that is wrong so.
fn says_of(fault: WordFault) -> &'static str {
    match fault {
        WordFault::Name =>
            " is no name: a letter or _, then letters, digits and _, at most 32 bytes",
        WordFault::Value => {
            " is no value: decimal, 0 to 18446744073709551615, without a leading zero"
        }
        WordFault::Time => {
            " is no time: decimal, 0 to 18446744073709551615, without a leading zero"
        }
        WordFault::Place(Limits::Small) => {
            " is no place of an operation: decimal, 1 to 65535, without a leading zero"
        }
        WordFault::Place(Limits::Large) => {
            " is no place of an operation: decimal, 1 to 4294967295, without a leading zero"
        }
    }
}

/// Adds why the word is wrong.
pub(crate) fn note_word(alloc: Global, notes: &mut Notes, word: &[u8], fault: WordFault) {
    let mut text = GrowingText::new(alloc);
    add_quoted(&mut text, word);
    text.add(&[says_of(fault).as_bytes()]);
    notes.note_text(&[], &text);
}

/// The number of words of the line without its times, which are its last three: `at` and two numbers. The shortest line with times is one as
/// `W x 1 at 5 6`, of six words.
fn count_without_times(line: &[u8]) -> usize {
    let count = count_words(line);
    if count > 5 && is_word(word_at(line, count - 3), "at") {
        count - 3
    } else {
        count
    }
}

/// The place of the word that names the process of the operation from which the line's value comes, as 4 of `R x 1 from P 1` and 5 of
/// `U x 0 1 from P 1`. The word after it is the place of the operation. After `from init` there is none, so a word more is asked for.
pub(crate) fn source_place(line: &[u8]) -> Option<usize> {
    let key = word_at(line, 0);
    let count = count_without_times(line);
    if is_word(key, "R") && is_word(word_at(line, 3), "from") && count > 5 {
        Some(4)
    } else if is_word(key, "U") && is_word(word_at(line, 4), "from") && count > 6 {
        Some(5)
    } else {
        None
    }
}

/// Returns whether the line is a `before` line, as `before P 1 Q 2`: names at the places 1 and 3, numbers at 2 and 4.
fn is_before(line: &[u8]) -> bool {
    is_word(word_at(line, 0), "before")
}

/// The place of the first word in the place of a name that is none. Word 1 is one in each line that has a name.
fn bad_name_place(line: &[u8]) -> Option<usize> {
    if !is_name_word(word_at(line, 1)) {
        return Some(1);
    }
    if is_before(line) && !is_name_word(word_at(line, 3)) {
        return Some(3);
    }
    match source_place(line) {
        Some(place) if !is_name_word(word_at(line, place)) => Some(place),
        _ => None,
    }
}

/// The first word in the place of a name that is none.
pub(crate) fn bad_name(line: &[u8]) -> Option<BadWord> {
    match bad_name_place(line) {
        Some(word) => Some(BadWord {
            word,
            fault: WordFault::Name,
        }),
        None => None,
    }
}

/// The word at this place, if it should be an operation's place and is none within these limits.
fn bad_place(line: &[u8], limits: Limits, word: usize) -> Option<BadWord> {
    let place = place_of(word_at(line, word));
    if place > 0 && place <= limits.max_place() {
        return None;
    }
    Some(BadWord {
        word,
        fault: WordFault::Place(limits),
    })
}

/// The word at this place, if it should be a value and is none.
fn bad_value(line: &[u8], word: usize) -> Option<BadWord> {
    if is_value(word_at(line, word)) {
        return None;
    }
    Some(BadWord {
        word,
        fault: WordFault::Value,
    })
}

/// The place in the source of the line's value, if it is none. It stands one word behind the process.
fn bad_source_place(line: &[u8], limits: Limits) -> Option<BadWord> {
    match source_place(line) {
        Some(4) => bad_place(line, limits, 5),
        Some(_) => bad_place(line, limits, 6),
        None => None,
    }
}

/// The first of the line's values that is none: word 2, and of an update word 3 too.
fn bad_value_of_line(line: &[u8]) -> Option<BadWord> {
    match bad_value(line, 2) {
        Some(bad) => Some(bad),
        None if is_word(word_at(line, 0), "U") => bad_value(line, 3),
        None => None,
    }
}

/// The first of the line's times that is none. Of a line without times no word is looked at, as both counts are equal.
fn bad_time(line: &[u8]) -> Option<BadWord> {
    for word in count_without_times(line).saturating_add(1)..count_words(line) {
        if !is_value(word_at(line, word)) {
            return Some(BadWord {
                word,
                fault: WordFault::Time,
            });
        }
    }
    None
}

/// The first word in the place of a number that is none, or is a place beyond these limits.
pub(crate) fn bad_number(line: &[u8], limits: Limits) -> Option<BadWord> {
    if is_before(line) {
        return match bad_place(line, limits, 2) {
            Some(bad) => Some(bad),
            None => bad_place(line, limits, 4),
        };
    }
    if let Some(bad) = bad_value_of_line(line) {
        return Some(bad);
    }
    match bad_source_place(line, limits) {
        Some(bad) => Some(bad),
        None => bad_time(line),
    }
}

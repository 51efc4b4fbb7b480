//! What was probably meant by a line that has no form of a trace's.

use crate::names::{has_byte, is_word_in_any_case};
use note_text::{count_words, word_at};
use text_lines::words::is_word;
use trace_text::version::Version;

/// A word of the line, by its place, and what is said of it.
#[derive(Clone, Copy)]
pub(crate) struct Hint {
    pub word: usize,
    pub says: &'static str,
}

/// No line of a trace has as many words: the longest is one as `U x 0 1 from P 1 at 5 6`, of ten. Places are looked at below this.
const MAX_WORDS: usize = 11;

/// The place of the first word after the key that begins a comment.
fn comment_place(line: &[u8]) -> Option<usize> {
    for place in 1..MAX_WORDS {
        let word = word_at(line, place);
        if !word.is_empty() && word[0] == b'#' {
            return Some(place);
        }
    }
    None
}

/// The place of the word `from`. It is looked for behind the first value, as a location may have this name.
fn from_place(line: &[u8]) -> Option<usize> {
    for place in 3..MAX_WORDS {
        if is_word(word_at(line, place), "from") {
            return Some(place);
        }
    }
    None
}

/// The place of the word `at`, unless it names a process behind `from`.
fn at_place(line: &[u8]) -> Option<usize> {
    for place in 3..MAX_WORDS {
        if is_word(word_at(line, place), "at") && !is_word(word_at(line, place - 1), "from") {
            return Some(place);
        }
    }
    None
}

/// The hint on the words from `at` on, if the version has no times or there are not two of them.
fn hint_of_times(line: &[u8], version: Version) -> Option<Hint> {
    let place = at_place(line)?;
    if !version.has_times() {
        return Some(Hint {
            word: place,
            says: "`at` needs the header `vsc 3`",
        });
    }
    if count_words(line) == place.saturating_add(3) {
        return None;
    }
    Some(Hint {
        word: place,
        says: "after `at` stand two times, the start and the end, and no word more, as `W x 1 at 5 6`",
    })
}

/// The hint on a line with the word `from` at this place.
fn hint_of_from(line: &[u8], version: Version, place: usize) -> Hint {
    let key = word_at(line, 0);
    if !version.has_version_2_lines() {
        return Hint {
            word: place,
            says: "`from` needs the header `vsc 2` or `vsc 3`",
        };
    }
    if is_word(key, "W") {
        return Hint {
            word: place,
            says: "a write has no source: `from` stands at R and U",
        };
    }
    if is_word(key, "U") && place == 3 {
        return Hint {
            word: place,
            says: "U takes two values, the one that it reads and the one that it leaves",
        };
    }
    Hint {
        word: place,
        says: "after `from` stands `init`, or a process and a place as two words, as `from P 1`",
    }
}

/// The hint on a line whose key is R, W or U. Times come first, as they stand behind all else and may be the only fault.
fn hint_of_operation(line: &[u8], version: Version) -> Hint {
    if let Some(hint) = hint_of_times(line, version) {
        return hint;
    }
    if let Some(place) = from_place(line) {
        return hint_of_from(line, version, place);
    }
    if is_word(word_at(line, 0), "U") {
        return Hint {
            word: 0,
            says: "U takes a location and two values, the one that it reads and the one that it leaves, as `U x 0 1`",
        };
    }
    Hint {
        word: 0,
        says: "R and W take a location and one value, as `R x 1`",
    }
}

/// The hint on a line whose key is `before`.
fn hint_of_before(version: Version) -> Hint {
    if version.has_version_2_lines() {
        return Hint {
            word: 0,
            says: "`before` takes two operations, each by its process and its place as two words, as `before P 1 Q 1`",
        };
    }
    Hint {
        word: 0,
        says: "`before` needs the header `vsc 2` or `vsc 3`",
    }
}

/// The hint on a line whose key a trace has, if it is one.
fn hint_of_key(line: &[u8], version: Version) -> Option<Hint> {
    let key = word_at(line, 0);
    let says = if is_word(key, "R") || is_word(key, "W") || is_word(key, "U") {
        return Some(hint_of_operation(line, version));
    } else if is_word(key, "before") {
        return Some(hint_of_before(version));
    } else if is_word(key, "init") || is_word(key, "final") {
        "`init` and `final` take one location and one value; each location has a line of its own"
    } else if is_word(key, "proc") {
        "`proc` takes one name"
    } else if is_word(key, "vsc") {
        "the header stands once, above all other lines"
    } else {
        return None;
    };
    Some(Hint { word: 0, says })
}

/// Returns whether the word is a usual name of a read, a write or an update.
fn is_access(key: &[u8]) -> bool {
    is_word_in_any_case(key, "read")
        || is_word_in_any_case(key, "write")
        || is_word_in_any_case(key, "load")
        || is_word_in_any_case(key, "store")
        || is_word_in_any_case(key, "update")
        || is_word_in_any_case(key, "rmw")
        || is_word_in_any_case(key, "cas")
}

/// Returns whether the word is a key of a trace in letters of any case. In small letters it does not come here: `hint_of_key` has a hint then.
fn is_key_in_capitals(key: &[u8]) -> bool {
    is_word_in_any_case(key, "init")
        || is_word_in_any_case(key, "final")
        || is_word_in_any_case(key, "proc")
        || is_word_in_any_case(key, "before")
}

fn is_process(key: &[u8]) -> bool {
    is_word_in_any_case(key, "process") || is_word_in_any_case(key, "thread")
}

fn is_fence(key: &[u8]) -> bool {
    is_word_in_any_case(key, "fence")
        || is_word_in_any_case(key, "mfence")
        || is_word_in_any_case(key, "barrier")
}

/// Gives what is said of a key that no trace has.
fn says_of_other_key(key: &[u8]) -> &'static str {
    if is_word(key, "r") || is_word(key, "w") || is_word(key, "u") {
        "an operation is R, W or U, in capitals"
    } else if is_access(key) {
        "a read is R, a write W, and an operation that reads and writes at one point U"
    } else if is_key_in_capitals(key) {
        "`init`, `final`, `proc` and `before` are in small letters"
    } else if is_process(key) {
        "a process begins with a line of `proc` and its name, as `proc P`"
    } else if is_fence(key) {
        "a trace has no fences: the operations of a process are in order without one"
    } else if has_byte(key, b'=') {
        "an operation, its location and its value are words of their own, as `W x 1`"
    } else {
        "a line is `init A V`, `final A V`, `proc P`, `R A V`, `W A V` or `U A V V`; with `vsc 2` or `vsc 3` also `before P I Q J`"
    }
}

/// Gives what was probably meant by the line.
pub(crate) fn hint_of_line(line: &[u8], version: Version) -> Hint {
    if let Some(word) = comment_place(line) {
        return Hint {
            word,
            says: "a comment stands on a line of its own",
        };
    }
    match hint_of_key(line, version) {
        Some(hint) => hint,
        None => Hint {
            word: 0,
            says: says_of_other_key(word_at(line, 0)),
        },
    }
}

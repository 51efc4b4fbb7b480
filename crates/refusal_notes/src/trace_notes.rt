//! Why a trace was refused.

use crate::earlier_lines::{first_line_with, version_of_header};
use crate::meanings::Explained;
use crate::name_notes::note_missing;
use crate::names::{has_byte, is_word_in_any_case};
use crate::swapped::{bytes_of, note_swapped};
use crate::text_kinds::{TextKind, kind_of};
use crate::unknown_line::hint_of_line;
use crate::word_notes::{BadWord, bad_name, bad_number, note_word};
use note_text::{AskedTexts, NamedText, Notes, count_words, decimal, line_of_text, word_at};
use std::alloc::Global;
use text_lines::words::is_word;
use trace_text::trace_fault::TraceCause;

/// A line of a trace that was refused.
#[derive(Drop)]
struct RefusedLine<'t> {
    text: NamedText<'t>,
    bytes: &'t [u8],
    number: u64,
    line: &'t [u8],
}

/// The line of this number, or no bytes if the text ends above it.
fn refused_line<'t>(text: &NamedText<'t>, number: u64) -> RefusedLine<'t> {
    let bytes = bytes_of(text);
    RefusedLine {
        text: *text,
        bytes,
        number,
        line: line_of_text(bytes, number).unwrap_or(b""),
    }
}

/// The place of the first word with a byte above 127.
fn high_place(line: &[u8]) -> Option<usize> {
    for place in 0..count_words(line) {
        if word_at(line, place).iter().any(|byte| *byte > 127) {
            return Some(place);
        }
    }
    None
}

/// The word of the line that is marked, by its place from 0: the first one, unless the cause is one of a word. `note_cause` finds the same bad
/// word again.
fn marked_word(cause: TraceCause, refused: &RefusedLine<'_>) -> Option<usize> {
    let bad = match cause {
        TraceCause::NotAscii => return high_place(refused.line),
        TraceCause::UnknownLine => {
            return Some(hint_of_line(refused.line, version_of_header(refused.bytes)).word);
        }
        TraceCause::BadName => bad_name(refused.line),
        TraceCause::BadNumber => bad_number(
            refused.line,
            version_of_header(refused.bytes).limits(),
        ),
        _ => return Some(0),
    };
    match bad {
        Some(bad) => Some(bad.word),
        None => None,
    }
}

/// Adds why the bad word of the line is wrong, or what the cause means if none is found.
fn note_bad_word(
    alloc: Global,
    notes: &mut Notes,
    cause: TraceCause,
    line: &[u8],
    bad: Option<BadWord>,
) {
    match bad {
        Some(bad) if !line.is_empty() => {
            note_word(alloc, notes, word_at(line, bad.word), bad.fault)
        }
        _ => notes.note(&[cause.meaning().as_bytes()]),
    }
}

/// Gives what is said of bytes with which no trace begins.
fn says_of_bytes(bytes: &[u8]) -> Option<&'static str> {
    match bytes {
        [239, 187, 191, ..] => {
            Some(
                "the file begins with a byte order mark: save it as plain ASCII or UTF-8 without one",
            )
        }
        [255, 254, ..] | [254, 255, ..] => {
            Some("the file is UTF-16: save it as plain ASCII or UTF-8")
        }
        [31, 139, ..] => {
            Some(
                "the file is packed by gzip: unpack it first; of a log tools/from-log makes a trace",
            )
        }
        [253, b'7', b'z', b'X', b'Z', ..] => {
            Some("the file is packed by xz: unpack it first; of a log tools/from-log makes a trace")
        }
        [40, 181, 47, 253, ..] => {
            Some(
                "the file is packed by zstd: unpack it first; of a log tools/from-log makes a trace",
            )
        }
        _ => None,
    }
}

/// Gives what is said of the line in the place of the header. The order matters: a line of the later forms may have a byte 0 or a carriage
/// return too, which then is the reason.
fn says_of_header(line: &[u8]) -> Option<&'static str> {
    let first = word_at(line, 0);
    if has_byte(line, 0) {
        Some("the file has bytes 0: save it as plain ASCII or UTF-8")
    } else if has_byte(line, b'\r') && has_byte(first, b'v') && count_words(line) > 2 {
        Some("lines end at a line feed: is a carriage return alone between them?")
    } else if is_word_in_any_case(first, "vsc") && !is_word(first, "vsc") {
        Some("the header is in small letters")
    } else if is_word(first, "vsc1") || is_word(first, "vsc2") || is_word(first, "vsc3") {
        Some("a space stands between `vsc` and the number")
    } else if is_word(first, "vsc") {
        Some("there are the versions 1, 2 and 3, and nothing follows the number")
    } else {
        says_of_first_key(first)
    }
}

/// Gives what is said of a key in the place of the header.
fn says_of_first_key(first: &[u8]) -> Option<&'static str> {
    if is_word(first, "proc") || is_word(first, "init") || is_word(first, "final") {
        Some("the header is missing: `vsc 1` stands above this line")
    } else if is_word(first, "before") {
        Some("the header is missing: `vsc 2` stands above this line")
    } else {
        None
    }
}

/// Gives what is said of a text that may be a log.
fn says_of_log(bytes: &[u8]) -> Option<&'static str> {
    match kind_of(bytes) {
        TextKind::Table | TextKind::Json => {
            Some("of a log in CSV or in JSON lines tools/from-log makes a trace: see docs/LOGS.md")
        }
        _ => None,
    }
}

/// Adds the sentence, if there is one.
fn note_if(notes: &mut Notes, says: Option<&'static str>) {
    if let Some(says) = says {
        notes.note(&[says.as_bytes()]);
    }
}

/// Adds where the first line of a key stands.
fn note_first(notes: &mut Notes, whose: &str, key: &[u8], name: &str, number: &[u8]) {
    notes.note(&[
        whose.as_bytes(),
        b" first `",
        key,
        b"` line is at ",
        name.as_bytes(),
        b":",
        number,
    ]);
}

/// Adds the number of the first line of this key, and of the same second word if one is given, if it stands above the refused line.
fn note_earlier(notes: &mut Notes, refused: &RefusedLine<'_>, key: &[u8], word: Option<&[u8]>) {
    let Some(number) = first_line_with(refused.bytes, key, word) else {
        return;
    };
    if number >= refused.number {
        return;
    }
    let whose = if word.is_some() { "its" } else { "the" };
    let number = decimal(number);
    note_first(notes, whose, key, refused.text.name, number.as_slice());
}

/// Adds the line above which the refused one should stand or with which it clashes, if the cause is of that kind.
fn note_related(alloc: Global, notes: &mut Notes, cause: TraceCause, refused: &RefusedLine<'_>) {
    let name = word_at(refused.line, 1);
    match cause {
        TraceCause::InitTwice => note_earlier(notes, refused, b"init", Some(name)),
        TraceCause::FinalTwice => note_earlier(notes, refused, b"final", Some(name)),
        TraceCause::ProcTwice => note_earlier(notes, refused, b"proc", Some(name)),
        TraceCause::LateHeaderLine => note_earlier(notes, refused, b"proc", None),
        TraceCause::NoSuchOp => note_missing(alloc, notes, refused.bytes, refused.line),
        _ => {}
    }
}

/// Adds what the cause means, and what was probably meant.
fn note_cause(
    alloc: Global,
    notes: &mut Notes,
    cause: TraceCause,
    refused: &RefusedLine<'_>,
    texts: &AskedTexts<'_>,
) {
    match cause {
        TraceCause::BadName => {
            return note_bad_word(alloc, notes, cause, refused.line, bad_name(refused.line));
        }
        TraceCause::BadNumber => {
            let bad = bad_number(refused.line, version_of_header(refused.bytes).limits());
            return note_bad_word(alloc, notes, cause, refused.line, bad);
        }
        _ => notes.note(&[cause.meaning().as_bytes()]),
    }
    match cause {
        TraceCause::NotAscii => note_if(notes, says_of_bytes(refused.bytes)),
        TraceCause::Header => {
            note_if(notes, says_of_header(refused.line));
            note_swapped(notes, &refused.text, TextKind::Trace, texts);
            note_if(notes, says_of_log(refused.bytes))
        }
        TraceCause::UnknownLine => {
            let hint = hint_of_line(refused.line, version_of_header(refused.bytes));
            notes.note(&[hint.says.as_bytes()])
        }
        _ => note_related(alloc, notes, cause, refused),
    }
}

/// Adds why the trace was refused at this line.
pub(crate) fn explain_trace(
    alloc: Global,
    notes: &mut Notes,
    cause: TraceCause,
    number: u64,
    texts: &AskedTexts<'_>,
) {
    let Some(text) = texts.trace else {
        return notes.note(&[cause.meaning().as_bytes()]);
    };
    let refused = refused_line(&text, number);
    notes.marked_line(&text, number, marked_word(cause, &refused));
    note_cause(alloc, notes, cause, &refused, texts);
}

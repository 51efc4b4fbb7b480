//! What a text looks like, by its first words.

use crate::names::{has_byte, is_operation_name};
use note_text::{count_words, word_at};
use text_lines::lines::cut_line;
use text_lines::numbers::read_digits;
use text_lines::words::is_word;

/// A kind of text.
#[derive(Clone, Copy, PartialEq, Eq)]
pub(crate) enum TextKind {
    Trace,
    Schedule,
    Formula,
    Model,
    Derivation,
    Certificate,
    Report,
    Json,
    Table,
    Other,
}

impl TextKind {
    /// Gives what a text of this kind is called.
    pub(crate) fn words(self) -> &'static str {
        match self {
            TextKind::Trace => "a trace",
            TextKind::Schedule => "a schedule",
            TextKind::Formula => "a formula (DIMACS)",
            TextKind::Model => "a model of a solver",
            TextKind::Derivation => "a derivation (LRAT)",
            TextKind::Certificate => "a certificate",
            TextKind::Report => "what vsc verify prints",
            TextKind::Json => "JSON",
            TextKind::Table => "a table (CSV)",
            TextKind::Other => "another text",
        }
    }
}

/// Returns whether the line is blank or a comment of any of the texts: `#` begins one of a trace, `c` one of a formula. A
/// longer word with a `c` in front begins one of a formula too, but is not passed over: it may be a name of a schedule.
fn is_passed_over(line: &[u8]) -> bool {
    let first = word_at(line, 0);
    first.is_empty() || first[0] == b'#' || is_word(first, "c")
}

/// The first line that is neither blank nor a comment, or no bytes if there is none.
pub(crate) fn first_kept_line(bytes: &[u8]) -> &[u8] {
    let mut rest = bytes;
    for _ in 0..bytes.len() {
        match cut_line(rest) {
            Some((line, after)) => {
                if !is_passed_over(line) {
                    return line;
                }
                rest = after;
            }
            None => break,
        }
    }
    &[]
}

/// The kind of a text by a first word that stands for it.
fn kind_of_key(first: &[u8]) -> TextKind {
    if is_word(first, "vsc") {
        TextKind::Trace
    } else if is_word(first, "vsc-cert") {
        TextKind::Certificate
    } else if is_word(first, "p") {
        TextKind::Formula
    } else if is_word(first, "s") || is_word(first, "v") || is_word(first, "SAT") {
        TextKind::Model
    } else if is_word(first, "CONSISTENT") || is_word(first, "INCONSISTENT") {
        TextKind::Report
    } else {
        TextKind::Other
    }
}

/// The kind of a text by the form of its first line. JSON goes before a table, as a line of it may have commas too.
fn kind_of_form(line: &[u8]) -> TextKind {
    let first = word_at(line, 0);
    if count_words(line) == 1 && is_operation_name(first) {
        TextKind::Schedule
    } else if count_words(line) > 1 && read_digits(first, u64::MAX).is_some() {
        TextKind::Derivation
    } else if has_byte(first, b'{') || has_byte(first, b'[') {
        TextKind::Json
    } else if has_byte(line, b',') || has_byte(line, b';') || has_byte(line, b'\t') {
        TextKind::Table
    } else {
        TextKind::Other
    }
}

/// The kind of text that the bytes look like.
pub(crate) fn kind_of(bytes: &[u8]) -> TextKind {
    let line = first_kept_line(bytes);
    match kind_of_key(word_at(line, 0)) {
        TextKind::Other => kind_of_form(line),
        kind => kind,
    }
}

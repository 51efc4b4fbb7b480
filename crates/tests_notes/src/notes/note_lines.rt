//! Lines, numbers, words and marks.

use note_text::{
    GrowingText, NamedText, Notes, add_quoted, count_words, decimal, line_of_text, word_at,
    word_start,
};
use std::alloc::Global;

/// What is noted of lines with a tab, a byte above 127 and a carriage return, of one after the last, and of a file that could not be
/// read again.
const MARKED: &str = "\
    a0 18446744073709551615\n\
    note: one\n\
    note: t:2: y  z1\n\
    note:         ^\n\
    note: t:2: y  z1\n\
    note: t:1: x?\n\
    note: é:3: a\n\
    note:      ^\n\
    note: t:4: the text ends here\n\
    note: u:9: the file could not be read again\n";

fn read_again(name: &'static str, bytes: &'static [u8]) -> NamedText<'static> {
    NamedText {
        name,
        bytes: Some(bytes),
        failure: None,
    }
}

/// Adds lines and marks of small texts.
fn add_lines(notes: &mut Notes) {
    notes.line(&[
        b"a",
        decimal(0).as_slice(),
        b" ",
        decimal(u64::MAX).as_slice(),
    ]);
    notes.note(&[b"one"]);
    let text = read_again("t", b"x\x80\r\ny \tz1\n\n");
    notes.marked_line(&text, 2, Some(1));
    notes.marked_line(&text, 2, Some(2));
    notes.marked_line(&text, 1, None);
    notes.marked_line(&read_again("\u{e9}", b"\n\na"), 3, Some(0));
    notes.marked_line(&text, 4, Some(0));
    let unread = NamedText {
        name: "u",
        bytes: None,
        failure: None,
    };
    notes.marked_line(&unread, 9, Some(0));
}

#[test]
fn shows_lines_and_marks_words(rt: HostRuntime) {
    let mut notes = Notes::new(rt.alloc());
    add_lines(&mut notes);
    assert!(rt; notes.as_slice() == MARKED.as_bytes());
}

/// Returns whether the words of a line are found by their places.
fn finds_words(line: &[u8]) -> bool {
    count_words(line) == 2
        && word_at(line, 1) == b"cd".as_slice()
        && word_at(line, 2).is_empty()
        && word_start(line, 1) == Some(5)
}

/// Returns whether lines are found by their numbers.
fn finds_lines(text: &[u8]) -> bool {
    line_of_text(text, 2) == Some(b"b".as_slice())
        && line_of_text(text, 0).is_none()
        && line_of_text(text, 3).is_none()
}

#[test]
fn finds_words_and_lines(rt: HostRuntime) {
    assert!(rt; finds_words(b"  ab\tcd "));
    assert!(rt; finds_lines(b"a\nb\n"));
}

/// Returns whether a word is quoted so.
fn is_quoted(alloc: Global, word: &[u8], wanted: &[u8]) -> bool {
    let mut text = GrowingText::new(alloc);
    add_quoted(&mut text, word);
    text.as_slice() == wanted
}

#[test]
fn quotes_the_first_40_bytes(rt: HostRuntime) {
    let long = [b'a'; 41];
    let shown = b"\"aaaaaaaaaaaaaaaaaaaaaaaaaaaaaaaaaaaaaaaa ..\"";
    assert!(rt; is_quoted(rt.alloc(), b"a\0", b"\"a?\""));
    assert!(rt; is_quoted(rt.alloc(), &long, shown));
}

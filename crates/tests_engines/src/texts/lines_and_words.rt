//! Lines, words, numbers, and faults as they are printed.

use crate::expectations::{ample, expect};
use std::alloc::Global;
use std::process::Abort;
use text_lines::fault::{FaultCause, PlacedFault};
use text_lines::lines::cut_line;
use text_lines::numbers::{SolverNumber, read_digits, read_plain, read_solver_number};
use text_lines::words::{cut_word, first_words, is_blank_byte};

/// A table of one cause.
#[derive(Clone, Copy)]
struct Torn;

impl FaultCause for Torn {
    ghost use Rattle.std.specs.Prelude.{codes};

    ghost number_of = { λ _. 7 };

    ghost name_of = { λ _. codes "Torn" };

    fn number(&self) -> u8 {
        7
    }

    fn name(&self) -> &'static str {
        "Torn"
    }
}

/// Gives what stands after the first line or word of a text that was cut behind it. It has to be this one.
fn behind<'a>(rt: &impl Abort, cut: Option<(&'a [u8], &'a [u8])>, wanted: &[u8]) -> &'a [u8] {
    match cut {
        Some((first, after)) => {
            expect(rt, first == wanted, wanted.len());
            after
        }
        None => panic!(rt; "a line or a word is missing"),
    }
}

#[test]
fn cuts_lines(rt: HostRuntime) {
    let rest = behind(&rt, cut_line(b"vsc 1\r\n\n \nproc P"), b"vsc 1\r");
    let rest = behind(&rt, cut_line(rest), b"");
    let rest = behind(&rt, cut_line(rest), b" ");
    let rest = behind(&rt, cut_line(rest), b"proc P");
    assert!(rt; cut_line(rest).is_none());
}

/// A line of three words.
const LINE: &[u8] = b"\tW  x\t1\r";

/// Asserts that these are the words of the line that are read at once.
fn assert_first(rt: &impl Abort, line: &[u8], words: &[&[u8]]) {
    let found = first_words(line);
    expect(rt, found.as_slice() == words, words.len());
}

#[test]
fn cuts_words(rt: HostRuntime) {
    let rest = behind(&rt, cut_word(LINE), b"W");
    let rest = behind(&rt, cut_word(rest), b"x");
    let rest = behind(&rt, cut_word(rest), b"1");
    assert!(rt; cut_word(rest).is_none());
    assert_first(&rt, b" ", &[]);
    assert_first(&rt, LINE, &[b"W", b"x", b"1"]);
    assert_first(
        &rt,
        b"a b c d e f g h i j k l",
        &[
            b"a", b"b", b"c", b"d", b"e", b"f", b"g", b"h", b"i", b"j", b"k",
        ],
    );
    assert!(rt; is_blank_byte(b'\r') && !is_blank_byte(b'\n') && !is_blank_byte(11));
}

/// A word, the number up to 65,535 that it spells as plain digits, and with leading zeros.
type Number = (&'static [u8], Option<u64>, Option<u64>);

const NUMBERS: [Number; 8] = [
    (b"0", Some(0), Some(0)),
    (b"007", None, Some(7)),
    (b"65535", Some(65535), Some(65535)),
    (b"65536", None, None),
    (b"18446744073709551616", None, None),
    (b"", None, None),
    (b"-1", None, None),
    (b"1x", None, None),
];

/// Returns whether the word is read as these numbers.
fn is_number(word: &[u8], plain: Option<u64>, digits: Option<u64>) -> bool {
    read_plain(word, 65535) == plain && read_digits(word, 65535) == digits
}

#[test]
fn reads_numbers(rt: HostRuntime) {
    for (word, plain, digits) in &NUMBERS {
        expect(&rt, is_number(word, *plain, *digits), word.len());
    }
}

/// A word that is a number as solvers write it: whether it is negative, and how large, if that is not too much.
type TextCase = (&'static [u8], bool, Option<u64>);

const WRITTEN: [TextCase; 4] = [
    (b"00", false, Some(0)),
    (b"-012", true, Some(12)),
    (b"18446744073709551615", false, Some(18446744073709551615)),
    (b"-18446744073709551616", true, None),
];

/// Words that are no such numbers.
const UNWRITTEN: [&[u8]; 4] = [b"-00", b"+1", b"-", b"1-"];

/// Returns whether the word is read as this number.
fn is_solver_number(word: &[u8], is_negative: bool, magnitude: Option<u64>) -> bool {
    let number = SolverNumber {
        is_negative,
        magnitude,
    };
    read_solver_number(word) == Some(number)
}

#[test]
fn reads_numbers_as_solvers_write_them(rt: HostRuntime) {
    for (word, is_negative, magnitude) in &WRITTEN {
        let is_right = is_solver_number(word, *is_negative, *magnitude);
        expect(&rt, is_right, word.len());
    }
    for word in &UNWRITTEN {
        expect(&rt, read_solver_number(word).is_none(), word.len());
    }
}

/// Asserts what is reported of a fault.
fn assert_told(
    rt: &impl Abort,
    alloc: Global,
    fault: &PlacedFault<Torn>,
    place: Option<usize>,
    text: &str,
) {
    let told = ample(rt, fault.to_string(alloc));
    expect(rt, told.as_str() == text, text.len());
    expect(rt, fault.place() == place, text.len());
}

#[test]
fn prints_faults(rt: HostRuntime) {
    assert_told(
        &rt,
        rt.alloc(),
        &PlacedFault::OutOfMemory,
        None,
        "1 OutOfMemory",
    );
    let torn = PlacedFault::At(Torn, 20);
    assert_told(&rt, rt.alloc(), &torn, Some(20), "7 Torn at 20");
}

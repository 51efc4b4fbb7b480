//! The lines of a formula's text that say something.

ghost use Rattle.std.specs.Prelude.{◌≡◌, ◌<◌, ◌≤◌, ◌+◌, ◌^◌, ◌==◌, [], ◌∷◌, length, slice_index, MatchResult};
ghost use Rattle.text_lines.specs.Lines.{lines_of};
ghost use Rattle.text_lines.specs.Words.{words_of};
ghost use Rattle.cnf_text.specs.CnfLines.{is_end, said_from, end_from};

use text_lines::comments::is_dimacs_skipped_line;
use text_lines::lines::cut_line;
use text_lines::words::cut_word;

/// A line that says something, and what follows it.
#[derive(Clone, Copy)]
pub(crate) struct ContentLine<'a> {
    /// Its bytes.
    pub line: &'a [u8],
    /// Its number. Lines are counted from 1, with those that are skipped.
    pub number: usize,
    /// The text after it.
    pub rest: &'a [u8],
}

/// Returns whether the word begins with that byte.
fn begins_with_byte(word: &[u8], byte: u8) -> bool
    requires { 0 < byte }
    ensures { result ≡ (slice_index word.now 0 == byte) }
{
    !word.is_empty() && word[0] == byte
}

/// Returns whether the text ends at the line. Without such an end, a file that closes with a line `%` and a line `0` would be refused for words
/// after all its clauses.
fn is_end_line(line: &[u8]) -> bool
    ensures { result ≡ is_end line.now }
{
    match cut_word(line) {
        Some((word, _)) => begins_with_byte(word, b'%'),
        None => false,
    }
}

/// The next line of the text that says something, if its first line has this number; or the number of the line at which it ends: the one that
/// begins with `%`, or the one after the last.
pub(crate) fn next_said(text: &[u8], first: usize) -> Result<ContentLine<'_>, usize>
    requires { first + length text.now < 2 ^ 64 }
    ensures { MatchResult result
        (λ said. (said_from first (lines_of text.now) ≡ (said.number, words_of said.line.now) ∷ said_from (said.number + 1) (lines_of said.rest.now))
        × (end_from first (lines_of text.now) ≡ end_from (said.number + 1) (lines_of said.rest.now))
        × (length said.rest.now < length text.now) × (said.number + 1 + length said.rest.now ≤ first + length text.now))
        (λ end. (said_from first (lines_of text.now) ≡ []) × (end_from first (lines_of text.now) ≡ end)) }
{
    let mut number = first;
    let mut rest = text;
    while let Some((line, after)) = cut_line(rest) {
        if is_end_line(line) {
            return Err(number);
        }
        if !is_dimacs_skipped_line(line) {
            return Ok(ContentLine {
                line,
                number,
                rest: after,
            });
        }
        number += 1;
        rest = after;
    }
    Err(number)
}

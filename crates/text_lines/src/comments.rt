//! Lines that say nothing: those without words, and comments.

ghost use Rattle.std.specs.Prelude.{◌≡◌, ◌==◌, map, slice_index};
ghost use Rattle.text_lines.specs.Kept.{is_skipped, is_dimacs_skipped};
ghost use Rattle.text_lines.specs.Words.{words_of};

use crate::words::cut_word;

/// Returns whether the line of these words is skipped: it has no words, or is a comment.
pub fn is_skipped_line(words: &[&[u8]]) -> bool
    ensures { result ≡ is_skipped (map (λ word. word.now) words.now) }
{
    words.is_empty() || begins_comment(words[0])
}

/// Returns whether the first word of a line begins a comment.
pub fn begins_comment(word: &[u8]) -> bool
    ensures { result ≡ (slice_index word.now 0 == 35) }
{
    !word.is_empty() && word[0] == b'#'
}

/// Returns whether the first word of a line begins a comment of DIMACS or LRAT (CADE 2017).
pub fn begins_dimacs_comment(word: &[u8]) -> bool
    ensures { result ≡ (slice_index word.now 0 == 99) }
{
    !word.is_empty() && word[0] == b'c'
}

/// Returns whether the line is skipped in texts of DIMACS or LRAT: it has no words, or is a comment. The callers have no words of it yet, and it may have
/// any number of them, so the first alone is cut off.
pub fn is_dimacs_skipped_line(line: &[u8]) -> bool
    ensures { result ≡ is_dimacs_skipped (words_of line.now) }
{
    match cut_word(line) {
        None => true,
        Some((word, _)) => begins_dimacs_comment(word),
    }
}
